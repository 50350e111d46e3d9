//! The fields of a component file, each read from the front of bytes.
ghost use Rattle.std.specs.Prelude.{◌≡◌, ◌≤◌, IfOk};
ghost use Rattle.readers.specs.Answers.{Gives, GivesAs};
ghost use Rattle.component_file.specs.Reading.{next_text, next_name, next_address, next_offset};
ghost use Rattle.component_file.specs.Reading.{next_stretch, next_flag, next_optional, next_kind};

use crate::LAST_OFFSET;
use crate::component::Kind;
use cap_words::{Cursor, FieldFault, LAST_PLACE, LONGEST_STRETCH, is_name};

// A byte of length, and the bytes.
#[tactic(auto, unfolding(crate::specs::Reading::next_text))]
fn text<'a>(bytes: &mut Cursor<'a>) -> Result<&'a [u8], FieldFault>
    ensures { GivesAs (λ t. t.now) result bytes.new (next_text bytes.old) }
{
    let at = bytes.at();
    let Ok(len) = bytes.byte() else {
        return Err(FieldFault::Short(at));
    };
    let Ok(text) = bytes.bytes(usize::from(len)) else {
        return Err(FieldFault::Short(at));
    };
    Ok(text)
}

#[tactic(auto, unfolding(cap_words::specs::Reading::meant))]
pub(crate) fn name<'a>(bytes: &mut Cursor<'a>) -> Result<&'a [u8], FieldFault>
    ensures { GivesAs (λ t. t.now) result bytes.new (next_name bytes.old) }
{
    let at = bytes.at();
    let text = text(bytes)?;
    if is_name(text) {
        Ok(text)
    } else {
        Err(FieldFault::BadField(at))
    }
}

// An address or a seal.
pub(crate) fn address(bytes: &mut Cursor<'_>) -> Result<u32, FieldFault>
    ensures { Gives result bytes.new (next_address bytes.old) }
{
    bytes.u32_within(0, LAST_PLACE)
}

// An offset in code or data.
pub(crate) fn offset(bytes: &mut Cursor<'_>) -> Result<u32, FieldFault>
    ensures { Gives result bytes.new (next_offset bytes.old) }
{
    bytes.u32_within(0, LAST_OFFSET)
}

// A count, and then a base, which is 0 where nothing is counted. It gives the base and the count.
#[tactic(auto, unfolding(crate::specs::Reading::next_stretch))]
pub(crate) fn stretch(bytes: &mut Cursor<'_>) -> Result<(u32, u32), FieldFault>
    ensures exact { GivesAs (λ s. record { base = s.0; count = s.1 }) result bytes.new
        (next_stretch bytes.old) }
    ensures within { IfOk result (λ s. (s.0 ≤ LAST_PLACE) × (s.1 ≤ LONGEST_STRETCH)) }
{
    let count = bytes.u32_within(0, LONGEST_STRETCH)?;
    let last = if count == 0 { 0 } else { LAST_PLACE };
    let base = bytes.u32_within(0, last)?;
    Ok((base, count))
}

#[tactic(auto, unfolding(cap_words::specs::Reading::meant))]
pub(crate) fn flag(bytes: &mut Cursor<'_>) -> Result<bool, FieldFault>
    ensures { Gives result bytes.new (next_flag bytes.old) }
{
    let at = bytes.at();
    match bytes.byte()? {
        0 => Ok(false),
        1 => Ok(true),
        _ => Err(FieldFault::BadField(at)),
    }
}

// An offset that may be missing.
#[tactic(auto, unfolding(crate::specs::Reading::next_optional))]
pub(crate) fn optional(bytes: &mut Cursor<'_>) -> Result<Option<u32>, FieldFault>
    ensures { Gives result bytes.new (next_optional bytes.old) }
{
    if flag(bytes)? {
        Ok(Some(offset(bytes)?))
    } else {
        Ok(None)
    }
}

#[tactic(auto, unfolding(crate::specs::Reading::next_kind))]
pub(crate) fn kind(bytes: &mut Cursor<'_>) -> Result<Kind, FieldFault>
    ensures { Gives result bytes.new (next_kind bytes.old) }
{
    let at = bytes.at();
    match bytes.byte()? {
        0 => Ok(Kind::Any),
        1 => Ok(Kind::Int),
        2 => Ok(Kind::DataCap),
        3 => Ok(Kind::Stk),
        4 => Ok(Kind::Pc(offset(bytes)?)),
        5 => Ok(Kind::Top),
        _ => Err(FieldFault::BadField(at)),
    }
}
