//! Fields that tell where a jump leads.
ghost use Rattle.std.specs.Prelude.{◌≡◌, option_map};
ghost use Rattle.std.specs.Str.{bytes_eq};
ghost use Rattle.line_fields.specs.Forms.{name_in, entry_in, call_in, back_seen, back_in, handed_seen};
ghost use Rattle.line_fields.specs.Forms.{handed_in};

use crate::entry::{CallPlace, EntryName};
use crate::marks::{behind, cut};
use crate::number::natural_in;
use cap_words::is_name;

/// What a return would do.
#[derive(Drop)]
pub enum WayBack<'a> {
    /// It leaves trusted code.
    Out,
    /// It fails.
    Bad,
    /// It enters a procedure.
    Hop(EntryName<'a>),
    /// It answers a call.
    Pair(CallPlace<'a>),
}

/// What two argument registers are as a closure pair.
#[derive(Drop)]
pub enum Handed<'a> {
    /// They are none.
    Nothing,
    /// A call of it fails.
    Bad,
    /// A call of it leaves trusted code.
    Out,
    /// A call of it enters a procedure.
    Hop(EntryName<'a>),
}

/// Whether the text is this one.
pub fn is_text(name: &str, text: &[u8]) -> bool
    ensures { result ≡ bytes_eq name.now text.now }
{
    name.as_bytes() == text
}

// The text, where it is a name.
fn name_in(text: &[u8]) -> Option<&[u8]>
    ensures { option_map (λ t. t.now) result ≡ name_in text.now }
{
    if is_name(text) { Some(text) } else { None }
}

// `PART:EXPORT`
#[tactic(auto, unfolding(crate::specs::Forms::entry_in))]
fn entry_in(text: &[u8]) -> Option<EntryName<'_>>
    ensures { result ≡ entry_in text.now }
{
    let (part, name) = cut(text, b':')?;
    let part = name_in(part)?;
    let name = name_in(name)?;
    Some(EntryName { part, name })
}

// `PART:SITE:BASE`
#[tactic(auto, unfolding(crate::specs::Forms::call_in))]
fn call_in(text: &[u8]) -> Option<CallPlace<'_>>
    ensures { result ≡ call_in text.now }
{
    let (part, place) = cut(text, b':')?;
    let part = name_in(part)?;
    let (site, base) = cut(place, b':')?;
    let site = natural_in(site)?;
    let base = natural_in(base)?;
    Some(CallPlace { part, site, base })
}

/// What a return would do: `out`, `bad`, `hop:PART:EXPORT` or `pair:PART:SITE:BASE`. `None` exactly where the
/// text is none of these.
#[tactic(auto, unfolding(crate::specs::Forms::back_in))]
pub fn back_in(text: &[u8]) -> Option<WayBack<'_>>
    ensures { option_map back_seen result ≡ back_in text.now }
{
    if is_text("out", text) {
        return Some(WayBack::Out);
    }
    if is_text("bad", text) {
        return Some(WayBack::Bad);
    }
    if let Some(entry) = behind(b"hop:", text) {
        return entry_in(entry).map(WayBack::Hop);
    }
    let call = behind(b"pair:", text)?;
    call_in(call).map(WayBack::Pair)
}

/// What two argument registers are as a closure pair: `none`, `bad`, `out` or `hop:PART:EXPORT`. `None`
/// exactly where the text is none of these.
#[tactic(auto, unfolding(crate::specs::Forms::handed_in))]
pub fn handed_in(text: &[u8]) -> Option<Handed<'_>>
    ensures { option_map handed_seen result ≡ handed_in text.now }
{
    if is_text("none", text) {
        return Some(Handed::Nothing);
    }
    if is_text("bad", text) {
        return Some(Handed::Bad);
    }
    if is_text("out", text) {
        return Some(Handed::Out);
    }
    let entry = behind(b"hop:", text)?;
    entry_in(entry).map(Handed::Hop)
}
