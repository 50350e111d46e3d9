//! What stands in the lists of a component file: each kind of item, as it is read.
ghost use Rattle.std.specs.Prelude.{◌≡◌, Option, None, option_map, IfOk};
ghost use Rattle.std.specs.Option.{option_copied};
ghost use Rattle.readers.specs.Readers.{Reader};
ghost use Rattle.cap_words.specs.Reading.{Input};
ghost use Rattle.component_file.specs.declared.fault.FileFault.{FileFault};
ghost use Rattle.component_file.specs.Fault.{is_refusal};
ghost use Rattle.readers.specs.Answers.{GivesUnlessRefused};
ghost use Rattle.component_file.specs.Limits.{ascends, name_lt};
ghost use Rattle.component_file.specs.Reading.{field, next_name, next_part_word, next_import, next_export};
ghost use Rattle.component_file.specs.Reading.{next_site, next_row, next_kind, next_items, next_list};

use crate::component::{Export, Import, Kind, KindRow};
use crate::fault::FileFault;
use crate::fields;
use cap_words::{Cursor, Items, Word};
use std::alloc::{AllocError, Global};

// An item of a list. Some lists have an order, so an item is told the one before it.
pub(crate) trait Listed: Drop {
    // reading an item after another, or the first
    ghost next_item: { Option Self → Reader Input FileFault Self };

    // The next item, after the one before it.
    fn read(alloc: Global, before: Option<&Self>, bytes: &mut Cursor<'_>) -> Result<Self, FileFault>
        ensures { GivesUnlessRefused is_refusal result bytes.new
            (next_item (option_copied before.entry) bytes.old) };
}

// A text, in memory of its own.
pub(crate) fn owned(alloc: Global, text: &[u8]) -> Result<Items<u8>, AllocError>
    ensures { IfOk result (λ t. t ≡ text.now) }
{
    Ok(Items::of(Vec::from_slice(alloc, text)?))
}

impl Listed for Word {
    ghost next_item = { next_part_word };

    #[tactic(auto, unfolding(crate::specs::Reading::next_part_word, readers::specs::Readers::telling))]
    fn read(
        _alloc: Global,
        _before: Option<&Word>,
        bytes: &mut Cursor<'_>,
    ) -> Result<Word, FileFault> {
        Ok(bytes.unsealed_word()?)
    }
}

impl Listed for Import {
    ghost next_item = { next_import };

    #[tactic(auto, unfolding(crate::specs::Reading::next_import, readers::specs::Readers::telling))]
    fn read(
        alloc: Global,
        before: Option<&Import>,
        bytes: &mut Cursor<'_>,
    ) -> Result<Import, FileFault> {
        let at = bytes.at();
        let part = fields::name(bytes)?;
        let name = fields::name(bytes)?;
        let slot = fields::offset(bytes)?;
        if before.is_some_and(|b| slot <= b.slot) {
            return Err(FileFault::Order(at));
        }
        let part = owned(alloc, part)?;
        let name = owned(alloc, name)?;
        Ok(Import { part, name, slot })
    }
}

fn name_lt(a: &[u8], b: &[u8]) -> bool
    ensures { result ≡ name_lt a.now b.now }
{
    a.cmp(b).is_lt()
}

// Whether an export of this name may stand after the one before it.
fn rises(before: Option<&Export>, name: &[u8]) -> bool
    ensures { result ≡ ascends name_lt (option_map (λ b. b.name) (option_copied before.entry)) name.now }
{
    match before {
        Some(export) => name_lt(export.name.as_slice(), name),
        None => true,
    }
}

impl Listed for Export {
    ghost next_item = { next_export };

    #[tactic(auto, unfolding(crate::specs::Reading::next_export, readers::specs::Readers::telling))]
    fn read(
        alloc: Global,
        before: Option<&Export>,
        bytes: &mut Cursor<'_>,
    ) -> Result<Export, FileFault> {
        let at = bytes.at();
        let name = fields::name(bytes)?;
        if !rises(before, name) {
            return Err(FileFault::Order(at));
        }
        let offset = fields::offset(bytes)?;
        let shared = fields::flag(bytes)?;
        let name = owned(alloc, name)?;
        Ok(Export {
            name,
            offset,
            shared,
        })
    }
}

// The offset of a site.
impl Listed for u32 {
    ghost next_item = { next_site };

    #[tactic(auto, unfolding(crate::specs::Reading::next_site, readers::specs::Readers::telling))]
    fn read(
        _alloc: Global,
        before: Option<&u32>,
        bytes: &mut Cursor<'_>,
    ) -> Result<u32, FileFault> {
        let at = bytes.at();
        let site = fields::offset(bytes)?;
        if before.is_some_and(|b| site <= *b) {
            return Err(FileFault::Order(at));
        }
        Ok(site)
    }
}

// The kinds of the registers 1 to 15.
fn kinds(bytes: &mut Cursor<'_>) -> Result<[Kind; 15], FileFault>
    ensures { GivesUnlessRefused is_refusal result bytes.new
        (next_items (λ _. field next_kind) 15 None bytes.old) }
{
    let mut kinds = [Kind::Any; 15];
    for kind in &mut kinds {
        *kind = fields::kind(bytes)?;
    }
    Ok(kinds)
}

impl Listed for KindRow {
    ghost next_item = { next_row };

    #[tactic(auto, unfolding(crate::specs::Reading::next_row, readers::specs::Readers::telling))]
    fn read(
        _alloc: Global,
        before: Option<&KindRow>,
        bytes: &mut Cursor<'_>,
    ) -> Result<KindRow, FileFault> {
        let at = bytes.at();
        let offset = fields::offset(bytes)?;
        if before.is_some_and(|b| offset <= b.offset) {
            return Err(FileFault::Order(at));
        }
        let kinds = kinds(bytes)?;
        Ok(KindRow { offset, kinds })
    }
}

// So many items, one after another.
fn items<T: Listed>(
    alloc: Global,
    count: u32,
    bytes: &mut Cursor<'_>,
) -> Result<Items<T>, FileFault>
    ensures { GivesUnlessRefused is_refusal result bytes.new (next_items T.next_item count None bytes.old) }
{
    let mut items = Vec::new(alloc);
    for _ in 0..count {
        let item = T::read(alloc, items.last(), bytes)?;
        items.push(item)?;
    }
    Ok(Items::of(items))
}

// A list with a count of 16 bits, which is at most `most`.
#[tactic(auto, unfolding(crate::specs::Reading::next_list, readers::specs::Readers::telling, cap_words::specs::Reading::meant))]
pub(crate) fn short_list<T: Listed>(
    alloc: Global,
    most: u16,
    bytes: &mut Cursor<'_>,
) -> Result<Items<T>, FileFault>
    ensures { GivesUnlessRefused is_refusal result bytes.new (next_list 2 0 most T.next_item bytes.old) }
{
    let at = bytes.at();
    let count = bytes.u16()?;
    if most < count {
        return Err(FileFault::BadField(at));
    }
    items(alloc, u32::from(count), bytes)
}

// A list with a count of 32 bits, which is from `least` to `most`.
#[tactic(auto, unfolding(crate::specs::Reading::next_list, readers::specs::Readers::telling))]
pub(crate) fn long_list<T: Listed>(
    alloc: Global,
    least: u32,
    most: u32,
    bytes: &mut Cursor<'_>,
) -> Result<Items<T>, FileFault>
    ensures { GivesUnlessRefused is_refusal result bytes.new (next_list 4 least most T.next_item bytes.old) }
{
    let count = bytes.u32_within(least, most)?;
    items(alloc, count, bytes)
}
