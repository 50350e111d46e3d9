//! The order of items.
ghost use Rattle.std.specs.Prelude.{◌≡◌, ◌≤◌};
ghost use Rattle.assembler.specs.Order.{rank, rank_of, repeats, furthest, may_follow, reaches_data};
ghost use Rattle.assembler.specs.Order.{section_of};
ghost use Rattle.asm_fields.specs.declared.directives.ItemKind.TheVariants.{Row};

use crate::labels::Section;
use asm_fields::ItemKind;

fn rank(item: ItemKind) -> u32
    ensures value { result ≡ rank item }
    ensures below { result ≤ rank Row }
{
    match item {
        ItemKind::Name => 1,
        ItemKind::Stack => 2,
        ItemKind::Closure => 3,
        ItemKind::Movable => 4,
        ItemKind::Seals => 5,
        ItemKind::Linear => 6,
        ItemKind::Code => 7,
        ItemKind::Data => 8,
        ItemKind::Import => 9,
        ItemKind::Export => 10,
        ItemKind::Site => 11,
        ItemKind::Fail => 12,
        ItemKind::Literal => 13,
        ItemKind::Row => 14,
    }
}

// Whether the item may stand more than once.
fn repeats(item: ItemKind) -> bool
    ensures { result ≡ repeats item }
{
    matches!(
        item,
        ItemKind::Import | ItemKind::Export | ItemKind::Site | ItemKind::Row
    )
}

fn rank_of(last: Option<ItemKind>) -> u32
    ensures value { result ≡ rank_of last }
    ensures below { result ≤ rank Row }
{
    match last {
        Some(item) => rank(item),
        None => 0,
    }
}

// The rank of the furthest item that may stand next: no item that is needed is left out.
fn furthest(reached: u32) -> u32
    ensures { result ≡ furthest reached }
{
    let code = rank(ItemKind::Code);
    if reached < rank(ItemKind::Closure) {
        reached + 1
    } else if reached < code {
        code
    } else if reached == code {
        rank(ItemKind::Data)
    } else {
        rank(ItemKind::Row)
    }
}

/// Whether the item may stand next where those that came end with the last one.
pub(crate) fn may_follow(last: Option<ItemKind>, item: ItemKind) -> bool
    ensures { result ≡ may_follow last item }
{
    let (before, rank) = (rank_of(last), rank(item));
    (before < rank || (rank == before && repeats(item))) && rank <= furthest(before)
}

/// Whether the items that came go up to the data at least.
pub(crate) fn reaches_data(last: Option<ItemKind>) -> bool
    ensures { result ≡ reaches_data last }
{
    rank(ItemKind::Data) <= rank_of(last)
}

/// The section in which the words after an item stand.
pub(crate) fn section_of(last: Option<ItemKind>) -> Option<Section>
    ensures { result ≡ section_of last }
{
    match last {
        Some(ItemKind::Code) => Some(Section::Code),
        Some(ItemKind::Data) => Some(Section::Data),
        _ => None,
    }
}
