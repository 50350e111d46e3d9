//! A feed, read from a text.
ghost use Rattle.std.specs.Prelude.{◌≡◌, ◌⊎◌, Ok, Err, IfOk, IfErr};
ghost use Rattle.line_fields.specs.declared.fault.FeedFault.TheVariants.{NoMemory};
ghost use Rattle.line_fields.specs.Feed.{fed};

use crate::Parts;
use crate::fault::FeedFault;
use crate::item::push_item;
use crate::line::seen;
use source_events::Item;
use std::alloc::Global;

/// The items of a feed, where stacks begin at `base`; else the number of the first line that breaks the form
/// that it must have, counted from 1, or that memory was refused.
///
/// Newlines part the lines. Those that begin with `enter ` or `ret out ` have the form of what a run writes,
/// but that any bytes do for a word, and a line that begins with `pass ` has it right after an `enter `
/// line. All others are passed over. docs/FORMATS.md has the forms.
#[tactic(auto, unfolding(crate::specs::Feed::fed))]
pub fn read_feed(alloc: Global, base: u32, text: &[u8]) -> Result<Vec<Item>, FeedFault>
    ensures told { IfOk result (λ v. fed base text.now ≡ Ok v.items) }
    ensures fails { IfErr result (λ e. (e ≡ NoMemory) ⊎ (fed base text.now ≡ Err e)) }
{
    let mut lines = Parts::of_text(text);
    let mut items = Vec::new(alloc);
    let mut number: u64 = 1;
    let mut entry = false;
    while let Some(line) = lines.part() {
        let Some(found) = seen(entry, line) else {
            return Err(FeedFault::Line(number));
        };
        push_item(&mut items, alloc, base, &found, &lines)?;
        entry = found.is_enter();
        number += 1;
    }
    Ok(items)
}
