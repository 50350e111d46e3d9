//! The items of lines.
ghost use Rattle.std.specs.Prelude.{◌≡◌, [], ◌∷◌, ◌++◌, IfOk, OnOk};
ghost use Rattle.source_events.specs.Forms.{no_pairs};
ghost use Rattle.source_events.specs.Left.{left_by};
ghost use Rattle.line_fields.specs.Forms.{back_seen, handed_seen};
ghost use Rattle.line_fields.specs.Feed.{left_of, pairs_of, pairs_next, entered_item, answer_item, line_item};
ghost use Rattle.line_fields.specs.Feed.{line_items};

use crate::forms::WayBack;
use crate::line::{FeedLine, seen};
use crate::seen::{Answered, Entered, Passed};
use crate::{Handed, Parts, integer_in, word_in};
use cap_words::{Cap, Items, Perm, Word};
use source_events::{FeedBack, FeedPair, Item};
use std::alloc::{AllocError, Global};

fn owned(alloc: Global, text: &[u8]) -> Result<Items<u8>, AllocError>
    ensures { IfOk result (λ t. t ≡ text.now) }
{
    Ok(Items::of(Vec::from_slice(alloc, text)?))
}

// The name of a part and that of an entry of it, in memory of their own.
fn owned_pair(alloc: Global, part: &[u8], name: &[u8]) -> Result<(Items<u8>, Items<u8>), AllocError>
    ensures { IfOk result (λ p. (p.0 ≡ part.now) × (p.1 ≡ name.now)) }
{
    let part = owned(alloc, part)?;
    Ok((part, owned(alloc, name)?))
}

// What a return would do.
fn back_of(alloc: Global, back: &WayBack<'_>) -> Result<FeedBack, AllocError>
    ensures { IfOk result (λ b. b ≡ back_seen back.now) }
{
    match back {
        WayBack::Out => Ok(FeedBack::Out),
        WayBack::Bad => Ok(FeedBack::Bad),
        WayBack::Hop(entry) => {
            let (part, name) = owned_pair(alloc, entry.part, entry.name)?;
            Ok(FeedBack::Hop(part, name))
        }
        WayBack::Pair(call) => Ok(FeedBack::Pair(owned(alloc, call.part)?, call.site, call.base)),
    }
}

// What two argument registers are.
fn pair_of(alloc: Global, pair: &Handed<'_>) -> Result<FeedPair, AllocError>
    ensures { IfOk result (λ p. p ≡ handed_seen pair.now) }
{
    match pair {
        Handed::Nothing => Ok(FeedPair::Nothing),
        Handed::Bad => Ok(FeedPair::Bad),
        Handed::Out => Ok(FeedPair::Out),
        Handed::Hop(entry) => {
            let (part, name) = owned_pair(alloc, entry.part, entry.name)?;
            Ok(FeedPair::Hop(part, name))
        }
    }
}

// The words of stack that a capability hands over.
fn left_by(base: u32, cap: &Cap) -> Option<u32>
    ensures { result ≡ left_by base cap.now }
{
    let fields = cap.fields();
    if fields.lin.is_linear() && fields.perm == Perm::Rw && fields.base == base {
        Some(fields.end - fields.base + 1)
    } else {
        None
    }
}

// The words of stack that are handed over.
fn left_in(base: u32, stk: &[u8]) -> Option<u32>
    ensures { result ≡ left_of base stk.now }
{
    match word_in(stk) {
        Some(Word::Mem(cap)) => left_by(base, &cap),
        _ => None,
    }
}

fn no_pairs() -> [FeedPair; 3]
    ensures { result ≡ no_pairs }
{
    [FeedPair::Nothing, FeedPair::Nothing, FeedPair::Nothing]
}

fn passed_pairs(alloc: Global, passed: &Passed<'_>) -> Result<[FeedPair; 3], AllocError>
    ensures { IfOk result (λ pairs. pairs ≡ passed.now.p0 ∷ passed.now.p1 ∷ passed.now.p2 ∷ []) }
{
    let p0 = pair_of(alloc, &passed.p0)?;
    let p1 = pair_of(alloc, &passed.p1)?;
    let p2 = pair_of(alloc, &passed.p2)?;
    Ok([p0, p1, p2])
}

fn pairs_of(alloc: Global, seen: Option<FeedLine<'_>>) -> Result<[FeedPair; 3], AllocError>
    ensures { IfOk result (λ pairs. pairs ≡ pairs_of seen.entry) }
{
    match seen {
        Some(FeedLine::Pass(passed)) => passed_pairs(alloc, &passed),
        _ => Ok(no_pairs()),
    }
}

// The pairs of an `enter` line, by the lines after it.
fn pairs_behind(alloc: Global, lines: &Parts<'_>) -> Result<[FeedPair; 3], AllocError>
    ensures { IfOk result (λ pairs. pairs ≡ pairs_next lines.now) }
{
    let mut lines = lines.again();
    match lines.part() {
        Some(line) => pairs_of(alloc, seen(true, line)),
        None => Ok(no_pairs()),
    }
}

fn entered_item(
    alloc: Global,
    base: u32,
    e: &Entered<'_>,
    lines: &Parts<'_>,
) -> Result<Item, AllocError>
    ensures { IfOk result (λ i. i ≡ entered_item base e.now (pairs_next lines.now)) }
{
    let pairs = pairs_behind(alloc, lines)?;
    let back = back_of(alloc, &e.back)?;
    let (part, name) = owned_pair(alloc, e.part, e.name)?;
    Ok(Item::Enter {
        part,
        name,
        left: left_in(base, e.stk),
        args: [
            integer_in(e.a0),
            integer_in(e.a1),
            integer_in(e.a2),
            integer_in(e.a3),
        ],
        pairs,
        back,
    })
}

fn answer_item(alloc: Global, r: &Answered<'_>) -> Result<Item, AllocError>
    ensures { IfOk result (λ i. i ≡ answer_item r.now) }
{
    Ok(Item::Ret {
        part: owned(alloc, r.part)?,
        site: r.site,
        base: r.base,
        value: integer_in(r.a0),
    })
}

/// Appends the item of a line, if it tells one, by the lines after it.
pub(crate) fn push_item(
    items: &mut Vec<Item>,
    alloc: Global,
    base: u32,
    seen: &FeedLine<'_>,
    lines: &Parts<'_>,
) -> Result<(), AllocError>
    ensures { OnOk result (items.new.items
        ≡ items.old.items ++ line_items (line_item base seen.now lines.now)) }
{
    match seen {
        FeedLine::Enter(e) => items.push(entered_item(alloc, base, e, lines)?)?,
        FeedLine::Ret(r) => items.push(answer_item(alloc, r)?)?,
        _ => {}
    }
    Ok(())
}
