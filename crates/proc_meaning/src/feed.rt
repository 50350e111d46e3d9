//! The feed: procedures that are entered from outside, how they end, and answers to calls that wait.
ghost use Rattle.std.specs.Prelude.{◌≡◌, ◌+◌, ◌*◌, ◌==◌, ◌&&◌, IfOk, length, reverse, List, ◌∷◌};
ghost use Rattle.std.specs.Str.{bytes_eq};
ghost use Rattle.proc_semantics.specs.Values.{Store};
ghost use Rattle.proc_semantics.specs.Meaning.{part_name_of, home_stack, is_given, resumed, left_by, on_item};
ghost use Rattle.proc_semantics.specs.Whole.{whole};
ghost use Rattle.proc_meaning.specs.declared.work.Work.{Work};
ghost use Rattle.proc_meaning.specs.Rest.{waiting, ahead_of, IsLess};

use crate::calls::{part_name, part_text};
use crate::ends::sum;
use crate::names::{found, registers_fed};
use crate::places::{Run, registers};
use crate::work::{Ahead, Now, Whence, Work};
use proc_program::Program;
use proc_semantics::Value;
use source_events::{End, FeedBack, Item, OutEvent};
use std::alloc::{AllocError, Global};

// ---- the newest call that waits

/// Where the frame begins of a call that gave these words away.
fn base_of(world: &[Program], home: usize, given: u32) -> u64
    ensures { result ≡ home_stack world.now home + given }
{
    match world.get(home) {
        Some(part) => sum(part.stack, given),
        None => sum(0, given),
    }
}

fn is_given(left: Option<u32>, given: u32) -> bool
    ensures { result ≡ is_given left given }
{
    match left {
        Some(left) => left == given,
        None => true,
    }
}

/// Which call is meant, and the words that it gave away, where that is asked.
#[derive(Clone, Copy)]
struct Asked<'a> {
    part: &'a [u8],
    site: u32,
    base: u32,
    left: Option<u32>,
}

/// Whether a call is the one that is meant.
fn is_for(world: &[Program], home: usize, site: u32, given: u32, asked: &Asked<'_>) -> bool
    ensures { result ≡ (bytes_eq asked.now.part.now (part_name_of world.now home) && (asked.now.site == site)
        && (asked.now.base == home_stack world.now home + given) && is_given asked.now.left given) }
{
    let same_part = asked.part == part_text(world, home);
    let same_base = u64::from(asked.base) == base_of(world, home, given);
    let whole = is_given(asked.left, given);
    same_part && asked.site == site && same_base && whole
}

/// A value comes to an entry of the list, where that is a call that waits, and the one that is meant.
fn resume_at<'a>(
    world: &'a [Program],
    w: Work<'a>,
    asked: &Asked<'_>,
    value: Option<i64>,
    run: &mut Run,
) -> Ahead<'a>
    ensures same { (items : List Work) (st : Store) →
        resumed (waiting world.now (w.entry ∷ reverse items))
        asked.now.part.now asked.now.site asked.now.base asked.now.left value st
        ≡ ahead_of world.now result items run.new st }
    ensures less { (items : List Work) → IsLess result items (2 * length items + 5) }
{
    match w {
        Work::Waits(caller, site, given) => {
            let Some(value) = value else {
                return Ahead::Stop(End::Fail);
            };
            if is_for(world, caller.frame.home, site, given, asked) {
                *run = caller;
                return Ahead::Free(Now::Value(value));
            }
            Ahead::Stop(End::Fail)
        }
        _ => Ahead::Stop(End::Fail),
    }
}

/// A value comes to the newest call that waits, where that is the one that is meant.
fn resume<'a>(
    world: &'a [Program],
    asked: &Asked<'_>,
    value: Option<i64>,
    work: &mut Vec<Work<'a>>,
    run: &mut Run,
) -> Ahead<'a>
    ensures same { (st : Store) →
        resumed (waiting world.now (reverse work.old.items))
        asked.now.part.now asked.now.site asked.now.base asked.now.left value st
        ≡ ahead_of world.now result work.new.items run.new st }
    ensures less { IsLess result work.new.items (2 * length work.old.items + 3) }
{
    match work.pop() {
        Some(w) => resume_at(world, w, asked, value, run),
        None => Ahead::Stop(End::Fail),
    }
}

// ---- procedures that are entered

/// A procedure that was entered has ended with a value.
pub(crate) fn leave<'a>(
    alloc: Global,
    world: &'a [Program],
    home: usize,
    left: Option<u32>,
    way: &'a FeedBack,
    value: i64,
    work: &mut Vec<Work<'a>>,
    run: &mut Run,
) -> Result<Ahead<'a>, AllocError>
    ensures same { IfOk result (λ a. (st : Store) →
        left_by world.now (whole world.now) (part_name_of world.now home)
        (waiting world.now (reverse work.old.items)) left way.now value st
        ≡ ahead_of world.now a work.new.items run.new st) }
    ensures less { IfOk result (λ a. IsLess a work.new.items (2 * length work.old.items + 3)) }
{
    match way {
        FeedBack::Out => {
            let event = OutEvent::LeaveOut(part_name(alloc, world, home)?, value);
            Ok(Ahead::Said(event, Now::Wait))
        }
        FeedBack::Bad => Ok(Ahead::Stop(End::Fail)),
        FeedBack::Hop(part, name) => {
            let Some(target) = found(world, part.as_slice(), name.as_slice()) else {
                return Ok(Ahead::Stop(End::Fail));
            };
            let registers = registers(alloc, &[Value::Num(value)])?;
            let whence = Whence::Entered(home, left, way);
            Ok(Ahead::Free(Now::Begin(target, left, registers, whence)))
        }
        FeedBack::Pair(part, site, base) => {
            let Some(left) = left else {
                return Ok(Ahead::Stop(End::Fail));
            };
            let asked = Asked {
                part: part.as_slice(),
                site: *site,
                base: *base,
                left: Some(left),
            };
            Ok(resume(world, &asked, Some(value), work, run))
        }
    }
}

/// An item of the feed.
pub(crate) fn take<'a>(
    alloc: Global,
    world: &'a [Program],
    item: &'a Item,
    work: &mut Vec<Work<'a>>,
    run: &mut Run,
) -> Result<Ahead<'a>, AllocError>
    ensures same { IfOk result (λ a. (st : Store) →
        on_item world.now (whole world.now) (waiting world.now (reverse work.old.items)) st item.now
        ≡ ahead_of world.now a work.new.items run.new st) }
    ensures less { IfOk result (λ a. IsLess a work.new.items (2 * length work.old.items + 3)) }
{
    match item {
        Item::Enter {
            part,
            name,
            left,
            args,
            pairs,
            back,
        } => {
            let Some(target) = found(world, part.as_slice(), name.as_slice()) else {
                return Ok(Ahead::Stop(End::Fail));
            };
            let registers = registers_fed(alloc, world, args, pairs)?;
            let whence = Whence::Entered(target.home, *left, back);
            Ok(Ahead::Free(Now::Begin(target, *left, registers, whence)))
        }
        Item::Ret {
            part,
            site,
            base,
            value,
        } => {
            let asked = Asked {
                part: part.as_slice(),
                site: *site,
                base: *base,
                left: None,
            };
            Ok(resume(world, &asked, *value, work, run))
        }
    }
}
