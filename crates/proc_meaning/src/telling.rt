//! The meaning of a feed, turn by turn.
ghost use Rattle.std.specs.Prelude.{◌≡◌, IfOk, [], map};
ghost use Rattle.proc_semantics.specs.Values.{Store, main_target};
ghost use Rattle.proc_semantics.specs.Meaning.{meaning, start};
ghost use Rattle.proc_semantics.specs.Whole.{whole};
ghost use Rattle.proc_meaning.specs.declared.places.Run.{Run};
ghost use Rattle.proc_meaning.specs.Rest.{now_of, rest_now, more};

use crate::names::main_of;
use crate::places::{Run, Words};
use crate::turns::turn;
use crate::work::{Ahead, Now, Whence, Work};
use cap_words::Items;
use proc_program::Program;
use source_events::{End, Item, OutEvent, Told};
use std::alloc::{AllocError, Global};

/// What the words of the globals are at first.
fn first_words(alloc: Global, world: &[Program]) -> Result<Vec<Words>, AllocError>
    ensures { IfOk result (λ s. s.items ≡ map (λ u. u.globals) world.now) }
{
    let mut store = Vec::new(alloc);
    for part in world {
        store.push(Words::of(alloc, part.globals.as_slice())?)?;
    }
    Ok(store)
}

/// What is done first.
fn first<'a>(alloc: Global, world: &[Program], stack: u32) -> Now<'a>
    ensures { (r : Run) (st : Store) →
        start world.now (whole world.now) stack (main_target world.now) st ≡ now_of world.now result [] r st }
{
    match main_of(world) {
        Some(target) => Now::Begin(target, Some(stack), Vec::new(alloc), Whence::Start),
        None => Now::Wait,
    }
}

fn told(events: Vec<OutEvent>, end: End, ticks: u64) -> Told
    ensures { result ≡ record { events = events.items; end = end; ticks = ticks } }
{
    Told {
        events: Items::of(events),
        end,
        ticks,
    }
}

/// Goes through a feed under a fuel, from what is done now: how it ends, and after how many ticks.
fn end_of<'a>(
    alloc: Global,
    world: &'a [Program],
    feed: &'a [Item],
    fuel: u64,
    first: Now<'a>,
    work: &mut Vec<Work<'a>>,
    run: &mut Run,
    store: &mut Vec<Words>,
    events: &mut Vec<OutEvent>,
) -> Result<(End, u64), AllocError>
    ensures { IfOk result (λ e. record { events = events.new.items; end = e.0; ticks = e.1 }
        ≡ more events.old.items 0
        (rest_now world.now first.entry work.old.items run.old store.old.items fuel feed.now)) }
{
    let mut coming = feed;
    let mut left = fuel;
    let mut now = first;
    loop {
        match turn(alloc, world, now, work, run, store)? {
            Ahead::Free(next) => now = next,
            Ahead::Ticked(ticks, next) => {
                if left < ticks {
                    return Ok((End::OutOfFuel, fuel));
                }
                (left, now) = (left - ticks, next);
            }
            Ahead::Said(event, next) => {
                events.push(event)?;
                now = next;
            }
            Ahead::Asks => match coming.split_first() {
                None => return Ok((End::Waiting, fuel - left)),
                Some((item, rest)) => (coming, now) = (rest, Now::Take(item)),
            },
            Ahead::Stop(end) => return Ok((end, fuel - left)),
        }
    }
}

/// The meaning of a feed under a fuel, over programs: exactly the defined one, unless memory is refused.
/// `stack` is how many words of it there are. It ends by `OutOfFuel` exactly where the next tick would pass
/// the fuel. Memory grows with events and with the depth of calls, not with ticks.
pub fn meaning_of_parts(
    alloc: Global,
    world: &[Program],
    stack: u32,
    feed: &[Item],
    fuel: u64,
) -> Result<Told, AllocError>
    ensures { IfOk result (λ t. t ≡ meaning world.now stack feed.now fuel) }
{
    let mut store = first_words(alloc, world)?;
    let mut work: Vec<Work<'_>> = Vec::new(alloc);
    let mut run = Run::none(alloc);
    let mut events: Vec<OutEvent> = Vec::new(alloc);
    let now = first(alloc, world, stack);
    let (end, ticks) = end_of(
        alloc,
        world,
        feed,
        fuel,
        now,
        &mut work,
        &mut run,
        &mut store,
        &mut events,
    )?;
    Ok(told(events, end, ticks))
}
