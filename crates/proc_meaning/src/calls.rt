//! Calls: their arguments, from left to right, and what they do then.
ghost use Rattle.std.specs.Prelude.{◌≡◌, ◌+◌, ◌*◌, IfOk, length, reverse, List, [], ◌∷◌, ◌++◌};
ghost use Rattle.proc_program.specs.View.{args_of};
ghost use Rattle.proc_semantics.specs.declared.value.Value.TheVariants.{Num, Closure, Other};
ghost use Rattle.proc_semantics.specs.Told.{tick};
ghost use Rattle.proc_semantics.specs.Values.{World, Store, pair_of};
ghost use Rattle.proc_semantics.specs.Meaning.{call, part_name_of, given_of};
ghost use Rattle.proc_semantics.specs.Whole.{whole};
ghost use Rattle.proc_meaning.specs.declared.places.Run.{Run};
ghost use Rattle.proc_meaning.specs.declared.work.Work.{Work};
ghost use Rattle.proc_meaning.specs.Rest.{with_value, call_with, ahead_of, IsLess};

use crate::names::pair_of;
use crate::places::{Run, out_args, registers};
use crate::pushes::{at_once, put};
use crate::work::{Ahead, Now, Whence, Work};
use cap_words::Items;
use proc_program::{ArgExp, CallExp, Program};
use proc_semantics::{Activation, Pair, Value};
use source_events::{End, OutEvent};
use std::alloc::{AllocError, Global};

/// The name of a module, to read.
pub(crate) fn part_text<'a>(world: &'a [Program], home: usize) -> &'a [u8]
    ensures { result.now ≡ part_name_of world.now home }
{
    match world.get(home) {
        Some(part) => part.name.as_slice(),
        None => &[],
    }
}

/// The name of a module, as an event has it.
pub(crate) fn part_name(
    alloc: Global,
    world: &[Program],
    home: usize,
) -> Result<Items<u8>, AllocError>
    ensures { IfOk result (λ n. n ≡ part_name_of world.now home) }
{
    Ok(Items::of(Vec::from_slice(alloc, part_text(world, home))?))
}

/// The words of the stack that a call gives away, where there are enough.
fn given_of(frame: Activation) -> Option<u32>
    ensures { result ≡ given_of frame }
{
    if u64::from(frame.left) < u64::from(frame.need) + 2 {
        return None;
    }
    Some(frame.left - frame.need - 1)
}

/// A call whose arguments are evaluated.
fn call<'a>(
    alloc: Global,
    world: &'a [Program],
    to: &'a CallExp,
    values: &[Value],
    work: &mut Vec<Work<'a>>,
    run: &mut Run,
) -> Result<Ahead<'a>, AllocError>
    ensures same { IfOk result (λ a. (st : Store) →
        call world.now (whole world.now) run.old.frame to.now.site
        (pair_of world.now run.old.frame.home run.old.env.items to.now.handle) values.now
        (with_value world.now (reverse work.old.items) run.old.frame run.old.env.items) st
        ≡ ahead_of world.now a work.new.items run.new st) }
    ensures less { IfOk result (λ a. IsLess a work.new.items (2 * length work.old.items + 3)) }
{
    let Some(given) = given_of(run.frame) else {
        return Ok(Ahead::Stop(End::Fail));
    };
    match pair_of(world, run, to.handle) {
        Pair::Bad => Ok(Ahead::Stop(End::Fail)),
        Pair::Outside => {
            let home = run.frame.home;
            put(Work::Waits(run.leave(alloc), to.site, given), work)?;
            let name = part_name(alloc, world, home)?;
            let event = OutEvent::CallOut(name, to.site, out_args(values));
            Ok(Ahead::Said(event, Now::Wait))
        }
        Pair::Runs(target) => {
            let registers = registers(alloc, values)?;
            let caller = Whence::Caller(run.leave(alloc));
            Ok(Ahead::Free(Now::Begin(target, Some(given), registers, caller)))
        }
    }
}

/// A further argument of a call has a value.
pub(crate) fn with_argument<'a>(
    to: &'a CallExp,
    mut values: Vec<Value>,
    v: i64,
    rest: &'a [ArgExp],
) -> Result<Ahead<'a>, AllocError>
    ensures same { IfOk result (λ a. (world : World) (items : List Work) (r : Run) (st : Store) →
        call_with world r.frame r.env.items to.now (values.items ++ Num v ∷ []) (args_of rest.now)
        (with_value world (reverse items) r.frame r.env.items) st
        ≡ ahead_of world a items r st) }
    ensures less { IfOk result (λ a. (items : List Work) → IsLess a items (2 * length items + 5)) }
{
    values.push(Value::Num(v))?;
    Ok(Ahead::Free(Now::Args(to, values, rest)))
}

/// A pair is a further argument of a call, in two registers.
fn with_pair<'a>(
    to: &'a CallExp,
    mut values: Vec<Value>,
    pair: Pair,
    rest: &'a [ArgExp],
) -> Result<Ahead<'a>, AllocError>
    ensures same { IfOk result (λ a. (world : World) (items : List Work) (r : Run) (st : Store) →
        tick (call_with world r.frame r.env.items to.now (values.items ++ Closure pair ∷ Other ∷ [])
        (args_of rest.now) (with_value world (reverse items) r.frame r.env.items) st)
        ≡ ahead_of world a items r st) }
    ensures less { IfOk result (λ a. (items : List Work) → IsLess a items (2 * length items)) }
{
    values.extend_from_slice(&[Value::Closure(pair), Value::Other])?;
    Ok(Ahead::Ticked(1, Now::Args(to, values, rest)))
}

/// The arguments of a call are evaluated: `values` are, `given` aren't.
pub(crate) fn arguments<'a>(
    alloc: Global,
    world: &'a [Program],
    to: &'a CallExp,
    values: Vec<Value>,
    given: &'a [ArgExp],
    work: &mut Vec<Work<'a>>,
    run: &mut Run,
) -> Result<Ahead<'a>, AllocError>
    ensures same { IfOk result (λ a. (st : Store) →
        call_with world.now run.old.frame run.old.env.items to.now values.items (args_of given.now)
        (with_value world.now (reverse work.old.items) run.old.frame run.old.env.items) st
        ≡ ahead_of world.now a work.new.items run.new st) }
    ensures less { IfOk result (λ a. IsLess a work.new.items (2 * length work.old.items + 3)) }
{
    let Some((first, rest)) = given.split_first() else {
        return call(alloc, world, to, &values, work, run);
    };
    match first {
        ArgExp::Value(e) => at_once(e, Work::Arg(to, values, rest), work),
        ArgExp::Pass(handle) => with_pair(to, values, pair_of(world, run, *handle), rest),
    }
}
