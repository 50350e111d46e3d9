//! Procedures: how they begin, and how they end.
ghost use Rattle.std.specs.Prelude.{◌≡◌, ◌+◌, ◌*◌, ◌++◌, pos, replicate, IfOk, length, reverse, List, ◌∷◌};
ghost use Rattle.proc_semantics.specs.declared.value.Value.TheVariants.{Num};
ghost use Rattle.proc_semantics.specs.Values.{World, Store};
ghost use Rattle.proc_semantics.specs.Meaning.{Then, finish, enough, begin};
ghost use Rattle.proc_semantics.specs.Whole.{whole};
ghost use Rattle.proc_meaning.specs.declared.work.Work.{Work};
ghost use Rattle.proc_meaning.specs.Rest.{back, ended, begins, ahead_of, IsLess};

use crate::names::{proc_at, taken};
use crate::places::Run;
use crate::pushes::put;
use crate::work::{Ahead, Now, Whence, Work};
use proc_program::{Procedure, Program};
use proc_semantics::{Activation, Register, Target, Value};
use source_events::End;
use std::alloc::{AllocError, Global};

/// Locals that begin at 0, after what parameters took.
fn add_locals(mut env: Vec<Value>, count: u32) -> Result<Vec<Value>, AllocError>
    ensures { IfOk result (λ e. e.items ≡ env.items ++ replicate count (Num (pos 0))) }
{
    let places = env.len() + count as usize;
    env.resize(places, Value::Num(0))?;
    Ok(env)
}

/// The words that a procedure has, where they are as many as it needs.
fn enough(need: u32, left: Option<u32>) -> Option<u32>
    ensures { result ≡ enough need left }
{
    match left {
        Some(left) => {
            if left < need {
                return None;
            }
            Some(left)
        }
        None => None,
    }
}

/// The sum, which has room.
pub(crate) fn sum(a: u32, b: u32) -> u64
    ensures { result ≡ a + b }
{
    u64::from(a) + u64::from(b)
}

/// The run of a procedure that begins, where it has words enough, and its parameters find what they need.
fn run_of(
    alloc: Global,
    home: usize,
    proc: &Procedure,
    left: Option<u32>,
    registers: &[Register],
) -> Result<Option<Run>, AllocError>
    ensures { IfOk result (λ run. (world : World) (k : Then) (st : Store) →
        begin world (whole world) home proc.now left registers.now k st
        ≡ begins world proc.now run k st) }
{
    let Some(words) = enough(proc.need, left) else {
        return Ok(None);
    };
    let Some(env) = taken(alloc, proc.callbacks.as_slice(), registers)? else {
        return Ok(None);
    };
    let env = add_locals(env, proc.locals)?;
    let frame = Activation {
        home,
        left: words,
        need: proc.need,
    };
    Ok(Some(Run { frame, env }))
}

/// A procedure begins.
pub(crate) fn begin<'a>(
    alloc: Global,
    world: &'a [Program],
    target: Target,
    left: Option<u32>,
    registers: &[Register],
    whence: Whence<'a>,
    work: &mut Vec<Work<'a>>,
    run: &mut Run,
) -> Result<Ahead<'a>, AllocError>
    ensures same { IfOk result (λ a. (st : Store) →
        (whole world.now).proc target left registers.now
        (ended world.now whence.entry (reverse work.old.items)) st
        ≡ ahead_of world.now a work.new.items run.new st) }
    ensures less { IfOk result (λ a. IsLess a work.new.items (2 * length work.old.items)) }
{
    put(Work::Ends(whence), work)?;
    let Some(proc) = proc_at(world, target) else {
        return Ok(Ahead::Stop(End::Fail));
    };
    let ticks = sum(proc.need, 1);
    let Some(begun) = run_of(alloc, target.home, proc, left, registers)? else {
        return Ok(Ahead::Ticked(ticks, Now::Fail));
    };
    *run = begun;
    put(Work::Rest(proc.body.as_slice()), work)?;
    Ok(Ahead::Ticked(ticks, Now::Next))
}

/// The procedure ends with a value.
pub(crate) fn end_run<'a>(whence: Whence<'a>, value: i64, run: &mut Run) -> Ahead<'a>
    ensures same { (world : World) (items : List Work) (st : Store) →
        finish world run.old.frame.need (ended world whence.entry (reverse items)) value st
        ≡ ahead_of world result items run.new st }
    ensures less { (items : List Work) → IsLess result items (2 * length items) }
{
    let ticks = u64::from(run.frame.need) + 1;
    match whence {
        Whence::Start => Ahead::Ticked(ticks, Now::Fail),
        Whence::Caller(caller) => {
            *run = caller;
            Ahead::Ticked(ticks, Now::Value(value))
        }
        Whence::Entered(home, left, back) => {
            Ahead::Ticked(ticks, Now::Left(home, left, back, value))
        }
    }
}

/// A procedure returns a value, past what stands after the statement.
fn back_of<'a>(w: Work<'a>, v: i64, run: &mut Run) -> Ahead<'a>
    ensures same { (world : World) (items : List Work) (st : Store) →
        back world (w.entry ∷ reverse items) run.old.frame v st ≡ ahead_of world result items run.new st }
    ensures less { (items : List Work) → IsLess result items (2 * length items + 2) }
{
    match w {
        Work::Rest(_) => Ahead::Free(Now::Back(v)),
        Work::Turn(_, _) => Ahead::Free(Now::Back(v)),
        Work::Ends(whence) => end_run(whence, v, run),
        _ => Ahead::Stop(End::Fail),
    }
}

/// A procedure returns a value.
pub(crate) fn give_back<'a>(v: i64, work: &mut Vec<Work<'a>>, run: &mut Run) -> Ahead<'a>
    ensures same { (world : World) (st : Store) →
        back world (reverse work.old.items) run.old.frame v st
        ≡ ahead_of world result work.new.items run.new st }
    ensures less { IsLess result work.new.items (2 * length work.old.items) }
{
    match work.pop() {
        Some(w) => back_of(w, v, run),
        None => Ahead::Stop(End::Fail),
    }
}
