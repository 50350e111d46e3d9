//! Statements: what each begins with, what a value does then, and what stands after.
ghost use Rattle.std.specs.Prelude.{◌≡◌, ◌+◌, ◌*◌, IfOk, length, reverse, List, ◌∷◌, option_map};
ghost use Rattle.proc_program.specs.StepView.{block_of};
ghost use Rattle.proc_semantics.specs.Told.{tick};
ghost use Rattle.proc_semantics.specs.Values.{World, Store, global_word, set_word};
ghost use Rattle.proc_semantics.specs.Meaning.{Next, stmt, block, assigned, with_number, element};
ghost use Rattle.proc_semantics.specs.Meaning.{element_at};
ghost use Rattle.proc_semantics.specs.Whole.{whole};
ghost use Rattle.proc_meaning.specs.declared.places.Run.{Run};
ghost use Rattle.proc_meaning.specs.declared.work.Now.TheVariants.{Eval};
ghost use Rattle.proc_meaning.specs.declared.work.Work.{Work};
ghost use Rattle.proc_meaning.specs.Rest.{chosen, tested, now_of};
ghost use Rattle.proc_meaning.specs.Rest.{with_value, after, back, ahead_of, IsLess};

use crate::calls::with_argument;
use crate::ends::end_run;
use crate::exprs::{element_at, result_of};
use crate::places::{Run, Words, set_word, word_at};
use crate::pushes::{after_tick, at_once, put};
use crate::work::{Ahead, Now, Work};
use proc_program::{Array, Exp, Location, Statement, StatementKind};
use proc_semantics::Value;
use source_events::End;
use std::alloc::AllocError;

/// The expression with which a statement begins, and what is to be done with its value.
fn begun<'a>(s: &'a Statement) -> (Work<'a>, &'a Exp)
    ensures { (world : World) (r : Run) (ws : List Work) (st : Store) →
        stmt world (whole world) r.frame s.now (back world ws r.frame) (after world ws r.frame) r.env.items st
        ≡ tick (now_of world (Eval result.1) (result.0 ∷ ws) r st) }
{
    match &s.kind {
        StatementKind::Set(place, e) => (Work::SetTo(*place), e),
        StatementKind::SetAt(row, index, e) => (Work::SetIndex(*row, e), index),
        StatementKind::Do(e) => (Work::Forget, e),
        StatementKind::If(c, a, b) => (Work::Choose(a.as_slice(), b.as_slice()), c),
        StatementKind::While(c, b) => (Work::Test(c, b.as_slice()), c),
        StatementKind::Return(e) => (Work::Return, e),
        StatementKind::Halt(e) => (Work::Halt, e),
    }
}

/// A variable is set.
fn assign(run: &mut Run, store: &mut Vec<Words>, place: Location, value: i64)
    ensures same { (k : Next) →
        assigned run.old.frame.home place value k run.old.env.items store.old.items
        ≡ k run.new.env.items store.new.items }
    ensures keeps { run.new.frame ≡ run.old.frame }
{
    match place {
        Location::Local(i) => {
            if let Some(local) = run.env.get_mut(i as usize) {
                *local = Value::Num(value);
            }
        }
        Location::Global(o) => set_word(store, run.frame.home, o as usize, value),
    }
}

/// Statements, one after the other.
fn statements<'a>(steps: &'a [Statement], work: &mut Vec<Work<'a>>) -> Result<Ahead<'a>, AllocError>
    ensures same { IfOk result (λ a. (world : World) (r : Run) (st : Store) →
        block world (whole world) r.frame (block_of steps.now) (back world (reverse work.old.items) r.frame)
        (after world (reverse work.old.items) r.frame) r.env.items st
        ≡ ahead_of world a work.new.items r st) }
    ensures less { IfOk result (λ a. IsLess a work.new.items (2 * length work.old.items + 3)) }
{
    let Some((s, rest)) = steps.split_first() else {
        return Ok(Ahead::Free(Now::Next));
    };
    put(Work::Rest(rest), work)?;
    let (w, e) = begun(s);
    after_tick(e, w, work)
}

/// The condition of an `if` has a value: one of its blocks follows.
fn choose<'a>(
    v: i64,
    a: &'a [Statement],
    b: &'a [Statement],
    work: &mut Vec<Work<'a>>,
) -> Result<Ahead<'a>, AllocError>
    ensures same { IfOk result (λ h. (world : World) (r : Run) (st : Store) →
        chosen world v (block_of a.now) (block_of b.now) r.frame
        (back world (reverse work.old.items) r.frame)
        (after world (reverse work.old.items) r.frame) r.env.items st
        ≡ ahead_of world h work.new.items r st) }
    ensures less { IfOk result (λ h. IsLess h work.new.items (2 * length work.old.items + 3)) }
{
    if v == 0 {
        statements(b, work)
    } else {
        statements(a, work)
    }
}

/// The condition of a loop has a value: its block and a further turn follow, or nothing.
fn test<'a>(
    v: i64,
    c: &'a Exp,
    b: &'a [Statement],
    work: &mut Vec<Work<'a>>,
) -> Result<Ahead<'a>, AllocError>
    ensures same { IfOk result (λ h. (world : World) (r : Run) (st : Store) →
        tested world v c.now (block_of b.now) r.frame
        (back world (reverse work.old.items) r.frame)
        (after world (reverse work.old.items) r.frame) r.env.items st
        ≡ ahead_of world h work.new.items r st) }
    ensures less { IfOk result (λ h. IsLess h work.new.items (2 * length work.old.items + 5)) }
{
    if v == 0 {
        return Ok(Ahead::Free(Now::Next));
    }
    put(Work::Turn(c, b), work)?;
    statements(b, work)
}

/// What is done with a value, where there is one.
fn valued<'a>(value: Option<i64>) -> Ahead<'a>
    ensures same { (world : World) (items : List Work) (r : Run) (st : Store) →
        with_number value (with_value world (reverse items) r.frame r.env.items) st
        ≡ ahead_of world result items r st }
    ensures less { (items : List Work) → IsLess result items (2 * length items + 5) }
{
    match value {
        Some(v) => Ahead::Free(Now::Value(v)),
        None => Ahead::Stop(End::Fail),
    }
}

/// An element of an array, where the index is in it.
fn element(row: Array, index: i64, run: &Run, store: &[Words]) -> Option<i64>
    ensures { result ≡ option_map (global_word store.now run.now.frame.home) (element_at row index) }
{
    match element_at(row, index) {
        Some(o) => Some(word_at(store, run.frame.home, o)),
        None => None,
    }
}

/// An element of an array is set, where the index is in it.
fn set_element<'a>(row: Array, index: i64, v: i64, run: &Run, store: &mut Vec<Words>) -> Ahead<'a>
    ensures same { (world : World) (items : List Work) →
        element row index (λ o. after world (reverse items) run.now.frame run.now.env.items
        (set_word store.old.items run.now.frame.home o v))
        ≡ ahead_of world result items run.now store.new.items }
    ensures less { (items : List Work) → IsLess result items (2 * length items + 5) }
{
    let Some(o) = element_at(row, index) else {
        return Ahead::Stop(End::Fail);
    };
    set_word(store, run.frame.home, o, v);
    Ahead::Free(Now::Next)
}

/// A value comes to what was to be done with it.
fn give_to<'a>(
    w: Work<'a>,
    v: i64,
    work: &mut Vec<Work<'a>>,
    run: &mut Run,
    store: &mut Vec<Words>,
) -> Result<Ahead<'a>, AllocError>
    ensures same { IfOk result (λ a. (world : World) →
        with_value world (w.entry ∷ reverse work.old.items) run.old.frame run.old.env.items v store.old.items
        ≡ ahead_of world a work.new.items run.new store.new.items) }
    ensures less { IfOk result (λ a. IsLess a work.new.items (2 * length work.old.items + 6)) }
{
    match w {
        Work::Index(row) => Ok(valued(element(row, v, run, store))),
        Work::Right(op, e) => at_once(e, Work::Operate(op, v), work),
        Work::Operate(op, x) => Ok(valued(result_of(op, x, v))),
        Work::Arg(to, values, rest) => with_argument(to, values, v, rest),
        Work::SetTo(place) => {
            assign(run, store, place, v);
            Ok(Ahead::Free(Now::Next))
        }
        Work::SetIndex(row, e) => at_once(e, Work::SetElement(row, v), work),
        Work::SetElement(row, index) => Ok(set_element(row, index, v, run, store)),
        Work::Forget => Ok(Ahead::Free(Now::Next)),
        Work::Choose(a, b) => choose(v, a, b, work),
        Work::Test(c, b) => test(v, c, b, work),
        Work::Return => Ok(Ahead::Free(Now::Back(v))),
        Work::Halt => Ok(Ahead::Stop(End::Halt(v))),
        _ => Ok(Ahead::Stop(End::Fail)),
    }
}

/// There is a value.
pub(crate) fn give<'a>(
    v: i64,
    work: &mut Vec<Work<'a>>,
    run: &mut Run,
    store: &mut Vec<Words>,
) -> Result<Ahead<'a>, AllocError>
    ensures same { IfOk result (λ a. (world : World) →
        with_value world (reverse work.old.items) run.old.frame run.old.env.items v store.old.items
        ≡ ahead_of world a work.new.items run.new store.new.items) }
    ensures less { IfOk result (λ a. IsLess a work.new.items (2 * length work.old.items + 4)) }
{
    match work.pop() {
        Some(w) => give_to(w, v, work, run, store),
        None => Ok(Ahead::Stop(End::Fail)),
    }
}

/// A statement is done, and this stands after it.
fn next_of<'a>(
    w: Work<'a>,
    work: &mut Vec<Work<'a>>,
    run: &mut Run,
) -> Result<Ahead<'a>, AllocError>
    ensures same { IfOk result (λ a. (world : World) (st : Store) →
        after world (w.entry ∷ reverse work.old.items) run.old.frame run.old.env.items st
        ≡ ahead_of world a work.new.items run.new st) }
    ensures less { IfOk result (λ a. IsLess a work.new.items (2 * length work.old.items + 3)) }
{
    match w {
        Work::Rest(steps) => statements(steps, work),
        Work::Turn(c, b) => after_tick(c, Work::Test(c, b), work),
        Work::Ends(whence) => Ok(end_run(whence, 0, run)),
        _ => Ok(Ahead::Stop(End::Fail)),
    }
}

/// A statement is done.
pub(crate) fn next<'a>(work: &mut Vec<Work<'a>>, run: &mut Run) -> Result<Ahead<'a>, AllocError>
    ensures same { IfOk result (λ a. (world : World) (st : Store) →
        after world (reverse work.old.items) run.old.frame run.old.env.items st
        ≡ ahead_of world a work.new.items run.new st) }
    ensures less { IfOk result (λ a. IsLess a work.new.items (2 * length work.old.items + 1)) }
{
    match work.pop() {
        Some(w) => next_of(w, work, run),
        None => Ok(Ahead::Stop(End::Fail)),
    }
}
