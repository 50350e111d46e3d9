//! Expressions: the first thing that each does, and the values of operands and elements.
ghost use Rattle.std.specs.Prelude.{◌≡◌, ◌*◌, IfOk, length, reverse};
ghost use Rattle.proc_semantics.specs.Values.{variable};
ghost use Rattle.proc_semantics.specs.Meaning.{expr, result_of, element_at};
ghost use Rattle.proc_semantics.specs.Whole.{whole};
ghost use Rattle.proc_meaning.specs.Rest.{with_value, ahead_of, IsLess};

use crate::places::{Run, Words, number_in, value_at, word_at};
use crate::pushes::after_tick;
use crate::work::{Ahead, Now, Work};
use proc_language::Op;
use proc_program::{Array, Exp, ExpKind, Location, Program};
use proc_semantics::Value;
use std::alloc::{AllocError, Global};

/// What a variable holds.
fn variable(run: &Run, store: &[Words], place: Location) -> i64
    ensures { result ≡ variable run.now.frame.home run.now.env.items store.now place }
{
    match place {
        Location::Local(i) => number_in(value_at(&run.env, i as usize, Value::Other)),
        Location::Global(o) => word_at(store, run.frame.home, o as usize),
    }
}

/// An expression is evaluated.
pub(crate) fn eval<'a>(
    alloc: Global,
    world: &'a [Program],
    e: &'a Exp,
    work: &mut Vec<Work<'a>>,
    run: &Run,
    store: &[Words],
) -> Result<Ahead<'a>, AllocError>
    ensures same { IfOk result (λ a.
        expr world.now (whole world.now) run.now.frame run.now.env.items e.now
        (with_value world.now (reverse work.old.items) run.now.frame run.now.env.items) store.now
        ≡ ahead_of world.now a work.new.items run.now store.now) }
    ensures less { IfOk result (λ a. IsLess a work.new.items (2 * length work.old.items)) }
{
    match &e.kind {
        ExpKind::Number(n) => Ok(Ahead::Ticked(1, Now::Value(i64::from(*n)))),
        ExpKind::Load(place) => Ok(Ahead::Ticked(1, Now::Value(variable(run, store, *place)))),
        ExpKind::Element(row, index) => after_tick(index, Work::Index(*row), work),
        ExpKind::Call(call) => Ok(Ahead::Ticked(
            1,
            Now::Args(call, Vec::new(alloc), call.args.as_slice()),
        )),
        ExpKind::Binary(op, left, right) => after_tick(left, Work::Right(*op, right), work),
    }
}

/// The value of two operands, where it is a number of 64 bits.
pub(crate) fn result_of(op: Op, x: i64, y: i64) -> Option<i64>
    ensures { result ≡ result_of op x y }
{
    match op {
        Op::Plus => x.checked_add(y),
        Op::Minus => x.checked_sub(y),
        Op::Less => Some(i64::from(x < y)),
        Op::Equal => Some(i64::from(x == y)),
    }
}

/// The place of an element, where the index is in the array.
pub(crate) fn element_at(row: Array, index: i64) -> Option<usize>
    ensures { result ≡ element_at row index }
{
    if index < 0 {
        return None;
    }
    let index = index as u64;
    if index < u64::from(row.length) {
        Some(row.first as usize + index as usize)
    } else {
        None
    }
}
