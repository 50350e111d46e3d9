//! One turn of what a meaning does.
ghost use Rattle.std.specs.Prelude.{◌≡◌, IfOk};
ghost use Rattle.proc_meaning.specs.Rest.{rest_now, size_of, ahead_of, IsLess};

use crate::calls::arguments;
use crate::ends::{begin, give_back};
use crate::exprs::eval;
use crate::feed::{leave, take};
use crate::places::{Run, Words};
use crate::steps::{give, next};
use crate::work::{Ahead, Now, Work};
use proc_program::Program;
use source_events::End;
use std::alloc::{AllocError, Global};

/// One turn.
pub(crate) fn turn<'a>(
    alloc: Global,
    world: &'a [Program],
    now: Now<'a>,
    work: &mut Vec<Work<'a>>,
    run: &mut Run,
    store: &mut Vec<Words>,
) -> Result<Ahead<'a>, AllocError>
    ensures same { IfOk result (λ a.
        rest_now world.now now.entry work.old.items run.old store.old.items
        ≡ ahead_of world.now a work.new.items run.new store.new.items) }
    ensures less { IfOk result (λ a. IsLess a work.new.items (size_of now.entry work.old.items)) }
{
    match now {
        Now::Eval(e) => eval(alloc, world, e, work, run, store),
        Now::Args(to, values, args) => arguments(alloc, world, to, values, args, work, run),
        Now::Value(v) => give(v, work, run, store),
        Now::Next => next(work, run),
        Now::Back(v) => Ok(give_back(v, work, run)),
        Now::Left(home, left, way, v) => leave(alloc, world, home, left, way, v, work, run),
        Now::Begin(target, left, registers, whence) => {
            begin(alloc, world, target, left, &registers, whence, work, run)
        }
        Now::Wait => Ok(Ahead::Asks),
        Now::Take(item) => take(alloc, world, item, work, run),
        Now::Fail => Ok(Ahead::Stop(End::Fail)),
    }
}
