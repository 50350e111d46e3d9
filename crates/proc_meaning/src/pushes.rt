//! Further entries of the list, and expressions that are evaluated before their turn comes.
ghost use Rattle.std.specs.Prelude.{◌≡◌, ◌+◌, ◌*◌, IfOk, OnOk, length, reverse, [], ◌∷◌, ◌++◌};
ghost use Rattle.proc_semantics.specs.Told.{tick};
ghost use Rattle.proc_semantics.specs.Values.{World, Store};
ghost use Rattle.proc_semantics.specs.Meaning.{expr};
ghost use Rattle.proc_semantics.specs.Whole.{whole};
ghost use Rattle.proc_meaning.specs.declared.places.Run.{Run};
ghost use Rattle.proc_meaning.specs.Rest.{with_value, ahead_of, IsLess};

use crate::work::{Ahead, Now, Work};
use proc_program::Exp;
use std::alloc::AllocError;

/// A further entry.
pub(crate) fn put<'a>(w: Work<'a>, work: &mut Vec<Work<'a>>) -> Result<(), AllocError>
    ensures { OnOk result (work.new.items ≡ work.old.items ++ w.entry ∷ []) }
{
    Ok(work.push(w)?)
}

/// An expression is evaluated at once, and this is done with its value.
pub(crate) fn at_once<'a>(
    e: &'a Exp,
    w: Work<'a>,
    work: &mut Vec<Work<'a>>,
) -> Result<Ahead<'a>, AllocError>
    ensures same { IfOk result (λ a. (world : World) (r : Run) (st : Store) →
        expr world (whole world) r.frame r.env.items e.now
        (with_value world (w.entry ∷ reverse work.old.items) r.frame r.env.items) st
        ≡ ahead_of world a work.new.items r st) }
    ensures less { IfOk result (λ a. IsLess a work.new.items (2 * length work.old.items + 3)) }
{
    put(w, work)?;
    Ok(Ahead::Free(Now::Eval(e)))
}

/// An expression is evaluated after a tick, and this is done with its value.
pub(crate) fn after_tick<'a>(
    e: &'a Exp,
    w: Work<'a>,
    work: &mut Vec<Work<'a>>,
) -> Result<Ahead<'a>, AllocError>
    ensures same { IfOk result (λ a. (world : World) (r : Run) (st : Store) →
        tick (expr world (whole world) r.frame r.env.items e.now
        (with_value world (w.entry ∷ reverse work.old.items) r.frame r.env.items) st)
        ≡ ahead_of world a work.new.items r st) }
    ensures less { IfOk result (λ a. IsLess a work.new.items (2 * length work.old.items)) }
{
    put(w, work)?;
    Ok(Ahead::Ticked(1, Now::Eval(e)))
}
