//! The machine of a start: its memory, and its registers.
ghost use Rattle.std.specs.Prelude.{◌≡◌, ◌≤◌, IfOk};
ghost use Rattle.cap_words.specs.declared.Word.TheVariants.{Mem};
ghost use Rattle.lcm_machine.specs.declared.Place.TheVariants.{R};
ghost use Rattle.lcm_machine.specs.Row.{put};
ghost use Rattle.linked_starts.specs.Start.{registered, IsStart};
ghost use Rattle.linked_starts.specs.Linked.{Kept, Linked};

use crate::grant::StackGrant;
use crate::laying::{code_cap, data_cap};
use crate::memory::{memory, stack_of};
use crate::names::{Exported, main_of};
use crate::placed::PlacedParts;
use cap_words::{Cap, Held, LAST_PLACE, Word};
use lcm_isa::Reg;
use lcm_machine::{LcmState, Place};
use std::alloc::{AllocError, Global};

fn set_cap(state: &mut LcmState, register: Reg, cap: Cap)
    ensures { state.new ≡ record state.old { maps = put state.old.maps (R register) (Mem cap) } }
{
    state.set(Place::R(register), Held::of(Word::Mem(cap)));
}

// Sets the registers that a start sets: pc, data and stk.
fn set_registers(state: &mut LcmState, main: &Exported<'_>, grant: StackGrant)
    requires kept { Kept main.now.part }
    requires in_order { grant.stack.base ≤ grant.stack.end }
    requires in_space { grant.stack.end ≤ LAST_PLACE }
    ensures { state.new ≡ record state.old { maps = registered state.old.maps main.now grant.stack } }
{
    set_cap(state, Reg::Pc, code_cap(main));
    set_cap(state, Reg::Dat, data_cap(&main.part));
    grant.spend(state);
}

/// The machine at the start of parts that are linked, with a stack of this size.
pub(crate) fn machine(
    alloc: Global,
    parts: &PlacedParts<'_>,
    size: u32,
) -> Result<LcmState, AllocError>
    requires { Linked parts.now size }
    ensures { IfOk result (IsStart parts.now size) }
{
    let Some(main) = main_of(parts) else {
        unreachable!();
    };
    let mut state = memory(alloc, parts, size)?;
    let grant = StackGrant::of(stack_of(parts, size));
    set_registers(&mut state, &main, grant);
    Ok(state)
}
