//! The right to the stack of a start.
ghost use Rattle.std.specs.Prelude.{◌≡◌, ◌≤◌};
ghost use Rattle.linked_starts.specs.Start.{with_stack};

use cap_words::{Cap, Held, LAST_PLACE, Lin, Perm, Word};
use lcm_isa::Reg;
use lcm_machine::{LcmState, Place, Span};

/// The right to make the one capability over a stack.
///
/// It is neither `Clone` nor `Drop`: a path that doesn't spend it is a compile error. Nothing else here
/// makes a capability over a stack.
pub(crate) struct StackGrant {
    stack: Span,
}

impl StackGrant {
    /// The right to a stack of these addresses.
    pub(crate) fn of(stack: Span) -> StackGrant
        ensures { result ≡ record { stack = stack } }
    {
        StackGrant { stack }
    }

    /// Spends it: the register stk gets the linear capability over the whole stack, at its end.
    pub(crate) fn spend(self, state: &mut LcmState)
        requires in_order { self.stack.base ≤ self.stack.end }
        requires in_space { self.stack.end ≤ LAST_PLACE }
        ensures { state.new ≡ record state.old { maps = with_stack state.old.maps self.stack } }
    {
        let StackGrant { stack } = self;
        let at = i64::from(stack.end);
        let cap = Cap::new(Perm::Rw, Lin::Linear, stack.base, stack.end, at);
        state.set(Place::R(Reg::Stk), Held::of(Word::Mem(cap)));
    }
}
