//! What code outside of two links has alike. These functions do nothing; their contracts are the laws.
ghost use Rattle.overlay_machine.specs.Link.{Link};
ghost use Rattle.lockstep.specs.Contexts.{NoContextTells};
ghost use Rattle.lockstep.specs.Itself.{AlikeToItself};
ghost use Rattle.lockstep.specs.Lockstep.{RunInStep};
ghost use Rattle.lockstep.specs.Related.{SameNames, OutsideStepsAlike};

/// From alike states, the next step of code outside does alike beside both lists of linked parts.
///
/// It halts in both, fails in both, stays outside in both, in states that are alike again, or comes in in
/// both. It comes in to twins of exports with the same words, or by a return to the newest call.
pub fn outside_steps_are_alike()
    ensures { (g h : Link) (names : SameNames g h) → OutsideStepsAlike g h names }
{}

/// From alike states, as long as tidying trusted parts show it the same, code outside takes the same steps
/// beside both.
///
/// It makes as many steps, comes in alike, and is at the end in states that are alike to it, from which it
/// ends alike. What is shown is each crossing and the cells that it wiped. Parts that tidy leave each cell in
/// reach as it was, or 0 on the stack.
pub fn runs_go_in_step()
    ensures { RunInStep }
{}

/// From alike states, code outside can't tell tidying trusted parts apart that show the same on each feed.
///
/// Whatever code outside does beside the one, it does beside the other.
pub fn no_context_tells<I, O>()
    ensures { NoContextTells I O }
{}

/// Each state of linked parts in which code outside runs is alike to itself.
pub fn states_are_alike_to_themselves()
    ensures { AlikeToItself }
{}
