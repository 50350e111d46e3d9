//! What holds of the overlay's definitions. These functions do nothing; their contracts are the laws.
ghost use Rattle.std.specs.Prelude.{◌≡◌, ◌↔◌, ℕ, List};
ghost use Rattle.cap_words.specs.declared.Word.{Word};
ghost use Rattle.lcm_machine.specs.Maps.{State};
ghost use Rattle.lcm_machine.specs.Row.{went};
ghost use Rattle.linked_starts.specs.LinkedStarts.{IsLinkedStart};
ghost use Rattle.trusted_border.specs.declared.layout.Layout.{Layout};
ghost use Rattle.overlay_machine.specs.State.{OState};
ghost use Rattle.overlay_machine.specs.Step.{halts, overlay_step, weight_of};
ghost use Rattle.overlay_machine.specs.Flat.{StandsForOne};
ghost use Rattle.overlay_machine.specs.Runs.{Reached, plain_run, RunsAgree};
ghost use Rattle.overlay_machine.specs.Link.{Link};
ghost use Rattle.overlay_machine.specs.Linked.{IsLink};
ghost use Rattle.overlay_machine.specs.Invariant.{Invariant, StepsKeep};
ghost use Rattle.overlay_machine.specs.Cover.{CoverIsOnce};
ghost use Rattle.overlay_machine.specs.Privacy.{AllFramesArePrivate};
ghost use Rattle.linked_starts.specs.Parts.{PartSeen};
ghost use Rattle.linked_starts.specs.Started.{StartSeen};
ghost use Rattle.overlay_machine.specs.Seen.{OverlaySeen, IsOverlayOf};
ghost use Rattle.overlay_machine.specs.Starting.{overlay_at, StartsBegin, AgreesFromStart};
ghost use Rattle.overlay_machine.specs.Starting.{StartThere};
ghost use Rattle.overlay_machine.specs.Names.{StartsTellNames};

use call_sequence::laws::{sequences_stand, sequences_stand_word_by_word};

/// Each state of the overlay stands for exactly one plain state.
///
/// So it is whatever the layout.
pub fn each_state_stands_for_one()
    ensures { (l : Layout) (o : OState) → StandsForOne l o }
{}

/// A step of the overlay that halts stands for one plain instruction.
pub fn a_halt_weighs_one()
    ensures { (l : Layout) (o : OState) → overlay_step l o ≡ halts → weight_of l o ≡ 1 }
{}

/// A step of the overlay and the plain instructions it stands for keep the invariant of linked parts, both
/// halt, or both fail.
///
/// Let the parts of a link be there, and let the invariant hold of an overlay and the plain state that it
/// stands for. Then after the step and the instructions for which it stands, both went on and the invariant
/// holds again, both halted, or both failed: whatever the step is, and whatever untrusted code is among the
/// parts. docs/OVERLAY.md tells the invariant part by part.
pub fn steps_keep_the_invariant()
    ensures { StepsKeep }
{}

/// No linear address is held twice if and only if each counts at most once over the overlay's registers,
/// cells and frames.
///
/// 'Held twice' is said of the plain state for which the overlay stands, whose frames lie in order. A word of
/// the overlay counts if it stands for a memory capability over the address, a RetData for one over its
/// frame.
pub fn cover_counts_once()
    ensures { CoverIsOnce }
{}

/// If the invariant holds, overlay and plain run agree at each matched point, where it holds again:
/// simulation.
///
/// At each matched point the plain state is the overlay flattened. The one halts if and only if the other
/// does. If the one fails the other does, the plain run within the weight of the overlay's step. A plain run
/// that goes stands at a matched point, or less than the weight of the next step after it.
pub fn linked_runs_agree()
    ensures runs { (g : Link) (o : OState) (t : State Word) → IsLink g → Invariant g o t
        → RunsAgree g.layout o t }
    ensures kept { (g : Link) (o p : OState) (t : State Word) (j : ℕ) → IsLink g → Invariant g o t
        → Reached g.layout o j p → (u : State Word) × (plain_run j t ≡ went u) × Invariant g p u }
{}

/// If the invariant holds, no plain instruction touches an open call's frame, nor does the `xjmp` back, up to
/// each matched point.
///
/// The run is from an overlay of linked parts with the invariant at which the call is open, up to each
/// matched point at which it is open still. To touch an address is to fetch from it, load from it or store to
/// it.
pub fn frames_are_private()
    ensures { AllFramesArePrivate }
{}

/// The overlay of each linked start begins with the invariant.
///
/// Let an overlay be that of a start, and let the start be that of some accepted parts, which keep the rules
/// L with some size of stack. Then the parts are linked in the overlay's layout, and the invariant holds of
/// the overlay and of the start's own registers and cells.
pub fn starts_begin()
    ensures { StartsBegin }
{
    sequences_stand();
    sequences_stand_word_by_word();
}

/// A linked start has one overlay, which is a function of the start.
pub fn a_start_has_one_overlay()
    ensures { (parts : List PartSeen) (size : ℕ) (s : StartSeen) → IsLinkedStart parts size s
        → (o : OverlaySeen) → IsOverlayOf s o ↔ (o ≡ overlay_at s) }
{}

/// From each linked start overlay and plain run agree at matched points, and open calls' frames are private.
///
/// Let a start be that of some accepted parts, which keep the rules L with some size of stack. Then the plain
/// run from it and the run of its overlay agree at matched points, in halts and in failures. At each matched
/// point the invariant holds, and the frames of the calls that are open there are private up to each later
/// one at which they are open still. Of no part more is asked than that it was accepted and linked.
pub fn linked_starts_agree()
    ensures { (parts : List PartSeen) (size : ℕ) (s : StartSeen) → IsLinkedStart parts size s
        → AgreesFromStart parts size s }
{
    starts_begin();
    a_start_has_one_overlay();
    linked_runs_agree();
    frames_are_private();
}

/// A linked start's layout tells owner and name of trusted parts, and name, address and seal of entries and
/// sites.
///
/// A trusted part has one owner, that of its closure seal and the one who runs wherever pc is over its code,
/// and the name of its number is its component's. Where pc stands at an entry of it, the entry's number has
/// the name of the first export there. Each site of it has a number, found by its address and by its seal;
/// and the number of a site tells its part and its index.
pub fn starts_tell_names()
    ensures { StartsTellNames }
{}

/// There is a linked start of a trusted part with site and entry, and an untrusted one.
pub fn a_linked_start_may_come()
    ensures { StartThere }
{}
