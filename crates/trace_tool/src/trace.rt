//! A run of the overlay, with its lines and its end line.
ghost use Rattle.std.specs.Prelude.{◌≡◌, ◌≤◌, ◌^◌};
ghost use Rattle.std.specs.Prelude.{ℕ, List};
ghost use Rattle.linked_starts.specs.Parts.{PartSeen};
ghost use Rattle.linked_starts.specs.LinkedStarts.{IsLinkedStart};
ghost use Rattle.headline.specs.Headline.{Headline};
ghost use Rattle.overlay_machine.specs.Seen.{IsOverlayOf};
ghost use Rattle.run_lines.specs.Traces.{Traces};

use crate::end_lines::{failed_line, halted_line, running_line};
use crate::run::finish;
use crate::write::tell;
use headline::laws::the_headline;
use linked_starts::Start;
use outside_io::{Failed, Sink};
use overlay_machine::{OStep, Overlay};
use run_lines::RunEnd;

/// Runs the overlay of a start while the weights of its steps keep within the limit, or up to its
/// end, and writes the line of each event and the end line. It needs no memory.
///
/// The run stops before a step whose weight would take the sum past the limit. WriteFault comes only
/// of a write that failed: the run stops there, and a front of the whole text stands.
pub fn run_overlay<S: Sink>(overlay: &mut Overlay, start: &Start, steps: u64, out: &mut S) -> RunEnd
    requires of { IsOverlayOf start.now overlay.old }
    requires steps { steps ≤ 2 ^ 63 }
    ensures traces { Traces steps overlay.old (S.seen out.old) overlay.new (S.seen out.new) result }
    ensures headline { (parts : List PartSeen) (size : ℕ) → IsLinkedStart parts size start.now
        → Headline start.now }
{
    the_headline();
    loop {
        let sum = overlay.weight();
        let weight = u64::from(overlay.next_weight());
        if sum + weight > steps {
            let line = running_line(overlay, sum);
            return finish(out, line.as_str(), RunEnd::Running);
        }
        match overlay.step() {
            OStep::Went(event) => {
                match tell(start, overlay, event, out) {
                    Ok(()) => {}
                    Err(Failed) => return RunEnd::WriteFault,
                }
            }
            OStep::Halted => {
                let line = halted_line(overlay, sum + weight);
                return finish(out, line.as_str(), RunEnd::Halted);
            }
            OStep::Failed => {
                let line = failed_line(overlay, sum);
                return finish(out, line.as_str(), RunEnd::Failed);
            }
        }
    }
}
