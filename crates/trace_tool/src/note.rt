//! Notes an instruction before it is made.
ghost use Rattle.std.specs.Prelude.{◌≡◌};
ghost use Rattle.run_lines.specs.Layout.{layout};
ghost use Rattle.lcm_machine.specs.Row.{jump_at};
ghost use Rattle.run_lines.specs.Events.{noted, inward_after};

use crate::find::{site_word, trusted_owner};
use call_sequence::{CALL_WORDS, RETURN_WORDS};
use lcm_isa::{Instr, Reg};
use lcm_machine::LcmState;
use linked_starts::Start;
use run_lines::{Jump, Note};

// The register that the `xjmp` at pc opens as code, where one stands there.
#[tactic(auto, unfolding(lcm_machine::specs::Row::jump_at))]
fn jump_at(state: &LcmState) -> Option<Reg>
    ensures { result ≡ jump_at (λ w. w) state.now.maps }
{
    match state.fetch() {
        Ok((Instr::Xjmp(code, _), _)) => Some(code),
        _ => None,
    }
}

/// What is noted of the instruction that pc names.
#[tactic(auto, unfolding(run_lines::specs::Events::noted, lcm_machine::specs::Row::faces, lcm_machine::specs::Row::opens))]
pub(crate) fn noted(start: &Start) -> Note
    ensures { result ≡ noted (layout start.now) start.now.state.maps }
{
    let state = start.state();
    let pc = state.reg(Reg::Pc).face();
    if let Some(code) = jump_at(state) {
        let seal = match state.reg(code).opened() {
            Some(opened) => Some(opened.seal),
            None => None,
        };
        let from = match trusted_owner(start, pc) {
            Some(owner) => Some(owner.part),
            None => None,
        };
        return Note::Leap(Jump {
            from,
            call: site_word(start, CALL_WORDS - 1, pc),
            seal,
        });
    }
    match site_word(start, CALL_WORDS + RETURN_WORDS - 1, pc) {
        Some(site) => Note::Last(site),
        None => Note::Nothing,
    }
}

/// Whether the last `xjmp` that went stood in trusted code.
pub(crate) fn inward_after(note: Note, inward: bool) -> bool
    ensures { result ≡ inward_after note inward }
{
    match note {
        Note::Leap(jump) => jump.from.is_some(),
        _ => inward,
    }
}
