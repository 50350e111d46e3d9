//! What the next step is.
ghost use Rattle.std.specs.Prelude.{◌≡◌, ◌≤◌};
ghost use Rattle.cap_words.specs.Face.{SomeCapInOrder};
ghost use Rattle.lcm_isa.specs.declared.Reg.TheVariants.{Pc};
ghost use Rattle.lcm_machine.specs.Row.{faces, cell_faces, fetch};
ghost use Rattle.overlay_machine.specs.Words.{look};
ghost use Rattle.overlay_machine.specs.Step.{case_of, case_fetched, own_stack, weight_by};
ghost use Rattle.overlay_machine.specs.Cases.{IsWithin};

use crate::words::OWord;
use call_sequence::{CALL_WORDS, ENTRY_WORDS, RETURN_WORDS};
use cap_words::CapFields;
use lcm_isa::{Instr, Reg};
use lcm_machine::state::State;
use trusted_border::Layout;

/// What a step is.
#[derive(Clone, Copy)]
pub enum Case {
    /// A call, at the site of this number.
    Call(u32),
    /// An entry, at this address.
    Entry(u32),
    /// An `xjmp` of a call's pair, or of half of one: code and data, as registers.
    Back(Reg, Reg),
    /// An instruction as on the plain machine.
    Other,
}

// What the instruction that pc names is, where pc isn't trusted at the first word of a sequence.
fn case_fetched(maps: &State<OWord>) -> Case
    ensures is { result ≡ case_fetched maps.now (fetch (faces look maps.now Pc) (cell_faces look maps.now)) }
    ensures within { IsWithin result }
{
    match maps.fetch() {
        Ok((Instr::Xjmp(r1, r2), _)) => {
            if maps.reg(r1).is_plain() && maps.reg(r2).is_plain() {
                Case::Other
            } else {
                Case::Back(r1, r2)
            }
        }
        _ => Case::Other,
    }
}

/// What the next step is: the first case that fits.
#[tactic(auto, unfolding(crate::specs::Step::case_of))]
pub(crate) fn next_case(maps: &State<OWord>, layout: &Layout) -> Case
    ensures is { result ≡ case_of layout.now maps.now }
    ensures within { IsWithin result }
{
    let Some(at) = layout.trusted_at(maps.face(Reg::Pc)) else {
        return case_fetched(maps);
    };
    if let Some(site) = layout.site_at(at) {
        return Case::Call(site);
    }
    if layout.is_entry(at) {
        return Case::Entry(at);
    }
    case_fetched(maps)
}

/// How many plain instructions a step stands for: those of its sequence, with the `xjmp` that
/// reaches it. A call by a pair always fails; the plain machine may fail at the word after it.
pub(crate) fn weight(maps: &State<OWord>, case: Case) -> u32
    ensures is { result ≡ weight_by maps.now case }
    ensures some { 1 ≤ result }
    ensures most { result ≤ ENTRY_WORDS }
{
    match case {
        Case::Call(_) if maps.reg(Reg::C1).is_ret_code() => CALL_WORDS + 1,
        Case::Call(_) => CALL_WORDS,
        Case::Entry(_) => ENTRY_WORDS,
        Case::Back(r1, _) if maps.reg(r1).is_ret_code() => RETURN_WORDS + 1,
        Case::Back(_, _) => 1,
        Case::Other => 1,
    }
}

/// stk's description, where it is a linear rw capability that begins where the stack does.
#[tactic(auto, unfolding(crate::specs::Step::own_stack))]
pub(crate) fn own_stack(maps: &State<OWord>, layout: &Layout) -> Option<CapFields>
    ensures is { result ≡ own_stack layout.now maps.now }
    ensures in_order { SomeCapInOrder result }
{
    let c = maps.face(Reg::Stk).memory()?;
    if c.lin.is_linear() && c.perm.number() == 2 && c.base == layout.stack.base {
        Some(c)
    } else {
        None
    }
}
