//! One step, for words of any kind.
ghost use Rattle.std.specs.Prelude.{◌≡◌, ℕ, Option, None, IfOk, IfSome, IfNone, is_some, true, false};
ghost use Rattle.std.specs.Prelude.{MatchResult, pos};
ghost use Rattle.cap_words.specs.Face.{CapInOrder};
ghost use Rattle.cap_words.specs.declared.Face.{Face};
ghost use Rattle.lcm_isa.specs.declared.Reg.TheVariants.{Pc};
ghost use Rattle.lcm_machine.specs.Ends.{Meets};
ghost use Rattle.lcm_machine.specs.Touched.{KeepsUntouched, SameCells};
ghost use Rattle.lcm_machine.specs.Regions.{StaysHeldOnce};
ghost use Rattle.lcm_machine.specs.Within.{lies, stands_in, is_of};
ghost use Rattle.lcm_machine.specs.Row.{faces, cell_faces, fetch, fetch_word, jump_of, pc_at, step_of};
ghost use Rattle.lcm_machine.specs.Row.{none, some};

use crate::state::State;
use crate::{FailCause, Step};
use cap_words::{Cap, CapFields, Face, MachineWord, Word};
use lcm_isa::{Instr, Reg, decode};

/// Which steps are made.
#[derive(Clone, Copy)]
pub(crate) enum Which {
    /// All of them.
    All,
    /// Those that stand at an address from one on, up to below another, and make no `xjmp`.
    Within(u64, u64),
}

// The instruction of the cell that pc's capability names, and pc's word with its address raised by
// one: F2 where there is no cell, and F3 where it holds no instruction.
#[inline(always)]
fn decoded(c: CapFields, at: u32, found: Option<Face>) -> Result<(Instr, Word), FailCause>
    requires at { c.addr ≡ pos at }
    requires in_order { CapInOrder c }
    ensures { MatchResult result
        (λ p. fetch_word c found ≡ some p.0 p.1)
        (λ f. fetch_word c found ≡ none f) }
{
    let Some(found) = found else {
        return Err(FailCause::F2);
    };
    let Face::Number(word) = found else {
        return Err(FailCause::F3);
    };
    let Some(instr) = decode(word) else {
        return Err(FailCause::F3);
    };
    let next = CapFields {
        addr: i64::from(at) + 1,
        ..c
    };
    Ok((instr, Word::Mem(Cap::of(next))))
}

// Whether an address is one from `from` on, up to below `to`.
#[inline(always)]
fn lies(from: u64, to: u64, at: i64) -> bool
    ensures { result ≡ lies from to at }
{
    if at < 0 {
        return false;
    }
    let at = at as u64;
    from <= at && at < to
}

#[inline(always)]
fn is_xjmp(instr: Instr) -> bool
    ensures { result ≡ is_some (jump_of instr) }
{
    matches!(instr, Instr::Xjmp(_, _))
}

impl<W: MachineWord> State<W> {
    // pc's capability and its address, where it may run there: F1 where pc isn't a normal memory
    // capability with rx or rwx, and F2 where its address is outside its range.
    #[inline(always)]
    #[tactic(auto, unfolding(crate::specs::Row::fetch))]
    fn runs_at(&self) -> Result<(CapFields, u32), FailCause>
        ensures is { MatchResult result
            (λ p. (cells : ℕ → Option Face)
            → fetch (faces W.look self.now Pc) cells ≡ fetch_word p.0 (cells p.1))
            (λ f. (cells : ℕ → Option Face) → fetch (faces W.look self.now Pc) cells ≡ none f) }
        ensures at { IfOk result (λ p. p.0.addr ≡ pos p.1) }
        ensures in_order { IfOk result (λ p. CapInOrder p.0) }
    {
        let face = self.face(Reg::Pc);
        let Some(c) = face.memory() else {
            return Err(FailCause::F1);
        };
        if c.lin.is_linear() || !c.perm.may_run() {
            return Err(FailCause::F1);
        }
        let Some(at) = face.target() else {
            return Err(FailCause::F2);
        };
        Ok((c, at))
    }

    /// The instruction that pc names, and pc's word with its address raised by one.
    ///
    /// F1 where pc isn't a normal memory capability with rx or rwx; F2 where its address is outside
    /// its range or has no cell; F3 where the cell holds no instruction.
    pub fn fetch(&self) -> Result<(Instr, Word), FailCause>
        ensures { MatchResult result
            (λ p. fetch (faces W.look self.now Pc) (cell_faces W.look self.now) ≡ some p.0 p.1)
            (λ f. fetch (faces W.look self.now Pc) (cell_faces W.look self.now) ≡ none f) }
    {
        let (c, at) = self.runs_at()?;
        let found = self.code(at);
        decoded(c, at, found)
    }

    // The same, and the span is remembered.
    #[inline(always)]
    fn fetch_on(&mut self) -> Result<(Instr, Word), FailCause>
        ensures is { MatchResult result
            (λ p. fetch (faces W.look self.old Pc) (cell_faces W.look self.old) ≡ some p.0 p.1)
            (λ f. fetch (faces W.look self.old Pc) (cell_faces W.look self.old) ≡ none f) }
        ensures same { self.new ≡ self.old }
    {
        let (c, at) = self.runs_at()?;
        let found = self.fetched(at);
        decoded(c, at, found)
    }

    // Whether these are steps at pc's address.
    #[inline(always)]
    fn stands_in(&self, which: Which) -> bool
        ensures { result ≡ stands_in which (pc_at W.look self.now) }
    {
        match which {
            Which::All => true,
            Which::Within(from, to) => lies(from, to, self.pc_at()),
        }
    }

    // Fetches an instruction and carries it out, if that is one of these steps: else `None`, and nothing
    // changes. What instructions do is compiled into whatever calls this, and into `step`.
    #[inline(always)]
    #[tactic(auto, unfolding(crate::specs::Row::step_of, crate::specs::Row::jump_at, crate::specs::Within::is_of))]
    pub(crate) fn advance(&mut self, which: Which) -> Option<Step>
        ensures none { IfNone result (is_of W.look which self.old ≡ false) }
        ensures same { IfNone result (self.new ≡ self.old) }
        ensures some { IfSome result (λ _. is_of W.look which self.old ≡ true) }
        ensures meets { IfSome result (λ step.
            Meets self.old (step_of W.look W.plain self.old) step self.new) }
    {
        if !self.stands_in(which) {
            return None;
        }
        match self.fetch_on() {
            Err(cause) => Some(Step::Failed(cause, self.pc_at())),
            Ok((instr, next)) => {
                if is_xjmp(instr) && matches!(which, Which::Within(_, _)) {
                    None
                } else {
                    Some(self.execute(instr, next))
                }
            }
        }
    }

    /// One step: fetches an instruction and carries it out. Where the step halts or fails, the state
    /// stays as it was. The spans stay, and so does which addresses have cells. A cell changes only
    /// where the step touches it: the one that it fetches, and the one that its instruction loads from
    /// or stores to.
    ///
    /// No linear memory comes to be held twice. Take any regions of addresses with a gap between
    /// each two, each region linear or normal. If each memory capability of a register or a cell,
    /// sealed or not, lies in one region and is linear exactly where that region is, and if no two
    /// places have capabilities over one address of a linear region, then both hold after the step.
    #[tactic(auto, unfolding(crate::specs::Row::step_of))]
    pub fn step(&mut self) -> Step
        ensures meets { Meets self.old (step_of W.look W.plain self.old) result self.new }
        ensures same_cells { SameCells self.old self.new }
        ensures untouched { KeepsUntouched W.look self.old self.new }
        ensures held_once { StaysHeldOnce W.look self.old self.new }
    {
        match self.fetch_on() {
            Err(cause) => Step::Failed(cause, self.pc_at()),
            Ok((instr, next)) => self.execute(instr, next),
        }
    }
}
