//! The plain machine: registers and memory of plain words, with a count of steps and an end.
ghost use Rattle.std.specs.Prelude.{◌≡◌, ◌≢◌, ◌+◌, ◌<◌, ◌≤◌, ◌^◌, ℕ, IfOk, IfSome, IsSome, is_some};
ghost use Rattle.std.specs.Prelude.{IsTrue, Some, None, option_map, true, false, MatchResult};
ghost use Rattle.lcm_machine.specs.Places.{reg};
ghost use Rattle.lcm_machine.specs.Cells.{cell};
ghost use Rattle.lcm_isa.specs.declared.Reg.TheVariants.{Pc};
ghost use Rattle.lcm_machine.specs.Row.{word_in, put, clear, HasPlace, faces, cell_faces, fetch, some, none};
ghost use Rattle.lcm_machine.specs.Row.{pc_at};
ghost use Rattle.lcm_machine.specs.Touched.{KeepsUntouched, SameCells};
ghost use Rattle.lcm_machine.specs.Regions.{StaysHeldOnce};
ghost use Rattle.lcm_machine.specs.Ends.{end_answer};
ghost use Rattle.lcm_machine.specs.Run.{next_state, answer, plain};
ghost use Rattle.lcm_machine.specs.Within.{is_next, within};
ghost use Rattle.lcm_machine.specs.Back.{back, CanUndo, notes};
ghost use Rattle.lcm_machine.specs.Spans.{AreSpans, in_spans, slot, zero_regs};

use crate::cells::Span;
use crate::state::State;
use crate::steps::Which;
use crate::undo::Undo;
use crate::{End, FailCause, Place, Step};
use cap_words::{Held, Word};
use lcm_isa::{Instr, Reg};
use std::alloc::{AllocError, Global};
use std::marker::Model;

/// A plain machine: its registers and memory, how many steps it has made, and, once it has ended,
/// how.
#[derive(Drop)]
pub struct LcmState {
    maps: State<Word>,
    count: u64,
    end: Option<End>,
}

impl Model for LcmState {
    ghost use Rattle.std.specs.Coded.{codes, coded_ℕ};
    ghost use Rattle.std.specs.Ordering.{nat_cmp};
    ghost use Rattle.std.specs.FinMap as map;
    ghost use Rattle.cap_words.specs.contracts.Word as word;
    ghost use Rattle.lcm_machine.specs.Run.{Run};

    ghost Value = { Run };

    ghost coded = { Prim.hlevel (codes, map.code {R = nat_cmp} coded_ℕ word.the_row.coded) };

    ghost view = { λ s. record { maps = s.maps; count = s.count; end = s.end } };
}

impl LcmState {
    /// A new machine: integer 0 in every register and in a cell at every address of the spans, no
    /// other cells, no step made, and not ended.
    ///
    /// Each span is a range of addresses up to 1,048,575, both ends included, and they ascend and
    /// are disjoint. `AllocError` where the memory can't be had.
    pub fn make(alloc: Global, spans: &[Span]) -> Result<LcmState, AllocError>
        requires { AreSpans 0 spans.now }
        ensures cells { IfOk result (λ s. (a : ℕ) → cell s.maps.cells a ≡ slot (λ w. w) spans.now a) }
        ensures regs { IfOk result (λ s. s.maps.regs ≡ zero_regs (λ w. w)) }
        ensures spans { IfOk result (λ s. s.maps.spans ≡ spans.now) }
        ensures fresh { IfOk result (λ s. (s.count ≡ 0) × (s.end ≡ None)) }
    {
        let maps = State::zeros(alloc, spans)?;
        Ok(LcmState {
            maps,
            count: 0,
            end: None,
        })
    }

    /// How many steps the machine has made, the last one included.
    pub fn count(&self) -> u64
        ensures { result ≡ self.now.count }
    {
        self.count
    }

    /// The spans of memory, in the order in which they were given.
    pub fn spans(&self) -> &[Span]
        ensures are { result.now ≡ self.now.maps.spans }
        ensures in_order { AreSpans 0 result.now }
    {
        self.maps.spans()
    }

    /// The word of a register.
    pub fn reg(&self, r: Reg) -> &Word
        ensures { result.now ≡ reg self.now.maps.regs r }
    {
        self.maps.reg(r)
    }

    /// pc's address, or -1 where pc holds no memory capability.
    pub fn pc_at(&self) -> i64
        ensures { result ≡ pc_at (λ w. w) self.now.maps }
    {
        self.maps.pc_at()
    }

    /// Whether the address has a cell. Each cell lies in a span.
    pub fn has_cell(&self, at: u32) -> bool
        ensures is { result ≡ is_some (cell self.now.maps.cells at) }
        ensures in_span { IsTrue result → IsTrue (in_spans at self.now.maps.spans) }
    {
        self.maps.has_cell(at)
    }

    /// The word of the cell at an address, which has to have one.
    pub fn cell(&self, at: u32) -> &Word
        requires { IsSome (cell self.now.maps.cells at) }
        ensures { cell self.now.maps.cells at ≡ Some result.now }
    {
        self.maps.cell(at)
    }

    /// The instruction that pc names, and pc's word with its address raised by one, or the cause for
    /// which there is none: as [`State::fetch`] tells them.
    pub fn fetch(&self) -> Result<(Instr, Word), FailCause>
        ensures { MatchResult result
            (λ p. fetch (faces (λ w. w) self.now.maps Pc) (cell_faces (λ w. w) self.now.maps) ≡ some p.0 p.1)
            (λ f. fetch (faces (λ w. w) self.now.maps Pc) (cell_faces (λ w. w) self.now.maps) ≡ none f) }
    {
        self.maps.fetch()
    }

    // So many steps, as long as the next one is one of these and the machine hasn't ended. How many were
    // made.
    //
    // Every step of this machine is made here: what instructions do is compiled once, into this loop. The
    // count and the end are set after it.
    #[inline(never)]
    fn go(&mut self, n: u64, which: Which) -> u64
        requires room { self.old.count + n ≤ 2 ^ 63 }
        ensures after { self.new ≡ plain result self.old }
        ensures most { result ≤ n }
        ensures made { (k : ℕ) → k < result → is_next which (plain k self.old) ≡ true }
        ensures stops { result < n → is_next which self.new ≡ false }
    {
        if self.end.is_some() {
            return 0;
        }
        for made in 0..n {
            match self.maps.advance(which) {
                Some(Step::Went) => {}
                Some(Step::Halted) => return self.finish(made, End::Halted),
                Some(Step::Failed(cause, at)) => return self.finish(made, End::Failed(cause, at)),
                None => {
                    self.count += made;
                    return made;
                }
            }
        }
        self.count += n;
        n
    }

    // The machine has ended so, by one step after so many that went. How many that makes.
    fn finish(&mut self, made: u64, end: End) -> u64
        requires { self.old.count + made < 2 ^ 63 }
        ensures all { result ≡ made + 1 }
        ensures ended { self.new ≡ record self.old { count = self.old.count + made + 1; end = Some end } }
    {
        self.count += made + 1;
        self.end = Some(end);
        made + 1
    }

    /// One step: the machine fetches the instruction that pc names and carries it out.
    ///
    /// The count rises by one, also with a step that halts or fails. Such a step leaves registers
    /// and cells as they were, and ends the machine: each later step answers that end again and
    /// changes nothing, not even the count. The count may not pass 2^63.
    ///
    /// The spans stay, and so does which addresses have cells. A cell changes only where the step
    /// touches it: the one that it fetches, and the one that its instruction loads from or stores to.
    ///
    /// No linear memory comes to be held twice: [`State::step`] says in which sense.
    pub fn step(&mut self) -> Step
        requires { self.old.count < 2 ^ 63 }
        ensures after { self.new ≡ next_state self.old }
        ensures answer { result ≡ answer self.new }
        ensures ended { IfSome self.old.end (λ e. (result ≡ end_answer e) × (self.new ≡ self.old)) }
        ensures stays { result ≢ Step.Went → self.new.maps ≡ self.old.maps }
        ensures same_cells { SameCells self.old.maps self.new.maps }
        ensures untouched { KeepsUntouched (λ w. w) self.old.maps self.new.maps }
        ensures held_once { StaysHeldOnce (λ w. w) self.old.maps self.new.maps }
    {
        let _ = self.go(1, Which::All);
        self.last_answer()
    }

    /// How the machine ended, as each later step answers it. `None` exactly where it hasn't.
    pub fn ended(&self) -> Option<Step>
        ensures { result ≡ option_map end_answer self.now.end }
    {
        match self.end {
            None => None,
            Some(end) => Some(end.answer()),
        }
    }

    /// The same step, and what takes it back. Where the machine has ended, that changes nothing.
    #[tactic(auto, using(crate::proofs::BackLemmas::stepped_back, crate::proofs::BackLemmas::stepped_can))]
    pub fn step_noted(&mut self) -> (Step, Undo)
        requires { self.old.count < 2 ^ 63 }
        ensures back { back self.new result.1 ≡ self.old }
        ensures can { CanUndo self.new result.1 }
        ensures after { self.new ≡ next_state self.old }
        ensures answer { result.0 ≡ answer self.new }
        ensures ended { IfSome self.old.end (λ e. (result.0 ≡ end_answer e) × (self.new ≡ self.old)) }
        ensures stays { result.0 ≢ Step.Went → self.new.maps ≡ self.old.maps }
        ensures same_cells { SameCells self.old.maps self.new.maps }
        ensures untouched { KeepsUntouched (λ w. w) self.old.maps self.new.maps }
        ensures held_once { StaysHeldOnce (λ w. w) self.old.maps self.new.maps }
    {
        let undo = self.maps.noted(self.count, self.end);
        (self.step(), undo)
    }

    /// Puts back what was noted: registers, cell, count and end. The cell has to be there, and the
    /// count may not be below the noted one. After the step that was noted, this is the state before
    /// it. Any other note may bring a linear word back that is elsewhere by then: so that no linear
    /// memory is held twice isn't said of this call.
    #[tactic(auto, unfolding(crate::specs::Back::back, crate::specs::Back::CanUndo))]
    pub fn undo(&mut self, u: Undo)
        requires { CanUndo self.old u }
        ensures { self.new ≡ back self.old u }
    {
        let Undo {
            count,
            end,
            pc,
            first,
            second,
            third,
            cell,
        } = u;
        self.maps.put_back(pc, first, second, third, cell);
        self.count = count;
        self.end = end;
    }

    /// So many steps, or up to the end where that comes first. The answer is that of the last step,
    /// and after an end again that end.
    ///
    /// The count may not pass 2^63. The spans stay, and so does which addresses have cells. No linear
    /// memory comes to be held twice by a run of any length: [`State::step`] says in which sense.
    pub fn run(&mut self, n: u64) -> Step
        requires { self.old.count + n ≤ 2 ^ 63 }
        ensures after { self.new ≡ plain n self.old }
        ensures answer { result ≡ answer self.new }
        ensures ended { IfSome self.old.end (λ e. (result ≡ end_answer e) × (self.new ≡ self.old)) }
        ensures same_cells { SameCells self.old.maps self.new.maps }
        ensures held_once { StaysHeldOnce (λ w. w) self.old.maps self.new.maps }
    {
        let _ = self.go(n, Which::All);
        self.last_answer()
    }

    /// Up to so many steps, each made where pc's address is `from` or above it and below `to`, and the
    /// instruction there is no `xjmp`: it stops before the first step of which that doesn't hold, and
    /// after one that ends the machine. How many were made, and the answer of the last one; where none
    /// was made that is `Went`, or how the machine had ended.
    ///
    /// The count may not pass 2^63. The spans stay, and so does which addresses have cells. No linear
    /// memory comes to be held twice: [`State::step`] says in which sense.
    pub fn run_within(&mut self, n: u64, from: u64, to: u64) -> (u64, Step)
        requires { self.old.count + n ≤ 2 ^ 63 }
        ensures after { self.new ≡ plain result.0 self.old }
        ensures most { result.0 ≤ n }
        ensures made { (k : ℕ) → k < result.0 → within from to (plain k self.old) ≡ true }
        ensures stops { result.0 < n → within from to self.new ≡ false }
        ensures answer { result.1 ≡ answer self.new }
        ensures same_cells { SameCells self.old.maps self.new.maps }
        ensures held_once { StaysHeldOnce (λ w. w) self.old.maps self.new.maps }
    {
        let made = self.go(n, Which::Within(from, to));
        (made, self.last_answer())
    }

    // What the last step answered: how the machine ended, or that it went.
    fn last_answer(&self) -> Step
        ensures { result ≡ answer self.now }
    {
        match self.end {
            None => Step::Went,
            Some(end) => end.answer(),
        }
    }

    /// Takes the word of a place, which has to be there: a linear word leaves integer 0, and another
    /// stays as a copy.
    pub fn lift(&mut self, place: Place) -> Held<Word>
        requires { HasPlace self.old.maps place }
        ensures word { result ≡ word_in (λ w. w) self.old.maps place }
        ensures left { self.new ≡ record self.old { maps = clear (λ w. w) (λ w. w) self.old.maps place } }
    {
        self.maps.lift(place)
    }

    /// Sets the word of a place, which has to be there. The word that was there is dropped.
    pub fn set(&mut self, place: Place, held: Held<Word>)
        requires { HasPlace self.old.maps place }
        ensures { self.new ≡ record self.old { maps = put self.old.maps place held } }
    {
        self.maps.set(place, held);
    }
}
