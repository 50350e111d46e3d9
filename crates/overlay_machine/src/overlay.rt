//! The overlay machine of a start.
ghost use Rattle.std.specs.Prelude.{◌≡◌, ◌≤◌, ◌<◌, ◌-◌, ◌^◌, ℕ, [], IfOk, IfSome, IsSome, is_some, Some};
ghost use Rattle.cap_words.specs.Text.{word_text_of};
ghost use Rattle.cap_words.specs.Face.{opened_of, OpenedInOrder};
ghost use Rattle.lcm_isa.specs.declared.Reg.{Reg as AnyReg};
ghost use Rattle.lcm_machine.specs.Places.{reg};
ghost use Rattle.lcm_machine.specs.Cells.{cell};
ghost use Rattle.std.specs.Option.{option_copied};
ghost use Rattle.overlay_machine.specs.State.{newest_size, newest_word, memory_word};
ghost use Rattle.overlay_machine.specs.Step.{weight_of};
ghost use Rattle.overlay_machine.specs.Flat.{flat};
ghost use Rattle.overlay_machine.specs.Seen.{start_word, next_overlay, answer_of, end_answer, IsOverlayOf};
ghost use Rattle.overlay_machine.specs.Keeping.{StepKeeps};
ghost use Rattle.overlay_machine.specs.Starting.{Begins};

use crate::cases::{next_case, weight};
use crate::copies::{layout_of, maps_of};
use crate::frames::framed;
use crate::laws::starts_begin;
use crate::machine::{Machine, Outcome};
use crate::words::OWord;
use arrayvec::ArrayString;
use cap_words::{Opened, Word, word_text};
use frame_region::Region;
use lcm_isa::Reg;
use lcm_machine::Span;
use lcm_machine::state::State;
use linked_starts::Start;
use std::alloc::{AllocError, Global};
use std::marker::Model;
use trusted_border::{Event, Layout};

/// What a step came to: that it went, with what is told of it, or how the machine ended.
#[derive(Clone, Copy)]
pub enum OStep {
    Went(Option<Event>),
    Halted,
    Failed,
}

/// How an overlay machine ended.
#[derive(Clone, Copy)]
pub enum OEnd {
    Halted,
    Failed,
}

impl OEnd {
    // What a step answers that ended the machine so, and each step after it.
    fn answer(self) -> OStep
        ensures { result ≡ end_answer self }
    {
        match self {
            OEnd::Halted => OStep::Halted,
            OEnd::Failed => OStep::Failed,
        }
    }
}

// How many addresses a stack has. One that ends below its base, as no start has it, counts as one of
// a single word.
fn stack_cells(stack: Span) -> u32
    ensures { stack.end - stack.base ≤ result }
{
    stack.end.saturating_sub(stack.base).saturating_add(1)
}

/// An overlay machine. A contract sees the sites, owners and stack of its start, its state, the
/// weight of the steps that went, and, once it has ended, how.
///
/// In every overlay the frames of open calls lie in the stack above its lowest address. None is
/// empty, no two have a common address, and their cells aren't in memory. The numbers of calls fall
/// from the newest frame on, and are below the count of calls.
#[derive(Drop)]
pub struct Overlay {
    layout: Layout,
    machine: Machine,
    // Registers in which the table is asked what a jump would do.
    asked: State<Word>,
    weight: u64,
    end: Option<OEnd>,
}

impl Model for Overlay {
    ghost use Rattle.std.specs.Coded.{codes, coded_ℕ};
    ghost use Rattle.std.specs.Ordering.{nat_cmp};
    ghost use Rattle.std.specs.FinMap as map;
    ghost use Rattle.trusted_border.specs.contracts.layout.Layout as layout_contracts;
    ghost use Rattle.overlay_machine.specs.contracts.words.OWord as word_contracts;
    ghost use Rattle.overlay_machine.specs.Seen.{OverlaySeen, TypeKeeps};
    ghost use Rattle.overlay_machine.specs.Machine.{overlay_of};

    ghost Value = { OverlaySeen };

    ghost coded = { Prim.hlevel (
      codes,
      layout_contracts.the_row.coded,
      word_contracts.the_row.coded,
      map.code {R = nat_cmp} coded_ℕ word_contracts.the_row.coded,
    ) };

    ghost view = { λ o. record {
      layout = o.layout;
      state = overlay_of o.machine;
      weight = o.weight;
      end = o.end;
    } };

    ghost invariant = { λ o. TypeKeeps o.layout o.machine o.weight };
}

// The machine of a start before its first step: with no frames, and room for as many words of them as
// the stack has.
fn machine_of(alloc: Global, start: &Start) -> Result<Machine, AllocError>
    ensures regs { IfOk result (λ m. (r : AnyReg) →
        reg m.maps.regs r ≡ OWord.Plain (reg start.now.state.maps.regs r)) }
    ensures cells { IfOk result (λ m. (a : ℕ) → cell m.maps.cells a ≡ start_word start.now.state.maps a) }
    ensures spans { IfOk result (λ m. m.maps.spans ≡ start.now.state.maps.spans) }
    ensures frames { IfOk result (λ m. m.frames.frames ≡ []) }
    ensures room { IfOk result (λ m. start.now.stack.end - start.now.stack.base ≤ m.frames.cells) }
    ensures calls { IfOk result (λ m. m.calls ≡ 0) }
{
    let frames = Region::reserve(alloc, stack_cells(start.stack()))?;
    let maps = maps_of(alloc, start.state())?;
    Ok(Machine {
        maps,
        frames,
        calls: 0,
    })
}

impl Overlay {
    /// The overlay machine of a start: its registers and memory, and no frames, with room for as many
    /// words of frames as the stack has. `AllocError` where the memory can't be had.
    ///
    /// Where the start is that of accepted parts that keep the rules L, the invariant holds of the
    /// overlay and of the start's own registers and cells. docs/OVERLAY.md tells the invariant.
    pub fn of_start(alloc: Global, start: &Start) -> Result<Overlay, AllocError>
        ensures is { IfOk result (IsOverlayOf start.now) }
        ensures begins { IfOk result (Begins start.now) }
    {
        starts_begin();
        let asked = State::zeros(alloc, &[])?;
        let machine = machine_of(alloc, start)?;
        let layout = layout_of(alloc, start)?;
        Ok(Overlay {
            layout,
            machine,
            asked,
            weight: 0,
            end: None,
        })
    }

    /// One step: a call, an entry, a return, or a row of the table of instructions.
    ///
    /// Where it halts or fails, state and weight stay as they were, and the machine has ended: each
    /// later step answers that end again and changes nothing. The weight before it is below 2^63.
    ///
    /// Where the invariant holds of the overlay and a plain state, for any accepted parts and a size of
    /// stack, the plain machine does the same within as many instructions as the step weighs: it goes on
    /// to a state of which the invariant holds with the new overlay, it halts at once with the same
    /// word in a0, or it fails. docs/OVERLAY.md tells the invariant.
    pub fn step(&mut self) -> OStep
        requires { self.old.weight < 2 ^ 63 }
        ensures after { self.new ≡ next_overlay self.old }
        ensures answer { result ≡ answer_of self.old }
        ensures ended { IfSome self.old.end (λ e. (result ≡ end_answer e) × (self.new ≡ self.old)) }
        ensures keeps { StepKeeps self.old result self.new }
    {
        self.advance()
    }

    // The step itself.
    #[tactic(auto, unfolding(crate::specs::Seen::next_overlay, crate::specs::Seen::answer_of, crate::specs::Step::overlay_step, crate::specs::Step::weight_of, crate::specs::Events::step_event))]
    fn advance(&mut self) -> OStep
        requires { self.old.weight < 2 ^ 63 }
        ensures after { self.new ≡ next_overlay self.old }
        ensures answer { result ≡ answer_of self.old }
    {
        if let Some(end) = self.end {
            return end.answer();
        }
        let case = next_case(&self.machine.maps, &self.layout);
        let weight = weight(&self.machine.maps, case);
        let note = self.machine.note(&self.layout, case);
        match self.machine.step(&self.layout, case) {
            Outcome::Went => {
                self.weight += u64::from(weight);
                OStep::Went(self.machine.event(&mut self.asked, &self.layout, note))
            }
            Outcome::Halted => {
                self.end = Some(OEnd::Halted);
                OStep::Halted
            }
            Outcome::Failed => {
                self.end = Some(OEnd::Failed);
                OStep::Failed
            }
        }
    }

    /// How many plain instructions the next step stands for.
    #[tactic(auto, unfolding(crate::specs::Step::weight_of))]
    pub fn next_weight(&self) -> u32
        ensures { result ≡ weight_of self.now.layout self.now.state }
    {
        weight(
            &self.machine.maps,
            next_case(&self.machine.maps, &self.layout),
        )
    }

    /// The sum of the weights of the steps that went.
    pub fn weight(&self) -> u64
        ensures { result ≡ self.now.weight }
    {
        self.weight
    }

    /// The word of a register.
    pub fn reg(&self, r: Reg) -> &OWord
        ensures { result.now ≡ reg self.now.state.maps.regs r }
    {
        self.machine.maps.reg(r)
    }

    /// Whether the address has a cell in memory.
    pub fn has_cell(&self, at: u32) -> bool
        ensures { result ≡ is_some (cell self.now.state.maps.cells at) }
    {
        self.machine.maps.has_cell(at)
    }

    /// The word of the cell at an address, which has to have one.
    pub fn cell(&self, at: u32) -> &OWord
        requires { IsSome (cell self.now.state.maps.cells at) }
        ensures { cell self.now.state.maps.cells at ≡ Some result.now }
    {
        self.machine.maps.cell(at)
    }

    /// How many words the newest open call's frame has, 0 without one.
    pub fn frame_size(&self) -> u32
        ensures { result ≡ newest_size self.now.state.frames }
    {
        match self.machine.frames.newest() {
            Some((_, size)) => size,
            None => 0,
        }
    }

    /// The word of the newest open call's frame at its base + `i`.
    pub fn frame_word(&self, i: u32) -> &OWord
        requires { i < newest_size self.now.state.frames }
        ensures { newest_word self.now.state.frames i ≡ Some result.now }
    {
        self.machine.frames.item(i)
    }

    /// The word at an address: that of its cell, or else the one that an open call's frame has there.
    pub fn word_at(&self, at: u32) -> Option<&OWord>
        ensures { option_copied result ≡ memory_word self.now.state at }
    {
        if self.machine.maps.has_cell(at) {
            Some(self.machine.maps.cell(at))
        } else {
            framed(&self.machine.frames, at)
        }
    }

    /// The text of the word that the plain machine has where the overlay has this one. It takes no
    /// memory.
    pub fn flat_text(&self, word: &OWord) -> ArrayString<128>
        ensures { result.bytes ≡ word_text_of (flat self.now.layout self.now.state.frames word.now) }
    {
        word_text(&self.machine.flat(&self.layout, word))
    }

    /// The seal and the content of the word that the plain machine has where the overlay has this one,
    /// where that is a sealed word.
    pub fn flat_opened(&self, word: &OWord) -> Option<Opened>
        ensures is { result ≡ opened_of (flat self.now.layout self.now.state.frames word.now) }
        ensures in_order { OpenedInOrder result }
    {
        self.machine.flat(&self.layout, word).opened()
    }
}
