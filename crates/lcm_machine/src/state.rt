//! Registers and memory, over words of any kind.
ghost use Rattle.std.specs.Prelude.{◌≡◌, ℕ, IfOk, IsSome, is_some, IsTrue, Some, None, Option};
ghost use Rattle.cap_words.specs.Face.{FaceInOrder, OpenedInOrder, pointed};
ghost use Rattle.lcm_isa.specs.declared.Reg.TheVariants.{Pc};
ghost use Rattle.lcm_machine.specs.declared.Place.TheVariants.{R};
ghost use Rattle.lcm_machine.specs.Places.{reg};
ghost use Rattle.lcm_machine.specs.Cells.{cell, set_cell, drop_cell};
ghost use Rattle.lcm_machine.specs.Spans.{AreSpans, in_spans, slot, zero_regs};
ghost use Rattle.lcm_machine.specs.Row.{word_in, put, clear, HasPlace, faces, opens, cell_faces, face_there};
ghost use Rattle.lcm_machine.specs.Row.{pc_at};

use crate::Place;
use crate::cells::{Cells, Span};
use crate::regs::Regs;
use cap_words::{Face, Held, MachineWord, Opened, Word};
use lcm_isa::Reg;
use std::alloc::{AllocError, Global};
use std::marker::Model;

/// The registers and the memory of a machine, seen as two maps from places to words, and the spans
/// that memory has.
#[derive(Drop)]
pub struct State<W: MachineWord> {
    regs: Regs<W>,
    cells: Cells<W>,
}

impl<W: MachineWord> Model for State<W> {
    ghost use Rattle.std.specs.Coded.{codes, coded_ℕ};
    ghost use Rattle.std.specs.Ordering.{nat_cmp};
    ghost use Rattle.std.specs.FinMap as map;
    ghost use Rattle.lcm_machine.specs.Maps.{State as Maps};

    ghost Value = { Maps W };

    ghost coded = { Prim.hlevel (codes, map.code {R = nat_cmp} coded_ℕ W.code) };

    ghost view = { λ s. record { regs = s.regs; cells = s.cells.words; spans = s.cells.spans } };
}

impl<W: MachineWord> State<W> {
    /// A new state: integer 0 in every register and in a cell at every address of the spans, and no
    /// other cells. The spans lie within the address space, ascend and are disjoint.
    pub fn zeros(alloc: Global, spans: &[Span]) -> Result<State<W>, AllocError>
        requires { AreSpans 0 spans.now }
        ensures cells { IfOk result (λ s. (a : ℕ) → cell s.cells a ≡ slot W.plain spans.now a) }
        ensures regs { IfOk result (λ s. s.regs ≡ zero_regs W.plain) }
        ensures spans { IfOk result (λ s. s.spans ≡ spans.now) }
    {
        let cells = Cells::zeros(alloc, spans)?;
        Ok(State {
            regs: Regs::zeros(),
            cells,
        })
    }

    /// The spans of memory, in the order in which they were given.
    pub fn spans(&self) -> &[Span]
        ensures are { result.now ≡ self.now.spans }
        ensures in_order { AreSpans 0 result.now }
    {
        self.cells.spans()
    }

    /// The word of a register.
    pub fn reg(&self, r: Reg) -> &W
        ensures { result.now ≡ reg self.now.regs r }
    {
        self.regs.get(r)
    }

    /// Whether the address has a cell. Each cell lies in a span.
    pub fn has_cell(&self, at: u32) -> bool
        ensures is { result ≡ is_some (cell self.now.cells at) }
        ensures in_span { IsTrue result → IsTrue (in_spans at self.now.spans) }
    {
        self.cells.has(at)
    }

    /// The word of the cell at an address, which has to have one.
    pub fn cell(&self, at: u32) -> &W
        requires { IsSome (cell self.now.cells at) }
        ensures { cell self.now.cells at ≡ Some result.now }
    {
        self.cells.get(at)
    }

    /// The word of a place, which has to be there.
    #[inline(always)]
    pub fn word(&self, place: Place) -> &W
        requires { HasPlace self.now place }
        ensures { result.now ≡ word_in W.plain self.now place }
    {
        match place {
            Place::R(r) => self.regs.get(r),
            Place::Cell(at) => self.cells.get(at),
        }
    }

    /// Takes a cell out of memory, which has to be there, and gives its word. Its address, which lies
    /// in a span, has no cell then.
    pub fn remove_cell(&mut self, at: u32) -> W
        requires { IsSome (cell self.old.cells at) }
        ensures was { cell self.old.cells at ≡ Some result }
        ensures now { self.new ≡ record self.old { cells = drop_cell self.old.cells at } }
        ensures gone { cell self.new.cells at ≡ None }
        ensures in_span { IsTrue (in_spans at self.old.spans) }
    {
        self.cells.remove(at)
    }

    /// Puts a cell in, at an address that lies in a span and has none.
    pub fn insert_cell(&mut self, at: u32, word: W)
        requires in_span { IsTrue (in_spans at self.old.spans) }
        requires none { cell self.old.cells at ≡ None }
        ensures { self.new ≡ record self.old { cells = set_cell self.old.cells at word } }
    {
        self.cells.insert(at, word);
    }

    /// Sets the word of a place, which has to be there, and gives the word that was there.
    #[inline(always)]
    pub fn swap(&mut self, place: Place, word: W) -> W
        requires { HasPlace self.old place }
        ensures was { result ≡ word_in W.plain self.old place }
        ensures now { self.new ≡ put self.old place word }
    {
        match place {
            Place::R(r) => self.regs.swap(r, word),
            Place::Cell(at) => self.cells.swap(at, word),
        }
    }

    /// Sets the word of a place, which has to be there. The word that was there is dropped.
    #[inline(always)]
    pub fn set(&mut self, place: Place, held: Held<W>)
        requires { HasPlace self.old place }
        ensures { self.new ≡ put self.old place held }
    {
        let _ = self.swap(place, held.into_word());
    }

    /// Points pc to another address, where its word looks like a memory capability.
    #[inline(always)]
    pub fn point_pc(&mut self, addr: i64)
        ensures { let w = reg self.old.regs Pc in
            self.new ≡ put self.old (R Pc) (pointed W.plain addr w (W.look w)) }
    {
        self.regs.point_pc(addr);
    }

    /// Takes the word of a place, which has to be there: a linear word leaves integer 0, and another
    /// stays as a copy.
    #[tactic(auto, unfolding(crate::specs::Row::clear))]
    #[inline(always)]
    pub fn lift(&mut self, place: Place) -> Held<W>
        requires { HasPlace self.old place }
        ensures word { result ≡ word_in W.plain self.old place }
        ensures left { self.new ≡ clear W.look W.plain self.old place }
    {
        match self.word(place).copy_of() {
            Some(copy) => Held::of(copy),
            None => Held::of(self.swap(place, W::from_word(Word::Int(0)))),
        }
    }
}

/// What the table reads of a state.
impl<W: MachineWord> State<W> {
    /// What the table reads of a register's word.
    #[tactic(auto, unfolding(crate::specs::Row::faces))]
    pub fn face(&self, r: Reg) -> Face
        ensures is { result ≡ faces W.look self.now r }
        ensures in_order { FaceInOrder result }
    {
        self.word(Place::R(r)).face()
    }

    /// What is in a register's word, where that is sealed.
    #[tactic(auto, unfolding(crate::specs::Row::opens))]
    pub fn opened(&self, r: Reg) -> Option<Opened>
        ensures is { result ≡ opens W.look self.now r }
        ensures in_order { OpenedInOrder result }
    {
        self.word(Place::R(r)).opened()
    }

    // What the table reads of a cell's word, where an address is given and has a cell.
    #[inline(always)]
    #[tactic(auto, unfolding(crate::specs::Row::cell_faces))]
    pub(crate) fn there(&mut self, at: Option<u32>) -> Option<Face>
        ensures is { result ≡ face_there (cell_faces W.look self.old) at }
        ensures same { self.new ≡ self.old }
    {
        let at = at?;
        let spot = self.cells.seek(at)?;
        let word = self.cells.find_in(spot, at)?;
        Some(word.face())
    }

    // The same, for an instruction that is fetched.
    #[inline(always)]
    #[tactic(auto, unfolding(crate::specs::Row::cell_faces))]
    pub(crate) fn fetched(&mut self, at: u32) -> Option<Face>
        ensures is { result ≡ cell_faces W.look self.old at }
        ensures same { self.new ≡ self.old }
    {
        let spot = self.cells.seek_code(at)?;
        let word = self.cells.find_in(spot, at)?;
        Some(word.face())
    }

    // The same, with nothing remembered.
    #[tactic(auto, unfolding(crate::specs::Row::cell_faces))]
    pub(crate) fn code(&self, at: u32) -> Option<Face>
        ensures { result ≡ cell_faces W.look self.now at }
    {
        let word = self.cells.find_code(at)?;
        Some(word.face())
    }

    /// pc's address, or -1 where pc holds no memory capability.
    #[tactic(auto, unfolding(crate::specs::Row::pc_at))]
    pub fn pc_at(&self) -> i64
        ensures { result ≡ pc_at W.look self.now }
    {
        match self.face(Reg::Pc) {
            Face::Memory(c) => c.addr,
            _ => -1,
        }
    }
}
