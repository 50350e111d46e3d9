//! What a step is noted by, so that it can be taken back.
ghost use Rattle.std.specs.Prelude.{◌≡◌, Some, None};
ghost use Rattle.lcm_isa.specs.declared.Reg.TheVariants.{Pc};
ghost use Rattle.lcm_machine.specs.Row.{faces};
ghost use Rattle.lcm_machine.specs.Table.{target};
ghost use Rattle.lcm_machine.specs.Places.{reg};
ghost use Rattle.lcm_machine.specs.Back.{changed_by, noted_reg, noted_cell, old_reg, old_regs, old_cell};
ghost use Rattle.lcm_machine.specs.Back.{notes, changed_in, target_in, IsCellThere};

use crate::state::State;
use crate::{End, Place};
use cap_words::Word;
use lcm_isa::{Instr, Operand, Reg};

/// The registers besides pc that an instruction may change.
#[derive(Clone, Copy)]
pub struct Changed {
    pub first: Option<Reg>,
    pub second: Option<Reg>,
    pub third: Option<Reg>,
}

/// A register and the word that it held.
#[derive(Drop)]
pub struct OldReg {
    pub reg: Reg,
    pub word: Word,
}

/// The address of a cell and the word that it held.
#[derive(Drop)]
pub struct OldCell {
    pub at: u32,
    pub word: Word,
}

/// What a step may have changed, as it was before: the count, the end, pc, up to three more
/// registers, and up to one cell.
///
/// Its words are notes and give no right. It can't be copied, and has to be used up: by
/// [`LcmState::undo`](crate::LcmState::undo), or by [`Undo::forget`].
pub struct Undo {
    pub(crate) count: u64,
    pub(crate) end: Option<End>,
    pub(crate) pc: Word,
    pub(crate) first: Option<OldReg>,
    pub(crate) second: Option<OldReg>,
    pub(crate) third: Option<OldReg>,
    pub(crate) cell: Option<OldCell>,
}

impl Undo {
    /// Lets the step stand for good.
    pub fn forget(self) {
        let Undo {
            count: _,
            end: _,
            pc: _,
            first: _,
            second: _,
            third: _,
            cell: _,
        } = self;
    }
}

impl Changed {
    // Up to three registers.
    fn of(first: Option<Reg>, second: Option<Reg>, third: Option<Reg>) -> Changed
        ensures { result ≡ record { first = first; second = second; third = third } }
    {
        Changed {
            first,
            second,
            third,
        }
    }

    // Those of an instruction.
    #[tactic(auto, unfolding(crate::specs::Back::changed_by))]
    fn by(instr: Instr) -> Changed
        ensures { result ≡ changed_by instr }
    {
        match instr {
            Instr::Fail | Instr::Halt => Changed::of(None, None, None),
            Instr::Jmp(r1)
            | Instr::Jnz(r1, _)
            | Instr::Gettype(r1, _)
            | Instr::Geta(r1, _)
            | Instr::Getb(r1, _)
            | Instr::Gete(r1, _)
            | Instr::Getp(r1, _)
            | Instr::Getlin(r1, _)
            | Instr::Move(r1, Operand::Imm(_))
            | Instr::Load(r1, _)
            | Instr::Cca(r1, _)
            | Instr::Restrict(r1, _)
            | Instr::Lt(r1, _, _)
            | Instr::Plus(r1, _, _)
            | Instr::Minus(r1, _, _)
            | Instr::Seta2b(r1)
            | Instr::Cseal(r1, _) => Changed::of(Some(r1), None, None),
            Instr::Store(_, r2) => Changed::of(Some(r2), None, None),
            Instr::Move(r1, Operand::R(r2)) => Changed::of(Some(r1), Some(r2), None),
            Instr::Xjmp(_, r2) => Changed::of(Some(r2), Some(Reg::Dat), None),
            Instr::Split(r1, r2, r3, _) | Instr::Splice(r1, r2, r3) => Changed::of(
                Some(r1),
                Some(r2),
                Some(r3),
            ),
        }
    }
}

impl State<Word> {
    // The address of the cell that an instruction loads from or stores to, where it is in the range.
    fn target(&self, instr: Instr) -> Option<u32>
        ensures { result ≡ target instr (faces (λ w. w) self.now) }
    {
        match instr {
            Instr::Store(r1, _) => self.face(r1).target(),
            Instr::Load(_, r2) => self.face(r2).target(),
            _ => None,
        }
    }

    // A register's word as it is.
    fn noted_reg(&self, r: Option<Reg>) -> Option<OldReg>
        ensures { result ≡ noted_reg self.now.regs r }
    {
        let r = r?;
        Some(OldReg {
            reg: r,
            word: self.reg(r).made_anew(),
        })
    }

    // A cell's word as it is, where the address has one.
    fn noted_cell(&self, at: Option<u32>) -> Option<OldCell>
        ensures { result ≡ noted_cell self.now.cells at }
    {
        let at = at?;
        if !self.has_cell(at) {
            return None;
        }
        Some(OldCell {
            at,
            word: self.cell(at).made_anew(),
        })
    }

    // What the next step may change, beside the count and the end.
    #[tactic(auto, unfolding(crate::specs::Back::notes))]
    pub(crate) fn noted(&self, count: u64, end: Option<End>) -> Undo
        ensures { result ≡ notes self.now count end }
    {
        let (changed, at) = match self.fetch() {
            Ok((instr, _)) => (Changed::by(instr), self.target(instr)),
            Err(_) => (Changed::of(None, None, None), None),
        };
        Undo {
            count,
            end,
            pc: self.reg(Reg::Pc).made_anew(),
            first: self.noted_reg(changed.first),
            second: self.noted_reg(changed.second),
            third: self.noted_reg(changed.third),
            cell: self.noted_cell(at),
        }
    }

    // A register's old word, put back.
    fn old_reg(&mut self, old: Option<OldReg>)
        ensures { self.new ≡ record self.old { regs = old_reg self.old.regs old } }
    {
        if let Some(OldReg { reg, word }) = old {
            let _ = self.swap(Place::R(reg), word);
        }
    }

    // A cell's old word, put back.
    fn old_cell(&mut self, old: Option<OldCell>)
        requires { IsCellThere self.old.cells old }
        ensures { self.new ≡ record self.old { cells = old_cell self.old.cells old } }
    {
        if let Some(OldCell { at, word }) = old {
            let _ = self.swap(Place::Cell(at), word);
        }
    }

    // Registers and the cell as they were.
    pub(crate) fn put_back(
        &mut self,
        pc: Word,
        first: Option<OldReg>,
        second: Option<OldReg>,
        third: Option<OldReg>,
        cell: Option<OldCell>,
    )
        requires { IsCellThere self.old.cells cell }
        ensures { self.new ≡ record self.old {
          regs = old_regs self.old.regs pc first second third;
          cells = old_cell self.old.cells cell;
        } }
    {
        let _ = self.swap(Place::R(Reg::Pc), pc);
        self.old_reg(first);
        self.old_reg(second);
        self.old_reg(third);
        self.old_cell(cell);
    }
}
