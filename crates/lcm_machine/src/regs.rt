//! The sixteen registers.
ghost use Rattle.std.specs.Prelude.{◌≡◌, ◌<◌, length, slice_index_or, slice_set};
ghost use Rattle.lcm_machine.specs.Places.{reg, set_reg};
ghost use Rattle.lcm_machine.specs.Spans.{zero_regs};
ghost use Rattle.cap_words.specs.Linear.{zero_word};
ghost use Rattle.cap_words.specs.Face.{pointed};
ghost use Rattle.lcm_isa.specs.declared.Reg.TheVariants.{Pc};

use cap_words::{MachineWord, Word};
use lcm_isa::Reg;
use std::marker::Model;
use std::mem;

/// The registers, seen as a record of sixteen words.
#[derive(Drop)]
pub struct Regs<W: MachineWord> {
    words: [W; 16],
}

impl<W: MachineWord> Model for Regs<W> {
    ghost use Rattle.std.specs.Prelude.{◌≡◌, length};
    ghost use Rattle.cap_words.specs.Linear.{zero_word};
    ghost use Rattle.lcm_machine.specs.Maps.{Regs as Sixteen, regs_of};

    ghost Value = { Sixteen W };

    ghost view = { λ b. regs_of (zero_word W.plain) b.words };

    ghost invariant = { λ b. length b.words ≡ 16 };
}

// Sets the word of a slot, and gives the word that was there.
fn swap_at<W>(slots: &mut [W], i: usize, word: W) -> W
    requires { i < length slots.old }
    ensures was { result ≡ slice_index_or slots.old i result }
    ensures now { slots.new ≡ slice_set slots.old i word }
{
    mem::replace(&mut slots[i], word)
}

// Points the word of a slot to another address.
#[inline(always)]
fn point_at<W: MachineWord>(slots: &mut [W], i: usize, addr: i64)
    requires { i < length slots.old }
    ensures { let w = slice_index_or slots.old i (zero_word W.plain) in
        slots.new ≡ slice_set slots.old i (pointed W.plain addr w (W.look w)) }
{
    slots[i].point_to(addr);
}

// Integer 0.
fn zero<W: MachineWord>() -> W
    ensures { result ≡ zero_word W.plain }
{
    W::from_word(Word::Int(0))
}

impl<W: MachineWord> Regs<W> {
    /// All registers are integer 0.
    pub fn zeros() -> Regs<W>
        ensures { result ≡ zero_regs W.plain }
    {
        let words = [
            zero(),
            zero(),
            zero(),
            zero(),
            zero(),
            zero(),
            zero(),
            zero(),
            zero(),
            zero(),
            zero(),
            zero(),
            zero(),
            zero(),
            zero(),
            zero(),
        ];
        Regs { words }
    }

    /// The word of a register.
    pub fn get(&self, r: Reg) -> &W
        ensures { result.now ≡ reg self.now r }
    {
        &self.words[r.number() as usize]
    }

    /// Points pc to another address, where its word looks like a memory capability.
    #[inline(always)]
    pub fn point_pc(&mut self, addr: i64)
        ensures { self.new ≡ set_reg self.old Pc (pointed W.plain addr (reg self.old Pc)
            (W.look (reg self.old Pc))) }
    {
        point_at(&mut self.words, 0, addr);
    }

    /// Sets the word of a register, and gives the word that was there.
    pub fn swap(&mut self, r: Reg, word: W) -> W
        ensures was { result ≡ reg self.old r }
        ensures now { self.new ≡ set_reg self.old r word }
    {
        swap_at(&mut self.words, r.number() as usize, word)
    }
}
