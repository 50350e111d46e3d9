//! Effects carried out: takings before settings.
ghost use Rattle.std.specs.Prelude.{◌≡◌};
ghost use Rattle.lcm_machine.specs.Row.{perform, MoveFits, move_on, spend, make, go_on, NextFits};
ghost use Rattle.lcm_machine.specs.Row.{CanPerform};

use crate::Place;
use crate::plan::{Effect, Made, Moved};
use crate::state::State;
use cap_words::{Held, MachineWord, Word};
use lcm_isa::Reg;

impl<W: MachineWord> State<W> {
    // Takes the word of one place and sets the other to it.
    #[tactic(auto, using(crate::proofs::StateLemmas::clear_has))]
    #[inline(always)]
    fn move_on(&mut self, moved: Option<Moved>)
        requires { MoveFits self.old moved }
        ensures { self.new ≡ move_on W.look W.plain self.old moved }
    {
        if let Some(m) = moved {
            let held = self.lift(m.from);
            self.set(m.to, held);
        }
    }

    // Takes a register's word and drops it.
    #[inline(always)]
    fn spend(&mut self, spent: Option<Reg>)
        ensures { self.new ≡ spend W.look W.plain self.old spent }
    {
        if let Some(r) = spent {
            self.lift(Place::R(r)).give_up();
        }
    }

    // Sets a register to a new word.
    #[inline(always)]
    fn make(&mut self, made: Option<Made>)
        ensures { self.new ≡ make W.plain self.old made }
    {
        if let Some(m) = made {
            self.set(Place::R(m.reg), Held::of(W::from_word(m.word)));
        }
    }

    // Sets pc to its next word: that is its own word at another address, so nothing else of it is written.
    #[inline(always)]
    fn go_on(&mut self, next: Option<Word>)
        requires { NextFits W.look self.old next }
        ensures { self.new ≡ go_on W.plain self.old next }
    {
        if let Some(Word::Mem(c)) = next {
            self.point_pc(c.fields().addr);
        }
    }

    /// Carries out an effect: takings before settings, settings from left to right. A cell that it moves
    /// a word from or to has to be there. pc's next word is its own, a normal memory capability, at
    /// another address, and nothing else is set in pc then.
    #[tactic(auto, unfolding(crate::specs::Row::perform))]
    #[inline(always)]
    pub fn perform(&mut self, effect: Effect)
        requires { CanPerform W.look self.old effect }
        ensures { self.new ≡ perform W.look W.plain self.old effect }
    {
        let Effect {
            moved,
            spent,
            also_spent,
            first,
            second,
            next,
        } = effect;
        self.move_on(moved);
        self.spend(spent);
        self.spend(also_spent);
        self.make(first);
        self.make(second);
        self.go_on(next);
    }
}
