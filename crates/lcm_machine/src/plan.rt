//! Effects: what an instruction is to do, where it doesn't fail or halt.
ghost use Rattle.std.specs.Prelude.{◌≡◌};
ghost use Rattle.lcm_machine.specs.Plan.{Goes};
ghost use Rattle.lcm_machine.specs.Table.{moves, jumps, makes, goes_on, no_effect};

use crate::{FailCause, Place};
use cap_words::Word;
use lcm_isa::Reg;

/// A word that goes from one place to another: it is taken there and set here.
#[derive(Clone, Copy)]
pub struct Moved {
    pub from: Place,
    pub to: Place,
}

/// A new word for a register.
#[derive(Drop)]
pub struct Made {
    pub reg: Reg,
    pub word: Word,
}

/// What an instruction does, where it doesn't fail or halt: one word moved, up to two words taken
/// and spent, then up to three new words set, left to right, `next` being pc's.
#[derive(Drop)]
pub struct Effect {
    pub moved: Option<Moved>,
    pub spent: Option<Reg>,
    pub also_spent: Option<Reg>,
    pub first: Option<Made>,
    pub second: Option<Made>,
    pub next: Option<Word>,
}

impl Effect {
    // No effect: what an instruction does is said beside it.
    #[inline(always)]
    pub(crate) fn none() -> Effect
        ensures { result ≡ no_effect }
    {
        Effect {
            moved: None,
            spent: None,
            also_spent: None,
            first: None,
            second: None,
            next: None,
        }
    }

    // A word is taken from one place and set in another.
    pub(crate) fn moving(from: Place, to: Place, next: Option<Word>) -> Effect
        ensures { Goes result ≡ moves from to next }
    {
        Effect {
            moved: Some(Moved { from, to }),
            next,
            ..Effect::none()
        }
    }

    // A register's word is taken and becomes pc's.
    pub(crate) fn jumping(r: Reg) -> Effect
        ensures { Goes result ≡ jumps r }
    {
        Effect::moving(Place::R(r), Place::R(Reg::Pc), None)
    }

    // A register gets a new word.
    pub(crate) fn making(reg: Reg, word: Word, next: Word) -> Effect
        ensures { Goes result ≡ makes reg word next }
    {
        Effect {
            first: Some(Made { reg, word }),
            next: Some(next),
            ..Effect::none()
        }
    }

    // pc goes on, and nothing else.
    pub(crate) fn going_on(next: Word) -> Effect
        ensures { Goes result ≡ goes_on next }
    {
        Effect {
            next: Some(next),
            ..Effect::none()
        }
    }
}
