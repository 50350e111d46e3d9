//! Words of the overlay machine.
ghost use Rattle.std.specs.Prelude.{◌≡◌, MatchOption};
ghost use Rattle.overlay_machine.specs.Words.{is_plain, is_ret_code, IsNoRetCode, IsNoRetData};

use cap_words::{CapFields, Content, Face, Lin, MachineWord, Opened, Perm, SealFields, Word};

/// What a register or a cell of the overlay machine holds. A call leaves a pair of words, with which
/// it can be returned to.
#[derive(Drop)]
pub enum OWord {
    /// A word of the plain machine.
    Plain(Word),
    /// The code half of a call's pair: where it was made, as the number of the site.
    RetCode(u32),
    /// The data half of a call's pair, which is linear: the number of the call.
    RetData(u64),
}

impl MachineWord for OWord {
    ghost use Rattle.std.specs.Prelude.{refl};
    ghost use Rattle.overlay_machine.specs.Words.{look as look_overlay};
    ghost use Rattle.overlay_machine.specs.declared.words.OWord.TheVariants.{Plain};

    ghost look = { look_overlay };

    ghost plain = { Plain };

    fn face(&self) -> Face {
        match self {
            OWord::Plain(word) => word.face(),
            OWord::RetCode(_) => Face::Sealed(Lin::Normal),
            OWord::RetData(_) => Face::Sealed(Lin::Linear),
        }
    }

    fn opened(&self) -> Option<Opened> {
        match self {
            OWord::Plain(word) => word.opened(),
            OWord::RetCode(_) => {
                let content = Content::Seal(SealFields {
                    base: 0,
                    end: 0,
                    cur: 0,
                });
                Some(Opened { seal: 0, content })
            }
            OWord::RetData(_) => {
                let fields = CapFields {
                    perm: Perm::No,
                    lin: Lin::Linear,
                    base: 0,
                    end: 0,
                    addr: 0,
                };
                Some(Opened {
                    seal: 0,
                    content: Content::Mem(fields),
                })
            }
        }
    }

    fn copy_of(&self) -> Option<Self> {
        match self {
            OWord::Plain(word) => Some(OWord::Plain(word.copy_of()?)),
            OWord::RetCode(site) => Some(OWord::RetCode(*site)),
            OWord::RetData(_) => None,
        }
    }

    fn from_word(word: Word) -> Self {
        OWord::Plain(word)
    }

    #[inline(always)]
    fn point_to(&mut self, addr: i64) {
        match self {
            OWord::Plain(Word::Mem(c)) => c.point_to(addr),
            OWord::Plain(Word::Int(_) | Word::Seal(_) | Word::Sealed(_, _)) => {}
            OWord::RetCode(_) | OWord::RetData(_) => {}
        }
    }

    ghost looks_plain = { λ w. refl };
}

impl OWord {
    // Whether it is a word of the plain machine.
    pub(crate) fn is_plain(&self) -> bool
        ensures { result ≡ is_plain self.now }
    {
        matches!(self, OWord::Plain(_))
    }

    // Whether it is the code half of a call's pair.
    pub(crate) fn is_ret_code(&self) -> bool
        ensures { result ≡ is_ret_code self.now }
    {
        matches!(self, OWord::RetCode(_))
    }

    // The site, where it is the code half of a call's pair.
    pub(crate) fn ret_code(&self) -> Option<u32>
        ensures { MatchOption result (IsNoRetCode self.now) (λ i. self.now ≡ OWord.RetCode i) }
    {
        match self {
            OWord::RetCode(site) => Some(*site),
            _ => None,
        }
    }

    // The call, where it is the data half of its pair.
    pub(crate) fn ret_data(&self) -> Option<u64>
        ensures { MatchOption result (IsNoRetData self.now) (λ k. self.now ≡ OWord.RetData k) }
    {
        match self {
            OWord::RetData(call) => Some(*call),
            _ => None,
        }
    }
}
