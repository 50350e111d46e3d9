//! The first rule of tokens that a module breaks.
ghost use Rattle.std.specs.Prelude.{◌≡◌};
ghost use Rattle.token_check.specs.Faults.{fault_number, fault_place};
ghost use Rattle.token_check.specs.FaultText.{why_of};

use std::error::Error;
use std::fmt;

/// What is wrong with a token, and its place.
#[derive(Clone, Copy, Debug)]
pub enum TokenFault {
    /// A token is empty where it is spent or handed over: the place of its name there.
    Empty(u32),
    /// A token is full where it is made: the place of its name there.
    Full(u32),
    /// A token is full where the procedure ends: the place of the semicolon, or of the procedure's
    /// closing bracket.
    Kept(u32),
    /// Two ways meet with other tokens full: the place of the closing bracket.
    Split(u32),
    /// A statement is never reached: its place.
    Dead(u32),
}

impl TokenFault {
    /// Its number, after those of the faults of texts, names and sizes: 12 for `Empty`, 13 `Full`,
    /// 14 `Kept`, 15 `Split`, 16 `Dead`.
    pub fn number(self) -> u8
        ensures { result ≡ fault_number self }
    {
        match self {
            TokenFault::Empty(_) => 12,
            TokenFault::Full(_) => 13,
            TokenFault::Kept(_) => 14,
            TokenFault::Split(_) => 15,
            TokenFault::Dead(_) => 16,
        }
    }

    /// Its place.
    pub fn place(self) -> u32
        ensures { result ≡ fault_place self }
    {
        match self {
            TokenFault::Empty(at)
            | TokenFault::Full(at)
            | TokenFault::Kept(at)
            | TokenFault::Split(at)
            | TokenFault::Dead(at) => at,
        }
    }

    /// What its text says of the place.
    fn why(self) -> &'static str
        ensures { result.now ≡ why_of self }
    {
        match self {
            TokenFault::Empty(_) => "this token is empty",
            TokenFault::Full(_) => "this token is full",
            TokenFault::Kept(_) => "a token is still full",
            TokenFault::Split(_) => "other tokens are full on another way",
            TokenFault::Dead(_) => "nothing leads here",
        }
    }
}

impl fmt::Display for TokenFault {
    ghost use Rattle.std.specs.Prelude.{Some};
    ghost use Rattle.token_check.specs.FaultText.{token_fault_text};

    ghost output = { λ fault. Some (token_fault_text fault) };

    fn fmt<W: fmt::Write>(&self, f: &mut fmt::Formatter<W>) -> fmt::Result {
        write!(f, "byte {}: {}", self.place(), self.why())
    }
}

impl Error for TokenFault {}
