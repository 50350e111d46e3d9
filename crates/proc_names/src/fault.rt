//! What is wrong with a name.
ghost use Rattle.std.specs.Prelude.{◌≡◌};
ghost use Rattle.proc_names.specs.Faults.{fault_number, fault_place, comes_first, earlier};
ghost use Rattle.proc_names.specs.FaultText.{why_of};

use std::error::Error;
use std::fmt;

/// What is wrong with a name of a module. The place is that of the name: of its first byte in the
/// text.
#[derive(Clone, Copy, Debug)]
pub enum NameFault {
    /// There is nothing of this name.
    Unknown(u32),
    /// The name is taken: this is the second place.
    Twice(u32),
    /// It is called with other arguments than it takes.
    Arity(u32),
    /// It is of something else than what is used here.
    WrongKind(u32),
}

impl NameFault {
    /// Its number, after those of the faults of a text: 6 for `Unknown`, 7 `Twice`, 8 `Arity`,
    /// 9 `WrongKind`.
    pub fn number(self) -> u8
        ensures { result ≡ fault_number self }
    {
        match self {
            NameFault::Unknown(_) => 6,
            NameFault::Twice(_) => 7,
            NameFault::Arity(_) => 8,
            NameFault::WrongKind(_) => 9,
        }
    }

    /// The place of the name.
    pub fn place(self) -> u32
        ensures { result ≡ fault_place self }
    {
        match self {
            NameFault::Unknown(at)
            | NameFault::Twice(at)
            | NameFault::Arity(at)
            | NameFault::WrongKind(at) => at,
        }
    }

    /// What its text says of the place.
    fn why(self) -> &'static str
        ensures { result.now ≡ why_of self }
    {
        match self {
            NameFault::Unknown(_) => "there is nothing of this name",
            NameFault::Twice(_) => "this name is taken",
            NameFault::Arity(_) => "other arguments than it takes",
            NameFault::WrongKind(_) => "a name of something else",
        }
    }
}

impl fmt::Display for NameFault {
    ghost use Rattle.std.specs.Prelude.{Some};
    ghost use Rattle.proc_names.specs.FaultText.{name_fault_text};

    ghost output = { λ fault. Some (name_fault_text fault) };

    fn fmt<W: fmt::Write>(&self, f: &mut fmt::Formatter<W>) -> fmt::Result {
        write!(f, "byte {}: {}", self.place(), self.why())
    }
}

impl Error for NameFault {}

#[tactic(auto, unfolding(crate::specs::Faults::comes_first))]
fn comes_first(f: NameFault, g: NameFault) -> bool
    ensures { result ≡ comes_first f g }
{
    f.place() < g.place() || f.place() == g.place() && f.number() <= g.number()
}

/// The first of what was found in two parts: the one whose place comes first; of two at one place, the
/// one of the lower number.
pub fn earlier(found: Option<NameFault>, other: Option<NameFault>) -> Option<NameFault>
    ensures { result ≡ earlier found other }
{
    match (found, other) {
        (None, other) => other,
        (found, None) => found,
        (Some(f), Some(g)) => { if comes_first(f, g) { Some(f) } else { Some(g) } }
    }
}
