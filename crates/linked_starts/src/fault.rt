//! Why parts can't be linked.
ghost use Rattle.std.specs.Prelude.{◌≡◌};
ghost use Rattle.linked_starts.specs.declared.fault.LinkFault.TheVariants.{Rule as RuleFault, NoMemory};

use component_check::Rule;
use std::alloc::AllocError;
use std::error::Error;
use std::fmt;

/// A rule of the parts that are linked together is broken. docs/RULES.md tells, rule by rule, which
/// part and which place are reported.
#[derive(Clone, Copy, Debug)]
pub struct RuleAt {
    /// The rule.
    pub rule: Rule,
    /// The index of the part, or the number of parts where it is no part's alone.
    pub part: u32,
    /// The place.
    pub place: u32,
}

impl fmt::Display for RuleAt {
    ghost use Rattle.std.specs.Prelude.{Some};
    ghost use Rattle.linked_starts.specs.FaultText.{rule_at_text};

    ghost output = { λ at. Some (rule_at_text at) };

    #[tactic(auto, unfolding(crate::specs::FaultText::rule_at_text))]
    fn fmt<W: fmt::Write>(&self, f: &mut fmt::Formatter<W>) -> fmt::Result {
        write!(f, "{} {} {}", self.part, self.rule, self.place)
    }
}

impl Error for RuleAt {}

/// Why parts weren't linked.
#[derive(Clone, Copy, Debug)]
pub enum LinkFault {
    /// This is the first rule that they break, at its first place.
    Rule(RuleAt),
    /// Memory was refused.
    NoMemory,
}

impl fmt::Display for LinkFault {
    ghost use Rattle.std.specs.Prelude.{Some};
    ghost use Rattle.linked_starts.specs.FaultText.{link_fault_text};

    ghost output = { λ fault. Some (link_fault_text fault) };

    fn fmt<W: fmt::Write>(&self, f: &mut fmt::Formatter<W>) -> fmt::Result {
        match self {
            LinkFault::Rule(at) => write!(f, "{at}"),
            LinkFault::NoMemory => write!(f, "out of memory"),
        }
    }
}

impl Error for LinkFault {}

impl From<RuleAt> for LinkFault {
    ghost from_gives = { λ at e. e ≡ RuleFault at };

    fn from(at: RuleAt) -> LinkFault {
        LinkFault::Rule(at)
    }
}

impl From<AllocError> for LinkFault {
    ghost from_gives = { λ _ e. e ≡ NoMemory };

    fn from(_refused: AllocError) -> LinkFault {
        LinkFault::NoMemory
    }
}
