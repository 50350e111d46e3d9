//! Rules, and what is reported of a broken one.
ghost use Rattle.std.specs.Prelude.{◌≡◌, ◌≤◌, ◌++◌, length, decimal, IsAscii, Ok};
ghost use Rattle.component_check.specs.RuleText.{group_letter, rule_text, broken_at};
ghost use Rattle.component_check.specs.Verdict.{kept_or};

use arrayvec::ArrayString;
use itoa::Buffer;
use std::error::Error;
use std::fmt;

/// Whose rules they are. docs/RULES.md has them all.
#[derive(Clone, Copy, Debug)]
pub enum Group {
    /// The rules of a component by itself.
    C,
    /// The rules of the flow of a trusted component's code.
    K,
    /// The rules of the parts that are linked together.
    L,
}

impl Group {
    /// Its letter.
    pub fn letter(self) -> &'static str
        ensures { result.now ≡ group_letter self }
    {
        match self {
            Group::C => "C",
            Group::K => "K",
            Group::L => "L",
        }
    }
}

/// A rule, as `C7`.
#[derive(Clone, Copy, Debug)]
pub struct Rule {
    /// Whose rule it is.
    pub group: Group,
    /// Its number in the group, counted from 1.
    pub number: u8,
}

impl Rule {
    /// Its text: the letter of its group and its number in decimal, as `C7`, `K10` and `L3`. It
    /// takes no memory.
    #[tactic(auto, unfolding(crate::specs::RuleText::rule_text))]
    pub fn text(&self) -> ArrayString<4>
        ensures text { result.bytes ≡ rule_text self.now }
        ensures short { length result.bytes ≤ 4 }
        ensures ascii { IsAscii result.bytes }
    {
        let mut text = ArrayString::new();
        text.push_str(self.group.letter());
        let mut digits = Buffer::new();
        text.push_str(digits.format(self.number));
        text
    }
}

/// Its text.
impl fmt::Display for Rule {
    ghost use Rattle.std.specs.Prelude.{Some};
    ghost use Rattle.component_check.specs.RuleText.{rule_text};

    ghost output = { λ r. Some (rule_text r) };

    fn fmt<W: fmt::Write>(&self, f: &mut fmt::Formatter<W>) -> fmt::Result {
        f.write_str(self.text().as_str())
    }
}

/// A rule is broken at a place. What is counted as a place is told by docs/RULES.md, rule by rule.
#[derive(Clone, Copy, Debug)]
pub struct Broken {
    /// The rule.
    pub rule: Rule,
    /// The place.
    pub place: u32,
}

/// The rule, a blank and the place, as `C7 24`.
impl fmt::Display for Broken {
    ghost use Rattle.std.specs.Prelude.{Some};
    ghost use Rattle.component_check.specs.RuleText.{broken_text};

    ghost output = { λ b. Some (broken_text b) };

    #[tactic(auto, unfolding(crate::specs::RuleText::broken_text))]
    fn fmt<W: fmt::Write>(&self, f: &mut fmt::Formatter<W>) -> fmt::Result {
        write!(f, "{} {}", self.rule, self.place)
    }
}

impl Error for Broken {}

/// Goes on where a rule has no broken place.
pub fn kept(group: Group, number: u8, place: Option<u32>) -> Result<(), Broken>
    ensures { result ≡ kept_or (broken_at group) number place (Ok tt) }
{
    match place {
        None => Ok(()),
        Some(place) => {
            let rule = Rule { group, number };
            Err(Broken { rule, place })
        }
    }
}
