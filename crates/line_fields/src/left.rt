//! The lines of a text and the fields of a line, from left to right.
ghost use Rattle.std.specs.Prelude.{◌≡◌};
ghost use Rattle.std.specs.Str.{bytes_eq};
ghost use Rattle.cap_words.specs.Names.{is_name};
ghost use Rattle.line_fields.specs.Numbers.{natural_in};
ghost use Rattle.line_fields.specs.Words.{is_word};
ghost use Rattle.line_fields.specs.Forms.{back_seen, back_in, handed_seen, handed_in};
ghost use Rattle.line_fields.specs.Fields.{fields, lines, field, meant, tested, is_none_left, GivesAs};

use crate::forms::{self, Handed, WayBack, is_text};
use crate::marks::cut;
use crate::number;
use crate::word::is_word;
use cap_words::is_name;
use std::marker::Model;

/// What is left of a text that is cut at a mark. A contract sees the parts.
///
/// Each call takes the next part. After a `None` nothing is said of what is left.
#[derive(Drop)]
pub struct Parts<'a> {
    mark: u8,
    rest: Option<&'a [u8]>,
}

impl<'a> Model for Parts<'a> {
    ghost use Rattle.std.specs.Prelude.{ℕ, List, option_map};
    ghost use Rattle.line_fields.specs.Cuts.{parts_left};

    ghost Value = { List (List ℕ) };

    ghost view = { λ p. parts_left p.mark (option_map (λ r. r.now) p.rest) };
}

impl<'a> Parts<'a> {
    /// The fields of a line, which blanks part.
    pub fn of_line(line: &'a [u8]) -> Parts<'a>
        ensures { result ≡ fields line.now }
    {
        Parts {
            mark: b' ',
            rest: Some(line),
        }
    }

    /// The lines of a text, which newlines part. A text that ends in a newline has an empty line after it.
    pub fn of_text(text: &'a [u8]) -> Parts<'a>
        ensures { result ≡ lines text.now }
    {
        Parts {
            mark: b'\n',
            rest: Some(text),
        }
    }

    /// Whether no part is left.
    pub fn is_over(&self) -> bool
        ensures { result ≡ is_none_left self.now }
    {
        self.rest.is_none()
    }

    /// The same parts once more.
    pub fn again(&self) -> Parts<'a>
        ensures { result ≡ self.now }
    {
        Parts {
            mark: self.mark,
            rest: self.rest,
        }
    }

    /// The next part, and `None` exactly where none is left.
    pub fn part(&mut self) -> Option<&'a [u8]>
        ensures { GivesAs (λ t. t.now) result self.new (field self.old) }
    {
        let rest = self.rest?;
        match cut(rest, self.mark) {
            Some((part, behind)) => {
                self.rest = Some(behind);
                Some(part)
            }
            None => {
                self.rest = None;
                Some(rest)
            }
        }
    }

    /// The next part, which is this text.
    #[tactic(auto, unfolding(crate::specs::Fields::tested))]
    pub fn is(&mut self, text: &str) -> Option<&'a [u8]>
        ensures { GivesAs (λ t. t.now) result self.new (tested (bytes_eq text.now) self.old) }
    {
        let field = self.part()?;
        if is_text(text, field) {
            Some(field)
        } else {
            None
        }
    }

    /// The next part, which is a name.
    #[tactic(auto, unfolding(crate::specs::Fields::tested))]
    pub fn name(&mut self) -> Option<&'a [u8]>
        ensures { GivesAs (λ t. t.now) result self.new (tested is_name self.old) }
    {
        let field = self.part()?;
        if is_name(field) { Some(field) } else { None }
    }

    /// The next part, which is the text of a word.
    #[tactic(auto, unfolding(crate::specs::Fields::tested))]
    pub fn word(&mut self) -> Option<&'a [u8]>
        ensures { GivesAs (λ t. t.now) result self.new (tested is_word self.old) }
    {
        let field = self.part()?;
        if is_word(field) { Some(field) } else { None }
    }

    /// The next part, which is a number of 32 bits.
    #[tactic(auto, unfolding(crate::specs::Fields::meant))]
    pub fn natural(&mut self) -> Option<u32>
        ensures { GivesAs (λ n. n) result self.new (meant natural_in self.old) }
    {
        let field = self.part()?;
        number::natural_in(field)
    }

    /// The next part, which tells what a return would do.
    #[tactic(auto, unfolding(crate::specs::Fields::meant))]
    pub fn back(&mut self) -> Option<WayBack<'a>>
        ensures { GivesAs back_seen result self.new (meant back_in self.old) }
    {
        let field = self.part()?;
        forms::back_in(field)
    }

    /// The next part, which tells what two argument registers are as a closure pair.
    #[tactic(auto, unfolding(crate::specs::Fields::meant))]
    pub fn handed(&mut self) -> Option<Handed<'a>>
        ensures { GivesAs handed_seen result self.new (meant handed_in self.old) }
    {
        let field = self.part()?;
        forms::handed_in(field)
    }
}
