//! The fields of a line, read from left to right.
ghost use Rattle.std.specs.Prelude.{◌≡◌, ◌<◌, ◌≤◌, ◌≤ℤ◌, length, drop, FitsSigned, IfSome, IfNone, IfOk};
ghost use Rattle.std.specs.Prelude.{Ok};
ghost use Rattle.std.specs.Int.{w64};
ghost use Rattle.asm_fields.specs.Fields.{InText, seen, kind_next, text_next, behind, place_of};
ghost use Rattle.asm_fields.specs.Fields.{is_name_token};
ghost use Rattle.asm_fields.specs.Fields.{is_sign, is_empty, is_labelled, colon, signed, name_or, name_at};
ghost use Rattle.asm_fields.specs.Fields.{proper_name_from, proper_name_at, number_from, sign_at};
ghost use Rattle.asm_fields.specs.Fields.{integer_at};
ghost use Rattle.readers.specs.Answers.{Gives, GivesAs};
ghost use Rattle.asm_fields.specs.Fields.{natural_at, end_at};

use crate::fault::AsmFault;
use cap_words::is_name;
use std::marker::Model;
use text_scan::{Token, TokenKind};

// The number with its sign, and `None` exactly where it isn't one of 64 bits.
fn with_sign(negative: bool, number: u64) -> Option<i64>
    ensures some { IfSome result (λ z. z ≡ signed negative number) }
    ensures none { IfNone result (¬ FitsSigned w64 (signed negative number)) }
{
    if negative {
        if number <= 9_223_372_036_854_775_807 {
            Some(-(number as i64))
        } else if number == 9_223_372_036_854_775_808 {
            Some(i64::MIN)
        } else {
            None
        }
    } else {
        i64::try_from(number).ok()
    }
}

/// What is left of a line. A contract sees its fields, each a token with its place and bytes, and the
/// place of the line's end.
///
/// A call that answers a fault may have taken fields before.
#[derive(Drop)]
pub struct Fields<'a, 'b> {
    text: &'a [u8],
    rest: &'b [Token],
    end: u32,
}

impl<'a, 'b> Model for Fields<'a, 'b> {
    ghost use Rattle.std.specs.Prelude.{map};
    ghost use Rattle.asm_fields.specs.Fields.{Input, InText, seen};

    ghost Value = { Input };

    ghost view = { λ f. record { rest = map (seen f.text.now) f.rest.now; end = f.end } };

    ghost invariant = { λ f. InText f.text.now f.rest.now };
}

impl<'a, 'b> Fields<'a, 'b> {
    ghost use Rattle.std.specs.Prelude.{map};

    /// These tokens of the text, in a line that ends at this place.
    pub fn of(text: &'a [u8], tokens: &'b [Token], end: u32) -> Fields<'a, 'b>
        requires { InText text.now tokens.now }
        ensures { result ≡ record { rest = map (seen text.now) tokens.now; end = end } }
    {
        Fields {
            text,
            rest: tokens,
            end,
        }
    }

    /// The place of what stands next: a field, or the line's end.
    pub fn place(&self) -> u32
        ensures { result ≡ place_of self.now }
    {
        match self.rest.first() {
            Some(field) => field.at,
            None => self.end,
        }
    }

    // What stands next.
    fn kind(&self) -> Option<TokenKind>
        ensures { result ≡ kind_next self.now.rest }
    {
        match self.rest.first() {
            Some(token) => Some(token.kind),
            None => None,
        }
    }

    // The bytes of what stands next.
    fn bytes(&self) -> &'a [u8]
        requires { 0 < length self.now.rest }
        ensures { result.now ≡ text_next self.now.rest }
    {
        let token = self.rest[0];
        let (at, len) = (token.at as usize, token.len as usize);
        &self.text[at..at + len]
    }

    // Takes what stands next.
    fn skip(&mut self)
        requires { 0 < length self.old.rest }
        ensures { self.new ≡ behind self.old }
    {
        let (_, rest) = self.rest.split_at(1);
        self.rest = rest;
    }

    /// Whether a name stands next.
    pub fn is_name(&self) -> bool
        ensures { result ≡ is_name_token (kind_next self.now.rest) }
    {
        matches!(self.kind(), Some(TokenKind::Name))
    }

    /// Whether nothing more stands in the line.
    pub fn is_empty(&self) -> bool
        ensures { result ≡ is_empty self.now }
    {
        self.rest.is_empty()
    }

    /// Whether a name and a colon stand next.
    pub fn is_labelled(&self) -> bool
        ensures { result ≡ is_labelled self.now }
    {
        self.is_name() && self.has_colon_second()
    }

    fn has_colon_second(&self) -> bool
        ensures { result ≡ is_sign colon (kind_next (drop 1 self.now.rest)) }
    {
        match self.rest.get(1) {
            Some(token) => matches!(token.kind, TokenKind::Sign(b':')),
            None => false,
        }
    }

    /// The name that stands next, or the fault.
    #[tactic(auto, unfolding(crate::specs::Fields::name_or))]
    pub fn name_or(&mut self, fault: AsmFault) -> Result<&'a [u8], AsmFault>
        ensures { GivesAs (λ t. t.now) result self.new (name_or fault self.old) }
    {
        if !self.is_name() {
            return Err(fault);
        }
        let text = self.bytes();
        self.skip();
        Ok(text)
    }

    /// A name, else `Operand`.
    pub fn name(&mut self) -> Result<&'a [u8], AsmFault>
        ensures { GivesAs (λ t. t.now) result self.new (name_at self.old) }
    {
        self.name_or(AsmFault::Operand(self.place()))
    }

    /// A name as components have them, of at most 31 bytes, else `Operand` at this place, where its field
    /// begins: that of the name, or of a sign before it.
    #[tactic(auto, unfolding(crate::specs::Fields::proper_name_from))]
    pub fn proper_name_from(&mut self, at: u32) -> Result<&'a [u8], AsmFault>
        ensures { GivesAs (λ t. t.now) result self.new (proper_name_from at self.old) }
    {
        let name = self.name_or(AsmFault::Operand(at))?;
        if is_name(name) {
            Ok(name)
        } else {
            Err(AsmFault::Operand(at))
        }
    }

    /// A name as components have them, of at most 31 bytes, else `Operand`.
    pub fn proper_name(&mut self) -> Result<&'a [u8], AsmFault>
        ensures { GivesAs (λ t. t.now) result self.new (proper_name_at self.old) }
    {
        self.proper_name_from(self.place())
    }

    /// Whether the sign stands next. If so, it is taken.
    #[tactic(auto, unfolding(crate::specs::Fields::sign_at))]
    pub fn sign(&mut self, sign: u8) -> bool
        ensures { sign_at sign self.old ≡ Ok (result, self.new) }
    {
        match self.kind() {
            Some(TokenKind::Sign(byte)) if byte == sign => {
                self.skip();
                true
            }
            _ => false,
        }
    }

    // A number. Where there is none, the operand that begins at this place is wrong.
    #[tactic(auto, unfolding(crate::specs::Fields::number_from))]
    fn number(&mut self, at: u32) -> Result<u64, AsmFault>
        ensures { Gives result self.new (number_from at self.old) }
    {
        match self.kind() {
            Some(TokenKind::Number(number)) => {
                self.skip();
                Ok(number)
            }
            _ => Err(AsmFault::Operand(at)),
        }
    }

    /// A number from `low` to `high`, with an optional `-` before it: else `Operand` where there is none,
    /// and `Range` where it is out of these bounds, at the `-` if there is one.
    #[tactic(auto, unfolding(crate::specs::Fields::integer_at))]
    pub fn integer(&mut self, low: i64, high: i64) -> Result<i64, AsmFault>
        ensures exact { Gives result self.new (integer_at low high self.old) }
        ensures within { IfOk result (λ z. (low ≤ℤ z) × (z ≤ℤ high)) }
    {
        let at = self.place();
        let negative = self.sign(b'-');
        let number = self.number(at)?;
        let Some(value) = with_sign(negative, number) else {
            return Err(AsmFault::Range(at));
        };
        if low <= value && value <= high {
            Ok(value)
        } else {
            Err(AsmFault::Range(at))
        }
    }

    /// A number from `low` to `high`, of which none is below 0. It may be written with a `-` where it is 0.
    #[tactic(auto, unfolding(crate::specs::Fields::natural_at))]
    pub fn natural(&mut self, low: u32, high: u32) -> Result<u32, AsmFault>
        ensures exact { Gives result self.new (natural_at low high self.old) }
        ensures within { IfOk result (λ n. (low ≤ n) × (n ≤ high)) }
    {
        let number = self.integer(i64::from(low), i64::from(high))?;
        Ok(number as u32)
    }

    /// Nothing more, else `Operand`.
    #[tactic(auto, unfolding(crate::specs::Fields::end_at))]
    pub fn end(&self) -> Result<(), AsmFault>
        ensures { Gives result self.now (end_at self.now) }
    {
        if self.is_empty() {
            Ok(())
        } else {
            Err(AsmFault::Operand(self.place()))
        }
    }
}
