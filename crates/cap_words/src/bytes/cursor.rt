//! Reading numbers from the front of bytes.
ghost use Rattle.std.specs.Prelude.{◌≡◌, ◌<◌, ◌≤◌, ◌^◌, ◌==◌, length, IfOk};
ghost use Rattle.cap_words.specs.Reading.{next_bytes, next_byte, next_number, next_signed, within, meant};
ghost use Rattle.readers.specs.Answers.{Gives, GivesAs};

use byteorder::{ByteOrder, LittleEndian};
use std::error::Error;
use std::fmt;
use std::marker::Model;

/// Why a field can't be read, with the place of its first byte.
#[derive(Clone, Copy, Debug, PartialEq, Eq)]
pub enum FieldFault {
    /// Its bytes aren't all there.
    Short(u32),
    /// It says nothing: a number outside its limits, an unknown tag, a bad name.
    BadField(u32),
}

impl fmt::Display for FieldFault {
    ghost use Rattle.std.specs.Prelude.{Some};
    ghost use Rattle.cap_words.specs.FaultText.{field_fault_text};

    ghost output = { λ fault. Some (field_fault_text fault) };

    fn fmt<W: fmt::Write>(&self, f: &mut fmt::Formatter<W>) -> fmt::Result {
        match self {
            FieldFault::Short(at) => write!(f, "the bytes end within the field at byte {at}"),
            FieldFault::BadField(at) => write!(f, "the field at byte {at} is not valid"),
        }
    }
}

impl Error for FieldFault {}

/// Bytes that are read from left to right. A contract sees the place of the next byte, and the
/// bytes from there on.
///
/// Each call reads what stands next. After a fault the cursor is of no further use: nothing is said
/// of where it stands.
#[derive(Drop)]
pub struct Cursor<'a> {
    at: u32,
    rest: &'a [u8],
}

impl<'a> Model for Cursor<'a> {
    ghost use Rattle.std.specs.Prelude.{◌+◌, ◌<◌, ◌^◌, length};
    ghost use Rattle.cap_words.specs.Reading.{Input};

    ghost Value = { Input };

    ghost view = { λ c. record { at = c.at; rest = c.rest.now } };

    ghost invariant = { λ c. c.at + length c.rest.now < 2 ^ 32 };
}

impl<'a> Cursor<'a> {
    /// At the first of these bytes.
    pub fn of(bytes: &'a [u8]) -> Cursor<'a>
        requires { length bytes.now < 2 ^ 32 }
        ensures { result ≡ record { at = 0; rest = bytes.now } }
    {
        Cursor { at: 0, rest: bytes }
    }

    /// The place of the next byte, counted from 0.
    pub fn at(&self) -> u32
        ensures { result ≡ self.now.at }
    {
        self.at
    }

    /// Whether no byte is left.
    pub fn is_at_end(&self) -> bool
        ensures { result ≡ (length self.now.rest == 0) }
    {
        self.rest.is_empty()
    }

    /// The next `len` bytes.
    #[tactic(auto, unfolding(crate::specs::Reading::next_bytes))]
    pub fn bytes(&mut self, len: usize) -> Result<&'a [u8], FieldFault>
        ensures { GivesAs (λ b. b.now) result self.new (next_bytes len self.old) }
    {
        if self.rest.len() < len {
            return Err(FieldFault::Short(self.at));
        }
        let (front, rest) = self.rest.split_at(len);
        self.at += len as u32;
        self.rest = rest;
        Ok(front)
    }

    /// The next byte.
    #[tactic(auto, unfolding(crate::specs::Reading::next_byte, crate::specs::Reading::next_bytes))]
    pub fn byte(&mut self) -> Result<u8, FieldFault>
        ensures { Gives result self.new (next_byte self.old) }
    {
        let bytes = self.bytes(1)?;
        Ok(bytes[0])
    }

    /// The next number of 16 bits.
    #[tactic(auto, unfolding(crate::specs::Reading::next_number, crate::specs::Reading::next_bytes))]
    pub fn u16(&mut self) -> Result<u16, FieldFault>
        ensures { Gives result self.new (next_number 2 self.old) }
    {
        let bytes = self.bytes(2)?;
        Ok(LittleEndian::read_u16(bytes))
    }

    /// The next number of 32 bits.
    #[tactic(auto, unfolding(crate::specs::Reading::next_number, crate::specs::Reading::next_bytes))]
    pub fn u32(&mut self) -> Result<u32, FieldFault>
        ensures { Gives result self.new (next_number 4 self.old) }
    {
        let bytes = self.bytes(4)?;
        Ok(LittleEndian::read_u32(bytes))
    }

    /// The next number of 64 bits with a sign, in two's complement.
    #[tactic(auto, unfolding(crate::specs::Reading::next_signed, crate::specs::Reading::next_number, crate::specs::Reading::next_bytes))]
    pub fn i64(&mut self) -> Result<i64, FieldFault>
        ensures { Gives result self.new (next_signed self.old) }
    {
        let bytes = self.bytes(8)?;
        Ok(LittleEndian::read_i64(bytes))
    }

    /// The next number of 32 bits, which must be from `low` to `high`.
    #[tactic(auto, unfolding(crate::specs::Reading::meant))]
    pub fn u32_within(&mut self, low: u32, high: u32) -> Result<u32, FieldFault>
        ensures exact { Gives result self.new (meant (within low high) (next_number 4) self.old) }
        ensures within { IfOk result (λ n. (low ≤ n) × (n ≤ high)) }
    {
        let at = self.at;
        let number = self.u32()?;
        if low <= number && number <= high {
            Ok(number)
        } else {
            Err(FieldFault::BadField(at))
        }
    }
}
