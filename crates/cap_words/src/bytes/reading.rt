//! Words from bytes.
ghost use Rattle.std.specs.Prelude.{◌≡◌, ◌≤◌, ◌<◌, ◌^◌, ◌++◌, List, ℕ, length, take, IfSome, Some};
ghost use Rattle.cap_words.specs.Reading.{next_byte, meant};
ghost use Rattle.readers.specs.Answers.{Gives};
ghost use Rattle.cap_words.specs.WordBytes.{SpellsWord};
ghost use Rattle.cap_words.specs.WordReading.{perm_meant, lin_meant, next_cap, next_seal_cap};
ghost use Rattle.cap_words.specs.WordReading.{content_tagged, next_content, unsealed_tagged};
ghost use Rattle.cap_words.specs.WordReading.{next_unsealed, next_sealed, next_word};
ghost use Rattle.cap_words.specs.declared.Word.{Word};

use super::{Cursor, FieldFault};
use crate::{Cap, CapFields, LAST_PLACE, Lin, Perm, SealCap, SealFields, Sealable, Word};

#[tactic(auto, unfolding(crate::specs::Reading::meant))]
fn perm(bytes: &mut Cursor<'_>) -> Result<Perm, FieldFault>
    ensures { Gives result bytes.new (meant perm_meant next_byte bytes.old) }
{
    let at = bytes.at();
    Perm::of(i64::from(bytes.byte()?)).ok_or(FieldFault::BadField(at))
}

#[tactic(auto, unfolding(crate::specs::Reading::meant))]
fn lin(bytes: &mut Cursor<'_>) -> Result<Lin, FieldFault>
    ensures { Gives result bytes.new (meant lin_meant next_byte bytes.old) }
{
    let at = bytes.at();
    match bytes.byte()? {
        0 => Ok(Lin::Normal),
        1 => Ok(Lin::Linear),
        _ => Err(FieldFault::BadField(at)),
    }
}

#[tactic(auto, unfolding(crate::specs::WordReading::next_cap))]
fn cap(bytes: &mut Cursor<'_>) -> Result<Cap, FieldFault>
    ensures { Gives result bytes.new (next_cap bytes.old) }
{
    let perm = perm(bytes)?;
    let lin = lin(bytes)?;
    let base = bytes.u32_within(0, LAST_PLACE)?;
    let end = bytes.u32_within(base, LAST_PLACE)?;
    let addr = bytes.i64()?;
    Ok(Cap::of(CapFields {
        perm,
        lin,
        base,
        end,
        addr,
    }))
}

#[tactic(auto, unfolding(crate::specs::WordReading::next_seal_cap))]
fn seal_cap(bytes: &mut Cursor<'_>) -> Result<SealCap, FieldFault>
    ensures { Gives result bytes.new (next_seal_cap bytes.old) }
{
    let base = bytes.u32_within(0, LAST_PLACE)?;
    let end = bytes.u32_within(base, LAST_PLACE)?;
    let cur = bytes.i64()?;
    Ok(SealCap::of(SealFields { base, end, cur }))
}

// What the tag that was read at `at` announces: a capability.
#[tactic(auto, unfolding(crate::specs::WordReading::content_tagged))]
fn content_tagged(bytes: &mut Cursor<'_>, at: u32, tag: u8) -> Result<Sealable, FieldFault>
    ensures { Gives result bytes.new (content_tagged at tag bytes.old) }
{
    match tag {
        1 => Ok(Sealable::Mem(cap(bytes)?)),
        2 => Ok(Sealable::Seal(seal_cap(bytes)?)),
        _ => Err(FieldFault::BadField(at)),
    }
}

// What the tag that was read at `at` announces: an integer or a capability.
#[tactic(auto, unfolding(crate::specs::WordReading::unsealed_tagged))]
fn unsealed_tagged(bytes: &mut Cursor<'_>, at: u32, tag: u8) -> Result<Word, FieldFault>
    ensures { Gives result bytes.new (unsealed_tagged at tag bytes.old) }
{
    if tag == 0 {
        return Ok(Word::Int(bytes.i64()?));
    }
    match content_tagged(bytes, at, tag)? {
        Sealable::Mem(cap) => Ok(Word::Mem(cap)),
        Sealable::Seal(cap) => Ok(Word::Seal(cap)),
    }
}

// A seal, and what is under it.
#[tactic(auto, unfolding(crate::specs::WordReading::next_sealed, crate::specs::WordReading::next_content))]
fn sealed_word(bytes: &mut Cursor<'_>) -> Result<Word, FieldFault>
    ensures { Gives result bytes.new (next_sealed bytes.old) }
{
    let seal = bytes.u32_within(0, LAST_PLACE)?;
    let at = bytes.at();
    let tag = bytes.byte()?;
    Ok(Word::Sealed(seal, content_tagged(bytes, at, tag)?))
}

impl<'a> Cursor<'a> {
    /// The next word, which may be of any kind.
    #[tactic(auto, unfolding(crate::specs::WordReading::next_word))]
    pub fn word(&mut self) -> Result<Word, FieldFault>
        ensures { Gives result self.new (next_word self.old) }
    {
        let at = self.at();
        match self.byte()? {
            3 => sealed_word(self),
            tag => unsealed_tagged(self, at, tag),
        }
    }

    /// The next word, which may not be sealed: else its tag is a bad field.
    #[tactic(auto, unfolding(crate::specs::WordReading::next_unsealed))]
    pub fn unsealed_word(&mut self) -> Result<Word, FieldFault>
        ensures { Gives result self.new (next_unsealed self.old) }
    {
        let at = self.at();
        let tag = self.byte()?;
        unsealed_tagged(self, at, tag)
    }
}

/// The word that stands at the front of the bytes, and how many bytes it takes, or `None` where no
/// front of them is a word. docs/FORMATS.md has the form.
pub fn read_word(bytes: &[u8]) -> Option<(Word, usize)>
    requires { length bytes.now < 2 ^ 32 }
    // What is read is spelled so.
    ensures found { IfSome result (λ r. (r.1 ≤ length bytes.now) × SpellsWord (take r.1 bytes.now) r.0) }
    // What is spelled so is read, whatever follows it.
    ensures only { (w : Word) (front rest : List ℕ) →
        SpellsWord front w → bytes.now ≡ front ++ rest → result ≡ Some (w, length front) }
{
    let mut cursor = Cursor::of(bytes);
    match cursor.word() {
        Ok(word) => Some((word, cursor.at() as usize)),
        Err(_) => None,
    }
}
