//! Texts of words.
//!
//! A text is read off its front as some word, and it is that word's text exactly where it is what the word is
//! written as.
ghost use Rattle.std.specs.Prelude.{◌≡◌, ◌≤◌, IfSome};
ghost use Rattle.cap_words.specs.declared.TheConstants.{LAST_PLACE};
ghost use Rattle.line_fields.specs.Numbers.{number_in};
ghost use Rattle.line_fields.specs.Words.{range_in, cap_in, content_in, sealed_in};
ghost use Rattle.line_fields.specs.Words.{candidate_in, word_in, is_word};

use crate::marks::{behind, cut};
use crate::number::{integer_in, natural_in, number_in};
use cap_words::{
    Cap, CapFields, LAST_PLACE, Lin, Perm, SealCap, SealFields, Sealable, Word, word_text,
};

// An address or a seal.
fn place_in(text: &[u8]) -> Option<u32>
    ensures exact { result ≡ number_in LAST_PLACE text.now }
    ensures within { IfSome result (λ n. n ≤ LAST_PLACE) }
{
    let place = number_in(text, u64::from(LAST_PLACE))?;
    Some(place as u32)
}

// `BASE,END,AT)`
#[tactic(auto, unfolding(crate::specs::Words::range_in))]
fn range_in(text: &[u8]) -> Option<SealFields>
    ensures exact { result ≡ range_in text.now }
    ensures in_order { IfSome result (λ s. s.base ≤ s.end) }
    ensures in_space { IfSome result (λ s. s.end ≤ LAST_PLACE) }
{
    let (base, rest) = cut(text, b',')?;
    let base = place_in(base)?;
    let (end, rest) = cut(rest, b',')?;
    let end = place_in(end)?;
    let (cur, _) = cut(rest, b')')?;
    let cur = integer_in(cur)?;
    if base <= end {
        Some(SealFields { base, end, cur })
    } else {
        None
    }
}

// `PERM,LIN,BASE,END,ADDR)`
#[tactic(auto, unfolding(crate::specs::Words::cap_in))]
fn cap_in(text: &[u8]) -> Option<Cap>
    ensures { result ≡ cap_in text.now }
{
    let (perm, rest) = cut(text, b',')?;
    let perm = Perm::of_name(perm)?;
    let (lin, rest) = cut(rest, b',')?;
    let lin = Lin::of_name(lin)?;
    let range = range_in(rest)?;
    Some(Cap::of(CapFields {
        perm,
        lin,
        base: range.base,
        end: range.end,
        addr: range.cur,
    }))
}

// What can be sealed.
#[tactic(auto, unfolding(crate::specs::Words::content_in))]
fn content_in(text: &[u8]) -> Option<Sealable>
    ensures { result ≡ content_in text.now }
{
    if let Some(rest) = behind(b"cap(", text) {
        return cap_in(rest).map(Sealable::Mem);
    }
    let rest = behind(b"seal(", text)?;
    let range = range_in(rest)?;
    Some(Sealable::Seal(SealCap::of(range)))
}

// `SEAL,CONTENT`
#[tactic(auto, unfolding(crate::specs::Words::sealed_in))]
fn sealed_in(text: &[u8]) -> Option<Word>
    ensures { result ≡ sealed_in text.now }
{
    let (seal, rest) = cut(text, b',')?;
    let seal = natural_in(seal)?;
    let content = content_in(rest)?;
    Some(Word::Sealed(seal, content))
}

// The one word that the text may be that of.
#[tactic(auto, unfolding(crate::specs::Words::candidate_in))]
fn candidate_in(text: &[u8]) -> Option<Word>
    ensures { result ≡ candidate_in text.now }
{
    if let Some(rest) = behind(b"sealed(", text) {
        return sealed_in(rest);
    }
    if let Some(number) = integer_in(text) {
        return Some(Word::Int(number));
    }
    match content_in(text)? {
        Sealable::Mem(cap) => Some(Word::Mem(cap)),
        Sealable::Seal(cap) => Some(Word::Seal(cap)),
    }
}

/// The word that a text is that of, and `None` exactly where it is the text of none. Any number of 32 bits
/// does for the seal of a sealed word; the numbers of capabilities are those of a machine.
#[tactic(auto, unfolding(crate::specs::Words::word_in))]
pub fn word_in(text: &[u8]) -> Option<Word>
    ensures { result ≡ word_in text.now }
{
    let word = candidate_in(text)?;
    if word_text(&word).as_bytes() == text {
        Some(word)
    } else {
        None
    }
}

/// Whether it is the text of a word.
pub fn is_word(text: &[u8]) -> bool
    ensures { result ≡ is_word text.now }
{
    word_in(text).is_some()
}
