//! Words to bytes.
ghost use Rattle.std.specs.Prelude.{◌≡◌, ◌≤◌, ◌+◌, ◌++◌, OnOk, OnErr, IfOk};
ghost use Rattle.arrayvec.specs.ArrayVec.{array_vec_len};
ghost use Rattle.cap_words.specs.WordBytes.{number_bytes, signed_bytes, lin_number, cap_bytes, seal_bytes};
ghost use Rattle.cap_words.specs.WordBytes.{content_bytes, ContentFits, word_bytes_of, WordFits};
ghost use Rattle.cap_words.specs.WordBytes.{SealInSpace, SpellsWord};

use crate::{CapFields, Lin, SealFields, Sealable, Word};
use arrayvec::ArrayVec;
use byteorder::{ByteOrder, LittleEndian};
use std::alloc::{AllocError, Global};

// The bytes of the longest word: a sealed memory capability.
const LONGEST_WORD: usize = 24;

/// Appends a number of 16 bits. Where memory is refused, nothing changes.
#[tactic(auto, unfolding(crate::specs::WordBytes::number_bytes))]
pub fn push_u16(out: &mut Vec<u8>, number: u16) -> Result<(), AllocError>
    ensures bytes { OnOk result (out.new.items ≡ out.old.items ++ number_bytes 2 number) }
    ensures err { OnErr result (out.new.items ≡ out.old.items) }
{
    let mut bytes = [0; 2];
    LittleEndian::write_u16(&mut bytes, number);
    out.extend_from_slice(&bytes)
}

/// Appends a number of 32 bits. Where memory is refused, nothing changes.
pub fn push_u32(out: &mut Vec<u8>, number: u32) -> Result<(), AllocError>
    ensures bytes { OnOk result (out.new.items ≡ out.old.items ++ number_bytes 4 number) }
    ensures err { OnErr result (out.new.items ≡ out.old.items) }
{
    out.extend_from_slice(&u32_bytes(number))
}

#[tactic(auto, unfolding(crate::specs::WordBytes::number_bytes))]
fn u32_bytes(number: u32) -> [u8; 4]
    ensures { result ≡ number_bytes 4 number }
{
    let mut bytes = [0; 4];
    LittleEndian::write_u32(&mut bytes, number);
    bytes
}

#[tactic(auto, unfolding(crate::specs::WordBytes::signed_bytes, crate::specs::WordBytes::number_bytes))]
fn i64_bytes(number: i64) -> [u8; 8]
    ensures { result ≡ signed_bytes number }
{
    let mut bytes = [0; 8];
    LittleEndian::write_i64(&mut bytes, number);
    bytes
}

fn lin_number(lin: Lin) -> u8
    ensures { result ≡ lin_number lin }
{
    match lin {
        Lin::Normal => 0,
        Lin::Linear => 1,
    }
}

// Each `put_` appends to what has room for it.
fn put_u32(out: &mut ArrayVec<u8, LONGEST_WORD>, number: u32)
    requires room { array_vec_len out.old + 4 ≤ LONGEST_WORD }
    ensures bytes { out.new.items ≡ out.old.items ++ number_bytes 4 number }
    ensures len { array_vec_len out.new ≡ array_vec_len out.old + 4 }
{
    out.try_extend_from_slice(&u32_bytes(number)).unwrap()
}

fn put_i64(out: &mut ArrayVec<u8, LONGEST_WORD>, number: i64)
    requires room { array_vec_len out.old + 8 ≤ LONGEST_WORD }
    ensures bytes { out.new.items ≡ out.old.items ++ signed_bytes number }
    ensures len { array_vec_len out.new ≡ array_vec_len out.old + 8 }
{
    out.try_extend_from_slice(&i64_bytes(number)).unwrap()
}

#[tactic(auto, unfolding(crate::specs::WordBytes::cap_bytes))]
fn put_cap(out: &mut ArrayVec<u8, LONGEST_WORD>, cap: CapFields)
    requires room { array_vec_len out.old + 18 ≤ LONGEST_WORD }
    ensures { out.new.items ≡ out.old.items ++ cap_bytes cap }
{
    out.push(cap.perm.number());
    out.push(lin_number(cap.lin));
    put_u32(out, cap.base);
    put_u32(out, cap.end);
    put_i64(out, cap.addr);
}

#[tactic(auto, unfolding(crate::specs::WordBytes::seal_bytes))]
fn put_seal(out: &mut ArrayVec<u8, LONGEST_WORD>, cap: SealFields)
    requires room { array_vec_len out.old + 16 ≤ LONGEST_WORD }
    ensures { out.new.items ≡ out.old.items ++ seal_bytes cap }
{
    put_u32(out, cap.base);
    put_u32(out, cap.end);
    put_i64(out, cap.cur);
}

fn put_content(out: &mut ArrayVec<u8, LONGEST_WORD>, content: &Sealable)
    requires room { array_vec_len out.old + 19 ≤ LONGEST_WORD }
    ensures bytes { out.new.items ≡ out.old.items ++ content_bytes content.now }
    ensures fits { ContentFits content.now }
{
    match content {
        Sealable::Mem(cap) => {
            out.push(1);
            put_cap(out, cap.fields());
        }
        Sealable::Seal(cap) => {
            out.push(2);
            put_seal(out, cap.fields());
        }
    }
}

// The bytes of a word, in no memory.
fn bytes_of(word: &Word) -> ArrayVec<u8, LONGEST_WORD>
    requires { SealInSpace word.now }
    ensures bytes { result.items ≡ word_bytes_of word.now }
    ensures fits { WordFits word.now }
{
    let mut out = ArrayVec::new();
    match word {
        Word::Int(number) => {
            out.push(0);
            put_i64(&mut out, *number);
        }
        Word::Mem(cap) => {
            out.push(1);
            put_cap(&mut out, cap.fields());
        }
        Word::Seal(cap) => {
            out.push(2);
            put_seal(&mut out, cap.fields());
        }
        Word::Sealed(seal, content) => {
            out.push(3);
            put_u32(&mut out, *seal);
            put_content(&mut out, content);
        }
    }
    out
}

/// Appends the bytes of a word. The seal of a sealed word must be one of the 1,048,576 seals. Where
/// memory is refused, nothing changes.
pub fn push_word(out: &mut Vec<u8>, word: &Word) -> Result<(), AllocError>
    requires { SealInSpace word.now }
    ensures bytes { OnOk result (out.new.items ≡ out.old.items ++ word_bytes_of word.now) }
    // What was appended is a spelling: every word fits, but for its seal.
    ensures fits { OnOk result (WordFits word.now) }
    ensures err { OnErr result (out.new.items ≡ out.old.items) }
{
    out.extend_from_slice(bytes_of(word).as_slice())
}

/// The bytes of a word, which are its one spelling: docs/FORMATS.md has the form. The seal of a
/// sealed word must be one of the 1,048,576 seals.
pub fn word_bytes(alloc: Global, word: &Word) -> Result<Vec<u8>, AllocError>
    requires { SealInSpace word.now }
    ensures { IfOk result (λ v. SpellsWord v.items word.now) }
{
    let mut out = Vec::new(alloc);
    push_word(&mut out, word)?;
    Ok(out)
}
