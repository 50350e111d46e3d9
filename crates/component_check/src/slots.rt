//! The rules of slots and exports: C4 to C6.
ghost use Rattle.std.specs.Prelude.{◌≡◌, ◌<◌, ◌^◌, length, slice_get};
ghost use Rattle.component_file.specs.Limits.{IsComponent};
ghost use Rattle.component_check.specs.Places.{first_place};
ghost use Rattle.component_check.specs.Rules.{c4, c5, c6, slot_is_bad, slot_is_free, export_offset};
ghost use Rattle.component_check.specs.Rules.{is_zero_word};

use cap_words::Word;
use component_file::ComponentFields;

fn slot_is_bad(c: &ComponentFields, i: usize) -> bool
    requires { i < length c.now.imports }
    ensures { result ≡ slot_is_bad c.now i }
{
    let imports = c.imports.as_slice();
    let slot = imports[i].slot as usize;
    if c.data_words.as_slice().len() <= slot + 1 {
        return true;
    }
    0 < i && slot < imports[i - 1].slot as usize + 2
}

#[tactic(auto, unfolding(crate::specs::Rules::c4))]
pub(crate) fn c4(c: &ComponentFields) -> Option<u32>
    requires { length c.now.imports < 2 ^ 32 }
    ensures { result ≡ first_place (c4 c.now) }
{
    for i in 0..c.imports.as_slice().len() {
        if slot_is_bad(c, i) {
            return Some(i as u32);
        }
    }
    None
}

/// Whether integer 0 stands at this offset.
pub(crate) fn is_zero_word(words: &[Word], offset: usize) -> bool
    ensures { result ≡ is_zero_word (slice_get words.now offset) }
{
    match words.get(offset) {
        Some(Word::Int(n)) => *n == 0,
        _ => false,
    }
}

fn slot_is_free(c: &ComponentFields, i: usize) -> bool
    requires { i < length c.now.imports }
    ensures { result ≡ slot_is_free c.now i }
{
    let slot = c.imports.as_slice()[i].slot as usize;
    let words = c.data_words.as_slice();
    if !is_zero_word(words, slot) {
        return false;
    }
    is_zero_word(words, slot + 1)
}

#[tactic(auto, unfolding(crate::specs::Rules::c5))]
pub(crate) fn c5(c: &ComponentFields) -> Option<u32>
    requires { length c.now.imports < 2 ^ 32 }
    ensures { result ≡ first_place (c5 c.now) }
{
    for i in 0..c.imports.as_slice().len() {
        if !slot_is_free(c, i) {
            return Some(i as u32);
        }
    }
    None
}

fn export_offset(c: &ComponentFields, i: usize) -> usize
    requires { i < length c.now.exports }
    ensures { result ≡ export_offset c.now i }
{
    c.exports.as_slice()[i].offset as usize
}

#[tactic(auto, unfolding(crate::specs::Rules::c6))]
pub(crate) fn c6(c: &ComponentFields) -> Option<u32>
    requires { length c.now.exports < 2 ^ 32 }
    ensures { result ≡ first_place (c6 c.now) }
{
    let code_len = c.code.as_slice().len();
    for i in 0..c.exports.as_slice().len() {
        if code_len <= export_offset(c, i) {
            return Some(i as u32);
        }
    }
    None
}
