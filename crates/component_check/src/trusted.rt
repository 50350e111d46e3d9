//! The rules of trusted components: C10 to C12.
ghost use Rattle.std.specs.Prelude.{◌≡◌, ◌<◌, ◌+◌, ◌^◌, length, slice_get, not, ◌&&◌};
ghost use Rattle.std.specs.Option.{option_copied};
ghost use Rattle.component_file.specs.Limits.{IsComponent};
ghost use Rattle.component_check.specs.Places.{first_place};
ghost use Rattle.component_check.specs.Rules.{c10, c11, c12, holds_of, is_no_int, is_at, is_zero_word};
ghost use Rattle.component_check.specs.Rules.{code_at, is_over_seals};

use crate::places::each_of;
use crate::slots::is_zero_word;
use cap_words::Word;
use component_file::ComponentFields;

fn is_no_int(word: &Word) -> bool
    ensures { result ≡ is_no_int word.now }
{
    !matches!(word, Word::Int(_))
}

fn has_no_int(words: &[Word], i: usize) -> bool
    ensures { result ≡ holds_of is_no_int (slice_get words.now i) }
{
    match words.get(i) {
        Some(word) => is_no_int(word),
        None => false,
    }
}

fn is_at(offset: Option<u32>, i: usize) -> bool
    ensures { result ≡ is_at offset i }
{
    match offset {
        Some(offset) => offset as usize == i,
        None => false,
    }
}

fn is_no_code(c: &ComponentFields, i: usize) -> bool
    ensures { result ≡ (holds_of is_no_int (slice_get c.now.code i) && not (is_at c.now.literal_at i)) }
{
    if has_no_int(c.code.as_slice(), i) {
        !is_at(c.literal_at, i)
    } else {
        false
    }
}

#[tactic(auto, unfolding(crate::specs::Rules::c10))]
pub(crate) fn c10(c: &ComponentFields) -> Option<u32>
    requires { IsComponent c.now }
    ensures { result ≡ first_place (c10 c.now) }
{
    for i in 0..c.code.as_slice().len() {
        if is_no_code(c, i) {
            return Some(i as u32);
        }
    }
    None
}

#[tactic(auto, unfolding(crate::specs::Rules::c11))]
pub(crate) fn c11(c: &ComponentFields) -> Option<u32>
    requires { IsComponent c.now }
    ensures { result ≡ first_place (c11 c.now) }
{
    let words = c.data_words.as_slice();
    for i in 0..words.len() {
        if has_no_int(words, i) {
            return Some((c.code.as_slice().len() + i) as u32);
        }
    }
    None
}

fn code_at(c: &ComponentFields, offset: Option<u32>) -> Option<&Word>
    ensures { option_copied result ≡ code_at c.now offset }
{
    match offset {
        Some(offset) => c.code.as_slice().get(offset as usize),
        None => None,
    }
}

fn has_fail(c: &ComponentFields) -> bool
    ensures { result ≡ is_zero_word (code_at c.now c.now.fail_at) }
{
    match c.fail_at {
        Some(offset) => is_zero_word(c.code.as_slice(), offset as usize),
        None => false,
    }
}

fn has_literal(c: &ComponentFields) -> bool
    ensures { result ≡ is_over_seals c.now (code_at c.now c.now.literal_at) }
{
    match code_at(c, c.literal_at) {
        Some(Word::Seal(s)) => {
            let s = s.fields();
            s.base == c.seals.base()
                && s.end + 1 == c.seals.base() + c.seals.count()
                && s.cur == i64::from(c.seals.base())
        }
        _ => false,
    }
}

#[tactic(auto, unfolding(crate::specs::Rules::c12))]
pub(crate) fn c12(c: &ComponentFields) -> Option<u32>
    requires { IsComponent c.now }
    ensures { result ≡ first_place (c12 c.now) }
{
    let sites = c.sites.as_slice().len();
    let has_sites = 0 < sites;
    each_of(&[
        0 < c.linear.count,
        !has_fail(c),
        (c.seals.count() as usize) < sites,
        has_sites && !has_literal(c),
        !has_sites && c.literal_at.is_some(),
    ])
}
