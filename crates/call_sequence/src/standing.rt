//! Whether sequences stand in a component's code.
ghost use Rattle.std.specs.Prelude.{◌≡◌, ◌<◌, ◌≤◌, ◌+◌, ◌^◌, length, slice_index, slice_get};
ghost use Rattle.component_file.specs.Limits.{IsComponent};
ghost use Rattle.call_sequence.specs.Standing.{is_int, difference, sequence_difference, site_difference};
ghost use Rattle.call_sequence.specs.Standing.{is_site, is_entry};

use crate::sequences::{call_words, entry_words, return_words};
use crate::{CALL_WORDS, ENTRY_WORDS, SITE_WORDS};
use cap_words::Word;
use component_file::{Component, ComponentFields, LAST_OFFSET};

fn is_int(words: &[Word], at: usize, number: i64) -> bool
    ensures { result ≡ is_int (slice_get words.now at) number }
{
    match words.get(at) {
        Some(Word::Int(n)) => *n == number,
        _ => false,
    }
}

// The first word from an offset on that isn't the one of the list.
fn difference(words: &[Word], at: u32, numbers: &[i64]) -> Option<u32>
    requires { at + length numbers.now < 2 ^ 32 }
    ensures { result ≡ difference words.now at numbers.now }
{
    let mut at = at;
    for number in numbers {
        if !is_int(words, at as usize, *number) {
            return Some(at);
        }
        at += 1;
    }
    None
}

#[tactic(auto, unfolding(crate::specs::Standing::sequence_difference))]
fn sequence_difference(c: &ComponentFields, index: u32, fail: u32, literal: u32) -> Option<u32>
    requires fits { IsComponent c.now }
    requires index_fits { index < length c.now.sites }
    requires fail_fits { fail ≤ LAST_OFFSET }
    requires literal_fits { literal ≤ LAST_OFFSET }
    requires room { slice_index c.now.sites index + SITE_WORDS ≤ length c.now.code }
    ensures { result ≡ sequence_difference c.now index fail literal }
{
    let at = c.sites.as_slice()[index as usize];
    let code = c.code.as_slice();
    match difference(code, at, &call_words(literal, at, index)) {
        Some(place) => Some(place),
        None => {
            let back = at + CALL_WORDS;
            difference(code, back, &return_words(fail, back, c.stack_base))
        }
    }
}

/// The first word of a site that isn't the one of a call and a return, by its offset in the code.
/// None exactly where all words are.
///
/// The site of that index must be there, and the code must have room for its words.
pub fn site_difference(c: &Component, index: u32) -> Option<u32>
    requires index_fits { index < length c.now.sites }
    requires room { slice_index c.now.sites index + SITE_WORDS ≤ length c.now.code }
    ensures { result ≡ site_difference c.now index }
{
    let c = c.fields();
    match (c.fail_at, c.literal_at) {
        (Some(fail), Some(literal)) => sequence_difference(c, index, fail, literal),
        _ => Some(c.sites.as_slice()[index as usize]),
    }
}

/// Whether the words of a call and of a return stand at a site, the call as that of the site's
/// index. They never do where the `fail` or the literal has no offset. It takes no memory.
///
/// The site of that index must be there.
#[tactic(auto, unfolding(crate::specs::Standing::is_site))]
pub fn is_site(c: &Component, index: u32) -> bool
    requires index_fits { index < length c.now.sites }
    ensures { result ≡ is_site c.now index }
{
    let fields = c.fields();
    let at = fields.sites.as_slice()[index as usize];
    if fields.code.as_slice().len() < at as usize + SITE_WORDS as usize {
        return false;
    }
    site_difference(c, index).is_none()
}

/// Whether the words of an entry stand at an offset in the code. It takes no memory.
#[tactic(auto, unfolding(crate::specs::Standing::is_entry))]
pub fn is_entry(c: &Component, at: u32) -> bool
    ensures { result ≡ is_entry c.now at }
{
    let c = c.fields();
    let Some(fail) = c.fail_at else {
        return false;
    };
    let code = c.code.as_slice();
    if code.len() < at as usize + ENTRY_WORDS as usize {
        return false;
    }
    difference(code, at, &entry_words(fail, at, c.stack_base)).is_none()
}
