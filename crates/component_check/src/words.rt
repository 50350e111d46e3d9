//! The rules of the words one by one: C7 and C9.
ghost use Rattle.std.specs.Prelude.{◌≡◌, ◌<◌, ◌≤◌, ◌+◌, ◌-◌, ◌^◌, length, slice_get, option_map, IfSome};
ghost use Rattle.std.specs.Prelude.{Some, None};
ghost use Rattle.std.specs.Option.{option_copied};
ghost use Rattle.component_file.specs.Limits.{IsComponent};
ghost use Rattle.component_check.specs.Places.{first_place};
ghost use Rattle.component_check.specs.Areas.{has_all};
ghost use Rattle.component_check.specs.Rules.{words, c7, c9, holds_of, is_own, is_foreign, is_foreign_seal};

use crate::areas::{code_area, data_area};
use cap_words::{CapFields, Word};
use component_file::{Area, ComponentFields};

// How many words there are.
pub(crate) fn count(c: &ComponentFields) -> usize
    requires { IsComponent c.now }
    ensures is { result ≡ length (words c.now) }
    ensures few { result ≤ 131072 }
{
    c.code.as_slice().len() + c.data_words.as_slice().len()
}

// The word of this index, code and data counted one after another.
pub(crate) fn word_at(c: &ComponentFields, i: usize) -> Option<&Word>
    ensures { option_copied result ≡ slice_get (words c.now) i }
{
    let code = c.code.as_slice();
    if i < code.len() {
        code.get(i)
    } else {
        c.data_words.as_slice().get(i - code.len())
    }
}

fn has_all(a: Area, from: u32, to: u32) -> bool
    ensures { result ≡ has_all a from to }
{
    a.base <= from && u64::from(to) < u64::from(a.base) + u64::from(a.count)
}

fn is_own(c: &ComponentFields, m: CapFields) -> bool
    requires { IsComponent c.now }
    ensures { result ≡ is_own c.now m }
{
    if m.lin.is_linear() {
        return !m.perm.may_run() && has_all(c.linear, m.base, m.end);
    }
    if has_all(code_area(c), m.base, m.end) {
        return true;
    }
    !m.perm.may_run() && has_all(data_area(c), m.base, m.end)
}

fn is_foreign(c: &ComponentFields, i: usize) -> bool
    requires { IsComponent c.now }
    ensures { result ≡ holds_of (is_foreign c.now) (slice_get (words c.now) i) }
{
    match word_at(c, i) {
        Some(Word::Mem(m)) => !is_own(c, m.fields()),
        _ => false,
    }
}

#[tactic(auto, unfolding(crate::specs::Rules::c7))]
pub(crate) fn c7(c: &ComponentFields) -> Option<u32>
    requires { IsComponent c.now }
    ensures { result ≡ first_place (c7 c.now) }
{
    for i in 0..count(c) {
        if is_foreign(c, i) {
            return Some(i as u32);
        }
    }
    None
}

fn is_foreign_seal(c: &ComponentFields, i: usize) -> bool
    ensures { result ≡ holds_of (is_foreign_seal c.now) (slice_get (words c.now) i) }
{
    match word_at(c, i) {
        Some(Word::Seal(s)) => {
            let s = s.fields();
            !(c.seals.base() <= s.base && s.end < c.seals.base() + c.seals.count())
        }
        _ => false,
    }
}

#[tactic(auto, unfolding(crate::specs::Rules::c9))]
pub(crate) fn c9(c: &ComponentFields) -> Option<u32>
    requires { IsComponent c.now }
    ensures { result ≡ first_place (c9 c.now) }
{
    for i in 0..count(c) {
        if is_foreign_seal(c, i) {
            return Some(i as u32);
        }
    }
    None
}
