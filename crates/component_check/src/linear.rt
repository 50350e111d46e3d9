//! The rule of linear capabilities, C8: no two of them are over one address.
//!
//! C7 comes first, so they all lie in the linear area, which has at most 65,536 addresses. One pass
//! over the words marks the addresses of one after another, and stops at the first that is marked
//! already. So each address is marked once at most, where a search by pairs would take the square
//! of the number of words.
ghost use Rattle.std.specs.Prelude.{◌≡◌, ◌<◌, ◌≤◌, ◌+◌, ◌-◌, false, length, IfSome, None};
ghost use Rattle.cap_words.specs.Face.{SomeCapInOrder};
ghost use Rattle.component_file.specs.Limits.{IsComponent};
ghost use Rattle.component_check.specs.Places.{first_place};
ghost use Rattle.component_check.specs.Rules.{words, c7, c8, linear_at, meets_before};
ghost use Rattle.component_check.specs.Marks.{Taken, IsInArea};

use crate::marks::Marks;
use crate::words::{count, word_at};
use cap_words::{CapFields, Word};
use component_file::ComponentFields;

// The linear capability that stands at this index.
fn linear_at(c: &ComponentFields, i: usize) -> Option<CapFields>
    ensures is { result ≡ linear_at c.now i }
    ensures in_order { SomeCapInOrder result }
{
    match word_at(c, i) {
        Some(Word::Mem(m)) if m.fields().lin.is_linear() => Some(m.fields()),
        _ => None,
    }
}

// The same, which lies in the linear area.
fn own_linear_at(c: &ComponentFields, i: usize) -> Option<CapFields>
    requires fits { IsComponent c.now }
    requires own { first_place (c7 c.now) ≡ None }
    requires here { i < length (words c.now) }
    ensures is { result ≡ linear_at c.now i }
    ensures in_order { SomeCapInOrder result }
    ensures in_area { IfSome result (λ m. IsInArea c.now m) }
{
    linear_at(c, i)
}

// Whether the linear capability at this index meets one before it. Where it doesn't, its addresses
// are marked.
fn take(taken: &mut Marks, c: &ComponentFields, j: usize) -> bool
    requires fits { IsComponent c.now }
    requires own { first_place (c7 c.now) ≡ None }
    requires here { j < length (words c.now) }
    requires before { Taken c.now taken.old.bits j }
    ensures is { result ≡ meets_before c.now j }
    ensures more { result ≡ false → Taken c.now taken.new.bits (j + 1) }
{
    let Some(m) = own_linear_at(c, j) else {
        return false;
    };
    let first = (m.base - c.linear.base) as usize;
    let behind = (m.end + 1 - c.linear.base) as usize;
    if taken.has_any(first, behind) {
        return true;
    }
    taken.mark_all(first, behind);
    false
}

#[tactic(auto, unfolding(crate::specs::Rules::c8))]
pub(crate) fn c8(c: &ComponentFields) -> Option<u32>
    requires fits { IsComponent c.now }
    requires own { first_place (c7 c.now) ≡ None }
    ensures { result ≡ first_place (c8 c.now) }
{
    let mut taken = Marks::none();
    for j in 0..count(c) {
        if take(&mut taken, c, j) {
            return Some(j as u32);
        }
    }
    None
}
