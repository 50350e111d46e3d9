//! The rules of areas and seals: C1 to C3.
ghost use Rattle.std.specs.Prelude.{◌≡◌, ◌+◌, ◌<◌, ◌≤◌, ◌^◌, length};
ghost use Rattle.component_file.specs.Limits.{IsComponent};
ghost use Rattle.component_check.specs.Places.{first_place};
ghost use Rattle.component_check.specs.Areas.{code_area, data_area, is_past_end, are_near};
ghost use Rattle.component_check.specs.Rules.{c1, c2, seals_are_bad, c3};

use crate::places::each_of;
use cap_words::LAST_PLACE;
use component_file::{Area, ComponentFields};

/// Where the code of a component stands.
pub fn code_area(c: &ComponentFields) -> Area
    requires { length c.now.code < 2 ^ 32 }
    ensures { result ≡ code_area c.now }
{
    Area {
        base: c.code_base,
        count: c.code.as_slice().len() as u32,
    }
}

/// Where the data of a component stand.
pub fn data_area(c: &ComponentFields) -> Area
    requires { length c.now.data_words < 2 ^ 32 }
    ensures { result ≡ data_area c.now }
{
    Area {
        base: c.data_base,
        count: c.data_words.as_slice().len() as u32,
    }
}

fn is_past_end(base: u32, count: u32) -> bool
    ensures { result ≡ is_past_end base count }
{
    count != 0 && u64::from(LAST_PLACE) + 1 < u64::from(base) + u64::from(count)
}

/// Whether two areas have an address in common, or one begins right after the other. An empty area
/// is near to nothing.
pub fn are_near(a: Area, b: Area) -> bool
    ensures { result ≡ are_near a b }
{
    if a.count == 0 || b.count == 0 {
        return false;
    }
    u64::from(b.base) <= u64::from(a.base) + u64::from(a.count)
        && u64::from(a.base) <= u64::from(b.base) + u64::from(b.count)
}

#[tactic(auto, unfolding(crate::specs::Rules::c1))]
pub(crate) fn c1(c: &ComponentFields) -> Option<u32>
    requires { IsComponent c.now }
    ensures { result ≡ first_place (c1 c.now) }
{
    let code = code_area(c);
    let data = data_area(c);
    each_of(&[
        is_past_end(code.base, code.count),
        is_past_end(data.base, data.count),
        is_past_end(c.linear.base, c.linear.count),
    ])
}

#[tactic(auto, unfolding(crate::specs::Rules::c2))]
pub(crate) fn c2(c: &ComponentFields) -> Option<u32>
    requires { IsComponent c.now }
    ensures { result ≡ first_place (c2 c.now) }
{
    let code = code_area(c);
    let data = data_area(c);
    each_of(&[
        are_near(code, data),
        are_near(code, c.linear),
        are_near(data, c.linear),
    ])
}

fn seals_are_bad(c: &ComponentFields) -> bool
    ensures { result ≡ seals_are_bad c.now }
{
    let base = c.seals.base();
    let count = c.seals.count();
    if is_past_end(base, count) {
        return true;
    }
    base <= c.closure && c.closure < base + count
}

#[tactic(auto, unfolding(crate::specs::Rules::c3))]
pub(crate) fn c3(c: &ComponentFields) -> Option<u32>
    ensures { result ≡ first_place (c3 c.now) }
{
    each_of(&[seals_are_bad(c)])
}
