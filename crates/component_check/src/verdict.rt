//! The rules of a component, in their order.
ghost use Rattle.std.specs.Prelude.{◌≡◌, Err};
ghost use Rattle.component_file.specs.Limits.{IsComponent};
ghost use Rattle.component_check.specs.declared.rule.Group.TheVariants.{C};
ghost use Rattle.component_check.specs.RuleText.{broken_at};
ghost use Rattle.component_check.specs.Verdict.{check_from, IsFirstBroken};
ghost use Rattle.component_check.specs.Rules.{rules_of_trusted, rules_c};

use crate::areas::{c1, c2, c3};
use crate::linear::c8;
use crate::rule::{Broken, Group, Rule, kept};
use crate::slots::{c4, c5, c6};
use crate::trusted::{c10, c11, c12};
use crate::words::{c7, c9};
use component_file::{Component, ComponentFields};

// That a rule is broken at a place.
fn broken(number: u8, place: u32) -> Result<(), Broken>
    ensures { result ≡ Err (broken_at C number place) }
{
    let group = Group::C;
    let rule = Rule { group, number };
    Err(Broken { rule, place })
}

fn check_trusted(c: &ComponentFields, trusted: bool) -> Result<(), Broken>
    requires { IsComponent c.now }
    ensures { result ≡ check_from (broken_at C) 10 (rules_of_trusted trusted c.now) }
{
    if !trusted {
        return Ok(());
    }
    if let Some(place) = c10(c) {
        return broken(10, place);
    }
    if let Some(place) = c11(c) {
        return broken(11, place);
    }
    kept(Group::C, 12, c12(c))
}

// Where C7 holds, linear capabilities lie in the linear area, so C8 is tried after it.
fn check_rules(c: &ComponentFields, trusted: bool) -> Result<(), Broken>
    requires { IsComponent c.now }
    ensures { result ≡ check_from (broken_at C) 1 (rules_c c.now trusted) }
{
    if let Some(place) = c1(c) {
        return broken(1, place);
    }
    if let Some(place) = c2(c) {
        return broken(2, place);
    }
    if let Some(place) = c3(c) {
        return broken(3, place);
    }
    if let Some(place) = c4(c) {
        return broken(4, place);
    }
    if let Some(place) = c5(c) {
        return broken(5, place);
    }
    if let Some(place) = c6(c) {
        return broken(6, place);
    }
    if let Some(place) = c7(c) {
        return broken(7, place);
    }
    if let Some(place) = c8(c) {
        return broken(8, place);
    }
    if let Some(place) = c9(c) {
        return broken(9, place);
    }
    check_trusted(c, trusted)
}

/// The first rule that the component breaks, in the order C1 to C9 and for a trusted one C10 to
/// C12, and the first place at which it breaks it. `Ok` exactly where it breaks none. It takes no
/// memory, and its time grows as the number of words, imports and exports.
pub fn check(c: &Component, trusted: bool) -> Result<(), Broken>
    ensures { IsFirstBroken (broken_at C) (rules_c c.now trusted) result }
{
    check_rules(c.fields(), trusted)
}
