//! All rules, in their order.
ghost use Rattle.std.specs.Prelude.{◌≡◌, ◌<◌, ◌^◌, length, Ok, map};
ghost use Rattle.component_check.specs.Verdict.{check_from, kept_or};
ghost use Rattle.linked_starts.specs.Pairs.{by_part, IsFirstBrokenIn};
ghost use Rattle.module_rules.specs.Rules.{module_rules, told_as, ruled};

use crate::rules::ModuleRule;
use component_check::{Group, Rule};
use linked_starts::{PartPlace, RuleAt};
use proc_language::Module;

// Goes on where a rule has no broken place. The first that is tried is L3.
fn kept(tried: u8, at: Option<PartPlace>) -> Result<(), RuleAt>
    requires { tried < 10 }
    ensures { result ≡ kept_or told_as tried at (Ok tt) }
{
    match at {
        None => Ok(()),
        Some(at) => Err(RuleAt {
            rule: Rule {
                group: Group::L,
                number: tried + 2,
            },
            part: at.part,
            place: at.place,
        }),
    }
}

fn try_rules(modules: &[Module], size: u32) -> Result<(), RuleAt>
    requires { length modules.now < 2 ^ 32 }
    ensures { result ≡ check_from told_as 1 (map by_part (module_rules modules.now size)) }
{
    kept(1, ModuleRule::L3.first(modules, size))?;
    kept(2, ModuleRule::L4.first(modules, size))?;
    kept(3, ModuleRule::L5.first(modules, size))?;
    kept(4, ModuleRule::L6.first(modules, size))?;
    kept(5, ModuleRule::L7.first(modules, size))?;
    kept(6, ModuleRule::L8.first(modules, size))
}

/// Tries the rules L3 to L8 on modules and a stack of `size` words: L4 and L5 on imports from one of
/// the modules alone, and L6 so that no shared `main` at all is allowed. docs/RULES.md has them. It
/// takes no memory.
///
/// # Errors
///
/// The first rule that is broken, in the first module and at the first place there at which it is.
#[tactic(auto, unfolding(crate::specs::Rules::ruled))]
pub fn check_modules(modules: &[Module], size: u32) -> Result<(), RuleAt>
    requires { length modules.now < 2 ^ 32 }
    ensures is { result ≡ ruled modules.now size }
    ensures first { IsFirstBrokenIn told_as (module_rules modules.now size) result }
{
    try_rules(modules, size)
}
