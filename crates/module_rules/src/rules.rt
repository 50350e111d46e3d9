//! The rules that modules keep together, and where one is first broken.
ghost use Rattle.std.specs.Prelude.{◌≡◌, ◌<◌, ◌≤◌, ◌^◌, length};
ghost use Rattle.component_check.specs.Places.{first_place};
ghost use Rattle.linked_starts.specs.Pairs.{first_in};
ghost use Rattle.module_rules.specs.ModuleRules.{test_of, tried_at};

use crate::imports::{missing_within, private_within};
use crate::pairs::{name_within, stack_within};
use crate::whole::{main_within, size_within};
use linked_starts::PartPlace;
use proc_language::Module;

/// A rule of docs/RULES.md that modules keep together.
#[derive(Clone, Copy)]
pub(crate) enum ModuleRule {
    L3,
    L4,
    L5,
    L6,
    L7,
    L8,
}

impl ModuleRule {
    // At how many modules it is tried.
    fn count(self, modules: &[Module]) -> usize
        requires { length modules.now < 2 ^ 32 }
        ensures is { result ≡ tried_at self modules.now }
        ensures few { result ≤ 2 ^ 32 }
    {
        match self {
            ModuleRule::L8 => modules.len() + 1,
            _ => modules.len(),
        }
    }

    // The first place at which it is broken in a module.
    fn within(self, modules: &[Module], size: u32, index: usize) -> Option<u32>
        requires here { index < tried_at self modules.now }
        requires few { index < 2 ^ 32 }
        ensures { result ≡ first_place ((test_of self modules.now size).within index) }
    {
        match self {
            ModuleRule::L3 => name_within(modules, index),
            ModuleRule::L4 => missing_within(modules, index),
            ModuleRule::L5 => private_within(modules, index),
            ModuleRule::L6 => main_within(modules, index),
            ModuleRule::L7 => stack_within(modules, index),
            ModuleRule::L8 => size_within(modules, size, index),
        }
    }

    /// The first module, and the first place in it, at which it is broken.
    pub(crate) fn first(self, modules: &[Module], size: u32) -> Option<PartPlace>
        requires { length modules.now < 2 ^ 32 }
        ensures { result ≡ first_in (test_of self modules.now size) }
    {
        for index in 0..self.count(modules) {
            if let Some(place) = self.within(modules, size, index) {
                let part = index as u32;
                return Some(PartPlace { part, place });
            }
        }
        None
    }
}
