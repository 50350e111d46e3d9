//! Rules L3 and L7: what two modules may not have in common, and what all must.
ghost use Rattle.std.specs.Prelude.{◌≡◌, ◌<◌, ◌≤◌, ◌^◌, length, slice_get, Some};
ghost use Rattle.component_check.specs.Places.{first_place};
ghost use Rattle.linked_starts.specs.Pairs.{once, passes};
ghost use Rattle.module_rules.specs.Rules.{same_name, names_differ, stack_base_of, stacks_agree};

use cap_words::LAST_PLACE;
use component_check::first_place;
use proc_language::{MOST_ITEMS, Module, ModuleFields};

/// The module of an index.
pub(crate) fn module_at(modules: &[Module], i: usize) -> &ModuleFields
    requires { i < length modules.now }
    ensures at { slice_get modules.now i ≡ Some result.now }
    ensures few_procs { length result.now.procs ≤ MOST_ITEMS }
    ensures few_imports { length result.now.imports ≤ MOST_ITEMS }
{
    modules[i].fields()
}

/// Whether two modules have one name.
pub(crate) fn same_name(m: &ModuleFields, other: &ModuleFields) -> bool
    ensures { result ≡ same_name m.now other.now }
{
    m.name.text.as_slice() == other.name.text.as_slice()
}

fn is_named_as(modules: &[Module], m: &ModuleFields, j: usize) -> bool
    requires { j < length modules.now }
    ensures { result ≡ passes (same_name m.now) (slice_get modules.now j) }
{
    same_name(m, module_at(modules, j))
}

/// The first module before that of an index with the name of that.
pub(crate) fn name_within(modules: &[Module], i: usize) -> Option<u32>
    requires within { i < length modules.now }
    requires few { i < 2 ^ 32 }
    ensures { result ≡ first_place ((names_differ modules.now).within i) }
{
    let m = module_at(modules, i);
    first_place(i, |j| is_named_as(modules, m, j))
}

/// The stack base of the first module, 0 where there is none. It is that of all modules which keep L7.
pub fn stack_base_of(modules: &[Module]) -> u32
    ensures same { result ≡ stack_base_of modules.now }
    ensures in_space { result ≤ LAST_PLACE }
{
    match modules.first() {
        Some(m) => m.fields().stack,
        None => 0,
    }
}

/// The place of a rule that is tried once, where it is broken.
pub(crate) fn once(broken: bool, told: u32) -> Option<u32>
    ensures { result ≡ first_place (once broken told) }
{
    if broken { Some(told) } else { None }
}

/// The stack base of the module of an index, where it isn't the first's.
pub(crate) fn stack_within(modules: &[Module], i: usize) -> Option<u32>
    requires { i < length modules.now }
    ensures { result ≡ first_place ((stacks_agree modules.now).within i) }
{
    let m = module_at(modules, i);
    once(m.stack != stack_base_of(modules), m.stack)
}
