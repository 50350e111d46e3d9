//! Rules L6 and L8, of all modules together: at most one `main`, and a stack that fits.
ghost use Rattle.std.specs.Prelude.{◌≡◌, ◌<◌, ◌≤◌, length, take, codes};
ghost use Rattle.std.specs.List.{list_any};
ghost use Rattle.component_check.specs.Places.{first_place};
ghost use Rattle.component_file.specs.Limits.{name_lt};
ghost use Rattle.linked_starts.specs.Regions.{is_stack_size};
ghost use Rattle.module_rules.specs.Rules.{is_main, has_main, main_rank, one_main, stack_fits};

use crate::pairs::{module_at, once, stack_base_of};
use cap_words::{LAST_PLACE, LONGEST_STRETCH};
use proc_language::{MOST_ITEMS, Module, ModuleFields, Proc};

/// The name of the procedure at which a program starts.
const MAIN: &str = "main";

fn is_main(p: &Proc) -> bool
    ensures { result ≡ is_main p.now }
{
    p.shared && p.name.text.as_slice() == MAIN.as_bytes()
}

fn has_main(m: &ModuleFields) -> bool
    ensures { result ≡ has_main m.now }
{
    m.procs.as_slice().iter().any(|p| is_main(p))
}

fn main_before(modules: &[Module], count: usize) -> bool
    requires { count ≤ length modules.now }
    ensures { result ≡ list_any has_main (take count modules.now) }
{
    modules[..count].iter().any(|m| has_main(m.fields()))
}

fn comes_before_main(p: &Proc) -> bool
    ensures { result ≡ name_lt p.now.name.text (codes "main") }
{
    p.name.text.as_slice().cmp(MAIN.as_bytes()).is_lt()
}

// How many procedures come before `main`, in the order of their names.
fn main_rank(m: &ModuleFields) -> u32
    requires { length m.now.procs ≤ MOST_ITEMS }
    ensures { result ≡ main_rank m.now }
{
    m.procs
        .as_slice()
        .iter()
        .filter(|p| comes_before_main(p))
        .count() as u32
}

/// Which of the exports of the module of an index is its `main`, where one before shares one too.
pub(crate) fn main_within(modules: &[Module], i: usize) -> Option<u32>
    requires { i < length modules.now }
    ensures { result ≡ first_place ((one_main modules.now).within i) }
{
    let m = module_at(modules, i);
    once(has_main(m) && main_before(modules, i), main_rank(m))
}

fn is_stack_size(words: u32) -> bool
    ensures { result ≡ is_stack_size words }
{
    2 <= words && words <= LONGEST_STRETCH
}

/// The stack's size, where it doesn't fit, behind the last module.
pub(crate) fn size_within(modules: &[Module], size: u32, i: usize) -> Option<u32>
    requires { i ≤ length modules.now }
    ensures { result ≡ first_place ((stack_fits modules.now size).within i) }
{
    if i < modules.len() {
        return None;
    }
    let fits = is_stack_size(size) && stack_base_of(modules) + size <= LAST_PLACE + 1;
    once(!fits, size)
}
