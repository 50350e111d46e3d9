//! Rules L4 and L5: what imports from one of the modules name is there, and may be imported.
ghost use Rattle.std.specs.Prelude.{◌≡◌, ◌<◌, length, slice_get};
ghost use Rattle.std.specs.Option.{option_copied};
ghost use Rattle.component_check.specs.Places.{first_place};
ghost use Rattle.linked_starts.specs.Pairs.{passes};
ghost use Rattle.module_rules.specs.Rules.{module_named, proc_named, is_missing, imports_are_there};
ghost use Rattle.module_rules.specs.Rules.{is_unshared, is_private, imports_are_shared};

use crate::pairs::{module_at, same_name};
use component_check::first_place;
use proc_language::{Import, Module, ModuleFields, Proc};

// The first module of a name.
fn module_named<'a>(modules: &'a [Module], name: &[u8]) -> Option<&'a Module>
    ensures { option_copied result ≡ module_named modules.now name.now }
{
    modules
        .iter()
        .find(|m| m.fields().name.text.as_slice() == name)
}

// The first procedure of a name.
fn proc_named<'a>(procs: &'a [Proc], name: &[u8]) -> Option<&'a Proc>
    ensures { option_copied result ≡ proc_named procs.now name.now }
{
    procs.iter().find(|p| p.name.text.as_slice() == name)
}

// Whether the module is there, and has no procedure of the name.
fn is_missing(from: Option<&Module>, name: &[u8]) -> bool
    ensures { result ≡ is_missing (option_copied from.entry) name.now }
{
    match from {
        None => false,
        Some(m) => proc_named(m.fields().procs.as_slice(), name).is_none(),
    }
}

fn import_is_missing(modules: &[Module], imports: &[Import], k: usize) -> bool
    requires { k < length imports.now }
    ensures { result ≡ passes (λ x. is_missing (module_named modules.now x.part.text) x.name.text)
        (slice_get imports.now k) }
{
    let import = &imports[k];
    is_missing(
        module_named(modules, import.part.text.as_slice()),
        import.name.text.as_slice(),
    )
}

/// The first import of the module of an index that names what isn't there.
pub(crate) fn missing_within(modules: &[Module], i: usize) -> Option<u32>
    requires { i < length modules.now }
    ensures { result ≡ first_place ((imports_are_there modules.now).within i) }
{
    let imports = module_at(modules, i).imports.as_slice();
    first_place(imports.len(), |k| import_is_missing(modules, imports, k))
}

// Whether the procedure is there, and has no `export`.
fn is_unshared(p: Option<&Proc>) -> bool
    ensures { result ≡ is_unshared (option_copied p.entry) }
{
    match p {
        None => false,
        Some(p) => !p.shared,
    }
}

// Whether the procedure of a name is there, and a module may not import it.
fn is_private(m: &ModuleFields, from: Option<&Module>, name: &[u8]) -> bool
    ensures { result ≡ is_private m.now (option_copied from.entry) name.now }
{
    match from {
        None => false,
        Some(other) => {
            let other = other.fields();
            is_unshared(proc_named(other.procs.as_slice(), name)) && !same_name(other, m)
        }
    }
}

fn import_is_private(modules: &[Module], m: &ModuleFields, k: usize) -> bool
    requires { k < length m.now.imports }
    ensures { result ≡ passes (λ x. is_private m.now (module_named modules.now x.part.text) x.name.text)
        (slice_get m.now.imports k) }
{
    let import = &m.imports.as_slice()[k];
    is_private(
        m,
        module_named(modules, import.part.text.as_slice()),
        import.name.text.as_slice(),
    )
}

/// The first import of the module of an index that it may not have.
pub(crate) fn private_within(modules: &[Module], i: usize) -> Option<u32>
    requires { i < length modules.now }
    ensures { result ≡ first_place ((imports_are_shared modules.now).within i) }
{
    let m = module_at(modules, i);
    first_place(
        m.imports.as_slice().len(),
        |k| import_is_private(modules, m, k),
    )
}
