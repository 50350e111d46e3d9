//! Modules without tokens.
ghost use Rattle.std.specs.Prelude.{◌≡◌, [], map, IfOk};
ghost use Rattle.proc_names.specs.NameFaults.{name_faults};
ghost use Rattle.token_language.specs.Erased.{erased, erased_proc};
ghost use Rattle.token_language.specs.TokenFaults.{IsTokenResolved};

use crate::names::name;
use crate::procs::proc;
use crate::{TokenModule, TokenModuleFields, TokenProc};
use cap_words::Items;
use proc_language::{Global as Variable, Import, Module, ModuleFields, Proc};
use std::alloc::{AllocError, Global};

/// A module without token parameters, locals and arguments, and without `make` and `spend`. Where each
/// name of the module leads to something that fits its use, each name of what is left does too.
pub fn erase(alloc: Global, m: &TokenModule) -> Result<Module, AllocError>
    ensures erased { IfOk result (λ plain. plain ≡ erased m.now) }
    ensures resolved { IsTokenResolved m.now → IfOk result (λ plain. name_faults plain ≡ []) }
{
    let fields = fields(alloc, m.fields())?;
    Ok(Module::of(fields))
}

fn fields(alloc: Global, m: &TokenModuleFields) -> Result<ModuleFields, AllocError>
    ensures { IfOk result (λ plain. plain ≡ erased m.now) }
{
    let name = name(alloc, &m.name)?;
    let imports = imports(alloc, m.imports.as_slice())?;
    let globals = globals(alloc, m.globals.as_slice())?;
    let procs = procs(alloc, m.procs.as_slice())?;
    Ok(ModuleFields {
        at: m.at,
        name,
        code: m.code,
        data_base: m.data_base,
        closure: m.closure,
        returns: m.returns,
        return_count: m.return_count,
        stack: m.stack,
        movable: m.movable,
        imports: Items::of(imports),
        globals: Items::of(globals),
        procs: Items::of(procs),
    })
}

fn imports(alloc: Global, list: &[Import]) -> Result<Vec<Import>, AllocError>
    ensures { IfOk result (λ v. v.items ≡ list.now) }
{
    let mut same = Vec::new(alloc);
    for i in list {
        same.push(import(alloc, i)?)?;
    }
    Ok(same)
}

fn import(alloc: Global, i: &Import) -> Result<Import, AllocError>
    ensures { IfOk result (λ same. same ≡ i.now) }
{
    let part = name(alloc, &i.part)?;
    let name = name(alloc, &i.name)?;
    Ok(Import {
        at: i.at,
        part,
        name,
        arity: i.arity,
    })
}

fn globals(alloc: Global, list: &[Variable]) -> Result<Vec<Variable>, AllocError>
    ensures { IfOk result (λ v. v.items ≡ list.now) }
{
    let mut same = Vec::new(alloc);
    for g in list {
        same.push(global(alloc, g)?)?;
    }
    Ok(same)
}

fn global(alloc: Global, g: &Variable) -> Result<Variable, AllocError>
    ensures { IfOk result (λ same. same ≡ g.now) }
{
    let name = name(alloc, &g.name)?;
    Ok(Variable {
        at: g.at,
        name,
        length: g.length,
        initial: g.initial,
    })
}

fn procs(alloc: Global, list: &[TokenProc]) -> Result<Vec<Proc>, AllocError>
    ensures { IfOk result (λ v. v.items ≡ map erased_proc list.now) }
{
    let mut kept = Vec::new(alloc);
    for p in list {
        kept.push(proc(alloc, p)?)?;
    }
    Ok(kept)
}
