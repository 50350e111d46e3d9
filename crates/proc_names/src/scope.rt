//! Where names lead.
ghost use Rattle.std.specs.Prelude.{◌≡◌, is_some, position};
ghost use Rattle.proc_names.specs.Names.{is_there, is_callback, is_array, callback_index, shared_index};
ghost use Rattle.proc_names.specs.Names.{variable_named, item_variable, callee_named, item_callee, is_taken};
ghost use Rattle.proc_names.specs.Names.{passed_named};

use crate::named::{Named, index_of, same};
use proc_language::{Global, Import, ModuleFields, Name, Param, Proc};

/// What a name leads to, where it stands for a variable: each by its index in the lists of the
/// procedure or the module.
#[derive(Clone, Copy)]
pub enum Variable {
    /// A parameter that is no callback.
    Param(usize),
    /// A local.
    Local(usize),
    /// A global of one word.
    Global(usize),
    /// A global with elements.
    Array(usize),
    /// No variable: a callback, an import or a procedure.
    Other,
    /// Nothing.
    Missing,
}

/// What a name leads to, where it is called or passed on: each by its index in the lists of the
/// procedure or the module.
#[derive(Clone, Copy)]
pub enum Callee {
    /// A callback among the parameters.
    Callback(usize),
    /// An import.
    Import(usize),
    /// A procedure of the module.
    Proc(usize),
    /// Something that can't be called or passed on.
    Other,
    /// Nothing.
    Missing,
}

/// Whether some item has the name.
pub fn is_there<T: Named>(items: &[T], x: &Name) -> bool
    ensures { result ≡ is_there T.name_of items.now x.now }
{
    index_of(items, x).is_some()
}

fn is_callback(params: &[Param], i: usize) -> bool
    ensures { result ≡ is_callback params.now i }
{
    match params.get(i) {
        Some(q) => q.arity.is_some(),
        None => false,
    }
}

fn is_array(globals: &[Global], i: usize) -> bool
    ensures { result ≡ is_array globals.now i }
{
    match globals.get(i) {
        Some(g) => g.length.is_some(),
        None => false,
    }
}

/// What a variable's name leads to in a procedure of a module: parameters and locals hide globals, and
/// these hide the rest. Of equal names it is the first.
#[tactic(auto, unfolding(crate::specs::Names::variable_named))]
pub fn variable_named(m: &ModuleFields, p: &Proc, x: &Name) -> Variable
    ensures { result ≡ variable_named m.now p.now x.now }
{
    let params = p.params.as_slice();
    if let Some(i) = index_of(params, x) {
        return if is_callback(params, i) {
            Variable::Other
        } else {
            Variable::Param(i)
        };
    }
    if let Some(i) = index_of(p.locals.as_slice(), x) {
        return Variable::Local(i);
    }
    item_variable(
        m.imports.as_slice(),
        m.globals.as_slice(),
        m.procs.as_slice(),
        x,
    )
}

/// What a variable's name leads to that no procedure has of its own.
pub fn item_variable<P: Named>(
    imports: &[Import],
    globals: &[Global],
    procs: &[P],
    x: &Name,
) -> Variable
    ensures { result ≡ item_variable P.name_of imports.now globals.now procs.now x.now }
{
    if let Some(i) = index_of(globals, x) {
        return if is_array(globals, i) {
            Variable::Array(i)
        } else {
            Variable::Global(i)
        };
    }
    if is_there(imports, x) || is_there(procs, x) {
        return Variable::Other;
    }
    Variable::Missing
}

fn callback_index(params: &[Param], f: &Name) -> Option<usize>
    ensures { result ≡ callback_index params.now f.now }
{
    params
        .iter()
        .position(|q| q.arity.is_some() && same(&q.name, f))
}

fn shared_index(procs: &[Proc], f: &Name) -> Option<usize>
    ensures { result ≡ shared_index procs.now f.now }
{
    procs.iter().position(|q| q.shared && same(&q.name, f))
}

/// What the name of a call leads to in a procedure of a module: its callbacks, imports, procedures, in
/// this order; `Other` where only a global has the name.
#[tactic(auto, unfolding(crate::specs::Names::callee_named))]
pub fn callee_named(m: &ModuleFields, p: &Proc, f: &Name) -> Callee
    ensures { result ≡ callee_named m.now p.now f.now }
{
    if let Some(i) = callback_index(p.params.as_slice(), f) {
        return Callee::Callback(i);
    }
    item_callee(
        m.imports.as_slice(),
        m.globals.as_slice(),
        m.procs.as_slice(),
        f,
    )
}

/// What the name of a call leads to that is no callback.
pub fn item_callee<P: Named>(
    imports: &[Import],
    globals: &[Global],
    procs: &[P],
    f: &Name,
) -> Callee
    ensures { result ≡ item_callee P.name_of imports.now globals.now procs.now f.now }
{
    if let Some(i) = index_of(imports, f) {
        return Callee::Import(i);
    }
    if let Some(i) = index_of(procs, f) {
        return Callee::Proc(i);
    }
    if is_there(globals, f) {
        return Callee::Other;
    }
    Callee::Missing
}

// A parameter, a local, a global or a procedure has the name.
fn is_taken(m: &ModuleFields, p: &Proc, f: &Name) -> bool
    ensures { result ≡ is_taken m.now p.now f.now }
{
    is_there(p.params.as_slice(), f)
        || is_there(p.locals.as_slice(), f)
        || is_there(m.globals.as_slice(), f)
        || is_there(m.procs.as_slice(), f)
}

/// What the name after `proc`, as an argument, leads to in a procedure of a module: its callbacks,
/// imports, shared procedures, in this order; `Other` where only a parameter, a local, a global or
/// another procedure has the name.
#[tactic(auto, unfolding(crate::specs::Names::passed_named))]
pub fn passed_named(m: &ModuleFields, p: &Proc, f: &Name) -> Callee
    ensures { result ≡ passed_named m.now p.now f.now }
{
    if let Some(i) = callback_index(p.params.as_slice(), f) {
        return Callee::Callback(i);
    }
    if let Some(i) = index_of(m.imports.as_slice(), f) {
        return Callee::Import(i);
    }
    if let Some(i) = shared_index(m.procs.as_slice(), f) {
        return Callee::Proc(i);
    }
    if is_taken(m, p, f) {
        Callee::Other
    } else {
        Callee::Missing
    }
}
