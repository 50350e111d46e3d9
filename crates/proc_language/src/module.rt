//! What a module is.
ghost use Rattle.std.specs.Prelude.{◌≡◌};

use crate::tree::{Name, Stmt};
use cap_words::Items;
use std::marker::Model;

/// What another part exports under a name, to be called.
#[derive(Drop)]
pub struct Import {
    /// The place of `import`.
    pub at: u32,
    /// The name of the part.
    pub part: Name,
    /// The name under which that part exports it, and under which it is called.
    pub name: Name,
    /// How many registers with arguments a call of it hands over.
    pub arity: u32,
}

/// A variable or an array of the module.
#[derive(Drop)]
pub struct Global {
    /// The place of `global`.
    pub at: u32,
    /// Its name.
    pub name: Name,
    /// How many elements it has, where it is an array.
    pub length: Option<u32>,
    /// What it is at first, or each of its elements; 0 where nothing is written.
    pub initial: Option<i64>,
}

/// A parameter of a procedure.
#[derive(Drop)]
pub struct Param {
    /// Its name.
    pub name: Name,
    /// Of a callback, how many registers with arguments a call of it hands over.
    pub arity: Option<u32>,
}

/// A procedure.
#[derive(Drop)]
pub struct Proc {
    /// The place of `export` or `proc`.
    pub at: u32,
    /// Whether other parts may import it.
    pub shared: bool,
    /// Its name.
    pub name: Name,
    /// What it is given.
    pub params: Items<Param>,
    /// Its variables.
    pub locals: Items<Name>,
    /// What it does.
    pub body: Items<Stmt>,
}

/// What a module is made of. It may break the limits; a [`Module`] keeps them.
#[derive(Drop)]
pub struct ModuleFields {
    /// The place of `module`.
    pub at: u32,
    /// The part's name.
    pub name: Name,
    /// The address of the first code word.
    pub code: u32,
    /// The address of the first data word.
    pub data_base: u32,
    /// The seal of the part's entries.
    pub closure: u32,
    /// The first seal of the part's return points.
    pub returns: u32,
    /// How many such seals there are.
    pub return_count: u32,
    /// The address at which the stack begins.
    pub stack: u32,
    /// Whether the part may be placed elsewhere.
    pub movable: bool,
    /// What it wants to call.
    pub imports: Items<Import>,
    /// Its variables and arrays.
    pub globals: Items<Global>,
    /// Its procedures.
    pub procs: Items<Proc>,
}

/// A module: the tree of a source. A contract sees its fields.
///
/// It keeps the limits of docs/LANGUAGE.md on names, numbers and counts, has a procedure, and none
/// of its names is a reserved word. How many terms a sum has and how many brackets are open is a
/// matter of texts.
#[derive(Drop)]
pub struct Module {
    fields: ModuleFields,
}

impl Model for Module {
    ghost use Rattle.proc_language.specs.declared.module.ModuleFields.{ModuleFields};
    ghost use Rattle.std.specs.Coded.{codes};
    ghost use Rattle.proc_language.specs.Codes.{coded_stmt};

    ghost Value = { ModuleFields };

    ghost coded = { Prim.hlevel (codes, coded_stmt) };

    ghost use Rattle.proc_language.specs.Limits.{IsModule};

    ghost view = { λ m. m.fields };

    ghost invariant = { λ m. IsModule m.fields };
}

impl Module {
    ghost use Rattle.proc_language.specs.Limits.{IsModule};

    /// The module of these fields, which must keep the limits. It takes no memory.
    pub fn of(fields: ModuleFields) -> Module
        requires { IsModule fields }
        ensures { result ≡ fields }
    {
        Module { fields }
    }

    /// Its fields, to read.
    pub fn fields(&self) -> &ModuleFields
        ensures same { result.now ≡ self.now }
        ensures within_limits { IsModule result.now }
    {
        &self.fields
    }

    /// Its fields. It takes no memory.
    pub fn into_fields(self) -> ModuleFields
        ensures same { result ≡ self }
        ensures within_limits { IsModule result }
    {
        let Module { fields } = self;
        fields
    }
}
