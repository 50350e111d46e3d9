//! Programs as they run.
ghost use Rattle.std.specs.Prelude.{◌≡◌};

use cap_words::Items;
use proc_language::Op;
use std::marker::Model;

/// What a name that is called, or passed on, stands for.
#[derive(Clone, Copy)]
pub enum Handle {
    /// A callback: the place of its first half among parameters and locals.
    Given(u32),
    /// A procedure of the module, by its index.
    Own(u32),
    /// An import of the module, by its index.
    Imported(u32),
}

/// What the name of a variable stands for.
#[derive(Clone, Copy)]
pub enum Location {
    /// A parameter or a local: parameters come first. A callback takes two places, all else one.
    Local(u32),
    /// A word among those of the module's globals.
    Global(u32),
}

/// An array of the module: its first word among those of the globals, and its length.
#[derive(Clone, Copy)]
pub struct Array {
    /// The place of its first word.
    pub first: u32,
    /// How many words it has.
    pub length: u32,
}

/// An expression.
#[cycle(exp)]
#[derive(Drop)]
pub struct Exp {
    /// What it is.
    pub kind: ExpKind,
}

/// What an expression is.
#[cycle(exp)]
#[derive(Drop)]
pub enum ExpKind {
    /// A number.
    Number(u32),
    /// A variable.
    Load(Location),
    /// An element of an array.
    Element(Array, Box<Exp>),
    /// A call.
    Call(CallExp),
    /// Two operands, and what stands between them.
    Binary(Op, Box<Exp>, Box<Exp>),
}

/// A call.
#[cycle(exp)]
#[derive(Drop)]
pub struct CallExp {
    /// Its number in the module: calls are numbered from 0 by the order of their closing brackets.
    pub site: u32,
    /// What is called.
    pub handle: Handle,
    /// What it is given.
    pub args: Items<ArgExp>,
}

/// An argument.
#[cycle(exp)]
#[derive(Drop)]
pub enum ArgExp {
    /// The value of an expression.
    Value(Exp),
    /// What a callback calls.
    Pass(Handle),
}

impl Model for Exp {
    ghost use Rattle.proc_program.specs.Program.{Exp, size_of};
    ghost use Rattle.proc_program.specs.Codes.{coded_exp};

    ghost Value = { Exp };

    ghost coded = { coded_exp };

    ghost use Rattle.proc_program.specs.View.{exp_of};

    ghost view = { λ e. exp_of e.kind };

    ghost size = { size_of };

    ghost use Rattle.proc_program.specs.Deep.{depth_le-size};

    ghost size_decreases = { λ e h. depth_le-size e.kind };
}

/// A statement.
#[cycle(step)]
#[derive(Drop)]
pub struct Statement {
    /// What it is.
    pub kind: StatementKind,
}

/// What a statement is.
#[cycle(step)]
#[derive(Drop)]
pub enum StatementKind {
    /// A variable is set.
    Set(Location, Exp),
    /// An element of an array is set: the index, and the value.
    SetAt(Array, Exp, Exp),
    /// A call whose value isn't used.
    Do(Exp),
    /// What is done where the condition holds, and what where it doesn't.
    If(Exp, Items<Statement>, Items<Statement>),
    /// What is done as long as the condition holds.
    While(Exp, Items<Statement>),
    /// The procedure ends with a value.
    Return(Exp),
    /// The program ends with a value.
    Halt(Exp),
}

impl Model for Statement {
    ghost use Rattle.proc_program.specs.Program.{Statement, step_size};
    ghost use Rattle.proc_program.specs.Codes.{coded_step};

    ghost Value = { Statement };

    ghost coded = { coded_step };

    ghost use Rattle.proc_program.specs.StepView.{step_of};

    ghost view = { λ s. step_of s.kind };

    ghost size = { step_size };

    ghost use Rattle.proc_program.specs.StepDeep.{depth_le-step_size};

    ghost size_decreases = { λ s h. depth_le-step_size s.kind };
}

/// What another part exports under a name.
#[derive(Drop)]
pub struct ProgramImport {
    /// The name of the part.
    pub part: Items<u8>,
    /// The name under which that part exports it.
    pub name: Items<u8>,
}

/// A procedure as it runs.
#[derive(Drop)]
pub struct Procedure {
    /// Its name.
    pub name: Items<u8>,
    /// Whether other parts may import it.
    pub shared: bool,
    /// Whether each parameter is a callback.
    pub callbacks: Items<bool>,
    /// How many locals it has.
    pub locals: u32,
    /// The words of its frame: how many it needs of the stack.
    pub need: u32,
    /// What it does.
    pub body: Items<Statement>,
}

/// Where a module's words stand, and its seals.
#[derive(Clone, Copy)]
pub struct Header {
    /// The address of the first code word.
    pub code: u32,
    /// The address of the first data word.
    pub data_base: u32,
    /// The seal of the part's entries.
    pub closure: u32,
    /// The first seal of the part's return points.
    pub returns: u32,
    /// How many such seals there are.
    pub return_count: u32,
    /// Whether the part may be placed elsewhere.
    pub movable: bool,
}

/// A module as it runs.
#[derive(Drop)]
pub struct Program {
    /// Its name.
    pub name: Items<u8>,
    /// The address at which the stack begins.
    pub stack: u32,
    /// Where its words stand, and its seals. What the module does isn't changed by it.
    pub header: Header,
    /// What it may call of other parts.
    pub imports: Items<ProgramImport>,
    /// What the words of its globals are at first.
    pub globals: Items<i64>,
    /// Its procedures.
    pub procs: Items<Procedure>,
}
