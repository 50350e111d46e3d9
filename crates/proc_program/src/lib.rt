//! Programs as they run: names are replaced by what they stand for, each call has its number, and
//! each procedure the words that it needs of the stack.
//!
//! [`lowered`] makes the program of a module. `docs/LANGUAGE.md` has the rules of names.
#![tactic(auto)]

pub mod laws;
mod lower;
mod program;

pub use lower::lowered;
pub use program::{
    ArgExp, Array, CallExp, Exp, ExpKind, Handle, Header, Location, Procedure, Program,
    ProgramImport, Statement, StatementKind,
};
