//! Modules of the language: the tree of a source.
//!
//! A source is a text; what it spells is a [`Module`], whose tree is public. Each part of the tree
//! has the place of its first token. `docs/LANGUAGE.md` has the grammar and the
//! rules.
#![tactic(auto)]

mod dialect;
mod module;
mod tree;
mod words;

pub use dialect::Dialect;
pub use module::{Global, Import, Module, ModuleFields, Param, Proc};
pub use tree::{Arg, Call, Expr, ExprKind, Name, Op, Stmt, StmtKind};
pub use words::{is_name, is_reserved};

/// The most return seals of a module.
pub const MOST_SEALS: u32 = 4_096;

/// The most imports, the most globals and the most procedures of a module.
pub const MOST_ITEMS: u32 = 512;

/// The most registers in which arguments are handed over.
pub const MOST_REGISTERS: u32 = 4;

/// The most locals of a procedure.
pub const MOST_LOCALS: u32 = 64;

/// The most tokens of a procedure, its parameters and locals together, where the language has tokens.
pub const MOST_TOKENS: u32 = 60;

/// The most elements of an array.
pub const LONGEST_ARRAY: u32 = 4_096;

/// The largest number in an expression.
pub const LARGEST_LITERAL: u32 = 2_147_483_647;

/// The most terms that one sum of a text has. A tree may have more.
pub const MOST_TERMS: u32 = 64;

/// The most brackets of a text that are open at once.
pub const MOST_BRACKETS: u32 = 64;
