//! Modules with tokens: the tree of a source in the language of tokens, where its names lead, and what is
//! wrong with the first name that is wrong.
//!
//! A token is what a procedure makes, hands over and spends. All else is as in the plain language, whose
//! module is what is left without the tokens.
#![tactic(auto)]

mod calls;
mod exprs;
mod items;
pub mod laws;
mod module;
mod named;
mod names;
mod procs;
mod scope;
mod stmts;
mod tree;
mod uses;

pub use items::erase;
pub use module::{TokenLocal, TokenModule, TokenModuleFields, TokenParam, TokenProc};
pub use tree::{TokenArg, TokenCall, TokenExpr, TokenExprKind, TokenStmt, TokenStmtKind};
pub use uses::resolve_tokens;
