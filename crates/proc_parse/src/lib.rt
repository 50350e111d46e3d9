//! Modules of the language, from their texts.
#![tactic(auto)]

mod cursor;
mod exprs;
mod items;
pub mod laws;
mod module;
mod plain;
mod procs;
mod source;
mod stmts;

pub use plain::parse;
pub use proc_grammar::ParseFault;
pub use source::parse_in;
