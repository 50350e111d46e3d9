//! The compiler: from a module to a component.
//!
//! [`compile`] makes the program of a module, by `proc_program`, and lays its words, by the templates of
//! `proc_templates`, which `docs/LANGUAGE.md` has as a table. The seals of calls are drawn from one lot,
//! so that no two calls have one.
#![tactic(auto)]

mod counts;
mod draft;
mod exprs;
mod fault;
mod lists;
mod module;
mod routine;
mod stmts;

pub use fault::CompileFault;
pub use module::compile;
