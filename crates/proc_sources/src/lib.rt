//! Sources: the module that a text spells, with its names resolved, and its component; or the first fault.
//!
//! `docs/LANGUAGE.md` has the grammar, the rules of names, and what a module is compiled to, `docs/TOKENS.md`
//! what sources with tokens have besides.
#![tactic(auto)]

mod fault;
pub mod laws;
mod source;

pub use fault::SourceFault;
pub use source::{component_of, module_of};
