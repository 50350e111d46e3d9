//! The grammar of the language: which tokens spell which module, and how they are read.
#![tactic(auto)]

mod fault;
mod header;
mod language;
pub mod laws;
mod plain;
mod taken;

pub use fault::ParseFault;
pub use header::ModuleHeader;
pub use language::Language;
pub use plain::Plain;
pub use taken::Taken;
