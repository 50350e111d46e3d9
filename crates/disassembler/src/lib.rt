//! Components to assembler texts.
#![tactic(auto)]

pub mod laws;
mod line;
mod tables;
mod text;
mod words;

pub use text::disassemble;
