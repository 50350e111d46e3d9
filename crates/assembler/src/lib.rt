//! Assembler texts to components: labels and the references to them, the lines of a text one after another,
//! up to the first fault, and the component that they say.
#![tactic(auto)]

mod draft;
mod fixup;
mod header;
mod labels;
pub mod laws;
mod lines;
mod order;
mod passes;
mod references;
mod tables;

pub use asm_fields::AsmFault;
pub use passes::assemble;
