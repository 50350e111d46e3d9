//! The fields of one line of assembler text: names, numbers, words, instructions, and the operands of
//! items.
//!
//! A line is read from left to right, token by token, up to its first fault. The names of directives,
//! instructions, registers and kinds stand in tables here, or in the crates that declare them; what is
//! written from a component takes them from the same tables.
#![tactic(auto)]

mod directives;
mod fault;
mod fields;
mod instrs;
mod names;
mod operands;
mod words;

pub use directives::{Directive, ItemKind, WordKind};
pub use fault::AsmFault;
pub use fields::Fields;
pub use instrs::{Last, Shape, instr_operands, row_named, shape_of};
pub use names::{kind_name, ownership};
pub use operands::{KindField, Offset};
pub use words::word_line;
