//! The names of a module: where each leads, and what is wrong with the first that is wrong; and the
//! words of the stack that a procedure needs.
#![tactic(auto)]

mod fault;
pub mod laws;
mod named;
mod need;
mod repeats;
mod scope;
mod uses;

pub use fault::{NameFault, earlier};
pub use named::{Named, index_of, same};
pub use need::{frame_words, params_registers, words_needed};
pub use repeats::{items_twice, twice, twice_in_two};
pub use scope::{
    Callee, Variable, callee_named, is_there, item_callee, item_variable, passed_named,
    variable_named,
};
pub use uses::{array_fault, import_arity, passed_fault, plain_fault, resolve, unless};
