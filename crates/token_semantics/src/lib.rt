//! What modules with tokens mean: a definition, and the law that holds of it.
//!
//! A running procedure also has for each of its tokens a number or nothing. `make` puts the next unused
//! number there, `spend` takes it away and notes it as spent, and a token that is an argument moves its
//! number to the procedure that is called. None of these takes a tick. It is stuck where `make` finds a
//! number, and where `spend` or an argument finds none. All else is as in the meaning of plain modules.
//!
//! `specs/` has the definition: `Hands` what a procedure has of numbers and what is noted of all of them,
//! `Told` the pieces that tell and note, `Meaning` the recursion over modules. [`laws`] has what becomes of
//! tokens where they were checked.
#![tactic(auto)]

pub mod laws;
