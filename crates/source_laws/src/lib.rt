//! Compiled modules do what their sources mean, whatever code runs beside them: the laws of expressions,
//! statements, procedures, calls and waits, and their sum over the number of overlay steps.
//!
//! `specs/Trace` says what a run of the overlay shows to a source, `specs/Good` when a meaning agrees with
//! it, and `specs/Sources` what the theorem of sources says at each matched point of a run from a start.
//! The proofs are by induction on the number of steps (`proofs/All`), and inside by induction on programs
//! (`proofs/Language`); a tick of a meaning pays for 200 instructions. They stand on the laws of
//! template_runs, in which no meaning occurs, and open no sequence's instructions.
//!
//! `proofs/StandIn` has the end: the theorem for a link whose layout has the names of its trusted parts,
//! and in whose parts the code of each procedure of the modules stands. These premises are fields of one
//! record; the compiler's component and the linker's start give them.
#![tactic(auto)]

pub mod laws;
