//! The linear capability machine: its registers and memory, and its steps.
//!
//! A machine has sixteen registers and, at some of the addresses 0 to 1,048,575, a cell of memory.
//! Each holds a word: an integer, a memory or seal capability, or a capability sealed under a
//! seal. A step fetches the instruction that pc names and carries it out, or fails by one of
//! fourteen causes. A word that is linear can't be duplicated: what takes it from its place leaves
//! integer 0 there.
//!
//! The table of instructions is said and proved once, for words of any kind ([`state::State`]).
//! [`LcmState`] is the plain machine, over plain words, with its count of steps and its end.
#![tactic(auto)]

ghost use Rattle.std.specs.Prelude.{◌≡◌};
ghost use Rattle.lcm_machine.specs.Ends.{end_answer};

pub mod cells;
mod effects;
pub mod laws;
pub mod machine;
mod parts;
pub mod plan;
pub mod regs;
mod rows;
pub mod state;
mod steps;
mod undo;

pub use cells::Span;
use lcm_isa::Reg;
pub use machine::LcmState;
pub use undo::Undo;

/// Where a word can stand: a register, or the cell at an address.
#[derive(Clone, Copy)]
pub enum Place {
    R(Reg),
    Cell(u32),
}

/// Why a step failed.
#[derive(Clone, Copy, PartialEq)]
pub enum FailCause {
    /// pc isn't a normal memory capability with rx or rwx.
    F1,
    /// pc's address is outside its range or has no cell.
    F2,
    /// The cell at pc's address holds no instruction.
    F3,
    /// The instruction is `fail`.
    F4,
    /// pc is named as a destination.
    F5,
    /// A word is of the wrong kind.
    F6,
    /// A permission doesn't allow it.
    F7,
    /// The address of a load or a store is outside the range or has no cell.
    F8,
    /// A sum or a difference has more than 64 bits.
    F9,
    /// A word is linear that may not be.
    F10,
    /// The current seal is outside the range of seals.
    F11,
    /// The two words are sealed under two seals.
    F12,
    /// The split point isn't inside the range: at least its base and below its end.
    F13,
    /// The two capabilities aren't of one kind over adjacent ranges.
    F14,
}

/// What a step came to. A failure says its cause and pc's address, or -1 where pc holds no memory
/// capability.
#[derive(Clone, Copy, PartialEq)]
pub enum Step {
    Went,
    Halted,
    Failed(FailCause, i64),
}

/// How a machine ended. A failure says its cause and pc's address, or -1 where pc holds no memory
/// capability.
#[derive(Clone, Copy)]
pub enum End {
    Halted,
    Failed(FailCause, i64),
}

impl End {
    /// What a step answers that ended the machine so, and each step after it.
    pub fn answer(self) -> Step
        ensures { result ≡ end_answer self }
    {
        match self {
            End::Halted => Step::Halted,
            End::Failed(cause, at) => Step::Failed(cause, at),
        }
    }
}
