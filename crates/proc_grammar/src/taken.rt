//! What parameters or locals take.

/// What parameters or locals take.
#[derive(Clone, Copy)]
pub struct Taken {
    /// Registers, or slots of locals.
    pub slots: u32,
    /// Tokens.
    pub tokens: u32,
}
