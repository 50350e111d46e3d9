//! How runs end.

/// How a run ended that writes its text.
#[derive(Clone, Copy)]
pub enum RunEnd {
    /// The machine halted.
    Halted,
    /// A step of the machine failed.
    Failed,
    /// The steps were used up.
    Running,
    /// A write failed, and the run stopped there.
    WriteFault,
}
