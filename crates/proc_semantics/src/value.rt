//! What procedures work on.

/// A procedure of the modules.
#[derive(Clone, Copy)]
pub struct Target {
    /// The place of its module among the modules.
    pub home: usize,
    /// Its place among the procedures of that module.
    pub proc: usize,
}

/// A closure pair, by what a call of it does.
#[derive(Clone, Copy)]
pub enum Pair {
    /// The call fails.
    Bad,
    /// The call leaves the modules.
    Outside,
    /// The call runs a procedure.
    Runs(Target),
}

/// What stands in a place of a procedure: in a parameter or a local. A callback takes two places, as it
/// takes two argument registers.
#[derive(Clone, Copy)]
pub enum Value {
    /// A number.
    Num(i64),
    /// A callback: its first half, which stands for the whole.
    Closure(Pair),
    /// The second half of a callback.
    Other,
}

/// What is known of an argument register.
#[derive(Clone, Copy)]
pub struct Register {
    /// The number that it holds, if it holds one.
    pub number: Option<i64>,
    /// The closure pair that it and the next one are, if they are one.
    pub pair: Option<Pair>,
}

/// What stays the same all through one run of a procedure.
#[derive(Clone, Copy)]
pub struct Activation {
    /// The place of its module among the modules.
    pub home: usize,
    /// How many words of the stack it was given.
    pub left: u32,
    /// How many of them are its own frame.
    pub need: u32,
}
