//! What is noted of an instruction before it is made.

/// An `xjmp` that is about to be made.
#[derive(Clone, Copy)]
pub struct Jump {
    /// The trusted part in which it stands.
    pub from: Option<u32>,
    /// The site whose call it ends.
    pub call: Option<u32>,
    /// The seal that it is to open.
    pub seal: Option<u32>,
}

/// What is noted of an instruction.
#[derive(Clone, Copy)]
pub enum Note {
    /// It has no event.
    Nothing,
    /// It is the last word of this site.
    Last(u32),
    /// It is an `xjmp`.
    Leap(Jump),
}
