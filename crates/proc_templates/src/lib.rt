//! What the compiler writes: the templates of programs, and the component of a module.
//!
//! These are definitions. `docs/LANGUAGE.md` has the templates as a table of items and sizes;
//! `specs/Templates` has the same table, `specs/Items` the words of each item, and `specs/Compiled`
//! the component.
#![tactic(auto)]

pub mod laws;

/// A procedure's frame, and where the data of its module begin.
#[derive(Clone, Copy)]
pub struct FrameShape {
    /// The words of the frame.
    pub words: u32,
    /// The slot of the first temporary: before it stand the two words of the return, the parameters
    /// and the locals.
    pub temps: u32,
    /// How many imports the module has. Their pairs come first among the data.
    pub imports: u32,
    /// The words of the data that pairs take up: two for each import and each own procedure. The
    /// globals stand after them.
    pub pairs: u32,
}
