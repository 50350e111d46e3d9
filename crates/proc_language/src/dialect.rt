//! The two languages.

/// The language that a source is written in.
#[derive(Clone, Copy, PartialEq, Eq)]
pub enum Dialect {
    /// That of plain modules.
    Plain,
    /// That of modules with tokens.
    Tokens,
}
