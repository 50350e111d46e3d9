//! What a text is made of.

/// What a token is.
#[derive(Clone, Copy, Default, PartialEq)]
pub enum TokenKind {
    /// A run of `a` to `z`, `0` to `9` and `_` that doesn't begin with a digit.
    Name,
    /// A run of digits, with its value, which is at most 2^63.
    Number(u64),
    /// One of the bytes `.` `,` `:` `;` `(` `)` `[` `]` `{` `}` `=` `<` `+` `-` `/` `@` `%`.
    Sign(u8),
    /// Two `=` side by side.
    Equal,
    /// The end of a line.
    #[default]
    NewLine,
}

/// A token: what it is, and which bytes of the text it has.
#[derive(Clone, Copy, Default)]
pub struct Token {
    /// What it is.
    pub kind: TokenKind,
    /// The place of its first byte, counted from 0.
    pub at: u32,
    /// How many bytes it has.
    pub len: u32,
}
