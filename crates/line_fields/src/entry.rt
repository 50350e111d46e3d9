//! What fields name: procedures and calls.
ghost use Rattle.std.specs.Prelude.{◌≡◌};

use std::marker::Model;

/// A procedure, named as `PART:EXPORT`.
#[derive(Drop)]
pub struct EntryName<'a> {
    /// The name of its part.
    pub part: &'a [u8],
    /// Its own name.
    pub name: &'a [u8],
}

impl<'a> Model for EntryName<'a> {
    ghost use Rattle.line_fields.specs.Entries.{EntrySeen};

    ghost Value = { EntrySeen };

    ghost view = { λ e. record { part = e.part.now; name = e.name.now } };
}

/// A call, named as `PART:SITE:BASE`.
#[derive(Drop)]
pub struct CallPlace<'a> {
    /// The name of its part.
    pub part: &'a [u8],
    /// Its number in its part.
    pub site: u32,
    /// The address at which its frame begins.
    pub base: u32,
}

impl<'a> Model for CallPlace<'a> {
    ghost use Rattle.line_fields.specs.Entries.{CallSeen};

    ghost Value = { CallSeen };

    ghost view = { λ c. record { part = c.part.now; site = c.site; base = c.base } };
}
