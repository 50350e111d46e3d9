//! What lines of a feed tell, field by field.
ghost use Rattle.std.specs.Prelude.{◌≡◌};

use crate::Handed;
use crate::forms::WayBack;
use std::marker::Model;

/// What an `enter` line tells. Of words it has the fields.
#[derive(Drop)]
pub(crate) struct Entered<'a> {
    pub(crate) part: &'a [u8],
    pub(crate) name: &'a [u8],
    pub(crate) stk: &'a [u8],
    pub(crate) a0: &'a [u8],
    pub(crate) a1: &'a [u8],
    pub(crate) a2: &'a [u8],
    pub(crate) a3: &'a [u8],
    pub(crate) back: WayBack<'a>,
}

impl<'a> Model for Entered<'a> {
    ghost use Rattle.line_fields.specs.Forms.{back_seen};
    ghost use Rattle.line_fields.specs.Seen.{EnterSeen};

    ghost Value = { EnterSeen };

    ghost view = { λ e. record {
      part = e.part.now;
      name = e.name.now;
      stk = e.stk.now;
      a0 = e.a0.now;
      a1 = e.a1.now;
      a2 = e.a2.now;
      a3 = e.a3.now;
      back = back_seen e.back;
    } };
}

/// What a `ret out` line tells. Of the value it has the field.
#[derive(Drop)]
pub(crate) struct Answered<'a> {
    pub(crate) part: &'a [u8],
    pub(crate) site: u32,
    pub(crate) base: u32,
    pub(crate) a0: &'a [u8],
}

impl<'a> Model for Answered<'a> {
    ghost use Rattle.line_fields.specs.Seen.{RetSeen};

    ghost Value = { RetSeen };

    ghost view = { λ r. record {
      part = r.part.now;
      site = r.site;
      base = r.base;
      a0 = r.a0.now;
    } };
}

/// What a `pass` line tells.
#[derive(Drop)]
pub(crate) struct Passed<'a> {
    pub(crate) p0: Handed<'a>,
    pub(crate) p1: Handed<'a>,
    pub(crate) p2: Handed<'a>,
}

impl<'a> Model for Passed<'a> {
    ghost use Rattle.line_fields.specs.Forms.{handed_seen};
    ghost use Rattle.line_fields.specs.Seen.{PassSeen};

    ghost Value = { PassSeen };

    ghost view = { λ p. record {
      p0 = handed_seen p.p0;
      p1 = handed_seen p.p1;
      p2 = handed_seen p.p2;
    } };
}
