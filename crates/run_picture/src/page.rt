//! Where things stand on the page.
ghost use Rattle.std.specs.Prelude.{◌≡◌, ◌+◌, ◌*◌, ◌≤◌, length};
ghost use Rattle.run_picture.specs.Page.{column_of, page_of, x, y, bottom, width, height, middle};

use crate::heights::{Scale, below, scale_of};
use crate::turn::Side;
use std::marker::Model;

/// Where things stand on a page: lines to the right, addresses downwards, the highest first.
#[derive(Drop)]
pub(crate) struct Page<'a> {
    column: u64,
    count: u64,
    scale: Scale,
    cuts: &'a [u64],
}

impl<'a> Model for Page<'a> {
    ghost use Rattle.std.specs.Prelude.{length};
    ghost use Rattle.run_picture.specs.Page.{PageSeen, IsPage};

    ghost Value = { PageSeen };

    ghost view = { λ p. record {
      column = p.column;
      count = p.count;
      scale = p.scale;
      cuts = p.cuts.now;
    } };

    ghost invariant = { λ p. IsPage p.column p.count p.scale.most p.scale.px (length p.cuts.now) };
}

// How wide the column of a line is.
fn column_of(count: u64) -> u64
    ensures same { result ≡ column_of count }
    ensures within { result ≤ 216 }
{
    match count {
        0..=5 => 216,
        6..=12 => 136,
        13..=30 => 92,
        31..=80 => 44,
        81..=400 => 16,
        401..=2000 => 6,
        _ => 2,
    }
}

impl<'a> Page<'a> {
    /// That of these cuts and so many lines.
    pub(crate) fn of(cuts: &'a [u64], count: u64) -> Page<'a>
        requires lines { count ≤ 16384 }
        requires few { length cuts.now ≤ 32768 }
        ensures { result ≡ page_of cuts.now count }
    {
        Page {
            column: column_of(count),
            count,
            scale: scale_of(cuts),
            cuts,
        }
    }

    /// How wide the column of a line is.
    pub(crate) fn column(&self) -> u64
        ensures same { result ≡ self.now.column }
        ensures within { result ≤ 216 }
    {
        self.column
    }

    /// How many lines there are.
    pub(crate) fn count(&self) -> u64
        ensures same { result ≡ self.now.count }
        ensures within { result ≤ 16384 }
    {
        self.count
    }

    /// How addresses become heights.
    pub(crate) fn scale(&self) -> Scale
        ensures same { result ≡ self.now.scale }
        ensures words { result.most ≤ 16 }
        ensures px { result.px ≤ 16 }
    {
        self.scale
    }

    /// The cuts, the highest first.
    pub(crate) fn cuts(&self) -> &'a [u64]
        ensures { result.now ≡ self.now.cuts }
    {
        self.cuts
    }

    /// The left edge of the n-th line.
    pub(crate) fn x(&self, n: u64) -> u64
        requires { n ≤ 65536 }
        ensures same { result ≡ x self.now n }
        ensures within { result ≤ 16777216 }
    {
        132 + self.column * n
    }

    /// Where an address is drawn.
    pub(crate) fn y(&self, address: u64) -> u64
        ensures same { result ≡ y self.now address }
        ensures within { result ≤ 16777216 }
    {
        284 + self.scale.px * below(self.scale.most, self.cuts, address)
    }

    /// Below all that is drawn.
    pub(crate) fn bottom(&self) -> u64
        ensures same { result ≡ bottom self.now }
        ensures within { result ≤ 16777260 }
    {
        self.y(0) + 44
    }

    /// How wide the page is.
    #[tactic(auto, unfolding(crate::specs::Page::width))]
    pub(crate) fn width(&self) -> u64
        ensures { result ≡ width self.now }
    {
        self.x(self.count) + 400
    }

    /// How high the page is.
    #[tactic(auto, unfolding(crate::specs::Page::height))]
    pub(crate) fn height(&self) -> u64
        ensures { result ≡ height self.now }
    {
        self.bottom() + 16
    }
}

/// The middle of a lane.
pub(crate) fn middle(side: Side) -> u64
    ensures same { result ≡ middle side }
    ensures within { result ≤ 235 }
{
    match side {
        Side::Trusted => 115,
        Side::Outside => 235,
    }
}
