//! Reads off a state what an `xjmp` of an argument register and the next one would do.
ghost use Rattle.std.specs.Prelude.{◌≡◌};
ghost use Rattle.cap_words.specs.Face.{ContentInOrder};
ghost use Rattle.run_lines.specs.Layout.{layout};
ghost use Rattle.run_lines.specs.Pairs.{content_linear, pair_under, pair_of, pairs_of};

use crate::halves::{goes, hop_in};
use crate::view::Shown;
use cap_words::{Content, Opened};
use lcm_isa::Reg;
use linked_starts::Start;
use run_lines::{Pairs, PassedPair};
use trusted_border::Back;

fn is_linear(content: Content) -> bool
    ensures { result ≡ content_linear content }
{
    match content {
        Content::Mem(c) => c.lin.is_linear(),
        Content::Seal(_) => false,
    }
}

// Where an `xjmp` under this code half goes, by its seal.
fn pair_under(start: &Start, code: Opened) -> PassedPair
    requires { ContentInOrder code.content }
    ensures { result ≡ pair_under (layout start.now) code }
{
    match hop_in(start, code) {
        Back::Hop(part, entry) => PassedPair::Hop(part, entry),
        _ => PassedPair::Out,
    }
}

// What an `xjmp` of two registers would do.
fn pair_of<V: Shown>(start: &Start, view: &V, r1: Reg, r2: Reg) -> PassedPair
    ensures { let v = V.view view.now in
        result ≡ pair_of (layout start.now) (v.reg r1) (v.reg r2) }
{
    let Some(code) = view.opened(r1) else {
        return PassedPair::Nothing;
    };
    let Some(half) = view.opened(r2) else {
        return PassedPair::Nothing;
    };
    if is_linear(code.content) || is_linear(half.content) {
        return PassedPair::Nothing;
    }
    if goes(code, half) {
        pair_under(start, code)
    } else {
        PassedPair::Bad
    }
}

/// The pairs of a state.
pub(crate) fn pairs_of<V: Shown>(start: &Start, view: &V) -> Pairs
    ensures { result ≡ pairs_of (layout start.now) (V.view view.now) }
{
    Pairs {
        p0: pair_of(start, view, Reg::A0, Reg::A1),
        p1: pair_of(start, view, Reg::A1, Reg::A2),
        p2: pair_of(start, view, Reg::A2, Reg::A3),
    }
}
