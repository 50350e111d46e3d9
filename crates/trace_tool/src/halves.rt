//! What an `xjmp` of two sealed words would do.
ghost use Rattle.std.specs.Prelude.{◌≡◌};
ghost use Rattle.cap_words.specs.Face.{ContentInOrder};
ghost use Rattle.trusted_border.specs.Reaches.{closure_owner, hop_in};
ghost use Rattle.run_lines.specs.Layout.{layout};
ghost use Rattle.trace_tool.specs.Halves.{halves_go};

use crate::find::closure_owner;
use cap_words::{Content, Opened};
use linked_starts::Start;
use trusted_border::Back;
use trusted_border::reach::hop_by;

/// Whether it would go.
#[tactic(auto, unfolding(lcm_machine::specs::Table::need, lcm_machine::specs::Table::ask))]
pub(crate) fn goes(code: Opened, half: Opened) -> bool
    ensures { result ≡ halves_go code half }
{
    if code.seal != half.seal {
        return false;
    }
    let Content::Mem(c) = code.content else {
        return false;
    };
    if c.lin.is_linear() || !c.perm.may_run() {
        return false;
    }
    match half.content {
        Content::Mem(d) => !d.perm.may_run(),
        Content::Seal(_) => true,
    }
}

/// Where it would go by its code half, under a seal of no site: to an entry of a trusted part, or
/// elsewhere.
pub(crate) fn hop_in(start: &Start, code: Opened) -> Back
    requires { ContentInOrder code.content }
    ensures { result ≡ hop_in (closure_owner (layout start.now) code.seal) code.content }
{
    match closure_owner(start, code.seal) {
        Some(owner) => hop_by(owner, code.content),
        None => Back::Out,
    }
}
