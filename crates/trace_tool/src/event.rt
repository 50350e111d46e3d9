//! The event of an instruction that went.
ghost use Rattle.std.specs.Prelude.{◌≡◌, option_and_then, is_some};
ghost use Rattle.std.specs.Option.{option_copied};
ghost use Rattle.cap_words.specs.Face.{FaceInOrder, ContentInOrder, face_of, opened_of};
ghost use Rattle.lcm_isa.specs.declared.Reg.TheVariants.{Rcode, Rdata, Stk};
ghost use Rattle.lcm_machine.specs.Places.{reg};
ghost use Rattle.trusted_border.specs.Reaches.{site_of_seal, closure_owner, back_under, back_of};
ghost use Rattle.run_lines.specs.Layout.{layout};
ghost use Rattle.run_lines.specs.Views.{view_of};
ghost use Rattle.run_lines.specs.Events.{reaches_trusted, called, returned, entered, leapt, event_after};

use crate::find::{closure_owner, site_of_seal, trusted_owner};
use crate::halves::{goes, hop_in};
use cap_words::{Content, Opened};
use lcm_isa::Reg;
use lcm_machine::LcmState;
use linked_starts::{Owner, Start};
use run_lines::{Jump, Note};
use trusted_border::reach::{content_base, entry_number};
use trusted_border::{Back, Event};

// Where an `xjmp` of two halves goes, by their seal.
fn back_under(start: &Start, code: Opened, half: Opened) -> Back
    requires { ContentInOrder code.content }
    ensures { result ≡ back_under (layout start.now) (site_of_seal (layout start.now) code.seal) code half }
{
    match site_of_seal(start, code.seal) {
        Some(site) => Back::Pair(site, content_base(half.content)),
        None => hop_in(start, code),
    }
}

// What `xjmp rcode rdata` would do.
fn back_of(start: &Start) -> Back
    ensures { let regs = start.now.state.maps.regs in
        result ≡ back_of (layout start.now) (reg regs Rcode) (reg regs Rdata) }
{
    let state = start.state();
    let Some(code) = state.reg(Reg::Rcode).opened() else {
        return Back::Bad;
    };
    let Some(half) = state.reg(Reg::Rdata).opened() else {
        return Back::Bad;
    };
    if goes(code, half) {
        back_under(start, code, half)
    } else {
        Back::Bad
    }
}

fn reaches_trusted(start: &Start) -> bool
    ensures { result ≡ reaches_trusted (layout start.now) (view_of start.now.state.maps) }
{
    let pc = start.state().reg(Reg::Pc).face();
    trusted_owner(start, pc).is_some()
}

// A call of this site went.
fn called(start: &Start, site: u32) -> Option<Event>
    ensures { let l = layout start.now in let v = view_of start.now.state.maps in
        result ≡ called (reaches_trusted l v) site (opened_of (v.reg Rdata)) }
{
    let half = start.state().reg(Reg::Rdata).opened()?;
    match half.content {
        Content::Mem(c) => {
            Some(Event::Called {
                trusted: reaches_trusted(start),
                site,
                base: c.base,
                end: c.end,
            })
        }
        Content::Seal(_) => None,
    }
}

// The last word of this site went.
fn returned(state: &LcmState, inward: bool, site: u32) -> Option<Event>
    ensures { result ≡ returned inward site (face_of (reg state.now.maps.regs Stk)) }
{
    let stk = state.reg(Reg::Stk).face();
    let c = stk.memory()?;
    let base = stk.target()?;
    Some(Event::Returned {
        trusted: inward,
        site,
        base,
        end: c.end,
    })
}

// Untrusted code went to this trusted part.
fn entered(start: &Start, owner: &Owner) -> Option<Event>
    ensures { result ≡ entered (layout start.now) (view_of start.now.state.maps) owner.now }
{
    let pc = start.state().reg(Reg::Pc).face();
    let entry = entry_number(owner, pc)?;
    Some(Event::Entered {
        part: owner.part,
        entry,
        back: back_of(start),
    })
}

// The trusted part of a closure seal, where there is a seal.
fn closed(start: &Start, seal: Option<u32>) -> Option<&Owner>
    ensures { option_copied result ≡ option_and_then (closure_owner (layout start.now)) seal }
{
    closure_owner(start, seal?)
}

// Whether a seal is the return seal of a site.
fn is_return(start: &Start, seal: Option<u32>) -> bool
    ensures { result ≡ is_some (option_and_then (site_of_seal (layout start.now)) seal) }
{
    match seal {
        Some(seal) => site_of_seal(start, seal).is_some(),
        None => false,
    }
}

// An `xjmp` went.
fn leapt(start: &Start, jump: Jump) -> Option<Event>
    ensures { result ≡ leapt (layout start.now) jump (view_of start.now.state.maps) }
{
    let Some(part) = jump.from else {
        let owner = closed(start, jump.seal)?;
        return entered(start, owner);
    };
    let Some(site) = jump.call else {
        if reaches_trusted(start) {
            return None;
        }
        return Some(Event::Left { part });
    };
    if is_return(start, jump.seal) {
        None
    } else {
        called(start, site)
    }
}

/// The event of an instruction that went, by what was noted before it.
#[tactic(auto, unfolding(run_lines::specs::Events::event_after))]
pub(crate) fn event_after(start: &Start, note: Note, inward: bool) -> Option<Event>
    ensures { result ≡ event_after (layout start.now) note inward (view_of start.now.state.maps) }
{
    match note {
        Note::Nothing => None,
        Note::Last(site) => returned(start.state(), inward, site),
        Note::Leap(jump) => leapt(start, jump),
    }
}
