//! What a start has, as the overlay's own.
ghost use Rattle.std.specs.Prelude.{◌≡◌, ◌≢◌, ◌≤◌, ◌+◌, ℕ, IfOk};
ghost use Rattle.lcm_isa.specs.declared.Reg.{Reg as AnyReg};
ghost use Rattle.lcm_machine.specs.Places.{reg};
ghost use Rattle.lcm_machine.specs.Cells.{cell};
ghost use Rattle.lcm_machine.specs.Spans.{slot};
ghost use Rattle.lcm_machine.specs.Row.{put};
ghost use Rattle.overlay_machine.specs.Seen.{start_word};
ghost use Rattle.overlay_machine.specs.Copies.{plain_regs, copied, AreCopiedTo};

use crate::words::OWord;
use cap_words::{Items, LAST_PLACE, SealRange};
use lcm_isa::Reg;
use lcm_machine::state::State;
use lcm_machine::{LcmState, Place, Span};
use linked_starts::{CalledEntry, Entry, Owner, Start};
use std::alloc::{AllocError, Global};
use trusted_border::Layout;

fn copy_name(alloc: Global, name: &[u8]) -> Result<Items<u8>, AllocError>
    ensures { IfOk result (λ n. n ≡ name.now) }
{
    Ok(Items::of(Vec::from_slice(alloc, name)?))
}

fn copy_entries(alloc: Global, entries: &[Entry]) -> Result<Items<Entry>, AllocError>
    ensures { IfOk result (λ e. e ≡ entries.now) }
{
    let mut copies = Vec::new(alloc);
    for entry in entries {
        copies.push(Entry {
            name: copy_name(alloc, entry.name.as_slice())?,
            at: entry.at,
        })?;
    }
    Ok(Items::of(copies))
}

fn copy_calls(alloc: Global, calls: &[CalledEntry]) -> Result<Items<CalledEntry>, AllocError>
    ensures { IfOk result (λ c. c ≡ calls.now) }
{
    let mut copies = Vec::new(alloc);
    for call in calls {
        copies.push(CalledEntry {
            part: copy_name(alloc, call.part.as_slice())?,
            name: copy_name(alloc, call.name.as_slice())?,
            at: call.at,
        })?;
    }
    Ok(Items::of(copies))
}

fn copy_seals(seals: &SealRange) -> SealRange
    ensures { result ≡ seals.now }
{
    SealRange::new(seals.base(), seals.count())
}

fn copy_owner(alloc: Global, owner: &Owner) -> Result<Owner, AllocError>
    ensures { IfOk result (λ o. o ≡ owner.now) }
{
    Ok(Owner {
        part: owner.part,
        name: copy_name(alloc, owner.name.as_slice())?,
        trusted: owner.trusted,
        code: owner.code,
        data_span: owner.data_span,
        closure: owner.closure,
        seals: copy_seals(&owner.seals),
        entries: copy_entries(alloc, owner.entries.as_slice())?,
        calls: copy_calls(alloc, owner.calls.as_slice())?,
    })
}

fn copy_owners(alloc: Global, owners: &[Owner]) -> Result<Items<Owner>, AllocError>
    ensures { IfOk result (λ o. o ≡ owners.now) }
{
    let mut copies = Vec::new(alloc);
    for owner in owners {
        copies.push(copy_owner(alloc, owner)?)?;
    }
    Ok(Items::of(copies))
}

/// The sites, owners and stack of a start.
pub(crate) fn layout_of(alloc: Global, start: &Start) -> Result<Layout, AllocError>
    ensures sites { IfOk result (λ l. l.sites ≡ start.now.sites) }
    ensures owners { IfOk result (λ l. l.owners ≡ start.now.owners) }
    ensures stack { IfOk result (λ l. l.stack ≡ start.now.stack) }
{
    let sites = start.site_list().copy(alloc)?;
    let owners = copy_owners(alloc, start.owners())?;
    Ok(Layout {
        sites,
        owners,
        stack: start.stack(),
    })
}

// A register gets the start's word.
fn copy_reg(maps: &mut State<OWord>, state: &LcmState, r: Reg)
    ensures { maps.new ≡ put maps.old (Place.R r) (OWord.Plain (reg state.now.maps.regs r)) }
{
    let word = OWord::Plain(state.reg(r).made_anew());
    let _ = maps.swap(Place::R(r), word);
}

// All registers get the start's words.
fn copy_regs(maps: &mut State<OWord>, state: &LcmState)
    ensures { maps.new ≡ record maps.old { regs = plain_regs state.now.maps.regs } }
{
    copy_reg(maps, state, Reg::Pc);
    copy_reg(maps, state, Reg::Rcode);
    copy_reg(maps, state, Reg::Rdata);
    copy_reg(maps, state, Reg::Stk);
    copy_reg(maps, state, Reg::Dat);
    copy_reg(maps, state, Reg::T1);
    copy_reg(maps, state, Reg::T2);
    copy_reg(maps, state, Reg::C1);
    copy_reg(maps, state, Reg::C2);
    copy_reg(maps, state, Reg::A0);
    copy_reg(maps, state, Reg::A1);
    copy_reg(maps, state, Reg::A2);
    copy_reg(maps, state, Reg::A3);
    copy_reg(maps, state, Reg::G0);
    copy_reg(maps, state, Reg::G1);
    copy_reg(maps, state, Reg::G2);
}

// The cell at an address, where there is one, gets the start's word. Where the start has none, none is
// left.
fn copy_cell(maps: &mut State<OWord>, state: &LcmState, at: u32)
    ensures here { cell maps.new.cells at ≡ copied (cell maps.old.cells at) (cell state.now.maps.cells at) }
    ensures elsewhere { (a : ℕ) → a ≢ at → cell maps.new.cells a ≡ cell maps.old.cells a }
    ensures regs { maps.new.regs ≡ maps.old.regs }
    ensures spans { maps.new.spans ≡ maps.old.spans }
{
    if !maps.has_cell(at) {
        return;
    }
    if state.has_cell(at) {
        let word = OWord::Plain(state.cell(at).made_anew());
        let _ = maps.swap(Place::Cell(at), word);
    } else {
        let _ = maps.remove_cell(at);
    }
}

// The cells of a span get the start's words.
fn copy_span(maps: &mut State<OWord>, state: &LcmState, span: Span)
    requires last { span.end ≤ LAST_PLACE }
    requires order { span.base ≤ span.end }
    ensures cells { AreCopiedTo state.now.maps span.base (span.end + 1) maps.old.cells maps.new.cells }
    ensures regs { maps.new.regs ≡ maps.old.regs }
    ensures spans { maps.new.spans ≡ maps.old.spans }
{
    for at in span.base..span.end + 1 {
        copy_cell(maps, state, at);
    }
}

// The cells of a new memory with the start's spans get the start's words.
fn copy_cells(maps: &mut State<OWord>, state: &LcmState)
    requires { (a : ℕ) → cell maps.old.cells a ≡ slot OWord.Plain state.now.maps.spans a }
    ensures cells { (a : ℕ) → cell maps.new.cells a ≡ start_word state.now.maps a }
    ensures regs { maps.new.regs ≡ maps.old.regs }
    ensures spans { maps.new.spans ≡ maps.old.spans }
{
    for span in state.spans() {
        copy_span(maps, state, *span);
    }
}

/// The registers, cells and spans of a start's machine.
pub(crate) fn maps_of(alloc: Global, state: &LcmState) -> Result<State<OWord>, AllocError>
    ensures regs { IfOk result (λ m. (r : AnyReg) → reg m.regs r ≡ OWord.Plain (reg state.now.maps.regs r)) }
    ensures cells { IfOk result (λ m. (a : ℕ) → cell m.cells a ≡ start_word state.now.maps a) }
    ensures spans { IfOk result (λ m. m.spans ≡ state.now.maps.spans) }
{
    let mut maps = State::zeros(alloc, state.spans())?;
    copy_regs(&mut maps, state);
    copy_cells(&mut maps, state);
    Ok(maps)
}
