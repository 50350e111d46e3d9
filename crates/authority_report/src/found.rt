//! What is found of a part's reach, word by word.
ghost use Rattle.std.specs.Prelude.{◌≡◌, ◌≤◌, ◌+◌, ◌&&◌, ℕ, false, nat_le, pos, IfOk, OnOk, []};
ghost use Rattle.cap_words.specs.declared.Word.TheVariants.{Mem as MemWord, Seal as SealWord};
ghost use Rattle.authority_report.specs.Reaches.{is_seal_of, whole_code, whole_data};
ghost use Rattle.cap_words.specs.Face.{FaceInOrder, ContentInOrder};
ghost use Rattle.authority_report.specs.Found.{bared, bare_word, opened_word, IsEmpty, AddsWord};
ghost use Rattle.authority_report.specs.Found.{IsClosedBut, unread};

use crate::set::{PlaceSet, Stretch};
use cap_words::{CapFields, Content, Face, LAST_PLACE, Lin, Opened, Perm, SealFields, Word};
use lcm_isa::Reg;
use lcm_machine::LcmState;
use linked_starts::Owner;
use std::alloc::{AllocError, Global};

/// The addresses and seals that were found, and of those that can be read the ones whose words weren't
/// looked at yet.
#[derive(Drop)]
pub(crate) struct Found {
    pub(crate) read: PlaceSet,
    pub(crate) write: PlaceSet,
    pub(crate) run: PlaceSet,
    pub(crate) seals: PlaceSet,
    pub(crate) left: Vec<Stretch>,
}

// Whether a seal is one of the part's.
fn is_own(owner: &Owner, seal: u32) -> bool
    ensures { result ≡ is_seal_of owner.now seal }
{
    seal == owner.closure
        || owner.seals.base() <= seal && seal < owner.seals.base() + owner.seals.count()
}

// The capability over a part's whole code.
fn code_of(owner: &Owner) -> CapFields
    ensures { result ≡ whole_code owner.now (pos owner.now.code.base) }
{
    CapFields {
        perm: if owner.trusted { Perm::Rx } else { Perm::Rwx },
        lin: Lin::Normal,
        base: owner.code.base,
        end: owner.code.end,
        addr: i64::from(owner.code.base),
    }
}

// The capability over a part's whole data.
fn data_of(owner: &Owner) -> CapFields
    ensures { result ≡ whole_data owner.now }
{
    CapFields {
        perm: Perm::Rw,
        lin: Lin::Normal,
        base: owner.data_span.base,
        end: owner.data_span.end,
        addr: i64::from(owner.data_span.base),
    }
}

impl Found {
    /// Nothing.
    pub(crate) fn new(alloc: Global) -> Result<Found, AllocError>
        ensures { IfOk result IsEmpty }
    {
        Ok(Found {
            read: PlaceSet::new(alloc)?,
            write: PlaceSet::new(alloc)?,
            run: PlaceSet::new(alloc)?,
            seals: PlaceSet::new(alloc)?,
            left: Vec::new(alloc),
        })
    }

    /// Adds what a memory capability gives.
    pub(crate) fn add_memory(&mut self, c: CapFields) -> Result<(), AllocError>
        requires { c.end ≤ LAST_PLACE }
        ensures { OnOk result (AddsWord self.old (MemWord c) self.new) }
    {
        if c.perm.may_read() {
            self.read.take_all(c.base, c.end, &mut self.left)?;
        }
        if c.perm.may_write() {
            self.write.add(c.base, c.end);
        }
        if c.perm.may_run() {
            self.run.add(c.base, c.end);
        }
        Ok(())
    }

    // Adds what a seal capability gives.
    fn add_seals(&mut self, q: SealFields)
        requires { q.end ≤ LAST_PLACE }
        ensures { AddsWord self.old (SealWord q) self.new }
    {
        self.seals.add(q.base, q.end);
    }

    // Adds what a word gives that isn't sealed.
    fn add_bare(&mut self, face: Face) -> Result<(), AllocError>
        requires { FaceInOrder face }
        ensures { OnOk result (AddsWord self.old (bare_word face) self.new) }
    {
        match face {
            Face::Memory(c) => self.add_memory(c),
            Face::Seals(q) => {
                self.add_seals(q);
                Ok(())
            }
            Face::Number(_) | Face::Sealed(_) => Ok(()),
        }
    }

    // Adds what is under a seal, if it is an own one.
    fn add_opened(&mut self, opened: Opened, owner: &Owner) -> Result<(), AllocError>
        requires { ContentInOrder opened.content }
        ensures { OnOk result (AddsWord self.old (opened_word owner.now opened) self.new) }
    {
        if !is_own(owner, opened.seal) {
            return Ok(());
        }
        match opened.content {
            Content::Mem(c) => self.add_memory(c),
            Content::Seal(q) => {
                self.add_seals(q);
                Ok(())
            }
        }
    }

    /// Adds what a word gives, under an own seal too.
    pub(crate) fn add(&mut self, word: &Word, owner: &Owner) -> Result<(), AllocError>
        ensures { OnOk result (AddsWord self.old (bared owner.now word.now) self.new) }
    {
        match word.opened() {
            Some(opened) => self.add_opened(opened, owner),
            None => self.add_bare(word.face()),
        }
    }

    /// Adds to nothing what the part begins with: its code, its data and the stack.
    pub(crate) fn begin(&mut self, state: &LcmState, owner: &Owner) -> Result<(), AllocError>
        requires empty { IsEmpty self.old }
        requires code { owner.now.code.end ≤ LAST_PLACE }
        requires its_data { owner.now.data_span.end ≤ LAST_PLACE }
        ensures { OnOk result (IsClosedBut (λ a. false) state.now.maps owner.now self.new) }
    {
        self.add_memory(code_of(owner))?;
        self.add_memory(data_of(owner))?;
        self.add(state.reg(Reg::Stk), owner)
    }

    // Adds what the word of an address gives, if it has a cell.
    fn look_at(&mut self, state: &LcmState, owner: &Owner, at: u32) -> Result<(), AllocError>
        ensures closed { OnOk result ((end : ℕ) → at ≤ end
            → IsClosedBut (λ a. nat_le at a && nat_le a end) state.now.maps owner.now self.old
            → IsClosedBut (λ a. nat_le (at + 1) a && nat_le a end) state.now.maps owner.now self.new) }
        ensures fewer { OnOk result (unread self.new ≤ unread self.old) }
    {
        if !state.has_cell(at) {
            return Ok(());
        }
        self.add(state.cell(at), owner)?;
        Ok(())
    }

    // Adds what the words of the cells of a stretch give.
    fn look(&mut self, state: &LcmState, owner: &Owner, cells: Stretch) -> Result<(), AllocError>
        requires { IsClosedBut (λ a. nat_le cells.base a && nat_le a cells.end)
            state.now.maps owner.now self.old }
        ensures closed { OnOk result (IsClosedBut (λ a. false) state.now.maps owner.now self.new) }
        ensures fewer { OnOk result (unread self.new ≤ unread self.old) }
    {
        for at in cells.base..=cells.end {
            self.look_at(state, owner, at)?;
        }
        Ok(())
    }

    /// Looks at all that is left, and at what that leaves.
    pub(crate) fn finish(&mut self, state: &LcmState, owner: &Owner) -> Result<(), AllocError>
        requires { IsClosedBut (λ a. false) state.now.maps owner.now self.old }
        ensures closed { OnOk result (IsClosedBut (λ a. false) state.now.maps owner.now self.new) }
        ensures none { OnOk result (self.new.left.items ≡ []) }
    {
        while let Some(cells) = self.left.pop() {
            self.look(state, owner, cells)?;
        }
        Ok(())
    }
}
