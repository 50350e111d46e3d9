//! A start of parts that are linked: a machine, sites, owners and a stack.
ghost use Rattle.std.specs.Prelude.{◌≡◌};
ghost use Rattle.linked_starts.specs.Owners.{AreLaid};

use crate::owners::{Owner, Site};
use crate::site_list::SiteList;
use cap_words::Items;
use lcm_machine::{LcmState, Span};
use std::marker::Model;

/// A start: a machine, the sites of its trusted parts, who owns which code, and where its stack is.
/// A contract sees the four.
///
/// In every start the sites stand in the order of a [`SiteList`], the owners ascend by the addresses of
/// their code, and the names of owners and entries have at most [`cap_words::LONGEST_NAME`] bytes.
#[derive(Drop)]
pub struct Start {
    state: LcmState,
    sites: SiteList,
    owners: Items<Owner>,
    stack: Span,
}

impl Model for Start {
    ghost use Rattle.std.specs.Coded.{codes};
    ghost use Rattle.lcm_machine.specs.contracts.machine.LcmState as machine_contracts;
    ghost use Rattle.linked_starts.specs.Started.{StartSeen};

    ghost Value = { StartSeen };

    ghost coded = { Prim.hlevel (codes, machine_contracts.the_row.coded) };

    ghost view = { λ s. record { state = s.state; sites = s.sites; owners = s.owners; stack = s.stack } };

    ghost use Rattle.linked_starts.specs.Owners.{AreLaid};

    ghost invariant = { λ s. AreLaid s.sites s.owners };
}

impl Start {
    ghost use Rattle.std.specs.Borrow.{sem};
    ghost use Rattle.linked_starts.specs.Lending.{LendsState};

    /// The start of a machine, with these sites, owners and stack. It takes no memory.
    pub fn of(state: LcmState, sites: SiteList, owners: Items<Owner>, stack: Span) -> Start
        requires { AreLaid sites owners }
        ensures { result ≡ record { state = state; sites = sites; owners = owners; stack = stack } }
    {
        Start {
            state,
            sites,
            owners,
            stack,
        }
    }

    /// The machine, to read.
    pub fn state(&self) -> &LcmState
        ensures { result.now ≡ self.now.state }
    {
        &self.state
    }

    /// The machine, to change. Nothing else of the start changes with it.
    pub fn state_mut(&mut self) -> &mut LcmState
        ensures* writes_back { sem 𝓛 (LendsState self.entry result) }
        ensures value { result.now ≡ self.old.state }
    {
        &mut self.state
    }

    /// The machine itself. It takes no memory.
    pub fn into_state(self) -> LcmState
        ensures { result ≡ self.state }
    {
        let Start {
            state,
            sites: _,
            owners: _,
            stack: _,
        } = self;
        state
    }

    /// The sites of the trusted parts, in ascending address.
    pub fn sites(&self) -> &[Site]
        ensures { result.now ≡ self.now.sites }
    {
        self.sites.as_slice()
    }

    /// The same sites, as a list in which one is found by its address or its seal.
    pub fn site_list(&self) -> &SiteList
        ensures { result.now ≡ self.now.sites }
    {
        &self.sites
    }

    /// The owners, one for each part, in ascending address of their code.
    pub fn owners(&self) -> &[Owner]
        ensures { result.now ≡ self.now.owners }
    {
        self.owners.as_slice()
    }

    /// This does nothing: its contract is what every start keeps of its sites and owners.
    pub fn is_laid(&self)
        ensures { AreLaid self.now.sites self.now.owners }
    {
        let _ = &self.sites;
    }

    /// The addresses of the stack.
    pub fn stack(&self) -> Span
        ensures { result ≡ self.now.stack }
    {
        self.stack
    }
}
