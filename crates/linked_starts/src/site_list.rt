//! The sites of a start in their order, and how one is found by its address or its seal.
ghost use Rattle.std.specs.Prelude.{◌≡◌, ◌==◌, ◌<◌, length, position, IfOk};
ghost use Rattle.linked_starts.specs.Owners.{SitesAscend, InRuns, IsRun, AreInOrder};

use crate::owners::Site;
use cap_words::Items;
use std::alloc::{AllocError, Global};
use std::marker::Model;

/// The sites of a start. A contract sees the list of them.
///
/// In every such list the addresses ascend, and the sites of a part stand together, their seals going
/// up by one.
#[derive(Drop)]
pub struct SiteList {
    sites: Items<Site>,
}

impl Model for SiteList {
    ghost use Rattle.std.specs.Prelude.{List};
    ghost use Rattle.std.specs.Coded.{coded_list};
    ghost use Rattle.linked_starts.specs.declared.owners.Site.{Site};
    ghost use Rattle.linked_starts.specs.contracts.owners.Site as site_contracts;
    ghost use Rattle.linked_starts.specs.Owners.{AreInOrder};

    ghost Value = { List Site };

    ghost coded = { coded_list site_contracts.the_row.coded };

    ghost view = { λ list. list.sites };

    ghost invariant = { λ list. AreInOrder list.sites };
}

// The place of the site at an address, by halving.
fn place_at(sites: &[Site], at: u32) -> Option<usize>
    requires { SitesAscend sites.now }
    ensures { result ≡ position (λ s. s.at == at) sites.now }
{
    match sites.binary_search_by_key(&at, |site| site.at) {
        Ok(place) => Some(place),
        Err(_) => None,
    }
}

// Where the sites of one part end that stand from a place on, by halving.
fn run_end(sites: &[Site], place: usize) -> usize
    requires within { place < length sites.now }
    requires runs { InRuns sites.now }
    ensures { IsRun sites.now place result }
{
    let part = sites[place].part;
    place + sites[place..].partition_point(|site| site.part == part)
}

// The place of the first site of a seal, part after part.
fn place_sealed(sites: &[Site], seal: u32) -> Option<usize>
    requires { InRuns sites.now }
    ensures { result ≡ position (λ s. s.seal == seal) sites.now }
{
    let mut place = 0;
    while place < sites.len() {
        let first = sites[place].seal;
        let end = run_end(sites, place);
        if first <= seal && ((seal - first) as usize) < end - place {
            return Some(place + (seal - first) as usize);
        }
        place = end;
    }
    None
}

impl SiteList {
    /// The list of sites that stand in that order. It takes no memory.
    pub fn of(sites: Vec<Site>) -> SiteList
        requires { AreInOrder sites.items }
        ensures { result ≡ sites.items }
    {
        let sites = Items::of(sites);
        SiteList { sites }
    }

    /// The same list once more. `AllocError` where the memory can't be had.
    pub fn copy(&self, alloc: Global) -> Result<SiteList, AllocError>
        ensures { IfOk result (λ list. list ≡ self.now) }
    {
        let sites = Items::of(self.sites.as_slice().to_vec(alloc)?);
        Ok(SiteList { sites })
    }

    /// The sites, to read.
    pub fn as_slice(&self) -> &[Site]
        ensures { result.now ≡ self.now }
    {
        self.sites.as_slice()
    }

    /// The place of the site whose call begins at an address. Its time grows as the logarithm of how
    /// many sites there are.
    pub fn place_at(&self, at: u32) -> Option<usize>
        ensures { result ≡ position (λ s. s.at == at) self.now }
    {
        place_at(self.sites.as_slice(), at)
    }

    /// The place of the site of a return seal. Its time grows as the number of parts, and for each as
    /// the logarithm of how many sites there are.
    pub fn place_sealed(&self, seal: u32) -> Option<usize>
        ensures { result ≡ position (λ s. s.seal == seal) self.now }
    {
        place_sealed(self.sites.as_slice(), seal)
    }
}
