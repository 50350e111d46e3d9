//! Addresses at which no site ends, so that a run needn't look for a site at each of its steps.
ghost use Rattle.std.specs.Prelude.{◌≡◌, ◌<◌, ◌≤◌, ◌^◌, length};
ghost use Rattle.linked_starts.specs.Owners.{SitesAscend};
ghost use Rattle.lcm_machine.specs.Row.{pc_at};
ghost use Rattle.trace_tool.specs.Gaps.{last_word, behind, ahead, has, IsGap, IsAround, gap_address};

use call_sequence::{CALL_WORDS, RETURN_WORDS};
use linked_starts::{Site, Start};

/// The addresses from one on, up to below another.
#[derive(Clone, Copy)]
pub struct Gap {
    pub from: u64,
    pub to: u64,
}

impl Gap {
    /// Whether it has this address.
    #[inline(always)]
    pub(crate) fn has(self, at: i64) -> bool
        ensures { result ≡ has self at }
    {
        if at < 0 {
            return false;
        }
        let at = at as u64;
        self.from <= at && at < self.to
    }
}

fn last_word(site: &Site) -> u64
    ensures is { result ≡ last_word site.now }
    ensures small { result < 2 ^ 33 }
{
    u64::from(site.at) + u64::from(CALL_WORDS + RETURN_WORDS - 1)
}

// The address after the site before a place, and 0 where there is none.
fn behind(sites: &[Site], place: usize) -> u64
    requires { place ≤ length sites.now }
    ensures { result ≡ behind sites.now place }
{
    if place == 0 {
        0
    } else {
        last_word(&sites[place - 1]) + 1
    }
}

// The last word of the site at a place, and the greatest number where there is none.
fn ahead(sites: &[Site], place: usize) -> u64
    ensures { result ≡ ahead sites.now place }
{
    if place < sites.len() {
        last_word(&sites[place])
    } else {
        u64::MAX
    }
}

// The addresses between the last site that ends up to this address, and the next one.
fn gap_in(sites: &[Site], at: u64) -> Gap
    requires ascend { SitesAscend sites.now }
    requires small { at < 2 ^ 63 }
    ensures free { IsGap sites.now result }
    ensures around { IsAround at result }
{
    let place = sites.partition_point(|site| last_word(site) <= at);
    Gap {
        from: behind(sites, place),
        to: ahead(sites, place),
    }
}

/// The addresses around pc's, or right after it, at which no site ends: found by halving. Where pc has
/// no address they are those around 0.
#[inline(never)]
#[tactic(auto, unfolding(crate::specs::Gaps::gap_address))]
pub(crate) fn gap_around(start: &Start) -> Gap
    ensures free { IsGap start.now.sites result }
    ensures around { IsAround (gap_address (pc_at (λ w. w) start.now.state.maps)) result }
{
    start.is_laid();
    let at = start.state().pc_at();
    gap_in(start.sites(), if at < 0 { 0 } else { at as u64 })
}
