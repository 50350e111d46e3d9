//! Breakpoints.
ghost use Rattle.std.specs.Prelude.{◌≡◌, ◌==◌, false, not, pos, position};
ghost use Rattle.std.specs.List.{list_any};
ghost use Rattle.std.specs.Ordering.{nat_cmp, int_eq};
ghost use Rattle.std.specs.FinSet as set;
ghost use Rattle.step_back.specs.Debug.{is_at, is_full, with_stop};

use arrayvec::ArrayVec;
use std::marker::Model;

/// The most breakpoints that are set together.
pub const MOST_STOPS: usize = 64;

// A set of addresses, at most `MOST_STOPS`. A contract sees the set.
#[derive(Drop)]
pub(crate) struct Stops {
    // Each once.
    ats: ArrayVec<u32, MOST_STOPS>,
}

impl Model for Stops {
    ghost use Rattle.std.specs.Prelude.{◌≡◌, length};
    ghost use Rattle.std.specs.Coded.{coded_ℕ};
    ghost use Rattle.std.specs.Ordering.{nat_cmp};
    ghost use Rattle.std.specs.FinSet as set;

    ghost Value = { set.FinSet nat_cmp };

    ghost coded = { set.code {R = nat_cmp} coded_ℕ };

    ghost view = { λ s. set.from_list s.ats.items };

    ghost invariant = { λ s. set.len (set.from_list {R = nat_cmp} s.ats.items) ≡ length s.ats.items };
}

// Whether one of them is an address.
fn any_is(stops: &[u32], at: i64) -> bool
    ensures { result ≡ list_any (λ stop. int_eq (pos stop) at) stops.now }
{
    stops.iter().any(|stop| i64::from(*stop) == at)
}

// Where an address stands among them.
fn place(stops: &[u32], at: u32) -> Option<usize>
    ensures { result ≡ position (λ stop. stop == at) stops.now }
{
    stops.iter().position(|stop| *stop == at)
}

impl Stops {
    // None.
    pub(crate) fn none() -> Stops
        ensures { result ≡ set.empty }
    {
        Stops {
            ats: ArrayVec::new(),
        }
    }

    // Whether an address is one.
    pub(crate) fn has(&self, at: i64) -> bool
        ensures { result ≡ is_at self.now at }
    {
        any_is(self.ats.as_slice(), at)
    }

    // One more, where there is room for it.
    fn add(&mut self, at: u32) -> bool
        requires { set.contains self.old at ≡ false }
        ensures is { result ≡ not (set.len self.old == MOST_STOPS) }
        ensures now { self.new ≡ with_stop self.old at }
    {
        if self.ats.is_full() {
            return false;
        }
        self.ats.push(at);
        true
    }

    // One more. `false` exactly where `MOST_STOPS` others are set, and then nothing changes.
    pub(crate) fn insert(&mut self, at: u32) -> bool
        ensures is { result ≡ not (is_full self.old at) }
        ensures now { self.new ≡ with_stop self.old at }
    {
        match place(self.ats.as_slice(), at) {
            Some(_) => true,
            None => self.add(at),
        }
    }

    // One less. `false` exactly where it isn't one.
    pub(crate) fn remove(&mut self, at: u32) -> bool
        ensures is { result ≡ set.contains self.old at }
        ensures now { self.new ≡ set.remove self.old at }
    {
        match place(self.ats.as_slice(), at) {
            None => false,
            Some(i) => {
                let _ = self.ats.remove(i);
                true
            }
        }
    }
}
