//! The debugger.
ghost use Rattle.std.specs.Prelude.{◌≡◌, ◌≤◌, ◌<◌, ◌+◌, ◌^◌, None, IfOk, not, length, min};
ghost use Rattle.lcm_machine.specs.Run.{answer};
ghost use Rattle.lcm_machine.specs.declared.Step.{Step as AnyStep};
ghost use Rattle.std.specs.FinSet as set;
ghost use Rattle.step_back.specs.Debug.{debugging_from, forward, back, can_go_back, go, go_back};
ghost use Rattle.step_back.specs.Debug.{is_stop, is_full, with_stop, spent};

use crate::stops::Stops;
use circular_buffer::HeapCircularBuffer;
use lcm_machine::{LcmState, Step, Undo};
use linked_starts::Start;
use std::alloc::{AllocError, Global};
use std::marker::Model;

/// The most steps that a debugger may be able to go back.
pub const MOST_DEPTH: u32 = 65_536;

/// Why a debugger went no further.
#[derive(Clone, Copy)]
pub enum Stop {
    /// pc came to a breakpoint.
    Break,
    /// The machine has ended.
    Ended(Step),
    /// All steps were made.
    Spent,
}

/// A machine that goes forward and back. A contract sees the state that it is in, those before it
/// to which it can go back, the newest first, the breakpoints, and how many states before it there
/// can be.
///
/// It has to be used up, by [`Debugger::close`].
pub struct Debugger {
    state: LcmState,
    // What takes back the last step, then the one before it, and so on.
    notes: HeapCircularBuffer<Undo, Global>,
    stops: Stops,
}

impl Model for Debugger {
    ghost use Rattle.std.specs.Prelude.{◌≤◌};
    ghost use Rattle.std.specs.Coded.{codes, coded_list};
    ghost use Rattle.lcm_machine.specs.contracts.machine.LcmState as machine_contracts;
    ghost use Rattle.step_back.specs.contracts.stops.Stops as stops_contracts;
    ghost use Rattle.step_back.specs.Seen.{Debugging};
    ghost use Rattle.step_back.specs.Notes.{states_before, CanUndoAll};

    ghost Value = { Debugging };

    ghost coded = { Prim.hlevel (
      codes,
      machine_contracts.the_row.coded,
      coded_list machine_contracts.the_row.coded,
      stops_contracts.the_row.coded,
    ) };

    ghost view = { λ d. record {
      now = d.state;
      before = states_before d.state d.notes.items;
      stops = d.stops;
      depth = d.notes.capacity;
    } };

    ghost invariant = { λ d. (1 ≤ d.notes.capacity) × CanUndoAll d.state d.notes.items };
}

// A note that isn't needed any more.
fn forget(undo: Option<Undo>) {
    if let Some(undo) = undo {
        undo.forget();
    }
}

impl Debugger {
    // The step of a machine that hasn't ended.
    fn step(&mut self) -> Step
        requires count { self.old.now.count < 2 ^ 63 }
        requires going { self.old.now.end ≡ None }
        ensures answer { result ≡ answer self.new.now }
        ensures after { self.new ≡ forward self.old }
    {
        let (step, undo) = self.state.step_noted();
        forget(self.notes.push_front(undo));
        step
    }

    /// A debugger at a start, which goes back up to `depth` steps, at most [`MOST_DEPTH`]. It takes all
    /// the memory that it ever needs: `AllocError` where that can't be had.
    pub fn make(alloc: Global, start: Start, depth: u32) -> Result<Debugger, AllocError>
        requires least { 1 ≤ depth }
        requires most { depth ≤ MOST_DEPTH }
        requires fresh { start.state.count ≡ 0 }
        requires going { start.state.end ≡ None }
        ensures { IfOk result (λ d. d ≡ debugging_from start.state depth) }
    {
        let notes = HeapCircularBuffer::with_capacity(alloc, depth as usize)?;
        Ok(Debugger {
            state: start.into_state(),
            notes,
            stops: Stops::none(),
        })
    }

    /// One step forward. A machine that has ended answers that end, and nothing changes; else a step back
    /// leads to the state that it was in.
    pub fn forward(&mut self) -> Step
        requires { self.old.now.count < 2 ^ 63 }
        ensures answer { result ≡ answer self.new.now }
        ensures after { self.new ≡ forward self.old }
        ensures count { self.new.now.count ≤ self.old.now.count + 1 }
        ensures undone { self.old.now.end ≡ None → (back self.new).now ≡ self.old.now }
    {
        match self.state.ended() {
            Some(end) => end,
            None => self.step(),
        }
    }

    /// One step back. `false` exactly where there is none to take back, and then nothing changes.
    pub fn back(&mut self) -> bool
        ensures is { result ≡ can_go_back self.old }
        ensures after { self.new ≡ back self.old }
        ensures count { self.new.now.count ≤ self.old.now.count }
    {
        match self.notes.pop_front() {
            None => false,
            Some(undo) => {
                self.state.undo(undo);
                true
            }
        }
    }

    /// Sets a breakpoint. `false` exactly where [`MOST_STOPS`](crate::MOST_STOPS) others are set, and
    /// then nothing changes.
    pub fn stop_at(&mut self, at: u32) -> bool
        ensures is { result ≡ not (is_full self.old.stops at) }
        ensures after { self.new ≡ record self.old { stops = with_stop self.old.stops at } }
    {
        self.stops.insert(at)
    }

    /// Clears a breakpoint. `false` exactly where none is at that address.
    pub fn clear(&mut self, at: u32) -> bool
        ensures is { result ≡ set.contains self.old.stops at }
        ensures after { self.new ≡ record self.old { stops = set.remove self.old.stops at } }
    {
        self.stops.remove(at)
    }

    // Whether it hasn't ended and pc is at a breakpoint.
    fn is_stop(&self) -> bool
        ensures { result ≡ is_stop self.now }
    {
        self.state.ended().is_none() && self.stops.has(self.state.pc_at())
    }

    // The step of a machine that hasn't ended, and whether it came to a breakpoint.
    fn comes_to_stop(&mut self) -> bool
        requires count { self.old.now.count < 2 ^ 63 }
        requires going { self.old.now.end ≡ None }
        ensures is { result ≡ is_stop self.new }
        ensures after { self.new ≡ forward self.old }
    {
        let _ = self.step();
        self.is_stop()
    }

    // Why it goes no further after its last step.
    fn spent(&self) -> Stop
        ensures { result ≡ spent self.now.now.end }
    {
        match self.state.ended() {
            Some(end) => Stop::Ended(end),
            None => Stop::Spent,
        }
    }

    /// So many steps forward, unless one ends the machine or comes to a breakpoint. It answers which
    /// of these was. A machine that has ended answers so.
    pub fn go(&mut self, n: u64) -> Stop
        requires { self.old.now.count + n ≤ 2 ^ 63 }
        ensures is { go n self.old ≡ (result, self.new) }
        ensures ended { (step : AnyStep) → result ≡ Stop.Ended step → step ≡ answer self.new.now }
        ensures count { self.new.now.count ≤ self.old.now.count + n }
    {
        for _i in 0..n {
            if let Some(end) = self.state.ended() {
                return Stop::Ended(end);
            }
            if self.comes_to_stop() {
                return Stop::Break;
            }
        }
        self.spent()
    }

    /// So many steps back, or as many as can be taken back. How many were.
    pub fn go_back(&mut self, n: u64) -> u64
        ensures made { result ≡ min n (length self.old.before) }
        ensures after { self.new ≡ go_back n self.old }
        ensures count { self.new.now.count ≤ self.old.now.count }
    {
        for made in 0..n {
            if !self.back() {
                return made;
            }
        }
        n
    }

    /// The state that it is in.
    pub fn state(&self) -> &LcmState
        ensures { result.now ≡ self.now.now }
    {
        &self.state
    }

    /// Ends it: the steps can't be taken back any more.
    pub fn close(self) {
        let Debugger {
            state: _,
            mut notes,
            stops: _,
        } = self;
        while let Some(undo) = notes.pop_front() {
            undo.forget();
        }
        notes.destroy_empty();
    }
}
