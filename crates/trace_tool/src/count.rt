//! A plain run of which only the calls are counted.
ghost use Rattle.std.specs.Prelude.{◌≡◌, ◌+◌, ◌<◌, ◌≤◌, ◌^◌, None};
ghost use Rattle.lcm_machine.specs.Run.{next_state, answer};
ghost use Rattle.run_lines.specs.Layout.{layout};
ghost use Rattle.run_lines.specs.Runs.{watching, watched_next, line_next};
ghost use Rattle.trace_tool.specs.Counts.{calls_in, calls_of, Counts};

use crate::event::event_after;
use crate::note::{inward_after, noted};
use lcm_machine::Step;
use linked_starts::Start;
use trusted_border::Event;

/// What the last step of a run answered, and how many `call` lines the run writes.
#[derive(Clone, Copy)]
pub struct Counted {
    pub last: Step,
    pub calls: u64,
}

// How many `call` lines an event has.
fn calls_of(event: Option<Event>) -> u64
    ensures is { result ≡ calls_of event }
    ensures few { result ≤ 1 }
{
    match event {
        Some(Event::Called { .. }) => 1,
        _ => 0,
    }
}

// Makes one instruction, and counts its `call` lines.
fn counted_turn(start: &mut Start, inward: &mut bool) -> Counted
    requires { start.old.state.count < 2 ^ 63 }
    ensures state { start.new ≡ record start.old { state = next_state start.old.state } }
    ensures inward { let w = watching start.old inward.old in
        inward.new ≡ (watched_next (layout start.old) w).inward }
    ensures last { result.last ≡ answer (next_state start.old.state) }
    ensures calls { result.calls ≡ calls_in (line_next (layout start.old) (watching start.old inward.old)) }
    ensures few { result.calls ≤ 1 }
{
    let note = noted(start);
    let last = start.state_mut().step();
    if last != Step::Went {
        return Counted { last, calls: 0 };
    }
    let event = event_after(start, note, *inward);
    *inward = inward_after(note, *inward);
    Counted {
        last,
        calls: calls_of(event),
    }
}

/// Runs the machine of a start for so many instructions, or up to its end, and counts the `call` lines
/// that [`run_plain`](crate::run_plain) writes of it. It writes nothing and takes no memory.
///
/// The machine hasn't ended before. Only its state changes.
pub fn run_counted(start: &mut Start, steps: u64) -> Counted
    requires fresh { start.old.state.end ≡ None }
    requires count { start.old.state.count + steps ≤ 2 ^ 63 }
    ensures { Counts start.old steps start.new result }
{
    let mut inward = false;
    let mut calls = 0;
    for _i in 0..steps {
        let turn = counted_turn(start, &mut inward);
        calls += turn.calls;
        if turn.last != Step::Went {
            return Counted {
                last: turn.last,
                calls,
            };
        }
    }
    Counted {
        last: Step::Went,
        calls,
    }
}
