//! The lines of a run with what each changes, and where calls close.
ghost use Rattle.std.specs.Prelude.{◌≡◌, ◌+◌, ◌≤◌, length, IfOk, IfSome};
ghost use Rattle.run_picture.specs.Events.{events, open_behind, closing};

use crate::turn::{Turn, turn_of};
use line_fields::Parts;
use std::alloc::{AllocError, Global};
use std::marker::Model;

/// A line of a run, and what it changes.
#[derive(Drop)]
pub(crate) struct Event<'a> {
    pub(crate) line: &'a [u8],
    pub(crate) turn: Turn,
}

impl<'a> Model for Event<'a> {
    ghost use Rattle.run_picture.specs.Events.{EventSeen};

    ghost Value = { EventSeen };

    ghost view = { λ e. record { line = e.line.now; turn = e.turn } };
}

/// How many lines a text has, each with its newline.
pub(crate) fn line_count(text: &[u8]) -> u64
    ensures { result ≡ length (events text.now) }
{
    let mut lines = Parts::of_text(text);
    let mut count: u64 = 0;
    while let Some(_line) = lines.part() {
        if lines.is_over() {
            return count;
        }
        count += 1;
    }
    count
}

/// The lines of a text, each with its newline.
pub(crate) fn events(alloc: Global, text: &[u8]) -> Result<Vec<Event<'_>>, AllocError>
    ensures { IfOk result (λ v. v.items ≡ events text.now) }
{
    let mut events = Vec::new(alloc);
    let mut lines = Parts::of_text(text);
    while let Some(line) = lines.part() {
        if lines.is_over() {
            return Ok(events);
        }
        let turn = turn_of(line);
        events.push(Event { line, turn })?;
    }
    Ok(events)
}

// How many calls that were made since are open after a line, and `None` where it closes the call.
fn open_behind(turn: Turn, within: u64) -> Option<u64>
    requires { within ≤ 65536 }
    ensures same { result ≡ open_behind turn within }
    ensures grows { IfSome result (λ w. w ≤ within + 1) }
{
    match turn {
        Turn::Call(_, _) => Some(within + 1),
        Turn::Ret(_, _) if within == 0 => None,
        Turn::Ret(_, _) => Some(within - 1),
        Turn::Enter(_) | Turn::Leave | Turn::Other => Some(within),
    }
}

/// How many lines after a call it is closed, by the lines after it; `None` exactly where it stays open.
#[tactic(auto, unfolding(crate::specs::Events::closing))]
pub(crate) fn closing(events: &[Event<'_>]) -> Option<u64>
    requires { length events.now ≤ 16384 }
    ensures same { result ≡ closing events.now }
    ensures within { IfSome result (λ k. k ≤ 16384) }
{
    let mut k: u64 = 1;
    let mut within: u64 = 0;
    for event in events {
        let Some(open) = open_behind(event.turn, within) else {
            return Some(k);
        };
        within = open;
        k += 1;
    }
    None
}
