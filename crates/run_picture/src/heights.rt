//! Where addresses are drawn.
ghost use Rattle.std.specs.Prelude.{◌≡◌, ◌+◌, ◌*◌, ◌≤◌, length, [], OnOk, IfOk};
ghost use Rattle.std.specs.List.{position_or_len};
ghost use Rattle.run_picture.specs.Heights.{reaches, with_cut, with_turn, cuts_from, below, fits, scale_of};

use crate::event::Event;
use crate::turn::Turn;
use std::alloc::{AllocError, Global};

/// How addresses become heights.
#[derive(Clone, Copy)]
pub struct Scale {
    /// The most words that are drawn between two cuts.
    pub most: u64,
    /// The px of a word.
    pub px: u64,
}

// How many cuts stand above an address.
fn above(cuts: &[u64], address: u64) -> usize
    ensures same { result ≡ position_or_len (reaches address) cuts.now }
    ensures within { result ≤ length cuts.now }
{
    cuts.iter().take_while(|cut| **cut > address).count()
}

// Puts an address into a list that falls, where it isn't in it.
fn add_cut(cuts: &mut Vec<u64>, address: u64) -> Result<(), AllocError>
    ensures same { OnOk result (cuts.new.items ≡ with_cut address cuts.old.items) }
    ensures len { OnOk result (length cuts.new.items ≤ length cuts.old.items + 1) }
{
    let place = above(cuts, address);
    if place < cuts.len() && cuts[place] == address {
        return Ok(());
    }
    Ok(cuts.insert(place, address)?)
}

// Puts the cuts of a line.
fn add_turn(cuts: &mut Vec<u64>, turn: Turn) -> Result<(), AllocError>
    ensures same { OnOk result (cuts.new.items ≡ with_turn turn cuts.old.items) }
    ensures len { OnOk result (length cuts.new.items ≤ length cuts.old.items + 2) }
{
    match turn {
        Turn::Call(_, span) => {
            add_cut(cuts, u64::from(span.last) + 1)?;
            add_cut(cuts, u64::from(span.base))
        }
        Turn::Enter(Some(end)) => add_cut(cuts, u64::from(end) + 1),
        Turn::Ret(_, _) | Turn::Enter(None) | Turn::Leave | Turn::Other => Ok(()),
    }
}

/// The cuts of lines, the highest first.
pub(crate) fn cuts_of(alloc: Global, events: &[Event<'_>]) -> Result<Vec<u64>, AllocError>
    ensures same { IfOk result (λ v. v.items ≡ cuts_from [] events.now) }
    ensures len { IfOk result (λ v. length v.items ≤ 2 * length events.now) }
{
    let mut cuts = Vec::new(alloc);
    for event in events {
        add_turn(&mut cuts, event.turn)?;
    }
    Ok(cuts)
}

/// How many words an address is drawn below the highest cut.
pub(crate) fn below(most: u64, cuts: &[u64], address: u64) -> u64
    requires words { most ≤ 16 }
    requires few { length cuts.now ≤ 32768 }
    ensures same { result ≡ below most cuts.now address }
    ensures within { result ≤ 16 * length cuts.now }
{
    let mut words: u64 = 0;
    let mut rest = cuts;
    while let Some((cut, lower)) = rest.split_first() {
        let Some(next) = lower.first() else {
            return words;
        };
        if *cut <= address {
            return words;
        }
        words += (*cut).saturating_sub(*next).min(most);
        rest = lower;
    }
    words
}

fn fits(cuts: &[u64], scale: Scale) -> bool
    requires words { scale.most ≤ 16 }
    requires px { scale.px ≤ 16 }
    requires few { length cuts.now ≤ 32768 }
    ensures { result ≡ fits cuts.now scale }
{
    scale.px * below(scale.most, cuts, 0) <= 560
}

/// The first scale that fits the page.
#[tactic(auto, unfolding(crate::specs::Heights::scale_of))]
pub(crate) fn scale_of(cuts: &[u64]) -> Scale
    requires { length cuts.now ≤ 32768 }
    ensures same { result ≡ scale_of cuts.now }
    ensures words { result.most ≤ 16 }
    ensures px { result.px ≤ 16 }
{
    let near = Scale { most: 16, px: 16 };
    if fits(cuts, near) {
        return near;
    }
    let half = Scale { most: 16, px: 8 };
    if fits(cuts, half) {
        return half;
    }
    let less = Scale { most: 8, px: 4 };
    if fits(cuts, less) {
        return less;
    }
    let far = Scale { most: 4, px: 2 };
    if fits(cuts, far) {
        return far;
    }
    Scale { most: 1, px: 1 }
}
