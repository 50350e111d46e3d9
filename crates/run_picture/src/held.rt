//! Which frames are open, and how much of the stack was handed over last.
ghost use Rattle.std.specs.Prelude.{◌≡◌, OnOk};
ghost use Rattle.run_picture.specs.Held.{nothing_held, held_after, shown};

use crate::turn::Turn;
use std::alloc::{AllocError, Global};
use std::marker::Model;

/// Where the open frames begin, and the address after the stack that was handed over last, if there is one.
/// A contract sees the frames newest first.
#[derive(Drop)]
pub(crate) struct Held {
    bases: Vec<u64>,
    top: Option<u64>,
}

impl Model for Held {
    ghost use Rattle.std.specs.Prelude.{reverse};
    ghost use Rattle.run_picture.specs.Held.{HeldSeen};

    ghost Value = { HeldSeen };

    ghost view = { λ h. record { bases = reverse h.bases.items; top = h.top } };
}

impl Held {
    /// Nothing, at first.
    pub(crate) fn new(alloc: Global) -> Held
        ensures { result ≡ nothing_held }
    {
        Held {
            bases: Vec::new(alloc),
            top: None,
        }
    }

    /// After a line.
    pub(crate) fn go_on(&mut self, turn: Turn) -> Result<(), AllocError>
        ensures { OnOk result (self.new ≡ held_after self.old turn) }
    {
        match turn {
            Turn::Call(_, span) => {
                self.bases.push(u64::from(span.base))?;
                self.top = Some(u64::from(span.base));
            }
            Turn::Ret(_, span) => {
                self.bases.pop();
                self.top = Some(u64::from(span.last) + 1);
            }
            Turn::Enter(Some(end)) => self.top = Some(u64::from(end) + 1),
            Turn::Enter(None) => self.top = None,
            Turn::Leave | Turn::Other => {}
        }
        Ok(())
    }

    /// The address after what of the stack lies below the newest frame.
    pub(crate) fn shown(&self) -> Option<u64>
        ensures { result ≡ shown self.now }
    {
        let top = self.top?;
        match self.bases.last() {
            Some(base) => Some(top.min(*base)),
            None => Some(top),
        }
    }
}
