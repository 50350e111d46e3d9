//! The calls that are open at a line.
ghost use Rattle.std.specs.Prelude.{◌≡◌};
ghost use Rattle.run_audit.specs.Audit.{nothing_open, below_newest, opened, closed, passes, stepped};
ghost use Rattle.run_audit.specs.Audit.{OpensDue};

use crate::fault::AuditFault;
use crate::line::Line;
use crate::told::FrameLine;
use std::alloc::Global;
use std::marker::Model;

/// The calls that are open, and whether the last line was an enter line. A contract sees the calls
/// newest first.
#[derive(Drop)]
pub(crate) struct Open<'a> {
    calls: Vec<FrameLine<'a>>,
    entered: bool,
}

impl<'a> Model for Open<'a> {
    ghost use Rattle.std.specs.Prelude.{reverse};
    ghost use Rattle.run_audit.specs.Audit.{OpenSeen};

    ghost Value = { OpenSeen };

    ghost view = { λ o. record { calls = reverse o.calls.items; entered = o.entered } };
}

impl<'a> Open<'a> {
    /// No call, at first.
    pub(crate) fn new(alloc: Global) -> Open<'a>
        ensures { result ≡ nothing_open }
    {
        Open {
            calls: Vec::new(alloc),
            entered: false,
        }
    }

    // Whether the call lies below the newest open one, if any.
    fn has_above(&self, told: &FrameLine<'_>) -> bool
        ensures { result ≡ below_newest told.now self.now.calls }
    {
        match self.calls.last() {
            Some(newest) => told.is_below(newest),
            None => true,
        }
    }

    // A call of the line of this number.
    fn open(&mut self, line: u64, told: FrameLine<'a>) -> Result<(), AuditFault>
        ensures { OpensDue result self.new (opened self.old line told.entry) }
    {
        if !told.is_wide() {
            return Err(AuditFault::Width(line));
        }
        if !self.has_above(&told) {
            return Err(AuditFault::Overlap(line));
        }
        self.calls.push(told)?;
        self.entered = false;
        Ok(())
    }

    // A return of the line of this number.
    fn close(&mut self, line: u64, told: &FrameLine<'_>) -> Result<(), AuditFault>
        ensures { OpensDue result self.new (closed self.old line told.now) }
    {
        if !told.is_wide() {
            return Err(AuditFault::Width(line));
        }
        self.entered = false;
        match self.calls.pop() {
            Some(newest) => {
                if newest.is_same(told) {
                    Ok(())
                } else {
                    Err(AuditFault::Mismatch(line))
                }
            }
            None => Err(AuditFault::Unopened(line)),
        }
    }

    // A pass line of this number.
    fn pass(&mut self, line: u64) -> Result<(), AuditFault>
        ensures { OpensDue result self.new (passes self.old line) }
    {
        if !self.entered {
            return Err(AuditFault::Form(line));
        }
        self.entered = false;
        Ok(())
    }

    /// A line of this number.
    ///
    /// After an error nothing is said of what is open.
    #[tactic(auto, unfolding(crate::specs::Audit::stepped))]
    pub(crate) fn step(&mut self, number: u64, line: Line<'a>) -> Result<(), AuditFault>
        ensures { OpensDue result self.new (stepped self.old number line.entry) }
    {
        match line {
            Line::Call(told) => self.open(number, told),
            Line::Ret(told) => self.close(number, &told),
            Line::Pass => self.pass(number),
            Line::Enter => {
                self.entered = true;
                Ok(())
            }
            Line::Leave => {
                self.entered = false;
                Ok(())
            }
            Line::End => {
                self.entered = false;
                Ok(())
            }
        }
    }
}
