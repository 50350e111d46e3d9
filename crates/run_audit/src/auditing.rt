//! The audit of a text.
ghost use Rattle.std.specs.Prelude.{◌≡◌, ◌⊎◌, Ok, Err, OnOk, IfErr};
ghost use Rattle.run_audit.specs.declared.fault.AuditFault.{AuditFault};
ghost use Rattle.run_audit.specs.declared.fault.AuditFault.TheVariants.{NoMemory};
ghost use Rattle.run_audit.specs.Traces.{IsTrace, HasFault};
ghost use Rattle.run_audit.specs.Audit.{audited, is_ended, at_end, AnswersDue};

use crate::fault::AuditFault;
use crate::line::line_of;
use crate::open::Open;
use line_fields::Parts;
use std::alloc::Global;

// Whether nothing stands after the newline of the end line.
fn is_ended(behind: &Parts<'_>) -> bool
    ensures { result ≡ is_ended behind.now }
{
    let mut behind = behind.again();
    match behind.part() {
        Some(rest) => rest.is_empty() && behind.is_over(),
        None => false,
    }
}

// After the end line, the line of this number.
fn ended(line: u64, behind: &Parts<'_>) -> Result<(), AuditFault>
    ensures { result ≡ at_end line behind.now }
{
    if is_ended(behind) {
        Ok(())
    } else {
        Err(AuditFault::Form(line))
    }
}

// The answer by the definition.
#[tactic(auto, unfolding(crate::specs::Audit::audited))]
fn answer(alloc: Global, text: &[u8]) -> Result<(), AuditFault>
    ensures { AnswersDue result (audited text.now) }
{
    let mut open = Open::new(alloc);
    let mut lines = Parts::of_text(text);
    let mut number: u64 = 1;
    while let Some(line) = lines.part() {
        if lines.is_over() {
            return Err(AuditFault::Form(number));
        }
        let Some(line) = line_of(line) else {
            return Err(AuditFault::Form(number));
        };
        if line.is_end() {
            return ended(number + 1, &lines);
        }
        open.step(number, line)?;
        number += 1;
    }
    Err(AuditFault::Form(number))
}

/// Whether a text is a trace of a run: lines of the forms that runs write, each with its newline, of which
/// the last and no other is an end line. A `pass` line stands only right after an `enter` line, and tells of
/// some pair. The range of each call and return isn't empty, and it has a word for each of the addresses. A
/// call lies below all that are open; and a return is that of the newest call that is open, with its part,
/// site, range and words. The rules are those of docs/AUDIT.md.
///
/// Else the first line that spoils the text is told, counted from 1, or that memory was refused.
pub fn audit(alloc: Global, text: &[u8]) -> Result<(), AuditFault>
    // Which answer.
    ensures exact { AnswersDue result (audited text.now) }
    // What passes is a trace.
    ensures found { OnOk result (IsTrace text.now) }
    // A trace passes, unless memory is refused.
    ensures only { IsTrace text.now → (result ≡ Ok tt) ⊎ (result ≡ Err NoMemory) }
    // A fault is the first one of the text.
    ensures fails { IfErr result (λ e. (e ≡ NoMemory) ⊎ HasFault text.now e) }
    // The first fault of a text is told, unless memory is refused.
    ensures first { (fault : AuditFault) → HasFault text.now fault →
        (result ≡ Err fault) ⊎ (result ≡ Err NoMemory) }
{
    answer(alloc, text)
}
