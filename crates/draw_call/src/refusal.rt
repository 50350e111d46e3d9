//! Why no picture is put, with the line and the status that tell it.
ghost use Rattle.std.specs.Prelude.{◌≡◌, ◌<◌, ◌++◌, [], decimal};
ghost use Rattle.arrayvec.specs.ArrayString.{array_string_len};
ghost use Rattle.draw_call.specs.Answers.{audit_line, told};

use crate::status::DrawStatus;
use arrayvec::ArrayString;
use itoa::Buffer;
use run_audit::AuditFault;

/// What a refusal tells.
#[derive(Clone, Copy)]
pub enum DrawRefusal {
    /// The words are no command.
    Usage,
    /// The file of `--feed` could not be read.
    ReadFault,
    /// It has more than [`LAST_LENGTH`](run_picture::LAST_LENGTH) bytes or
    /// [`LAST_COUNT`](run_picture::LAST_COUNT) lines.
    TooLong,
    /// Its text is no trace of a run.
    Audit(AuditFault),
}

/// Why a call goes no further.
#[derive(Clone, Copy)]
pub(crate) enum DrawStop {
    /// It is refused.
    Refused(DrawRefusal),
    /// Memory was refused.
    NoMemory,
}

fn push_audit(line: &mut ArrayString<64>, fault: AuditFault)
    requires { line.old.bytes ≡ [] }
    ensures { line.new.bytes ≡ audit_line fault }
{
    let mut number = Buffer::new();
    let mut place = Buffer::new();
    line.push_str("audit ");
    line.push_str(number.format(fault.number()));
    line.push_str(" ");
    line.push_str(place.format(fault.line()));
    line.push_str("\n");
}

/// The line that a refusal writes.
pub(crate) fn refusal_line(why: DrawRefusal) -> ArrayString<64>
    ensures text { result.bytes ≡ (told why).1 }
    ensures some { 0 < array_string_len result }
{
    let mut line = ArrayString::new();
    match why {
        DrawRefusal::Usage => line.push_str("usage\n"),
        DrawRefusal::ReadFault => line.push_str("read fault\n"),
        DrawRefusal::TooLong => line.push_str("too long 0\n"),
        DrawRefusal::Audit(fault) => push_audit(&mut line, fault),
    }
    line
}

/// The status of a refusal.
pub(crate) fn refusal_ends(why: DrawRefusal) -> DrawStatus
    ensures { result ≡ (told why).0 }
{
    match why {
        DrawRefusal::Usage => DrawStatus::Usage,
        DrawRefusal::ReadFault => DrawStatus::ReadFault,
        DrawRefusal::TooLong => DrawStatus::TooLong,
        DrawRefusal::Audit(_) => DrawStatus::AuditRefused,
    }
}
