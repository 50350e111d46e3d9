//! What the program asks of files and of a sink, whoever keeps them.
ghost use Rattle.std.specs.Prelude.{◌<◌, length, IfOk, OnOk, OnErr};
ghost use Rattle.outside_io.specs.FilesSeen.{FilesSeen, IsFileName, GivesPart, FailsToRead, Puts, FailsToPut};
ghost use Rattle.outside_io.specs.SinkSeen.{SinkSeen, Adds, FailsToWrite, IsOneWrite};

use std::error::Error;
use std::fmt;

/// A call to the outside failed. The object that was called has counted it.
#[derive(Debug, Clone, Copy)]
pub struct Failed;

impl fmt::Display for Failed {
    ghost use Rattle.std.specs.Prelude.{Some};
    ghost use Rattle.outside_io.specs.FaultTexts.{failed_text};

    ghost output = { λ f. Some (failed_text f) };

    fn fmt<W: fmt::Write>(&self, f: &mut fmt::Formatter<W>) -> fmt::Result {
        f.write_str("a call to the outside failed")
    }
}

impl Error for Failed {}

/// The longest name of a file, in bytes.
pub const LONGEST_NAME: usize = 255;

/// Files by name. A name is text of 1 to [`LONGEST_NAME`] bytes.
pub trait Files {
    /// What the object tells of its files: their contents or nothing of them, how many reads and puts
    /// there were, how many bytes reads gave, how many reads and puts failed, and the names that the
    /// last of these had.
    /// Each count stands still at the greatest number of 64 bits.
    ghost seen: { Self → FilesSeen };

    /// Reads bytes of the file of this name, from the byte `at` on, to the front of `buf`, and
    /// returns how many it read: where contents are told, at least one, unless the file ends at
    /// `at` or before it. Each read is counted, and an error also as a failed read of this name. An
    /// error leaves in `buf` what it will.
    fn read(&mut self, name: &str, at: u64, buf: &mut [u8]) -> Result<usize, Failed>
        requires name { IsFileName name.now }
        requires room { 0 < length buf.old }
        ensures ok { IfOk result (λ n.
            GivesPart (seen self.old) (seen self.new) name.now at n buf.new) }
        ensures err { OnErr result (FailsToRead (seen self.old) (seen self.new) name.now) };

    /// Makes these bytes the whole content of the file of this name, which need not be there yet.
    /// Each put is counted, and an error also as a failed put of this name; an error says nothing of what
    /// the file holds then.
    fn put(&mut self, name: &str, bytes: &[u8]) -> Result<(), Failed>
        requires { IsFileName name.now }
        ensures ok { OnOk result (Puts (seen self.old) (seen self.new) name.now bytes.now) }
        ensures err { OnErr result (FailsToPut (seen self.old) (seen self.new) name.now) };
}

/// Where output goes.
pub trait Sink {
    /// What the sink tells of itself: the bytes that it took or nothing of them, how many writes
    /// there were, those that failed too, and how many failed. Each count stands still at the
    /// greatest number of 64 bits.
    ghost seen: { Self → SinkSeen };

    /// Writes the whole piece after what was written. Each write is counted, and an error also as
    /// a failed one; it may leave some front of the piece written.
    fn write(&mut self, piece: &[u8]) -> Result<(), Failed>
        requires { 0 < length piece.now }
        ensures ok { OnOk result (Adds (seen self.old) piece.now (seen self.new)) }
        ensures err { OnErr result (FailsToWrite (seen self.old) piece.now (seen self.new)) }
        ensures counted { IsOneWrite (seen self.old) (seen self.new) };
}
