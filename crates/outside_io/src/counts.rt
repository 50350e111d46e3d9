//! What every object of files counts.
ghost use Rattle.std.specs.Prelude.{◌≡◌, ◌≤◌, length};
ghost use Rattle.outside_io.specs.Counts.{Rose};
ghost use Rattle.outside_io.specs.FileCounts.{no_counts, with_given, with_failed_read, with_put};
ghost use Rattle.outside_io.specs.FileCounts.{with_failed_put};

use crate::outside::LONGEST_NAME;
use arrayvec::ArrayString;
use std::marker::Model;

/// How many reads and puts there were, how many of them failed, the names that the last of these had,
/// and how many bytes reads gave. Each count stands still at the greatest `u64`.
#[derive(Drop)]
pub struct Counts {
    reads: u64,
    failed_reads: u64,
    last_failed_read: ArrayString<LONGEST_NAME>,
    puts: u64,
    failed_puts: u64,
    last_failed_put: ArrayString<LONGEST_NAME>,
    given: u64,
}

impl Model for Counts {
    ghost use Rattle.outside_io.specs.FileCounts.{FileCounts};

    ghost Value = { FileCounts };

    ghost view = { λ c. record {
      reads = c.reads;
      failed_reads = c.failed_reads;
      last_failed_read = c.last_failed_read.bytes;
      puts = c.puts;
      failed_puts = c.failed_puts;
      last_failed_put = c.last_failed_put.bytes;
      given = c.given;
    } };
}

impl Counts {
    /// Nothing was read or put, nothing failed and nothing was given.
    pub(crate) fn new() -> Self
        ensures { result ≡ no_counts }
    {
        Counts {
            reads: 0,
            failed_reads: 0,
            last_failed_read: ArrayString::new(),
            puts: 0,
            failed_puts: 0,
            last_failed_put: ArrayString::new(),
            given: 0,
        }
    }

    /// How many reads there were, those that failed too.
    pub fn reads(&self) -> u64
        ensures { result ≡ self.now.reads }
    {
        self.reads
    }

    /// How many reads failed.
    pub fn failed_reads(&self) -> u64
        ensures { result ≡ self.now.failed_reads }
    {
        self.failed_reads
    }

    /// The name in the last read that failed, empty where none did.
    pub fn last_failed_read(&self) -> &str
        ensures { result.now ≡ self.now.last_failed_read }
    {
        self.last_failed_read.as_str()
    }

    /// How many puts there were, those that failed too.
    pub fn puts(&self) -> u64
        ensures { result ≡ self.now.puts }
    {
        self.puts
    }

    /// How many puts failed.
    pub fn failed_puts(&self) -> u64
        ensures { result ≡ self.now.failed_puts }
    {
        self.failed_puts
    }

    /// The name in the last put that failed, empty where none did.
    pub fn last_failed_put(&self) -> &str
        ensures { result.now ≡ self.now.last_failed_put }
    {
        self.last_failed_put.as_str()
    }

    /// How many bytes reads gave.
    pub fn given(&self) -> u64
        ensures { result ≡ self.now.given }
    {
        self.given
    }

    /// Counts a read that gave so many bytes.
    pub(crate) fn gave(&mut self, count: usize)
        ensures { self.new ≡ with_given self.old count }
    {
        self.reads = self.reads.saturating_add(1);
        self.given = self.given.saturating_add(count as u64);
    }

    /// Counts a failed read of this name.
    pub(crate) fn read_failed(&mut self, name: &str)
        requires { length name.now ≤ LONGEST_NAME }
        ensures is { self.new ≡ with_failed_read self.old name.now }
        ensures rose { Rose self.old.failed_reads self.new.failed_reads }
    {
        self.reads = self.reads.saturating_add(1);
        self.failed_reads = self.failed_reads.saturating_add(1);
        keep(&mut self.last_failed_read, name);
    }

    /// Counts a put that went.
    pub(crate) fn was_put(&mut self)
        ensures { self.new ≡ with_put self.old }
    {
        self.puts = self.puts.saturating_add(1);
    }

    /// Counts a failed put of this name.
    pub(crate) fn put_failed(&mut self, name: &str)
        requires { length name.now ≤ LONGEST_NAME }
        ensures is { self.new ≡ with_failed_put self.old name.now }
        ensures rose { Rose self.old.failed_puts self.new.failed_puts }
    {
        self.puts = self.puts.saturating_add(1);
        self.failed_puts = self.failed_puts.saturating_add(1);
        keep(&mut self.last_failed_put, name);
    }
}

// Makes `kept` hold this name.
fn keep(kept: &mut ArrayString<LONGEST_NAME>, name: &str)
    requires { length name.now ≤ LONGEST_NAME }
    ensures { kept.new.bytes ≡ name.now }
{
    kept.clear();
    kept.push_str(name);
}
