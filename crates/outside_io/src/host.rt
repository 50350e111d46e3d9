//! The files and the standard output of the system, of whose contents nothing is told.
ghost use Rattle.std.specs.Prelude.{◌≡◌, ◌<◌, ◌≤◌, length, None, IfOk, OnOk, OnErr, MatchResult};
ghost use Rattle.outside_io.specs.FilesSeen.{IsFileName, GivesPart, FailsToRead, Puts, FailsToPut};
ghost use Rattle.outside_io.specs.SinkSeen.{Adds, FailsToWrite, IsOneWrite};
ghost use Rattle.outside_io.specs.FileCounts.{no_counts, with_given, with_failed_read, with_put};
ghost use Rattle.outside_io.specs.FileCounts.{with_failed_put};
ghost use Rattle.outside_io.specs.Host.{seen_of_host_files, no_writes, seen_of_host_sink};
ghost use Rattle.outside_io.specs.Host.{with_write, with_failed_write};

use crate::counts::Counts;
use crate::outside::{Failed, Files, Sink};
use std::fs::File;
use std::io::{Read, Seek, SeekFrom, Write};
use std::marker::Model;
use std::{fs, io, rt};

/// The files of the system, by their paths. Nothing is told of what they hold.
#[derive(Drop)]
pub struct HostFiles<R> {
    rt: R,
    counts: Counts,
}

impl<R> Model for HostFiles<R> {
    ghost use Rattle.outside_io.specs.FileCounts.{FileCounts};

    ghost Value = { FileCounts };

    ghost view = { λ h. h.counts };
}

impl<R: rt::Files> HostFiles<R> {
    /// The files that this runtime reaches, which may be a reference to one. Nothing is counted yet.
    pub fn new(rt: R) -> Self
        ensures { result ≡ no_counts }
    {
        HostFiles {
            rt,
            counts: Counts::new(),
        }
    }

    /// How many reads and puts there were, what they gave, and what failed.
    pub fn counts(&self) -> &Counts
        ensures { result.now ≡ self.now }
    {
        &self.counts
    }
}

// Opens the file, goes to the byte `at`, and reads once.
fn read_at<R: rt::Files>(rt: &R, name: &str, at: u64, buf: &mut [u8]) -> io::Result<usize>
    ensures { IfOk result (λ n. n ≤ length buf.new) }
{
    let mut file = File::open(rt, name)?;
    file.seek(SeekFrom::Start(at))?;
    file.read(buf)
}

impl<R: rt::Files> Files for HostFiles<R> {
    ghost seen = { seen_of_host_files };

    /// Opens the file of this path and reads once from the byte `at` on.
    fn read(&mut self, name: &str, at: u64, buf: &mut [u8]) -> Result<usize, Failed>
        requires name { IsFileName name.now }
        requires room { 0 < length buf.old }
        ensures ok { IfOk result (λ n.
            GivesPart (seen_of_host_files self.old) (seen_of_host_files self.new) name.now at n buf.new) }
        ensures err { OnErr result
            (FailsToRead (seen_of_host_files self.old) (seen_of_host_files self.new) name.now) }
        ensures after { MatchResult result (λ n. self.new ≡ with_given self.old n)
            (λ _. self.new ≡ with_failed_read self.old name.now) }
    {
        match read_at(&self.rt, name, at, buf) {
            Ok(count) => {
                self.counts.gave(count);
                Ok(count)
            }
            Err(_) => {
                self.counts.read_failed(name);
                Err(Failed)
            }
        }
    }

    /// Writes the file of this path anew. After an error it may hold some front of the bytes.
    fn put(&mut self, name: &str, bytes: &[u8]) -> Result<(), Failed>
        requires { IsFileName name.now }
        ensures ok { OnOk result
            (Puts (seen_of_host_files self.old) (seen_of_host_files self.new) name.now bytes.now) }
        ensures err { OnErr result
            (FailsToPut (seen_of_host_files self.old) (seen_of_host_files self.new) name.now) }
        ensures after { MatchResult result (λ _. self.new ≡ with_put self.old)
            (λ _. self.new ≡ with_failed_put self.old name.now) }
    {
        match fs::write(&self.rt, name, bytes) {
            Ok(()) => {
                self.counts.was_put();
                Ok(())
            }
            Err(_) => {
                self.counts.put_failed(name);
                Err(Failed)
            }
        }
    }
}

/// The standard output of the system. Nothing is told of what was written.
#[derive(Drop)]
pub struct HostSink<R> {
    rt: R,
    writes: u64,
    faults: u64,
}

impl<R> Model for HostSink<R> {
    ghost use Rattle.outside_io.specs.Host.{SinkCounts};

    ghost Value = { SinkCounts };

    ghost view = { λ h. record { writes = h.writes; faults = h.faults } };
}

impl<R: Print> HostSink<R> {
    /// The standard output of this runtime, which may be a reference to one. No write yet.
    pub fn new(rt: R) -> Self
        ensures { result ≡ no_writes }
    {
        HostSink {
            rt,
            writes: 0,
            faults: 0,
        }
    }

    /// How many writes there were, those that failed too. The count stands still at the greatest
    /// `u64`.
    pub fn writes(&self) -> u64
        ensures { result ≡ self.now.writes }
    {
        self.writes
    }

    /// How many writes failed. The count stands still at the greatest `u64`.
    pub fn faults(&self) -> u64
        ensures { result ≡ self.now.faults }
    {
        self.faults
    }
}

// Writes all of the piece, and flushes.
fn write_whole<R: Print>(rt: &R, piece: &[u8]) -> io::Result<()> {
    let mut output = io::writer(rt);
    output.write_all(piece)?;
    output.flush()
}

impl<R: Print> Sink for HostSink<R> {
    ghost seen = { seen_of_host_sink };

    /// Writes the whole piece and flushes. A write that takes nothing of what is left is an error.
    fn write(&mut self, piece: &[u8]) -> Result<(), Failed>
        requires { 0 < length piece.now }
        ensures ok { OnOk result
            (Adds (seen_of_host_sink self.old) piece.now (seen_of_host_sink self.new)) }
        ensures err { OnErr result
            (FailsToWrite (seen_of_host_sink self.old) piece.now (seen_of_host_sink self.new)) }
        ensures counted { IsOneWrite (seen_of_host_sink self.old) (seen_of_host_sink self.new) }
        ensures after { MatchResult result (λ _. self.new ≡ with_write self.old)
            (λ _. self.new ≡ with_failed_write self.old) }
    {
        self.writes = self.writes.saturating_add(1);
        match write_whole(&self.rt, piece) {
            Ok(()) => Ok(()),
            Err(_) => {
                self.faults = self.faults.saturating_add(1);
                Err(Failed)
            }
        }
    }
}
