//! Files and a sink in memory, which tell all that they hold.
ghost use Rattle.std.specs.Prelude.{◌≡◌, ◌⊎◌, ◌↔◌, ◌-◌, ◌<◌, length, min, take, drop};
ghost use Rattle.std.specs.Prelude.{IfOk, IsErr, OnOk, OnErr, IsNone, IsOkAnd, MatchResult};
ghost use Rattle.outside_io.specs.FilesSeen.{IsFileName, GivesPart, FailsToRead, Puts, FailsToPut};
ghost use Rattle.outside_io.specs.SinkSeen.{Adds, FailsToWrite, IsOneWrite};
ghost use Rattle.outside_io.specs.Memory.{with_failing, NextFails, no_files, file_named, with_file};
ghost use Rattle.outside_io.specs.Memory.{after_read, after_failed_read, after_put, after_failed_put};
ghost use Rattle.outside_io.specs.Memory.{GivesAll, seen_of_files};
ghost use Rattle.outside_io.specs.Memory.{no_bytes, after_write, after_failed_write, seen_of_bytes};

use crate::calls::Calls;
use crate::counts::Counts;
use crate::outside::{Failed, Files, Sink};
use std::alloc::{AllocError, Global};
use std::collections::BTreeMap;
use std::marker::Model;

/// Files in memory. A call can be set to fail.
#[derive(Drop)]
pub struct MemFiles {
    alloc: Global,
    files: BTreeMap<String, Vec<u8>>,
    calls: Calls,
    counts: Counts,
}

impl Model for MemFiles {
    ghost use Rattle.std.specs.Prelude.{List, ℕ};
    ghost use Rattle.std.specs.Coded.{codes, coded_ℕ, coded_list};
    ghost use Rattle.std.specs.Ordering.{nat_cmp};
    ghost use Rattle.std.specs.Cmp.Lexicographic.{slice_cmp};
    ghost use Rattle.std.specs.FinMap as finite;
    ghost use Rattle.outside_io.specs.Memory.{HeldFiles, files_of};

    ghost Value = { HeldFiles };

    ghost coded = { Prim.hlevel
        (codes, finite.code {R = slice_cmp nat_cmp} (coded_list coded_ℕ) (coded_list coded_ℕ)) };

    ghost view = { λ m. record { files = files_of m.files.entries; calls = m.calls; counts = m.counts } };
}

impl MemFiles {
    /// No files, and no call yet. It takes no memory, so it never fails.
    pub fn new(alloc: Global) -> Result<MemFiles, AllocError>
        ensures { IsOkAnd result (λ m. m ≡ no_files) }
    {
        Ok(MemFiles {
            alloc,
            files: BTreeMap::new(alloc),
            calls: Calls::new(),
            counts: Counts::new(),
        })
    }

    /// Adds the file of this name, or replaces it. It is no call, so it is not counted. The name
    /// may be any text, and one of 1 to `LONGEST_NAME` bytes can be read. An error changes nothing.
    pub fn add(&mut self, name: &str, bytes: &[u8]) -> Result<(), AllocError>
        ensures ok { OnOk result (self.new ≡ with_file self.old name.now bytes.now) }
        ensures err { OnErr result (self.new ≡ self.old) }
    {
        let key = String::from_str(self.alloc, name)?;
        let content = Vec::from_slice(self.alloc, bytes)?;
        self.files.insert(key, content)?;
        Ok(())
    }

    /// Lets the call of this number fail, and no other. Reads and puts are counted together, from
    /// 1 for the first one since `new`, and the count stands still at the greatest `u64`.
    pub fn fail_at(&mut self, call: u32)
        ensures { self.new ≡ record self.old { calls = with_failing self.old.calls call } }
    {
        self.calls.fail_at(call);
    }

    /// How many reads and puts there were, what they gave, and what failed.
    pub fn counts(&self) -> &Counts
        ensures { result.now ≡ self.now.counts }
    {
        &self.counts
    }
}

// Copies the bytes of the file from `at` on to the front of `buf`, as many as fit.
pub(crate) fn copy_part(file: &[u8], at: u64, buf: &mut [u8]) -> usize
    ensures count { result ≡ min (length buf.new) (length file.now - at) }
    ensures bytes { take result buf.new ≡ take result (drop at file.now) }
{
    let start = at.min(file.len() as u64) as usize;
    let rest = &file[start..];
    let count = rest.len().min(buf.len());
    buf[..count].copy_from_slice(&rest[..count]);
    count
}

impl Files for MemFiles {
    ghost seen = { seen_of_files };

    /// Fails where the call is set to fail and where there is no such file, and nowhere else. It
    /// reads as many bytes as the buffer has room for and the file has.
    fn read(&mut self, name: &str, at: u64, buf: &mut [u8]) -> Result<usize, Failed>
        requires name { IsFileName name.now }
        requires room { 0 < length buf.old }
        ensures ok { IfOk result (λ n.
            GivesPart (seen_of_files self.old) (seen_of_files self.new) name.now at n buf.new) }
        ensures err { OnErr result
            (FailsToRead (seen_of_files self.old) (seen_of_files self.new) name.now) }
        ensures fails { IsErr result
            ↔ (NextFails self.old.calls ⊎ IsNone (file_named self.old name.now)) }
        ensures all { IfOk result (GivesAll self.old name.now at (length buf.new)) }
        ensures after { MatchResult result (λ n. self.new ≡ after_read self.old n)
            (λ _. self.new ≡ after_failed_read self.old name.now) }
    {
        let is_set = self.calls.begin();
        match self.files.get(name) {
            Some(file) if !is_set => {
                let count = copy_part(file, at, buf);
                self.counts.gave(count);
                Ok(count)
            }
            _ => {
                self.counts.read_failed(name);
                Err(Failed)
            }
        }
    }

    /// Fails where the call is set to fail, and where there is no memory; then it leaves the files
    /// as they were.
    fn put(&mut self, name: &str, bytes: &[u8]) -> Result<(), Failed>
        requires { IsFileName name.now }
        ensures ok { OnOk result
            (Puts (seen_of_files self.old) (seen_of_files self.new) name.now bytes.now) }
        ensures err { OnErr result
            (FailsToPut (seen_of_files self.old) (seen_of_files self.new) name.now) }
        ensures fails { NextFails self.old.calls → IsErr result }
        ensures after { MatchResult result (λ _. self.new ≡ after_put self.old name.now bytes.now)
            (λ _. self.new ≡ after_failed_put self.old name.now) }
    {
        let is_set = self.calls.begin();
        if is_set || self.add(name, bytes).is_err() {
            self.counts.put_failed(name);
            return Err(Failed);
        }
        self.counts.was_put();
        Ok(())
    }
}

/// A sink in memory. A write can be set to fail.
#[derive(Drop)]
pub struct MemSink {
    bytes: Vec<u8>,
    calls: Calls,
    faults: u64,
}

impl Model for MemSink {
    ghost use Rattle.outside_io.specs.Memory.{HeldBytes};

    ghost Value = { HeldBytes };

    ghost view = { λ m. record { bytes = m.bytes.items; calls = m.calls; faults = m.faults } };
}

impl MemSink {
    /// Nothing written, and no write yet. It takes no memory, so it never fails.
    pub fn new(alloc: Global) -> Result<MemSink, AllocError>
        ensures { IsOkAnd result (λ m. m ≡ no_bytes) }
    {
        Ok(MemSink {
            bytes: Vec::new(alloc),
            calls: Calls::new(),
            faults: 0,
        })
    }

    /// Lets the write of this number fail, and no other. Writes count from 1 for the first one
    /// since `new`, and the count stands still at the greatest `u64`.
    pub fn fail_at(&mut self, call: u32)
        ensures { self.new ≡ record self.old { calls = with_failing self.old.calls call } }
    {
        self.calls.fail_at(call);
    }

    /// All that was written.
    pub fn bytes(&self) -> &[u8]
        ensures { result.now ≡ self.now.bytes }
    {
        &self.bytes
    }

    /// How many writes there were, those that failed too. The count stands still at the greatest
    /// `u64`.
    pub fn writes(&self) -> u64
        ensures { result ≡ self.now.calls.made }
    {
        self.calls.made()
    }

    /// How many writes failed. The count stands still at the greatest `u64`.
    pub fn faults(&self) -> u64
        ensures { result ≡ self.now.faults }
    {
        self.faults
    }
}

impl Sink for MemSink {
    ghost seen = { seen_of_bytes };

    /// Fails where the write is set to fail, and where there is no memory; then it writes nothing.
    fn write(&mut self, piece: &[u8]) -> Result<(), Failed>
        requires { 0 < length piece.now }
        ensures ok { OnOk result
            (Adds (seen_of_bytes self.old) piece.now (seen_of_bytes self.new)) }
        ensures err { OnErr result
            (FailsToWrite (seen_of_bytes self.old) piece.now (seen_of_bytes self.new)) }
        ensures counted { IsOneWrite (seen_of_bytes self.old) (seen_of_bytes self.new) }
        ensures fails { NextFails self.old.calls → IsErr result }
        ensures after { MatchResult result (λ _. self.new ≡ after_write self.old piece.now)
            (λ _. self.new ≡ after_failed_write self.old) }
    {
        let is_set = self.calls.begin();
        if is_set || self.bytes.extend_from_slice(piece).is_err() {
            self.faults = self.faults.saturating_add(1);
            return Err(Failed);
        }
        Ok(())
    }
}
