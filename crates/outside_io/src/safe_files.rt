//! Files in memory that was reserved before.
ghost use Rattle.std.specs.Prelude.{◌≡◌, ◌↔◌, ◌-◌, ◌<◌, ◌≤◌, length, min, if◌then◌else◌, IsTrue};
ghost use Rattle.std.specs.Prelude.{IfOk, IsOk, IsErr, OnOk, OnErr, IsNone, IsSomeAnd, MatchResult};
ghost use Rattle.std.specs.FinMap as finite;
ghost use Rattle.outside_io.specs.FilesSeen.{IsFileName, GivesPart, FailsToRead, Puts, FailsToPut};
ghost use Rattle.outside_io.specs.FileCounts.{with_given, with_failed_read, with_put, with_failed_put};
ghost use Rattle.outside_io.specs.SafeFiles.{none_held, held_of, KeepsNumbers, holding, seen_of_safe_files};

use crate::counts::Counts;
use crate::memory::copy_part;
use crate::outside::{Failed, Files};
use crate::shelf::Shelf;
use std::alloc::{AllocError, Global};
use std::marker::Model;

/// Up to so many files, with up to so many bytes of names and contents together, in memory that was
/// reserved when they were made. They take none after that.
#[derive(Drop)]
pub struct SafeFiles {
    shelf: Shelf,
    counts: Counts,
    ghost kept: { KeepsNumbers (held_of shelf counts) },
}

impl Model for SafeFiles {
    ghost use Rattle.std.specs.Coded.{codes, coded_ℕ, coded_list};
    ghost use Rattle.std.specs.Ordering.{nat_cmp};
    ghost use Rattle.std.specs.Cmp.Lexicographic.{slice_cmp};
    ghost use Rattle.std.specs.FinMap as finite;
    ghost use Rattle.outside_io.specs.Shelf.{Differ};
    ghost use Rattle.outside_io.specs.SafeFiles.{KeptFiles, held_of};

    ghost Value = { KeptFiles };

    ghost coded = { Prim.hlevel
        (codes, finite.code {R = slice_cmp nat_cmp} (coded_list coded_ℕ) (coded_list coded_ℕ)) };

    ghost view = { λ s. record { held = held_of s.shelf s.counts; kept = s.kept } };

    ghost invariant = { λ s. Differ s.shelf.files };
}

impl SafeFiles {
    /// Reserves memory for `names` files, whose names and contents have up to `room` bytes together.
    /// There are no files yet.
    pub fn reserve(alloc: Global, names: u32, room: u32) -> Result<SafeFiles, AllocError>
        ensures { IfOk result (λ s. s.held ≡ none_held names room) }
    {
        Ok(SafeFiles {
            shelf: Shelf::reserve(alloc, names as usize, room as usize)?,
            counts: Counts::new(),
        })
    }

    /// Adds the file of this name, or replaces it, and says whether it did. It does so exactly where
    /// the files keep within the two numbers then, without what it replaces; else nothing changes. It
    /// is no call, so it is not counted. The name may be any text, and one of 1 to `LONGEST_NAME` bytes
    /// can be read.
    pub fn add(&mut self, name: &str, bytes: &[u8]) -> bool
        ensures fits { IsTrue result ↔ KeepsNumbers (holding self.old.held name.now bytes.now) }
        ensures after { self.new.held
            ≡ (if result then holding self.old.held name.now bytes.now else self.old.held) }
    {
        let name = name.as_bytes();
        if !self.shelf.fits(name, bytes) {
            return false;
        }
        self.shelf.put(name, bytes);
        true
    }

    /// How many reads and puts there were, what they gave, and what failed.
    pub fn counts(&self) -> &Counts
        ensures { result.now ≡ self.now.held.counts }
    {
        &self.counts
    }
}

impl Files for SafeFiles {
    ghost seen = { seen_of_safe_files };

    /// Fails where there is no such file, and nowhere else. It reads as many bytes as the buffer has
    /// room for and the file has.
    fn read(&mut self, name: &str, at: u64, buf: &mut [u8]) -> Result<usize, Failed>
        requires name { IsFileName name.now }
        requires room { 0 < length buf.old }
        ensures ok { IfOk result (λ n.
            GivesPart (seen_of_safe_files self.old) (seen_of_safe_files self.new) name.now at n buf.new) }
        ensures err { OnErr result
            (FailsToRead (seen_of_safe_files self.old) (seen_of_safe_files self.new) name.now) }
        ensures fails { IsErr result ↔ IsNone (finite.get self.old.held.files name.now) }
        ensures all { IfOk result (λ n. IsSomeAnd (finite.get self.old.held.files name.now) (λ file.
            n ≡ min (length buf.new) (length file - at))) }
        ensures after { MatchResult result
            (λ n. self.new.held ≡ record self.old.held { counts = with_given self.old.held.counts n })
            (λ _. self.new.held ≡ record self.old.held {
              counts = with_failed_read self.old.held.counts name.now;
            }) }
    {
        match self.shelf.get(name.as_bytes()) {
            Some(file) => {
                let count = copy_part(file, at, buf);
                self.counts.gave(count);
                Ok(count)
            }
            None => {
                self.counts.read_failed(name);
                Err(Failed)
            }
        }
    }

    /// Does as `add` does, and fails exactly where `add` answers false; then the files stay as they were.
    fn put(&mut self, name: &str, bytes: &[u8]) -> Result<(), Failed>
        requires { IsFileName name.now }
        ensures ok { OnOk result
            (Puts (seen_of_safe_files self.old) (seen_of_safe_files self.new) name.now bytes.now) }
        ensures err { OnErr result
            (FailsToPut (seen_of_safe_files self.old) (seen_of_safe_files self.new) name.now) }
        ensures fits { IsOk result ↔ KeepsNumbers (holding self.old.held name.now bytes.now) }
        ensures after { MatchResult result
            (λ _. self.new.held ≡ record (holding self.old.held name.now bytes.now) {
              counts = with_put self.old.held.counts;
            })
            (λ _. self.new.held ≡ record self.old.held {
              counts = with_failed_put self.old.held.counts name.now;
            }) }
    {
        if !self.add(name, bytes) {
            self.counts.put_failed(name);
            return Err(Failed);
        }
        self.counts.was_put();
        Ok(())
    }
}
