//! A sink over memory that was reserved before.
ghost use Rattle.std.specs.Prelude.{◌≡◌, ◌↔◌, ◌+◌, ◌<◌, ◌≤◌, length, vec_len, vec_capacity};
ghost use Rattle.std.specs.Prelude.{IfOk, IsOk, OnOk, OnErr, MatchResult};
ghost use Rattle.outside_io.specs.SinkSeen.{Adds, FailsToWrite, IsOneWrite};
ghost use Rattle.outside_io.specs.SafeSink.{KeepsRoom, taken_of, nothing_taken, HasRoom};
ghost use Rattle.outside_io.specs.SafeSink.{with_piece, with_front, seen_of_safe_sink};

use crate::outside::{Failed, Sink};
use crate::reserved::append;
use std::alloc::{AllocError, Global};
use std::marker::Model;

/// A sink that holds up to `ROOM` bytes, in memory that was reserved when it was made. It needs none
/// after that.
#[derive(Drop)]
pub struct SafeSink<const ROOM: usize> {
    bytes: Vec<u8>,
    writes: u64,
    faults: u64,
    ghost reserved: { vec_capacity bytes ≡ ROOM },
    ghost kept: { KeepsRoom ROOM (taken_of bytes.items writes faults) },
}

impl<const ROOM: usize> Model for SafeSink<ROOM> {
    ghost use Rattle.outside_io.specs.SafeSink.{SafeBytes, taken_of};

    ghost Value = { SafeBytes ROOM };

    ghost view = { λ s. record { taken = taken_of s.bytes.items s.writes s.faults; kept = s.kept } };
}

impl<const ROOM: usize> SafeSink<ROOM> {
    /// Reserves memory for `ROOM` bytes. Nothing written, and no write yet.
    pub fn reserve(alloc: Global) -> Result<SafeSink<ROOM>, AllocError>
        ensures { IfOk result (λ s. s.taken ≡ nothing_taken) }
    {
        Ok(SafeSink {
            bytes: Vec::with_capacity(alloc, ROOM)?,
            writes: 0,
            faults: 0,
        })
    }

    /// All that was written.
    pub fn bytes(&self) -> &[u8]
        ensures { result.now ≡ self.now.taken.bytes }
    {
        &self.bytes
    }

    /// How many writes there were, those that failed too. The count stands still at the greatest
    /// `u64`.
    pub fn writes(&self) -> u64
        ensures { result ≡ self.now.taken.counts.writes }
    {
        self.writes
    }

    /// How many writes failed. The count stands still at the greatest `u64`.
    pub fn faults(&self) -> u64
        ensures { result ≡ self.now.taken.counts.faults }
    {
        self.faults
    }
}

impl<const ROOM: usize> Sink for SafeSink<ROOM> {
    ghost seen = { seen_of_safe_sink };

    /// Fails where the piece doesn't fit, and nowhere else; then the bytes of it that fit are written.
    fn write(&mut self, piece: &[u8]) -> Result<(), Failed>
        requires { 0 < length piece.now }
        ensures ok { OnOk result
            (Adds (seen_of_safe_sink self.old) piece.now (seen_of_safe_sink self.new)) }
        ensures err { OnErr result
            (FailsToWrite (seen_of_safe_sink self.old) piece.now (seen_of_safe_sink self.new)) }
        ensures counted { IsOneWrite (seen_of_safe_sink self.old) (seen_of_safe_sink self.new) }
        ensures fits { IsOk result ↔ HasRoom ROOM self.old.taken piece.now }
        ensures after { MatchResult result (λ _. self.new.taken ≡ with_piece self.old.taken piece.now)
            (λ _. self.new.taken ≡ with_front ROOM self.old.taken piece.now) }
    {
        self.writes = self.writes.saturating_add(1);
        let count = piece.len().min(ROOM - self.bytes.len());
        append(&mut self.bytes, &piece[..count]);
        if count < piece.len() {
            self.faults = self.faults.saturating_add(1);
            return Err(Failed);
        }
        Ok(())
    }
}
