// Where bytes go.
ghost use Rattle.std.specs.Prelude.{◌≡◌, ◌<◌, ◌≤◌, ℕ, List, [], length, min, Option, Some, IfOk, IsErr, is_err, IsTrue};
ghost use Rattle.std.specs.Io.KnownBytes.{WriteAppends};
ghost use Rattle.ck_devices.specs.Causes.{Failures, used};
ghost use Rattle.ck_devices.specs.Plans.{fresh, fails_next, counted};

use crate::{Failed, FaultPlan};
use std::alloc::Global;
use std::marker::Model;

/// A sink of bytes, as a connection or standard output.
pub trait Sink {
    /// The bytes that it took, where the sink tells.
    ghost held: { Self → Option (List ℕ) };

    /// How often it failed, and how many writes came since.
    ghost failures: { Self → Failures };

    /// How often it failed, at most 2^64 - 1.
    fn faults(&self) -> u64
        ensures { result ≡ (failures self.now).count };

    /// Takes the front of the piece, at least one byte of it, and answers how many bytes it took. A
    /// write that fails takes none.
    fn write(&mut self, piece: &[u8]) -> Result<usize, Failed>
        requires { 0 < length piece.now }
        ensures some { IfOk result (λ n. 0 < n) }
        ensures bound { IfOk result (λ n. n ≤ length piece.now) }
        ensures bytes { WriteAppends (held self.old) (held self.new) result piece.now }
        ensures counted { failures self.new ≡ used (failures self.old) (is_err result) };
}

/// A sink in memory, which keeps what is written to it. A write for which it finds no room fails.
#[derive(Drop)]
pub struct MemSink {
    bytes: Vec<u8>,
    piece: usize,
    plan: FaultPlan,
}

impl Model for MemSink {
    ghost use Rattle.std.specs.Prelude.{◌<◌};
    ghost use Rattle.ck_devices.specs.Memory.{SinkState};

    ghost Value = { SinkState };

    ghost view = { λ s. record { held = s.bytes.items; piece = s.piece; plan = s.plan } };

    ghost invariant = { λ s. 0 < s.piece };
}

impl MemSink {
    /// A sink that took nothing yet. One write takes `piece` bytes at most, and the writes whose
    /// numbers, from 1, are in `fails` fail.
    pub fn new(alloc: Global, piece: usize, fails: Vec<u64>) -> Self
        requires { 0 < piece }
        ensures { result ≡ record { held = []; piece = piece; plan = fresh fails.items } }
    {
        MemSink {
            bytes: Vec::new(alloc),
            piece,
            plan: FaultPlan::new(fails),
        }
    }

    /// The bytes that it took.
    pub fn bytes(&self) -> &[u8]
        ensures { result.now ≡ self.now.held }
    {
        &self.bytes
    }
}

impl Sink for MemSink {
    ghost held = { λ s. Some s.held };

    ghost failures = { λ s. s.plan.failures };

    fn faults(&self) -> u64 {
        self.plan.faults()
    }

    fn write(&mut self, piece: &[u8]) -> Result<usize, Failed>
        requires { 0 < length piece.now }
        ensures some { IfOk result (λ n. 0 < n) }
        ensures bound { IfOk result (λ n. n ≤ length piece.now) }
        ensures bytes { WriteAppends (Some self.old.held) (Some self.new.held) result piece.now }
        ensures counted { self.new.plan.failures ≡ used self.old.plan.failures (is_err result) }

        // What the trait leaves open. A write that is not listed can still find no room.
        ensures count { IfOk result (λ n. n ≡ min self.old.piece (length piece.now)) }
        ensures listed { IsTrue (fails_next self.old.plan) → IsErr result }
        ensures plan { self.new.plan ≡ counted self.old.plan (is_err result) }
        ensures piece { self.new.piece ≡ self.old.piece }
    {
        self.plan.start_call()?;
        let count = self.piece.min(piece.len());
        match self.bytes.extend_from_slice(&piece[..count]) {
            Ok(()) => Ok(count),
            Err(_) => Err(self.plan.raise()),
        }
    }
}
