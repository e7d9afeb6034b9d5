// Where bytes come from.
ghost use Rattle.std.specs.Prelude.{◌≡◌, ◌<◌, ◌≤◌, ℕ, List, [], length, take, min, Option, Some, IfOk, is_err};
ghost use Rattle.std.specs.Io.{ReadsAtMost};
ghost use Rattle.std.specs.Io.KnownBytes.{ReadConsumes};
ghost use Rattle.ck_devices.specs.Causes.{Failures, used};
ghost use Rattle.ck_devices.specs.Plans.{fresh, fails_next, counted};

use crate::{Failed, FaultPlan};
use std::marker::Model;

/// A source of bytes, as a connection or standard input.
pub trait Source {
    /// The bytes that are left, where the source tells.
    ghost left: { Self → Option (List ℕ) };

    /// How often it failed, and how many reads came since.
    ghost failures: { Self → Failures };

    /// How often it failed, at most 2^64 - 1.
    fn faults(&self) -> u64
        ensures { result ≡ (failures self.now).count };

    /// Takes the next bytes, and answers how many stand at the front of `into`. 0 is the end of
    /// input. A read that fails takes none.
    fn read(&mut self, into: &mut [u8]) -> Result<usize, Failed>
        requires { 0 < length into.old }
        ensures bound { ReadsAtMost result into.new }
        ensures bytes { ReadConsumes (left self.old) (left self.new) result into.new }
        ensures counted { failures self.new ≡ used (failures self.old) (is_err result) };
}

/// A source in memory, which gives its bytes in pieces.
#[derive(Drop)]
pub struct MemSource {
    bytes: Vec<u8>,
    at: usize,
    piece: usize,
    plan: FaultPlan,
}

impl Model for MemSource {
    ghost use Rattle.std.specs.Prelude.{◌<◌, ◌≤◌, drop, vec_len};
    ghost use Rattle.ck_devices.specs.Memory.{SourceState};

    ghost Value = { SourceState };

    ghost view = { λ s. record { left = drop s.at s.bytes.items; piece = s.piece; plan = s.plan } };

    ghost invariant = { λ s. (s.at ≤ vec_len s.bytes) × (0 < s.piece) };
}

impl MemSource {
    /// A source of these bytes. One read takes `piece` of them at most, and the reads whose numbers,
    /// from 1, are in `fails` fail.
    pub fn new(bytes: Vec<u8>, piece: usize, fails: Vec<u64>) -> Self
        requires { 0 < piece }
        ensures { result ≡ record { left = bytes.items; piece = piece; plan = fresh fails.items } }
    {
        MemSource {
            bytes,
            at: 0,
            piece,
            plan: FaultPlan::new(fails),
        }
    }
}

impl Source for MemSource {
    ghost left = { λ s. Some s.left };

    ghost failures = { λ s. s.plan.failures };

    fn faults(&self) -> u64 {
        self.plan.faults()
    }

    #[tactic(auto, using(crate::proofs::Pieces::next_piece))]
    fn read(&mut self, into: &mut [u8]) -> Result<usize, Failed>
        requires { 0 < length into.old }
        ensures bound { ReadsAtMost result into.new }
        ensures bytes { ReadConsumes (Some self.old.left) (Some self.new.left) result into.new }
        ensures counted { self.new.plan.failures ≡ used self.old.plan.failures (is_err result) }

        // What the trait leaves open.
        ensures count { IfOk result (λ n. n ≡ min self.old.piece (min (length self.old.left) (length into.old))) }
        ensures listed { is_err result ≡ fails_next self.old.plan }
        ensures plan { self.new.plan ≡ counted self.old.plan (is_err result) }
        ensures piece { self.new.piece ≡ self.old.piece }
    {
        self.plan.start_call()?;
        let count = copy_front(&self.bytes[self.at..], into, self.piece);
        self.at += count;
        Ok(count)
    }
}

// Copies the front of `from`, at most a piece of it, and says how many bytes that is.
fn copy_front(from: &[u8], into: &mut [u8], piece: usize) -> usize
    requires { 0 < piece }
    ensures count { result ≡ min piece (min (length from.now) (length into.old)) }
    ensures front { take result into.new ≡ take result from.now }
    ensures none { result ≡ 0 → 0 < length into.old → from.now ≡ [] }
{
    let count = piece.min(from.len().min(into.len()));
    into[..count].copy_from_slice(&from[..count]);
    count
}
