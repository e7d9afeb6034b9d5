// Files by name.
ghost use Rattle.std.specs.Prelude.{◌≡◌, [], ℕ, ◌↔◌, Option, Some, option_map, IfOk, OnErr, IsErrOf, IsTrue};
ghost use Rattle.ck_devices.specs.Causes.{HasCauseAt};
ghost use Rattle.ck_devices.specs.Files.{Files, file, ReadsFile};
ghost use Rattle.ck_devices.specs.Plans.{fresh, fails_next, counted};

use crate::{Failed, FaultPlan};
use ck_base::{Bytes, Text};
use std::alloc::AllocError;
use std::marker::Model;

/// Why a shelf refused.
#[derive(Clone, Copy, Debug, PartialEq, Eq)]
pub enum ShelfFault {
    /// The shelf failed, and its count of faults rose.
    Failed,
    /// Memory ran out.
    NoMemory,
}

impl From<Failed> for ShelfFault {
    ghost use Rattle.std.specs.Prelude.{◌≡◌};
    ghost use Rattle.ck_devices.specs.declared.shelf.ShelfFault.TheVariants.{Failed as ShelfFailed};

    ghost from_gives = { λ _ e. e ≡ ShelfFailed };

    fn from(_e: Failed) -> Self {
        ShelfFault::Failed
    }
}

impl From<AllocError> for ShelfFault {
    ghost use Rattle.std.specs.Prelude.{◌≡◌};
    ghost use Rattle.ck_devices.specs.declared.shelf.ShelfFault.TheVariants.{NoMemory};

    ghost from_gives = { λ _ e. e ≡ NoMemory };

    fn from(_e: AllocError) -> Self {
        ShelfFault::NoMemory
    }
}

/// Files by name, as those of a folder.
pub trait Shelf {
    /// The files, where the shelf tells.
    ghost files: { Self → Option Files };

    /// How often it failed.
    ghost fault_count: { Self → ℕ };

    /// How often it failed, at most 2^64 - 1.
    fn faults(&self) -> u64
        ensures { result ≡ fault_count self.now };

    /// Replaces what `into` held by the file's bytes. `false` says that there is no such file, and
    /// `into` is then empty, as it is after a refusal.
    fn read(&mut self, name: &str, into: &mut Vec<u8>) -> Result<bool, ShelfFault>
        ensures bytes { IfOk result (λ found. ReadsFile (files self.old) name.now found into.new.items) }
        ensures refused { OnErr result (into.new.items ≡ []) }
        ensures kept { files self.new ≡ files self.old }
        ensures cause { HasCauseAt ShelfFault.Failed (fault_count self.old) (fault_count self.new) result };
}

/// Files in memory.
#[derive(Drop)]
pub struct MemShelf {
    files: Vec<(Text, Bytes)>,
    plan: FaultPlan,
}

impl Model for MemShelf {
    ghost use Rattle.ck_devices.specs.Memory.{ShelfState};

    ghost Value = { ShelfState };

    ghost view = { λ s. record { files = s.files.items; plan = s.plan } };
}

impl MemShelf {
    /// A shelf of these files, each a name with its bytes. Of two with one name the first is found.
    /// The reads whose numbers, from 1, are in `fails` fail.
    pub fn new(files: Vec<(Text, Bytes)>, fails: Vec<u64>) -> Self
        ensures { result ≡ record { files = files.items; plan = fresh fails.items } }
    {
        MemShelf {
            files,
            plan: FaultPlan::new(fails),
        }
    }
}

impl Shelf for MemShelf {
    ghost files = { λ s. Some s.files };

    ghost fault_count = { λ s. s.plan.failures.count };

    fn faults(&self) -> u64 {
        self.plan.faults()
    }

    fn read(&mut self, name: &str, into: &mut Vec<u8>) -> Result<bool, ShelfFault>
        ensures bytes { IfOk result (λ found. ReadsFile (Some self.old.files) name.now found into.new.items) }
        ensures refused { OnErr result (into.new.items ≡ []) }
        ensures kept { Some self.new.files ≡ Some self.old.files }
        ensures cause { HasCauseAt ShelfFault.Failed self.old.plan.failures.count self.new.plan.failures.count result }

        // What the trait leaves open.
        ensures listed { IsErrOf result ShelfFault.Failed ↔ IsTrue (fails_next self.old.plan) }
        ensures counted { self.new.plan ≡ counted self.old.plan (fails_next self.old.plan) }
    {
        into.clear();
        self.plan.start_call()?;
        match find_file(&self.files, name) {
            None => Ok(false),
            Some(bytes) => {
                into.extend_from_slice(bytes)?;
                Ok(true)
            }
        }
    }
}

// The bytes of the first file of that name.
fn find_file<'a>(files: &'a [(Text, Bytes)], name: &str) -> Option<&'a [u8]>
    ensures { option_map (λ b. b.now) result ≡ file files.now name.now }
{
    for (key, bytes) in files {
        if key.as_str() == name {
            return Some(bytes.as_slice());
        }
    }
    None
}
