// How many commits have put each name.
ghost use Rattle.std.specs.Prelude.{◌≡◌, ◌+◌, ℕ, List, OnOk, if◌then◌else◌};
ghost use Rattle.zone_model.specs.Names.{same};
ghost use Rattle.zone_commit.specs.Maps.{count_at};

use ck_base::{NoMemory, RecordName};
use std::collections::BTreeMap;

pub(crate) type Counts = BTreeMap<RecordName, u64>;

pub(crate) fn count_at(counts: &Counts, name: &RecordName) -> u64
    ensures { result ≡ count_at counts.now name.now }
{
    counts.get(name).copied().unwrap_or(0)
}

// Counts a put of the name. A count that would pass its 64 bits is want of memory.
pub(crate) fn count_put(counts: &mut Counts, name: &RecordName) -> Result<(), NoMemory>
    ensures { OnOk result ((x : List ℕ) → count_at counts.new x ≡ count_at counts.old x + (if same x name.now then 1 else 0)) }
{
    let count = count_at(counts, name);
    if count == u64::MAX {
        return Err(NoMemory);
    }
    counts.insert(name.clone()?, count + 1)?;
    Ok(())
}
