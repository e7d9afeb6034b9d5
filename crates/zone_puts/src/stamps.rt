// Tags and stamps of the records that a commit writes, and its writes.
ghost use Rattle.std.specs.Prelude.{◌≡◌, ◌<◌, ◌-◌, ◌^◌, List, ℕ, IfOk, if◌then◌else◌};
ghost use Rattle.zone_model.specs.Effect.{Request, stamped, is_unmarked, final, write_as};
ghost use Rattle.zone_puts.specs.Stamping.{IsToldOf, left_marked};

use crate::records::copy_stamp;
use ck_base::NoMemory;
use record_model::{Record, Stamp};
use zone_model::Write;

// The stamp of the put that began the record.
fn first_stamp(old: Stamp, there: bool, stamp: &Stamp) -> Result<Stamp, NoMemory>
    ensures { IfOk result (λ created. created ≡ (if there then old else stamp.now)) }
{
    if there { Ok(old) } else { copy_stamp(stamp) }
}

/// The record with the tag and the stamps that a commit gives it, where commits have put its name so
/// often before, the zone has a record of the name or not, and the commit has this stamp. It fails
/// only where memory runs out.
#[tactic(auto, using(crate::proofs::StampLemmas::stamped_as))]
pub fn stamped(row: Record, puts: u64, there: bool, stamp: &Stamp) -> Result<Record, NoMemory>
    requires { puts < 2 ^ 64 - 1 }
    ensures { IfOk result (λ after. (q : Request) → IsToldOf q row.name puts there stamp.now → after ≡ stamped q row) }
{
    let created = first_stamp(row.created, there, stamp)?;
    let modified = copy_stamp(stamp)?;
    Ok(Record {
        name: row.name,
        rtype: row.rtype,
        tag: puts + 1,
        parent: row.parent,
        share: row.share,
        fields: row.fields,
        created,
        modified,
        body: row.body,
    })
}

// The record, without the name of its share where that goes.
fn left_marked(row: Record, unmarked: bool) -> Record
    ensures { result ≡ left_marked unmarked row }
{
    if unmarked {
        Record { share: None, ..row }
    } else {
        row
    }
}

/// The record as a commit writes it: with its tag and its stamps as `stamped` has them, and without
/// its share where that goes. It fails only where memory runs out.
pub fn final_record(
    row: Record,
    puts: u64,
    there: bool,
    stamp: &Stamp,
    unmarked: bool,
) -> Result<Record, NoMemory>
    requires { puts < 2 ^ 64 - 1 }
    ensures { IfOk result (λ after. (q : Request) (gone : List (List ℕ)) → IsToldOf q row.name puts there stamp.now → is_unmarked q gone row ≡ unmarked → after ≡ final q gone row) }
{
    let stamped_row = stamped(row, puts, there, stamp)?;
    let after = left_marked(stamped_row, unmarked);
    Ok(after)
}

/// The write of a record, by whether it is removed and whether it is written, if there is one.
pub fn write_as(removed: bool, written: bool, row: Record) -> Option<Write>
    ensures { result ≡ write_as removed written row }
{
    match (removed, written) {
        (true, true) => Some(Write::PutRemove(row.name)),
        (true, false) => Some(Write::Remove(row.name)),
        (false, true) => Some(Write::Put(row)),
        (false, false) => None,
    }
}
