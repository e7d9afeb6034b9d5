// The records of a zone with the links between them.
ghost use Rattle.std.specs.Prelude.{◌≡◌, ◌+◌, ℕ, List, [], fold, count_by, if◌then◌else◌, None, OnOk};
ghost use Rattle.std.specs.BTreeMap.{values};
ghost use Rattle.zone_model.specs.Records.{record_at, with_record, without};
ghost use Rattle.zone_model.specs.References.{goes_with};
ghost use Rattle.zone_model.specs.Zones.{after_write, puts_name};
ghost use Rattle.zone_records.specs.Next.{is_child};
ghost use Rattle.zone_commit.specs.Maps.{Relinked, count_at};
ghost use Rattle.zone_commit.specs.Kept.{AreLinked};

use crate::counts::{Counts, count_put};
use crate::links::{Links, set_fields, set_link};
use ck_base::{NoMemory, RecordName};
use record_model::{Record, copy_record};
use std::alloc::Global;
use std::collections::BTreeMap;
use zone_model::Write;

/// Records by name, and for each name the records below it and those that are to be deleted with it.
#[derive(Drop)]
pub(crate) struct Indexed {
    pub rows: BTreeMap<RecordName, Record>,
    pub children: Links,
    pub referrers: Links,
}

/// No records.
pub(crate) fn no_records(alloc: Global) -> Indexed
    ensures rows { values result.rows ≡ [] }
    ensures linked { AreLinked result.rows result.children result.referrers }
{
    Indexed {
        rows: BTreeMap::new(alloc),
        children: BTreeMap::new(alloc),
        referrers: BTreeMap::new(alloc),
    }
}

fn set_parent(
    alloc: Global,
    children: &mut Links,
    row: &Record,
    there: bool,
) -> Result<(), NoMemory>
    ensures { OnOk result (Relinked (λ x. is_child x row.now) there row.now.name children.old children.new) }
{
    match &row.parent {
        Some(parent) => set_link(alloc, children, parent, &row.name, there),
        None => Ok(()),
    }
}

fn set_referrer(
    alloc: Global,
    referrers: &mut Links,
    row: &Record,
    there: bool,
) -> Result<(), NoMemory>
    ensures { OnOk result (Relinked (λ x. goes_with x row.now) there row.now.name referrers.old referrers.new) }
{
    set_fields(alloc, referrers, row.fields.as_slice(), &row.name, there)
}

// Takes the record of the name out, if there is one.
fn take_row(alloc: Global, zone: &mut Indexed, name: &RecordName) -> Result<(), NoMemory>
    requires { AreLinked zone.old.rows zone.old.children zone.old.referrers }
    ensures linked { OnOk result (AreLinked zone.new.rows zone.new.children zone.new.referrers) }
    ensures rows { OnOk result (values zone.new.rows ≡ without (values zone.old.rows) name.now) }
{
    if let Some(row) = zone.rows.remove(name) {
        set_parent(alloc, &mut zone.children, &row, false)?;
        set_referrer(alloc, &mut zone.referrers, &row, false)?;
    }
    Ok(())
}

// Puts a record where none of its name is.
fn add_row(alloc: Global, zone: &mut Indexed, name: RecordName, row: Record) -> Result<(), NoMemory>
    requires linked { AreLinked zone.old.rows zone.old.children zone.old.referrers }
    requires named { name ≡ row.name }
    requires absent { record_at (values zone.old.rows) name ≡ None }
    ensures linked { OnOk result (AreLinked zone.new.rows zone.new.children zone.new.referrers) }
    ensures rows { OnOk result (values zone.new.rows ≡ with_record (values zone.old.rows) row) }
{
    set_parent(alloc, &mut zone.children, &row, true)?;
    set_referrer(alloc, &mut zone.referrers, &row, true)?;
    zone.rows.insert(name, row)?;
    Ok(())
}

fn put_row(alloc: Global, zone: &mut Indexed, row: Record) -> Result<(), NoMemory>
    requires { AreLinked zone.old.rows zone.old.children zone.old.referrers }
    ensures linked { OnOk result (AreLinked zone.new.rows zone.new.children zone.new.referrers) }
    ensures rows { OnOk result (values zone.new.rows ≡ with_record (values zone.old.rows) row) }
{
    let name = row.name.clone()?;
    take_row(alloc, zone, &name)?;
    add_row(alloc, zone, name, row)
}

fn write_one(
    alloc: Global,
    zone: &mut Indexed,
    counts: &mut Counts,
    write: &Write,
) -> Result<(), NoMemory>
    requires { AreLinked zone.old.rows zone.old.children zone.old.referrers }
    ensures linked { OnOk result (AreLinked zone.new.rows zone.new.children zone.new.referrers) }
    ensures rows { OnOk result (values zone.new.rows ≡ after_write (values zone.old.rows) write.now) }
    ensures counts { OnOk result ((x : List ℕ) → count_at counts.new x ≡ count_at counts.old x + (if puts_name x write.now then 1 else 0)) }
{
    match write {
        Write::Put(row) => {
            count_put(counts, &row.name)?;
            put_row(alloc, zone, copy_record(alloc, row)?)
        }
        Write::Remove(name) => take_row(alloc, zone, name),
        Write::PutRemove(name) => {
            count_put(counts, name)?;
            take_row(alloc, zone, name)
        }
    }
}

/// Writes into the records, and counts the puts.
pub(crate) fn write_all(
    alloc: Global,
    zone: &mut Indexed,
    counts: &mut Counts,
    writes: &[Write],
) -> Result<(), NoMemory>
    requires { AreLinked zone.old.rows zone.old.children zone.old.referrers }
    ensures linked { OnOk result (AreLinked zone.new.rows zone.new.children zone.new.referrers) }
    ensures rows { OnOk result (values zone.new.rows ≡ fold after_write (values zone.old.rows) writes.now) }
    ensures counts { OnOk result ((x : List ℕ) → count_at counts.new x ≡ count_at counts.old x + count_by (puts_name x) writes.now) }
{
    for write in writes {
        write_one(alloc, zone, counts, write)?;
    }
    Ok(())
}
