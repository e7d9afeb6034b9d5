// Records without the fields that nobody asked for. The names that are asked for stand in a set, so
// that a record of n fields that is cut by k names takes some (n + k) log k comparisons of names.
ghost use Rattle.std.specs.Prelude.{◌≡◌, ℕ, List, IfOk, filter};
ghost use Rattle.std.specs.List.{list_any};
ghost use Rattle.std.specs.Str.{bytes_eq};
ghost use Rattle.record_model.specs.Cutting.{has_name, is_among, cut};

use crate::record_copies::{copy_body, copy_field, copy_name, copy_stamp};
use crate::{Field, Fields, Record};
use ck_base::{Items, NoMemory, RecordName};
use std::alloc::Global;
use std::collections::BTreeSet;

/// A copy of the record that has only those of its fields that are named, as `desiredKeys` of
/// "Fetching Records Using a Query" in the CloudKit Web Services Reference wants it. All else of
/// the record stays. It fails only where memory runs out.
#[tactic(auto, using(crate::proofs::NameSetLemmas::cut_by_set))]
pub fn cut(alloc: Global, record: &Record, keys: &[RecordName]) -> Result<Record, NoMemory>
    ensures { IfOk result (λ kept. kept ≡ cut keys.now «record».now) }
{
    let names = name_set(alloc, keys)?;
    Ok(Record {
        name: record.name.clone()?,
        rtype: record.rtype.clone()?,
        tag: record.tag,
        parent: copy_name(&record.parent)?,
        share: copy_name(&record.share)?,
        fields: cut_fields(alloc, record.fields.as_slice(), &names)?,
        created: copy_stamp(&record.created)?,
        modified: copy_stamp(&record.modified)?,
        body: copy_body(alloc, &record.body)?,
    })
}

fn name_set(alloc: Global, keys: &[RecordName]) -> Result<BTreeSet<&str>, NoMemory>
    ensures { IfOk result (λ names. (x : List ℕ)
        → has_name names x ≡ list_any (λ key. bytes_eq key x) keys.now) }
{
    let mut names = BTreeSet::new(alloc);
    for key in keys {
        names.insert(key.as_str())?;
    }
    Ok(names)
}

fn is_among(names: &BTreeSet<&str>, field: &Field) -> bool
    ensures { result ≡ is_among names.now field.now }
{
    names.contains(field.0.as_str())
}

fn cut_fields(alloc: Global, fields: &[Field], names: &BTreeSet<&str>) -> Result<Fields, NoMemory>
    ensures { IfOk result (λ kept. kept ≡ filter (is_among names.now) fields.now) }
{
    let mut kept = Vec::new(alloc);
    for field in fields {
        if is_among(names, field) {
            kept.push(copy_field(alloc, field)?)?;
        }
    }
    Ok(Items::from_vec(kept))
}
