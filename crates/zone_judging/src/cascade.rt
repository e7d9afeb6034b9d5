// Which names go with those that deletions take.
ghost use Rattle.std.specs.Prelude.{◌≡◌, ◌&&◌, ◌<◌, ℕ, List, length, get_or, not, IfOk, option_map, option_and_then};
ghost use Rattle.std.specs.List.{list_any};
ghost use Rattle.zone_model.specs.Names.{same, is_in};
ghost use Rattle.zone_model.specs.Records.{record_at, is_there, IsAscending};
ghost use Rattle.zone_model.specs.Working.{is_share_of};
ghost use Rattle.zone_model.specs.Cascade.{IsLeast};
ghost use Rattle.zone_judging.specs.Sights.{marked};
ghost use Rattle.zone_judging.specs.Ties.{is_tied};
ghost use Rattle.zone_judging.specs.Removal.{AreWhole, goes_along, goes_below, goes_first, goes_as_share, with_last, with_untaken, IsGrown, HasJoined, IsSpread};

use crate::{Sees, Tie};
use ck_base::{NoMemory, RecordName};
use record_model::{Body, Record};
use std::alloc::Global;

fn is_among(names: &[RecordName], name: &RecordName) -> bool
    ensures { result ≡ is_in names.now name.now }
{
    names.iter().any(|known| *name == *known)
}

#[tactic(auto, using(crate::proofs::SeenLemmas::seen_there))]
fn is_there<V: Sees>(zone: &V, name: &RecordName) -> bool
    ensures { result ≡ is_there (V.rows zone.now) name.now }
{
    zone.record_at(name).is_some()
}

// Puts the name behind the others, if it is not there yet.
fn add(names: &mut Vec<RecordName>, name: &RecordName) -> Result<(), NoMemory>
    ensures { IfOk result (λ _. names.new.items ≡ with_last names.old.items name.now) }
{
    if is_among(names, name) {
        return Ok(());
    }
    let copy = name.clone()?;
    names.push(copy)?;
    Ok(())
}

// The same, unless a deletion takes the name.
fn add_untaken(
    names: &mut Vec<RecordName>,
    taken: &[RecordName],
    name: &RecordName,
) -> Result<(), NoMemory>
    ensures { IfOk result (λ _. names.new.items ≡ with_untaken taken.now names.old.items name.now) }
{
    if is_among(taken, name) {
        return Ok(());
    }
    add(names, name)
}

fn name_at(names: &[RecordName], at: usize) -> Result<RecordName, NoMemory>
    requires { at < length names.now }
    ensures { IfOk result (λ name. name ≡ get_or names.now at name) }
{
    Ok(names[at].clone()?)
}

// Adds the names of the records that are tied to the name so, but for those that deletions take.
#[tactic(auto, using(crate::proofs::StepLemmas::step_smaller))]
fn add_tied<V: Sees>(
    zone: &V,
    tie: Tie,
    name: &RecordName,
    taken: &[RecordName],
    names: &mut Vec<RecordName>,
) -> Result<(), NoMemory>
    requires { IsAscending (V.rows zone.now) }
    ensures { IfOk result (λ _. IsGrown (V.rows zone.now) (λ r. is_tied tie name.now r && not (is_in taken.now r.name)) names.old.items names.new.items) }
{
    let mut after = None;
    while let Some(row) = zone.next_tied(tie, name, after) {
        add_untaken(names, taken, &row.name)?;
        after = Some(&row.name);
    }
    Ok(())
}

// The record that a root names as its share.
fn share_named<'z, V: Sees>(zone: &'z V, root: &RecordName) -> Option<&'z Record>
    ensures { option_map (λ r. r.now) result ≡ option_and_then (record_at (V.rows zone.now)) (marked (V.rows zone.now) root.now) }
{
    let Some(row) = zone.record_at(root) else {
        return None;
    };
    match &row.share {
        Some(mark) => zone.record_at(mark),
        None => None,
    }
}

fn is_share_of(row: &Record, root: &RecordName) -> bool
    ensures { result ≡ is_share_of root.now row.now }
{
    match &row.body {
        Body::Plain => false,
        Body::Share(share) => *root == share.root,
    }
}

fn goes_as_share(row: &Record, root: &RecordName, taken: &[RecordName]) -> bool
    ensures { result ≡ goes_as_share taken.now root.now row.now }
{
    !is_among(taken, &row.name) && is_share_of(row, root)
}

// Adds the name of the share of a root, unless a deletion takes it.
#[tactic(auto, using(crate::proofs::ShareLemmas::share_none, crate::proofs::ShareLemmas::share_left, crate::proofs::ShareLemmas::share_gone))]
fn add_share<V: Sees>(
    zone: &V,
    root: &RecordName,
    taken: &[RecordName],
    names: &mut Vec<RecordName>,
) -> Result<(), NoMemory>
    requires { AreWhole (V.rows zone.now) taken.now }
    ensures { IfOk result (λ _. IsGrown (V.rows zone.now) (goes_as_share taken.now root.now) names.old.items names.new.items) }
{
    let Some(row) = share_named(zone, root) else {
        return Ok(());
    };
    if goes_as_share(row, root, taken) {
        add(names, &row.name)
    } else {
        Ok(())
    }
}

// Adds the names of the records that go with a removed one.
fn add_along<V: Sees>(
    zone: &V,
    name: &RecordName,
    taken: &[RecordName],
    names: &mut Vec<RecordName>,
) -> Result<(), NoMemory>
    requires { AreWhole (V.rows zone.now) taken.now }
    ensures { IfOk result (λ _. IsGrown (V.rows zone.now) (goes_along taken.now name.now) names.old.items names.new.items) }
{
    add_tied(zone, Tie::GoesWith, name, taken, names)?;
    add_share(zone, name, taken, names)
}

// Adds the names of its children too.
fn add_below<V: Sees>(
    zone: &V,
    name: &RecordName,
    taken: &[RecordName],
    names: &mut Vec<RecordName>,
) -> Result<(), NoMemory>
    requires { AreWhole (V.rows zone.now) taken.now }
    ensures { IfOk result (λ _. IsGrown (V.rows zone.now) (goes_below taken.now name.now) names.old.items names.new.items) }
{
    add_tied(zone, Tie::Child, name, &[], names)?;
    add_along(zone, name, taken, names)
}

// Adds the names of the records that go with a name which a deletion takes, where it is there.
fn add_first<V: Sees>(
    zone: &V,
    name: &RecordName,
    taken: &[RecordName],
    names: &mut Vec<RecordName>,
) -> Result<(), NoMemory>
    requires { AreWhole (V.rows zone.now) taken.now }
    ensures { IfOk result (λ _. HasJoined (λ y. goes_first (V.rows zone.now) taken.now y name.now) names.old.items names.new.items) }
{
    if is_there(zone, name) {
        add_along(zone, name, taken, names)
    } else {
        Ok(())
    }
}

// The names of the records that go with those which deletions take.
fn first_names<V: Sees>(
    alloc: Global,
    zone: &V,
    taken: &[RecordName],
) -> Result<Vec<RecordName>, NoMemory>
    requires { AreWhole (V.rows zone.now) taken.now }
    ensures { IfOk result (λ names. (y : List ℕ) → is_in names.items y ≡ list_any (goes_first (V.rows zone.now) taken.now y) taken.now) }
{
    let mut names = Vec::new(alloc);
    for name in taken {
        add_first(zone, name, taken, &mut names)?;
    }
    Ok(names)
}

// Adds all names that go below these.
fn spread<V: Sees>(
    zone: &V,
    taken: &[RecordName],
    names: &mut Vec<RecordName>,
) -> Result<(), NoMemory>
    requires { AreWhole (V.rows zone.now) taken.now }
    ensures { IfOk result (λ _. IsSpread (V.rows zone.now) taken.now names.old.items names.new.items) }
{
    let mut at = 0;
    while at < names.len() {
        let name = name_at(names, at)?;
        add_below(zone, &name, taken, names)?;
        at += 1;
    }
    Ok(())
}

// Adds the name where it is there.
fn add_there<V: Sees>(
    zone: &V,
    name: &RecordName,
    names: &mut Vec<RecordName>,
) -> Result<(), NoMemory>
    ensures { IfOk result (λ _. HasJoined (λ y. is_there (V.rows zone.now) name.now && same y name.now) names.old.items names.new.items) }
{
    if is_there(zone, name) {
        add(names, name)
    } else {
        Ok(())
    }
}

// Adds the names that deletions take, where they are there.
fn add_taken<V: Sees>(
    zone: &V,
    taken: &[RecordName],
    names: &mut Vec<RecordName>,
) -> Result<(), NoMemory>
    ensures { IfOk result (λ _. HasJoined (λ y. is_there (V.rows zone.now) y && is_in taken.now y) names.old.items names.new.items) }
{
    for name in taken {
        add_there(zone, name, names)?;
    }
    Ok(())
}

/// The names that go where deletions take these: with each of them the records that are to be deleted
/// with it, all that stands below a name which goes and which no deletion takes, and the share of each
/// root that goes. It is the least set that is closed under these rules. It fails only where memory
/// runs out.
pub fn removed_names<V: Sees>(
    alloc: Global,
    zone: &V,
    taken: &[RecordName],
) -> Result<Vec<RecordName>, NoMemory>
    requires { AreWhole (V.rows zone.now) taken.now }
    ensures { IfOk result (λ names. IsLeast (V.rows zone.now) taken.now names.items) }
{
    let mut names = first_names(alloc, zone, taken)?;
    spread(zone, taken, &mut names)?;
    add_taken(zone, taken, &mut names)?;
    Ok(names)
}
