// The record that was put last under a name.
ghost use Rattle.std.specs.Prelude.{◌≡◌, ◌++◌, fold, map, is_some, option_map, option_and_then, IfOk};
ghost use Rattle.std.specs.List.{AllByRecursion};
ghost use Rattle.zone_model.specs.Names.{same, same_key};
ghost use Rattle.zone_model.specs.Options.{or_else};
ghost use Rattle.zone_model.specs.Events.{commits_of, log_of};
ghost use Rattle.zone_model.specs.Records.{is_there};
ghost use Rattle.zone_model.specs.Zones.{zone_at};
ghost use Rattle.plain_creates.specs.OnePuts.{only_put, put_by, last_put, IsOnePut};

use ck_base::{Items, NoMemory, RecordName, ZoneKey};
use record_model::{Record, copy_record};
use std::alloc::Global;
use zone_model::{Act, Commit, Event, Write};

fn only_put(act: &Act) -> Option<&Record>
    ensures { option_map (λ r. r.now) result ≡ only_put act.now }
{
    match act {
        Act::Writes(writes) => match writes.as_slice() {
            [Write::Put(row)] => Some(row),
            _ => None,
        },
        _ => None,
    }
}

fn put_by<'a>(commit: &'a Commit, key: &ZoneKey, name: &RecordName) -> Option<&'a Record>
    ensures { option_map (λ r. r.now) result ≡ put_by key.now name.now commit.now }
{
    match only_put(&commit.act) {
        Some(row) if *key == commit.key && *name == row.name => Some(row),
        _ => None,
    }
}

// What was put last under the name, where `found` was put before the commits.
fn last_after<'a>(
    found: Option<&'a Record>,
    commits: &'a [Commit],
    key: &ZoneKey,
    name: &RecordName,
) -> Option<&'a Record>
    ensures { option_map (λ r. r.now) result ≡ fold (λ last c. or_else (put_by key.now name.now c) last) (option_map (λ r. r.now) found.entry) commits.now }
{
    let mut last = found;
    for commit in commits {
        last = put_by(commit, key, name).or(last);
    }
    last
}

fn commits_of(event: &Event) -> &[Commit]
    ensures { result.now ≡ commits_of event.now }
{
    match event {
        Event::Made { commits, .. } => commits.as_slice(),
        Event::StoreFailed { .. } => &[],
    }
}

// What the events put last under the name.
fn last_put<'a>(events: &'a [Event], key: &ZoneKey, name: &RecordName) -> Option<&'a Record>
    ensures { option_map (λ r. r.now) result ≡ last_put key.now name.now (log_of events.now) }
{
    let mut last = None;
    for event in events {
        last = last_after(last, commits_of(event), key, name);
    }
    last
}

/// Whether there is a record of that name in the zone after the events and the commits.
pub(crate) fn is_taken(
    events: &[Event],
    commits: &[Commit],
    key: &ZoneKey,
    name: &RecordName,
) -> bool
    requires { AllByRecursion IsOnePut (log_of events.now ++ commits.now) }
    ensures { result ≡ is_there (zone_at (log_of events.now ++ commits.now) key.now).rows name.now }
{
    let earlier = last_put(events, key, name);
    last_after(earlier, commits, key, name).is_some()
}

fn copy_found(alloc: Global, found: Option<&Record>) -> Result<Option<Record>, NoMemory>
    ensures { IfOk result (λ copy. copy ≡ option_map (λ r. r.now) found.entry) }
{
    match found {
        Some(row) => Ok(Some(copy_record(alloc, row)?)),
        None => Ok(None),
    }
}

/// For each name what the events put last under it.
pub(crate) fn find_records(
    alloc: Global,
    events: &[Event],
    key: &ZoneKey,
    names: &[RecordName],
) -> Result<Items<Option<Record>>, NoMemory>
    ensures { IfOk result (λ found. found ≡ map (λ x. last_put key.now x (log_of events.now)) names.now) }
{
    let mut found = Vec::new(alloc);
    for name in names {
        found.push(copy_found(alloc, last_put(events, key, name))?)?;
    }
    Ok(Items::from_vec(found))
}
