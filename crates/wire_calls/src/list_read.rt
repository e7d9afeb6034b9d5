// Reading the lists of replies, of entries of any kind.
ghost use Rattle.std.specs.Prelude.{◌≡◌, IfOk, map, length, option_map};
ghost use Rattle.serde_json.specs.Data.{Data};
ghost use Rattle.serde_json.specs.View.{view};
ghost use Rattle.wire_calls.specs.Found.{Finds, AreEntriesFor, has_one_member};
ghost use Rattle.wire_calls.specs.Lists.{list_data};
ghost use Rattle.wire_calls.specs.ReplyLists.{IsEntryFor, IsFirstWrong, IsListFor, IsBadList, Tells};

use crate::ReplyFault;
use ck_base::{Items, NoMemory};
use field_values::member;
use serde_json::Value as Json;
use std::alloc::Global;

/// What the entries of the list of a reply are read as: `A` is what is asked of each, `E` an entry.
pub(crate) trait EntryReader<A, E> {
    /// The entry has its form, and is one that is asked for.
    ghost is_asked: { Self → A → E → Type 0 };

    /// The JSON of an entry.
    ghost entry_data: { Self → E → Data };

    /// The entry that JSON is, where it is one that is asked for.
    fn read_entry(&self, alloc: Global, asked: &A, json: &Json) -> Result<Option<E>, NoMemory>
        ensures { IfOk result (Finds
            (IsEntryFor (is_asked self.now) (entry_data self.now) asked.now (view json.now))) };
}

fn has_one_member(json: &Json) -> bool
    ensures { result ≡ has_one_member (view json.now) }
{
    match json.as_object() {
        Some(members) => members.len() == 1,
        None => false,
    }
}

// The list of that name, where there is nothing more in the object.
fn listed<'a>(json: &'a Json, name: &str) -> Option<&'a [Json]>
    ensures { Finds (λ ds. list_data name.now ds ≡ view json.now)
        (option_map (λ items. map view items.now) result) }
{
    if !has_one_member(json) {
        return None;
    }
    match member(json, name).and_then(Json::as_array) {
        Some(items) => Some(items.as_slice()),
        None => None,
    }
}

fn read_entries<A, E: Drop, R: EntryReader<A, E>>(
    alloc: Global,
    reader: &R,
    asked: &[A],
    items: &[Json],
) -> Result<Items<E>, ReplyFault>
    requires { length items.now ≡ length asked.now }
    ensures { Tells
        (AreEntriesFor (R.is_asked reader.now) (R.entry_data reader.now) asked.now (map view items.now))
        (IsFirstWrong (R.is_asked reader.now) (R.entry_data reader.now) asked.now (map view items.now))
        result }
{
    let mut entries = Vec::new(alloc);
    for place in 0..items.len() {
        let entry = reader.read_entry(alloc, &asked[place], &items[place])?;
        match entry {
            Some(entry) => entries.push(entry)?,
            None => return Err(ReplyFault::BadReply(place as u64 + 1)),
        }
    }
    Ok(Items::from_vec(entries))
}

/// The entries of an object with a list of that name alone, one for each that is asked for, in order.
/// The error is `BadReply` with the number of the first wrong entry, counted from 1, or 0 where the
/// whole is wrong.
pub(crate) fn read_listed<A, E: Drop, R: EntryReader<A, E>>(
    alloc: Global,
    name: &str,
    reader: &R,
    asked: &[A],
    json: &Json,
) -> Result<Items<E>, ReplyFault>
    ensures { Tells
        (IsListFor (R.is_asked reader.now) (R.entry_data reader.now) name.now asked.now (view json.now))
        (IsBadList (R.is_asked reader.now) (R.entry_data reader.now) name.now asked.now (view json.now))
        result }
{
    let Some(items) = listed(json, name) else {
        return Err(ReplyFault::BadReply(0));
    };
    if items.len() != asked.len() {
        return Err(ReplyFault::BadReply(0));
    }
    read_entries(alloc, reader, asked, items)
}
