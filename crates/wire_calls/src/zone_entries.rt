// The lists of zones in replies, both ways.
ghost use Rattle.std.specs.Prelude.{◌≡◌, List, Ok, IfOk, string_bytes};
ghost use Rattle.serde_json.specs.View.{view};
ghost use Rattle.serde_json.specs.Written.{compact_text};
ghost use Rattle.ck_base.specs.Told.{IsToldUnless};
ghost use Rattle.zone_model.specs.Names.{same_key};
ghost use Rattle.wire_calls.specs.declared.zone_entries.ZoneEntry.{ZoneEntry};
ghost use Rattle.wire_calls.specs.Found.{Finds, IsThere, IsZoneOf};
ghost use Rattle.wire_calls.specs.ReplyLists.{IsListFor, IsBadList, Tells};
ghost use Rattle.wire_calls.specs.ZoneEntries.{zones_key, there_data, zone_entry_data, answers_zone, IsZoneAsked, zones_data, asked_by_op};

use crate::ReplyFault;
use crate::list_read::{EntryReader, read_listed};
use crate::list_write::{Entries, list_text};
use crate::thing::{Thing, failed_of, gone_of};
use crate::thing_read::{read_failed, read_gone};
use crate::zone_lists::ZoneOp;
use ck_base::known::DEFAULT_ZONE;
use ck_base::{Items, NoMemory, UserName, ZoneKey};
use error_replies::ServerError;
use field_values::{member, same_json, zone_in, zone_json};
use serde_json::{Value as Json, json};
use std::alloc::Global;

/// An entry of a list of zones, as "Zone Dictionary" of the CloudKit Web Services Reference has those that
/// are there.
#[derive(Debug, Drop)]
pub enum ZoneEntry {
    /// The zone is there.
    There(ZoneKey),
    /// It is there no more.
    Gone(ZoneKey),
    /// An error, and the zone that it is about.
    Failed { error: ServerError, zone: ZoneKey },
}

/// Entries for zones, in order.
pub type ZoneEntries = Items<ZoneEntry>;

/// What a call asks of an entry of its list of zones.
#[derive(Debug, Drop)]
pub struct AskedZone {
    pub zone: ZoneKey,
    /// The zone is to go.
    pub deletes: bool,
}

/// What an operation with a zone asks of the entry of its reply.
pub fn asked_by_op(op: &ZoneOp) -> Result<AskedZone, NoMemory>
    ensures { IfOk result (λ asked. asked ≡ asked_by_op op.now) }
{
    match op {
        ZoneOp::Make(zone) => Ok(AskedZone {
            zone: zone.clone()?,
            deletes: false,
        }),
        ZoneOp::Remove(zone) => Ok(AskedZone {
            zone: zone.clone()?,
            deletes: true,
        }),
    }
}

// A zone that is there. A default zone knows no requests that are done as one.
fn there_json(alloc: Global, zone: &ZoneKey) -> Result<Json, NoMemory>
    ensures { IfOk result (λ json. view json ≡ there_data zone.now) }
{
    let atomic = zone.zone.as_bytes() != DEFAULT_ZONE.as_bytes();
    let id = zone_json(alloc, zone)?;
    Ok(json!(in alloc; {"atomic": atomic, "zoneID": id})?)
}

fn zone_entry_json(alloc: Global, entry: &ZoneEntry) -> Result<Json, NoMemory>
    ensures { IfOk result (λ json. view json ≡ zone_entry_data entry.now) }
{
    match entry {
        ZoneEntry::There(zone) => there_json(alloc, zone),
        ZoneEntry::Gone(zone) => gone_of(alloc, Thing::Zone, zone_json(alloc, zone)?),
        ZoneEntry::Failed { error, zone } => {
            failed_of(alloc, Thing::Zone, *error, zone_json(alloc, zone)?)
        }
    }
}

impl Entries for Items<ZoneEntry> {
    ghost use Rattle.std.specs.Prelude.{map};
    ghost use Rattle.wire_calls.specs.ZoneEntries.{zone_entry_data};

    ghost told = { λ entries. map zone_entry_data entries };

    fn count(&self) -> usize {
        self.len()
    }

    fn take_json(&mut self, alloc: Global) -> Result<Json, NoMemory> {
        let entry = self.remove(0);
        zone_entry_json(alloc, &entry)
    }
}

/// The body of a reply with a list of zones, written entry by entry, each of which is dropped behind it.
/// It tells the list exactly. It fails only where memory runs out.
pub fn zones_text(alloc: Global, mut entries: ZoneEntries) -> Result<String, NoMemory>
    ensures { IfOk result (λ text.
        string_bytes text ≡ compact_text (zones_data entries)) }
{
    list_text(alloc, "zones", &mut entries)
}

fn read_there(alloc: Global, caller: &UserName, json: &Json) -> Result<Option<ZoneKey>, NoMemory>
    ensures { IfOk result (Finds (IsThere caller.now (view json.now))) }
{
    let Some(id) = member(json, "zoneID") else {
        return Ok(None);
    };
    let Some(zone) = zone_in(alloc, caller, id)? else {
        return Ok(None);
    };
    let written = there_json(alloc, &zone)?;
    if same_json(alloc, json, &written)? {
        Ok(Some(zone))
    } else {
        Ok(None)
    }
}

// The entry that JSON is, whatever is asked for.
fn read_zone(alloc: Global, caller: &UserName, json: &Json) -> Result<Option<ZoneEntry>, NoMemory>
    ensures { IfOk result (Finds (IsZoneOf caller.now (view json.now))) }
{
    if let Some(there) = read_there(alloc, caller, json)? {
        return Ok(Some(ZoneEntry::There(there)));
    }
    if let Some(gone) = read_gone(alloc, caller, json)? {
        return Ok(Some(ZoneEntry::Gone(gone)));
    }
    match read_failed(alloc, caller, json)? {
        Some((error, zone)) => Ok(Some(ZoneEntry::Failed { error, zone })),
        None => Ok(None),
    }
}

fn same_zone(one: &ZoneKey, other: &ZoneKey) -> bool
    ensures { result ≡ same_key one.now other.now }
{
    one.owner.as_bytes() == other.owner.as_bytes() && one.zone.as_bytes() == other.zone.as_bytes()
}

fn answers_zone(asked: &AskedZone, entry: &ZoneEntry) -> bool
    ensures { result ≡ answers_zone asked.now entry.now }
{
    match entry {
        ZoneEntry::There(zone) => !asked.deletes && same_zone(zone, &asked.zone),
        ZoneEntry::Gone(zone) => asked.deletes && same_zone(zone, &asked.zone),
        ZoneEntry::Failed { zone, .. } => same_zone(zone, &asked.zone),
    }
}

impl EntryReader<AskedZone, ZoneEntry> for UserName {
    ghost use Rattle.wire_calls.specs.ZoneEntries.{zone_entry_data, IsZoneAsked};

    ghost is_asked = { IsZoneAsked };

    ghost entry_data = { λ _. zone_entry_data };

    fn read_entry(
        &self,
        alloc: Global,
        asked: &AskedZone,
        json: &Json,
    ) -> Result<Option<ZoneEntry>, NoMemory> {
        let Some(entry) = read_zone(alloc, self, json)? else {
            return Ok(None);
        };
        if answers_zone(asked, &entry) {
            Ok(Some(entry))
        } else {
            Ok(None)
        }
    }
}

/// The entries of a reply to the caller with a list of zones, one for each that is asked for, in order,
/// about that zone; an entry that is no error says deleted just for a zone that is to go. The error is
/// `BadReply` with the number of the first wrong entry, counted from 1, or 0 where the whole is wrong.
pub fn read_zones(
    alloc: Global,
    caller: &UserName,
    asked: &[AskedZone],
    json: &Json,
) -> Result<ZoneEntries, ReplyFault>
    ensures told { Tells
        (IsListFor (IsZoneAsked caller.now) zone_entry_data zones_key asked.now (view json.now))
        (IsBadList (IsZoneAsked caller.now) zone_entry_data zones_key asked.now (view json.now))
        result }
    ensures only { (entries : List ZoneEntry)
        → IsListFor (IsZoneAsked caller.now) zone_entry_data zones_key asked.now (view json.now) entries
        → IsToldUnless ReplyFault.NoMemory result (Ok entries) }
{
    read_listed(alloc, "zones", caller, asked, json)
}
