// Lists of zones in calls, and of what is to be done with zones.
ghost use Rattle.std.specs.Prelude.{◌≡◌, IfOk, IfSome, option_map};
ghost use Rattle.std.specs.List.{AllByRecursion};
ghost use Rattle.serde_json.specs.View.{view};
ghost use Rattle.ck_base.specs.Told.{IsToldUnless};
ghost use Rattle.field_values.specs.ZoneIds.{IsMeantZone};
ghost use Rattle.wire_calls.specs.Listings.{zone_of_member, zone_worked, zone_op_as, zones_at, zone_ops_at, changed_zones_at, IsMeantZoneOp, IsMeantChanged};

use crate::each::{Element, list_at};
use crate::members::{limit_at, text_at};
use crate::{BadCall, CallKey};
use ck_base::{Items, NoMemory, Text, UserName, ZoneKey, ZoneKeys};
use field_values::{member, zone_in};
use serde_json::Value as Json;
use std::alloc::Global;

/// An operation of a call that makes and removes zones, as "Modifying Zones" of the CloudKit Web
/// Services Reference has it.
#[derive(Debug, Drop)]
pub enum ZoneOp {
    Make(ZoneKey),
    Remove(ZoneKey),
}

/// A zone of a call for the changes of zones, as "Fetching Record Zone Changes" of the CloudKit Web
/// Services Reference has it.
#[derive(Debug, Drop)]
pub struct ChangedZone {
    pub zone: ZoneKey,
    /// Where the changes begin, at the first where there is no token.
    pub sync_token: Option<Text>,
    /// How many entries the zone's page may have, where the zone has a limit of its own.
    pub limit: Option<u64>,
}

impl Element<ZoneKey> for UserName {
    ghost use Rattle.field_values.specs.ZoneIds.{IsMeantZone};
    ghost use Rattle.wire_calls.specs.Listings.{zone_listed};

    ghost item_in = { zone_listed };

    ghost is_meant = { IsMeantZone };

    fn read(&self, alloc: Global, json: &Json) -> Result<Option<ZoneKey>, NoMemory> {
        match member(json, "zoneID") {
            Some(id) => zone_in(alloc, self, id),
            None => zone_in(alloc, self, json),
        }
    }
}

// The zone ID that an object has.
fn zone_of_member(
    alloc: Global,
    caller: &UserName,
    json: &Json,
) -> Result<Option<ZoneKey>, NoMemory>
    ensures key { IfOk result (λ key. key ≡ zone_of_member caller.now (view json.now)) }
    ensures meant { IfOk result (λ key. IfSome key (IsMeantZone caller.now)) }
{
    match member(json, "zoneID") {
        Some(id) => zone_in(alloc, caller, id),
        None => Ok(None),
    }
}

// The zone with which something is to be done.
fn zone_worked(alloc: Global, caller: &UserName, json: &Json) -> Result<Option<ZoneKey>, NoMemory>
    ensures key { IfOk result (λ key. key ≡ zone_worked caller.now (view json.now)) }
    ensures meant { IfOk result (λ key. IfSome key (IsMeantZone caller.now)) }
{
    match member(json, "zone") {
        Some(zone) => zone_of_member(alloc, caller, zone),
        None => Ok(None),
    }
}

// What an operation of this type does with a zone.
fn zone_op_as(kind: &str, zone: ZoneKey) -> Option<ZoneOp>
    ensures { result ≡ zone_op_as kind.now zone }
{
    match kind {
        "create" => Some(ZoneOp::Make(zone)),
        "delete" => Some(ZoneOp::Remove(zone)),
        _ => None,
    }
}

impl Element<ZoneOp> for UserName {
    ghost use Rattle.wire_calls.specs.Listings.{zone_op_in, IsMeantZoneOp};

    ghost item_in = { zone_op_in };

    ghost is_meant = { IsMeantZoneOp };

    fn read(&self, alloc: Global, json: &Json) -> Result<Option<ZoneOp>, NoMemory> {
        let Some(kind) = member(json, "operationType").and_then(Json::as_str) else {
            return Ok(None);
        };
        match zone_worked(alloc, self, json)? {
            Some(zone) => Ok(zone_op_as(kind, zone)),
            None => Ok(None),
        }
    }
}

impl Element<ChangedZone> for UserName {
    ghost use Rattle.wire_calls.specs.Listings.{changed_in, IsMeantChanged};

    ghost item_in = { changed_in };

    ghost is_meant = { IsMeantChanged };

    fn read(&self, alloc: Global, json: &Json) -> Result<Option<ChangedZone>, NoMemory> {
        let Some(zone) = zone_of_member(alloc, self, json)? else {
            return Ok(None);
        };
        let sync_token = match text_at(alloc, CallKey::SyncToken, member(json, "syncToken")) {
            Ok(token) => token,
            Err(BadCall::NoMemory) => return Err(NoMemory),
            Err(_) => return Ok(None),
        };
        match limit_at(member(json, "resultsLimit")) {
            Ok(limit) => Ok(Some(ChangedZone {
                zone,
                sync_token,
                limit,
            })),
            Err(_) => Ok(None),
        }
    }
}

/// The zones that a call lists as `zones`: a list of zone IDs, or of objects with a `zoneID`, of
/// which then nothing else is looked at. Anything else is `BadKey`. Its limit is that of
/// `CallList::Zones`.
pub fn zones_at(alloc: Global, caller: &UserName, json: Option<&Json>) -> Result<ZoneKeys, BadCall>
    ensures keys { IsToldUnless BadCall.NoMemory result
        (zones_at caller.now (option_map (λ v. view v.now) json.entry)) }
    ensures meant { IfOk result (AllByRecursion (IsMeantZone caller.now)) }
{
    list_at(alloc, CallKey::Zones, caller, json)
}

/// What a call does with zones by its `operations`: a list of objects with `operationType`, which is
/// `create` or `delete`, and a `zone` with a `zoneID`. Anything else is `BadKey`. Its limit is that of
/// `CallList::Operations`.
pub fn zone_ops_at(
    alloc: Global,
    caller: &UserName,
    json: Option<&Json>,
) -> Result<Items<ZoneOp>, BadCall>
    ensures ops { IsToldUnless BadCall.NoMemory result
        (zone_ops_at caller.now (option_map (λ v. view v.now) json.entry)) }
    ensures meant { IfOk result (AllByRecursion (IsMeantZoneOp caller.now)) }
{
    list_at(alloc, CallKey::Operations, caller, json)
}

/// The zones of whose changes a call asks by its `zones`: a list of objects with a `zoneID`, and
/// perhaps a text `syncToken` and a `resultsLimit` as `limit_at` has it. Anything else is `BadKey`.
/// Its limit is that of `CallList::ChangedZones`.
pub fn changed_zones_at(
    alloc: Global,
    caller: &UserName,
    json: Option<&Json>,
) -> Result<Items<ChangedZone>, BadCall>
    ensures zones { IsToldUnless BadCall.NoMemory result
        (changed_zones_at caller.now (option_map (λ v. view v.now) json.entry)) }
    ensures meant { IfOk result (AllByRecursion (IsMeantChanged caller.now)) }
{
    list_at(alloc, CallKey::Zones, caller, json)
}
