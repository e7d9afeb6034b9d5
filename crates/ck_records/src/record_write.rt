// The JSON of a record in a reply, row by row.
ghost use Rattle.std.specs.Prelude.{◌≡◌, Some, IfOk, OnOk, codes, decimal, option_map};
ghost use Rattle.serde_json.specs.Data.{string, object};
ghost use Rattle.serde_json.specs.View.{view, members_view};
ghost use Rattle.share_records.specs.declared.share.Share.{Share as ShareOf};
ghost use Rattle.ck_records.specs.Objects.{put_some, put_all};
ghost use Rattle.ck_records.specs.Spellings.{permission_name};
ghost use Rattle.record_model.specs.RecordForms.{share_in};
ghost use Rattle.ck_records.specs.Writing.{stamp_data, named_data, participants_data, first_members, middle_members, last_members, record_data};

use crate::members::put_text;
use crate::spellings::permission_name;
use crate::write::{fields_json, guid_json, name_json, participants_json, stamp_json, tag_json};
use crate::{Body, Record, Stamp};
use ck_base::{NoMemory, RecordName, UserName};
use serde_json::{Map, Value as Json, put};
use std::alloc::Global;

fn put_named(
    members: &mut Map<String, Json>,
    alloc: Global,
    name: &str,
    other: &Option<RecordName>,
) -> Result<(), NoMemory>
    ensures { OnOk result (members_view members.new.entries
        ≡ put_some name.now (option_map named_data other.now) (members_view members.old.entries)) }
{
    if let Some(other) = other {
        put(members, alloc, name, name_json(alloc, other)?)?;
    }
    Ok(())
}

fn put_stamp(
    members: &mut Map<String, Json>,
    alloc: Global,
    name: &str,
    stamp: &Stamp,
) -> Result<(), NoMemory>
    ensures { OnOk result (members_view members.new.entries
        ≡ put_some name.now (Some (stamp_data stamp.now)) (members_view members.old.entries)) }
{
    put(members, alloc, name, stamp_json(alloc, stamp)?)?;
    Ok(())
}

fn put_root(members: &mut Map<String, Json>, alloc: Global, body: &Body) -> Result<(), NoMemory>
    ensures { OnOk result (members_view members.new.entries
        ≡ put_some (codes "forRecord") (option_map (λ (s : ShareOf). named_data s.root) (share_in body.now))
        (members_view members.old.entries)) }
{
    if let Body::Share(share) = body {
        put(members, alloc, "forRecord", name_json(alloc, &share.root)?)?;
    }
    Ok(())
}

fn put_participants(
    members: &mut Map<String, Json>,
    alloc: Global,
    owner: &UserName,
    body: &Body,
) -> Result<(), NoMemory>
    ensures { OnOk result (members_view members.new.entries
        ≡ put_some (codes "participants") (option_map (participants_data owner.now) (share_in body.now))
        (members_view members.old.entries)) }
{
    if let Body::Share(share) = body {
        let list = participants_json(alloc, owner, share)?;
        put(members, alloc, "participants", list)?;
    }
    Ok(())
}

fn put_public(members: &mut Map<String, Json>, alloc: Global, body: &Body) -> Result<(), NoMemory>
    ensures { OnOk result (members_view members.new.entries
        ≡ put_some (codes "publicPermission") (option_map (λ (s : ShareOf). string (permission_name s.public)) (share_in body.now))
        (members_view members.old.entries)) }
{
    if let Body::Share(share) = body {
        put_text(
            members,
            alloc,
            "publicPermission",
            permission_name(share.public),
        )?;
    }
    Ok(())
}

fn put_guid(members: &mut Map<String, Json>, alloc: Global, body: &Body) -> Result<(), NoMemory>
    ensures { OnOk result (members_view members.new.entries
        ≡ put_some (codes "shortGUID") (option_map (λ (s : ShareOf). string s.guid) (share_in body.now))
        (members_view members.old.entries)) }
{
    if let Body::Share(share) = body {
        put(members, alloc, "shortGUID", guid_json(alloc, &share.guid)?)?;
    }
    Ok(())
}

fn put_last(members: &mut Map<String, Json>, alloc: Global, record: &Record) -> Result<(), NoMemory>
    ensures { OnOk result (members_view members.new.entries
        ≡ put_all (last_members «record».now) (members_view members.old.entries)) }
{
    put_guid(members, alloc, &record.body)?;
    put_named(members, alloc, "share", &record.share)?;
    put_text(members, alloc, "recordType", record.rtype.as_str())?;
    put_text(members, alloc, "recordName", record.name.as_str())
}

fn put_middle(
    members: &mut Map<String, Json>,
    alloc: Global,
    record: &Record,
    owner: &UserName,
) -> Result<(), NoMemory>
    ensures { OnOk result (members_view members.new.entries
        ≡ put_all (middle_members owner.now «record».now) (members_view members.old.entries)) }
{
    put(
        members,
        alloc,
        "recordChangeTag",
        tag_json(alloc, record.tag)?,
    )?;
    put_public(members, alloc, &record.body)?;
    put_participants(members, alloc, owner, &record.body)?;
    put_named(members, alloc, "parent", &record.parent)
}

fn put_first(
    members: &mut Map<String, Json>,
    alloc: Global,
    record: &Record,
    numbers_as_strings: bool,
) -> Result<(), NoMemory>
    ensures { OnOk result (members_view members.new.entries
        ≡ put_all (first_members numbers_as_strings «record».now) (members_view members.old.entries)) }
{
    put_stamp(members, alloc, "modified", &record.modified)?;
    put_root(members, alloc, &record.body)?;
    let fields = fields_json(alloc, record.fields.as_slice(), numbers_as_strings)?;
    put(members, alloc, "fields", fields)?;
    put_stamp(members, alloc, "created", &record.created)
}

/// The JSON of a record as replies have it, by "Record Dictionary" of the CloudKit Web Services
/// Reference: `created`, `fields`, `modified`, `recordChangeTag`, `recordName` and `recordType`;
/// `parent` and `share` where there is one; and where the record is a share its root as
/// `forRecord`, `participants` with the owner of the zone first, `publicPermission` and
/// `shortGUID`. Whole numbers are written as numbers, or as texts where `numbers_as_strings` is
/// true. It fails only where memory runs out.
pub fn record_json(
    alloc: Global,
    record: &Record,
    owner: &UserName,
    numbers_as_strings: bool,
) -> Result<Json, NoMemory>
    ensures { IfOk result (λ json.
        view json ≡ record_data owner.now numbers_as_strings «record».now) }
{
    let mut members = Map::new(alloc);
    put_last(&mut members, alloc, record)?;
    put_middle(&mut members, alloc, record, owner)?;
    put_first(&mut members, alloc, record, numbers_as_strings)?;
    Ok(Json::Object(members))
}
