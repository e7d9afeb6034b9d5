// The JSON of what a record in a reply holds.
ghost use Rattle.std.specs.Prelude.{◌≡◌, ◌∷◌, IfOk, OnOk, map, decimal};
ghost use Rattle.serde_json.specs.Data.{string, object};
ghost use Rattle.serde_json.specs.View.{view, members_view};
ghost use Rattle.ck_records.specs.Objects.{put_all};
ghost use Rattle.ck_records.specs.Writing.{stamp_data, named_data, fields_members, user_named, wanted_members, entry_data, owner_data, permission_shown, participant_data, participants_data};

use crate::members::{put_text, text_object};
use crate::spellings::{kind_name, permission_name, status_name};
use crate::{Field, Stamp};
use ck_base::{Guid, NoMemory, RecordName, UserName};
use field_values::field_json;
use serde_json::{Map, Value as Json, json, put};
use share_records::{PartKind, Participant, Permission, Share};
use std::alloc::Global;
use std::str;

pub(crate) fn stamp_json(alloc: Global, stamp: &Stamp) -> Result<Json, NoMemory>
    ensures { IfOk result (λ json. view json ≡ stamp_data stamp.now) }
{
    let moment = stamp.moment;
    let user = stamp.user.as_str();
    Ok(json!(in alloc; {"timestamp": moment, "userRecordName": user})?)
}

pub(crate) fn name_json(alloc: Global, name: &RecordName) -> Result<Json, NoMemory>
    ensures { IfOk result (λ json. view json ≡ named_data name.now) }
{
    text_object(alloc, "recordName", name.as_str())
}

pub(crate) fn fields_json(
    alloc: Global,
    fields: &[Field],
    numbers_as_strings: bool,
) -> Result<Json, NoMemory>
    ensures { IfOk result (λ json.
        view json ≡ object (fields_members numbers_as_strings fields.now)) }
{
    let mut members = Map::new(alloc);
    for field in fields {
        let value = field_json(alloc, &field.1, numbers_as_strings)?;
        put(&mut members, alloc, field.0.as_str(), value)?;
    }
    Ok(Json::Object(members))
}

pub(crate) fn user_json(alloc: Global, user: &UserName) -> Result<Json, NoMemory>
    ensures { IfOk result (λ json. view json ≡ user_named user.now) }
{
    text_object(alloc, "userRecordName", user.as_str())
}

/// Adds whom an entry of a list of participants is for, and what they may do.
pub(crate) fn put_wanted(
    members: &mut Map<String, Json>,
    alloc: Global,
    permission: Permission,
    kind: &str,
    user: &UserName,
) -> Result<(), NoMemory>
    ensures { OnOk result (members_view members.new.entries
        ≡ put_all (wanted_members permission kind.now user.now) (members_view members.old.entries)) }
{
    put(members, alloc, "userIdentity", user_json(alloc, user)?)?;
    put_text(members, alloc, "type", kind)?;
    put_text(members, alloc, "permission", permission_name(permission))
}

fn entry_json(
    alloc: Global,
    accepted: bool,
    permission: Permission,
    kind: &str,
    user: &UserName,
) -> Result<Json, NoMemory>
    ensures { IfOk result (λ json.
        view json ≡ entry_data accepted permission kind.now user.now) }
{
    let mut members = Map::new(alloc);
    put_wanted(&mut members, alloc, permission, kind, user)?;
    put_text(
        &mut members,
        alloc,
        "acceptanceStatus",
        status_name(accepted),
    )?;
    Ok(Json::Object(members))
}

fn permission_shown(kind: PartKind, given: Permission, public: Permission) -> Permission
    ensures { result ≡ permission_shown kind given public }
{
    match kind {
        PartKind::Member => given,
        PartKind::Public => public,
    }
}

fn participant_json(
    alloc: Global,
    public: Permission,
    participant: &Participant,
) -> Result<Json, NoMemory>
    ensures { IfOk result (λ json. view json ≡ participant_data public participant.now) }
{
    let permission = permission_shown(participant.kind, participant.permission, public);
    let kind = kind_name(participant.kind);
    entry_json(
        alloc,
        participant.accepted,
        permission,
        kind,
        &participant.user,
    )
}

pub(crate) fn participants_json(
    alloc: Global,
    owner: &UserName,
    share: &Share,
) -> Result<Json, NoMemory>
    ensures { IfOk result (λ json. view json ≡ participants_data owner.now share.now) }
{
    let owner = entry_json(alloc, true, Permission::ReadWrite, "OWNER", owner)?;
    let list = list_json(alloc, owner, share.public, share.participants.as_slice())?;
    Ok(Json::Array(list))
}

fn list_json(
    alloc: Global,
    first: Json,
    public: Permission,
    participants: &[Participant],
) -> Result<Vec<Json>, NoMemory>
    ensures { IfOk result (λ list.
        map view list.items ≡ view first ∷ map (participant_data public) participants.now) }
{
    let mut list = Vec::new(alloc);
    list.push(first)?;
    for participant in participants {
        list.push(participant_json(alloc, public, participant)?)?;
    }
    Ok(list)
}

pub(crate) fn guid_json(alloc: Global, guid: &Guid) -> Result<Json, NoMemory>
    ensures { IfOk result (λ json. view json ≡ string guid.now) }
{
    let digits = str::from_utf8(guid.as_bytes()).unwrap();
    Ok(Json::try_from_str(alloc, digits)?)
}

pub(crate) fn tag_json(alloc: Global, tag: u64) -> Result<Json, NoMemory>
    ensures { IfOk result (λ json. view json ≡ string (decimal tag)) }
{
    Ok(Json::String(tag.to_string(alloc)?))
}
