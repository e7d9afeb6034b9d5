// Reading a record of a request.
ghost use Rattle.std.specs.Prelude.{◌≡◌, IfOk, IfSome, IsUtf8, option_map, option_and_then, codes};
ghost use Rattle.serde_json.specs.View.{view};
ghost use Rattle.serde_json.specs.Find.{get, as_str};
ghost use Rattle.ck_base.specs.Told.{IsToldUnless};
ghost use Rattle.field_values.specs.Members.{unless_null as unless_none};
ghost use Rattle.ck_records.specs.Spellings.{permission_named as named};
ghost use Rattle.ck_records.specs.Reading.{tag_at, parent_of, parent_at, tag_in, root_at, public_at, is_object, draft_of};
ghost use Rattle.record_model.specs.DraftForms.{IsParentWish, IsForRoot, IsMeantDraft};

use crate::draft_fields::read_fields;
use crate::names::read_name;
use crate::participants::read_participants;
use crate::spellings::permission_named;
use crate::{Draft, ForRoot, ParentWish, RecordFault, RecordKey};
use ck_base::{Text, UserName, ZoneKey};
use field_values::{member, name_in, unless_null};
use serde_json::Value as Json;
use share_records::Permission;
use std::alloc::Global;

/// The record that JSON is in a request, as "Record Dictionary" of the CloudKit Web Services
/// Reference has it, where `caller` writes it into the zone `here`. Each member may be absent, and
/// null is as absent, but for `parent`. Members that are not known are not looked at. The error is
/// `NotARecord` where it is no object, else the first fault in the order in which `RecordKey` lists
/// the members. An entry of `participants` of type `OWNER` is passed over.
pub fn read_record(
    alloc: Global,
    json: &Json,
    here: &ZoneKey,
    caller: &UserName,
) -> Result<Draft, RecordFault>
    ensures draft { IsToldUnless RecordFault.NoMemory result
        (draft_of here.now caller.now (view json.now)) }
    ensures meant { IfOk result IsMeantDraft }
{
    if !json.is_object() {
        return Err(RecordFault::NotARecord);
    }
    let name = read_name(alloc, RecordKey::RecordName, member(json, "recordName"))?;
    let rtype = read_name(alloc, RecordKey::RecordType, member(json, "recordType"))?;
    let tag = read_tag(alloc, member(json, "recordChangeTag"))?;
    let parent = read_parent(alloc, json.get("parent"))?;
    let for_root = read_root(alloc, member(json, "forRecord"))?;
    let public = read_public(member(json, "publicPermission"))?;
    let participants = read_participants(alloc, member(json, "participants"))?;
    let fields = read_fields(alloc, member(json, "fields"), here, caller)?;
    Ok(Draft {
        name,
        rtype,
        tag,
        parent,
        fields,
        for_root,
        public,
        participants,
    })
}

fn read_tag(alloc: Global, json: Option<&Json>) -> Result<Option<Text>, RecordFault>
    ensures tag { IsToldUnless RecordFault.NoMemory result
        (tag_at (option_map (λ v. view v.now) json.entry)) }
    ensures meant { IfOk result (λ tag. IfSome tag IsUtf8) }
{
    match json {
        Some(Json::String(text)) => Ok(Some(Text::from_str(alloc, text.as_str())?)),
        Some(_) => Err(RecordFault::BadKey(RecordKey::RecordChangeTag)),
        None => Ok(None),
    }
}

fn parent_of(alloc: Global, json: Option<&Json>) -> Result<ParentWish, RecordFault>
    ensures parent { IsToldUnless RecordFault.NoMemory result
        (parent_of (option_map (λ v. view v.now) json.entry)) }
    ensures meant { IfOk result IsParentWish }
{
    let Some(json) = json else {
        return Ok(ParentWish::Null);
    };
    match name_in(alloc, member(json, "recordName"))? {
        Some(name) => Ok(ParentWish::To(name)),
        None => Err(RecordFault::BadKey(RecordKey::Parent)),
    }
}

fn read_parent(alloc: Global, json: Option<&Json>) -> Result<ParentWish, RecordFault>
    ensures parent { IsToldUnless RecordFault.NoMemory result
        (parent_at (option_map (λ v. view v.now) json.entry)) }
    ensures meant { IfOk result IsParentWish }
{
    match json {
        Some(json) => parent_of(alloc, unless_null(json)),
        None => Ok(ParentWish::Absent),
    }
}

fn read_root(alloc: Global, json: Option<&Json>) -> Result<Option<ForRoot>, RecordFault>
    ensures root { IsToldUnless RecordFault.NoMemory result
        (root_at (option_map (λ v. view v.now) json.entry)) }
    ensures meant { IfOk result (λ root. IfSome root IsForRoot) }
{
    let Some(json) = json else {
        return Ok(None);
    };
    let Some(name) = name_in(alloc, member(json, "recordName"))? else {
        return Err(RecordFault::BadKey(RecordKey::ForRecord));
    };
    match member(json, "recordChangeTag") {
        Some(Json::String(tag)) => {
            let tag = Some(Text::from_str(alloc, tag.as_str())?);
            Ok(Some(ForRoot { name, tag }))
        }
        Some(_) => Err(RecordFault::BadKey(RecordKey::ForRecord)),
        None => Ok(Some(ForRoot { name, tag: None })),
    }
}

fn read_public(json: Option<&Json>) -> Result<Option<Permission>, RecordFault>
    ensures { result ≡ public_at (option_map (λ v. view v.now) json.entry) }
{
    let Some(json) = json else {
        return Ok(None);
    };
    match json.as_str().and_then(permission_named) {
        Some(permission) => Ok(Some(permission)),
        None => Err(RecordFault::BadKey(RecordKey::PublicPermission)),
    }
}
