// The JSON of a draft.
ghost use Rattle.std.specs.Prelude.{◌≡◌, IfOk, OnOk, map, option_map};
ghost use Rattle.serde_json.specs.Data.{string, object};
ghost use Rattle.serde_json.specs.View.{view, members_view};
ghost use Rattle.ck_records.specs.Objects.{put_all};
ghost use Rattle.ck_records.specs.DraftWriting.{wish_data, wishes_members, wishes_data, parent_data, root_data, wanted_data, wanted_list_data, public_data, first_members, last_members, draft_data};

use crate::members::{put_some, text_object};
use crate::spellings::{kind_name, permission_name};
use crate::write::{name_json, put_wanted};
use crate::{Draft, ForRoot, ParentWish, WantedList, Wish};
use ck_base::{NoMemory, RecordName, Text};
use field_values::{Value, field_json};
use serde_json::{Map, Value as Json, json, put};
use share_records::{Permission, Wanted};
use std::alloc::Global;

fn name_text(alloc: Global, name: &Option<RecordName>) -> Result<Option<Json>, NoMemory>
    ensures { IfOk result (λ json. option_map view json ≡ option_map string name.now) }
{
    match name {
        Some(name) => Ok(Some(Json::try_from_str(alloc, name.as_str())?)),
        None => Ok(None),
    }
}

fn text_json(alloc: Global, text: &Option<Text>) -> Result<Option<Json>, NoMemory>
    ensures { IfOk result (λ json. option_map view json ≡ option_map string text.now) }
{
    match text {
        Some(text) => Ok(Some(Json::try_from_str(alloc, text.as_str())?)),
        None => Ok(None),
    }
}

fn parent_json(alloc: Global, parent: &ParentWish) -> Result<Option<Json>, NoMemory>
    ensures { IfOk result (λ json. option_map view json ≡ parent_data parent.now) }
{
    match parent {
        ParentWish::Absent => Ok(None),
        ParentWish::Null => Ok(Some(Json::Null)),
        ParentWish::To(name) => Ok(Some(name_json(alloc, name)?)),
    }
}

fn root_json(alloc: Global, root: &ForRoot) -> Result<Json, NoMemory>
    ensures { IfOk result (λ json. view json ≡ root_data root.now) }
{
    let name = root.name.as_str();
    match &root.tag {
        Some(tag) => {
            let tag = tag.as_str();
            Ok(json!(in alloc; {"recordChangeTag": tag, "recordName": name})?)
        }
        None => text_object(alloc, "recordName", name),
    }
}

fn roots_json(alloc: Global, root: &Option<ForRoot>) -> Result<Option<Json>, NoMemory>
    ensures { IfOk result (λ json. option_map view json ≡ option_map root_data root.now) }
{
    match root {
        Some(root) => Ok(Some(root_json(alloc, root)?)),
        None => Ok(None),
    }
}

fn public_json(alloc: Global, public: Option<Permission>) -> Result<Option<Json>, NoMemory>
    ensures { IfOk result (λ json. option_map view json ≡ option_map public_data public) }
{
    match public {
        Some(public) => Ok(Some(Json::try_from_str(alloc, permission_name(public))?)),
        None => Ok(None),
    }
}

fn wanted_json(alloc: Global, wanted: &Wanted) -> Result<Json, NoMemory>
    ensures { IfOk result (λ json. view json ≡ wanted_data wanted.now) }
{
    let mut members = Map::new(alloc);
    let kind = kind_name(wanted.kind);
    put_wanted(&mut members, alloc, wanted.permission, kind, &wanted.user)?;
    Ok(Json::Object(members))
}

fn wanted_list(alloc: Global, list: &[Wanted]) -> Result<Vec<Json>, NoMemory>
    ensures { IfOk result (λ items. map view items.items ≡ map wanted_data list.now) }
{
    let mut items = Vec::new(alloc);
    for wanted in list {
        items.push(wanted_json(alloc, wanted)?)?;
    }
    Ok(items)
}

fn wanted_list_json(alloc: Global, list: &Option<WantedList>) -> Result<Option<Json>, NoMemory>
    ensures { IfOk result (λ json. option_map view json ≡ option_map wanted_list_data list.now) }
{
    match list {
        Some(list) => Ok(Some(Json::Array(wanted_list(alloc, list.as_slice())?))),
        None => Ok(None),
    }
}

fn wish_json(alloc: Global, value: &Option<Value>) -> Result<Json, NoMemory>
    ensures { IfOk result (λ json. view json ≡ wish_data value.now) }
{
    match value {
        Some(value) => field_json(alloc, value, false),
        None => Ok(json!(in alloc; {"value": null})?),
    }
}

fn wishes_object(alloc: Global, wishes: &[Wish]) -> Result<Json, NoMemory>
    ensures { IfOk result (λ json. view json ≡ object (wishes_members wishes.now)) }
{
    let mut members = Map::new(alloc);
    for wish in wishes {
        let value = wish_json(alloc, &wish.1)?;
        put(&mut members, alloc, wish.0.as_str(), value)?;
    }
    Ok(Json::Object(members))
}

fn wishes_json(alloc: Global, wishes: &[Wish]) -> Result<Option<Json>, NoMemory>
    ensures { IfOk result (λ json. option_map view json ≡ wishes_data wishes.now) }
{
    if wishes.is_empty() {
        return Ok(None);
    }
    Ok(Some(wishes_object(alloc, wishes)?))
}

fn put_last(members: &mut Map<String, Json>, alloc: Global, draft: &Draft) -> Result<(), NoMemory>
    ensures { OnOk result (members_view members.new.entries
        ≡ put_all (last_members draft.now) (members_view members.old.entries)) }
{
    put_some(
        members,
        alloc,
        "recordType",
        name_text(alloc, &draft.rtype)?,
    )?;
    put_some(members, alloc, "recordName", name_text(alloc, &draft.name)?)?;
    put_some(
        members,
        alloc,
        "recordChangeTag",
        text_json(alloc, &draft.tag)?,
    )?;
    put_some(
        members,
        alloc,
        "publicPermission",
        public_json(alloc, draft.public)?,
    )
}

fn put_first(members: &mut Map<String, Json>, alloc: Global, draft: &Draft) -> Result<(), NoMemory>
    ensures { OnOk result (members_view members.new.entries
        ≡ put_all (first_members draft.now) (members_view members.old.entries)) }
{
    put_some(
        members,
        alloc,
        "participants",
        wanted_list_json(alloc, &draft.participants)?,
    )?;
    put_some(members, alloc, "parent", parent_json(alloc, &draft.parent)?)?;
    put_some(
        members,
        alloc,
        "forRecord",
        roots_json(alloc, &draft.for_root)?,
    )?;
    put_some(
        members,
        alloc,
        "fields",
        wishes_json(alloc, draft.fields.as_slice())?,
    )
}

/// The JSON of a record in a request, by "Record Dictionary" of the CloudKit Web Services
/// Reference, which `read_record` reads as this draft. What the draft leaves open is left out, and
/// so is `fields` where it gives none. Whole numbers are written as numbers, and each participant
/// with its type and its permission. It fails only where memory runs out.
pub fn draft_json(alloc: Global, draft: &Draft) -> Result<Json, NoMemory>
    ensures { IfOk result (λ json. view json ≡ draft_data draft.now) }
{
    let mut members = Map::new(alloc);
    put_last(&mut members, alloc, draft)?;
    put_first(&mut members, alloc, draft)?;
    Ok(Json::Object(members))
}
