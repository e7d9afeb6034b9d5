// Objects some of whose members may be missing.
ghost use Rattle.std.specs.Prelude.{◌≡◌, Some, IfOk, OnOk, OnErr, option_map};
ghost use Rattle.serde_json.specs.Data.{string, object, no_members, member};
ghost use Rattle.serde_json.specs.View.{view, members_view};
ghost use Rattle.ck_records.specs.Objects.{put_some};

use ck_base::NoMemory;
use serde_json::{Map, Value as Json, put};
use std::alloc::Global;

/// Adds the member to those of an object, where there is one. It fails only where memory runs out,
/// and then the members are as before.
pub fn put_some(
    members: &mut Map<String, Json>,
    alloc: Global,
    name: &str,
    value: Option<Json>,
) -> Result<(), NoMemory>
    ensures put { OnOk result (members_view members.new.entries
        ≡ put_some name.now (option_map view value) (members_view members.old.entries)) }
    ensures kept { OnErr result (members.new.entries ≡ members.old.entries) }
{
    if let Some(value) = value {
        put(members, alloc, name, value)?;
    }
    Ok(())
}

/// Adds the member with a text to those of an object.
pub(crate) fn put_text(
    members: &mut Map<String, Json>,
    alloc: Global,
    name: &str,
    text: &str,
) -> Result<(), NoMemory>
    ensures { OnOk result (members_view members.new.entries
        ≡ put_some name.now (Some (string text.now)) (members_view members.old.entries)) }
{
    put(members, alloc, name, Json::try_from_str(alloc, text)?)?;
    Ok(())
}

/// The object whose one member has a text.
pub(crate) fn text_object(alloc: Global, name: &str, text: &str) -> Result<Json, NoMemory>
    ensures { IfOk result (λ json.
        view json ≡ object (member name.now (string text.now) no_members)) }
{
    let mut members = Map::new(alloc);
    put_text(&mut members, alloc, name, text)?;
    Ok(Json::Object(members))
}
