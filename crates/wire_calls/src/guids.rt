// Lists of short GUIDs in calls.
ghost use Rattle.std.specs.Prelude.{IfOk, IsUtf8, option_map};
ghost use Rattle.std.specs.List.{AllByRecursion};
ghost use Rattle.serde_json.specs.View.{view};
ghost use Rattle.ck_base.specs.Told.{IsToldUnless};
ghost use Rattle.wire_calls.specs.Listings.{guids_at};

use crate::each::{Element, list_at};
use crate::{BadCall, CallKey};
use ck_base::{NoMemory, Text, Texts};
use field_values::member;
use serde_json::Value as Json;
use std::alloc::Global;

/// The elements of a list of short GUIDs: objects with `value`.
struct ShortGuids;

impl Element<Text> for ShortGuids {
    ghost use Rattle.std.specs.Prelude.{IsUtf8};
    ghost use Rattle.wire_calls.specs.Listings.{guid_in};

    ghost item_in = { λ _. guid_in };

    ghost is_meant = { λ _. IsUtf8 };

    fn read(&self, alloc: Global, json: &Json) -> Result<Option<Text>, NoMemory> {
        match member(json, "value").and_then(Json::as_str) {
            Some(text) => Ok(Some(Text::from_str(alloc, text)?)),
            None => Ok(None),
        }
    }
}

/// The texts of the short GUIDs that a call lists as `shortGUIDs`: a list of objects with `value`,
/// which may be any text. Anything else is `BadKey`. Its limit is that of `CallList::ShortGuids`.
pub fn guids_at(alloc: Global, json: Option<&Json>) -> Result<Texts, BadCall>
    ensures guids { IsToldUnless BadCall.NoMemory result
        (guids_at (option_map (λ v. view v.now) json.entry)) }
    ensures meant { IfOk result (AllByRecursion IsUtf8) }
{
    list_at(alloc, CallKey::ShortGuids, &ShortGuids, json)
}
