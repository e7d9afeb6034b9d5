// The names of records, subscriptions, short GUIDs and zones, as the entries of replies have them.
ghost use Rattle.std.specs.Prelude.{◌≡◌, IfOk, IfSome, Some};
ghost use Rattle.serde_json.specs.View.{view};

use crate::thing::Thing;
use crate::thing_read::Names;
use ck_base::{NoMemory, RecordName, Text, UserName, ZoneKey};
use field_values::{name_in, zone_in, zone_json};
use serde_json::Value as Json;
use std::alloc::Global;

// Records and subscriptions have names.
impl Names<RecordName> for Thing {
    ghost use Rattle.std.specs.Prelude.{Some};
    ghost use Rattle.ck_base.specs.Names.{IsName};
    ghost use Rattle.serde_json.specs.Data.{string};
    ghost use Rattle.field_values.specs.References.{name_in};

    ghost about = { λ thing. thing };

    ghost name_data = { λ _ name. string name };

    ghost name_of = { λ _ d. name_in (Some d) };

    ghost is_name = { λ _. IsName };

    fn thing(&self) -> Thing {
        *self
    }

    fn name_json(&self, alloc: Global, name: &RecordName) -> Result<Json, NoMemory> {
        Ok(Json::try_from_str(alloc, name.as_str())?)
    }

    fn read_name(&self, alloc: Global, json: &Json) -> Result<Option<RecordName>, NoMemory> {
        name_in(alloc, Some(json))
    }

    fn names_read_back(&self) {}
}

// A short GUID is told as it was sent, and may be any text.
impl Names<Text> for Thing {
    ghost use Rattle.std.specs.Prelude.{⊤};
    ghost use Rattle.serde_json.specs.Data.{string};
    ghost use Rattle.serde_json.specs.Find.{as_str};

    ghost about = { λ thing. thing };

    ghost name_data = { λ _ text. string text };

    ghost name_of = { λ _. as_str };

    ghost is_name = { λ _ _. ⊤ };

    fn thing(&self) -> Thing {
        *self
    }

    fn name_json(&self, alloc: Global, text: &Text) -> Result<Json, NoMemory> {
        Ok(Json::try_from_str(alloc, text.as_str())?)
    }

    fn read_name(&self, alloc: Global, json: &Json) -> Result<Option<Text>, NoMemory> {
        match json.as_str() {
            Some(text) => Ok(Some(Text::from_str(alloc, text)?)),
            None => Ok(None),
        }
    }

    fn names_read_back(&self) {}
}

// Zones have zone IDs, which the caller's own name stands in.
impl Names<ZoneKey> for UserName {
    ghost use Rattle.field_values.specs.ZoneIds.{zone_data, zone_in, IsMeantZone};
    ghost use Rattle.wire_calls.specs.declared.thing.Thing.TheVariants.{Zone};

    ghost about = { λ _. Zone };

    ghost name_data = { λ _. zone_data };

    ghost name_of = { zone_in };

    ghost is_name = { IsMeantZone };

    fn thing(&self) -> Thing {
        Thing::Zone
    }

    fn name_json(&self, alloc: Global, key: &ZoneKey) -> Result<Json, NoMemory> {
        zone_json(alloc, key)
    }

    fn read_name(&self, alloc: Global, json: &Json) -> Result<Option<ZoneKey>, NoMemory> {
        zone_in(alloc, self, json)
    }

    fn names_read_back(&self) {}
}
