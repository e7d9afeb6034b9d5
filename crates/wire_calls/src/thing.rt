// What the entries of replies are about, and the entries that tell of a thing by its name alone.
ghost use Rattle.std.specs.Prelude.{◌≡◌, IfOk};
ghost use Rattle.serde_json.specs.View.{view};
ghost use Rattle.wire_calls.specs.Things.{name_key, gone_of, failed_of};

use ck_base::NoMemory;
use ck_records::put_some;
use error_replies::{ServerError, code_of, reason_of};
use serde_json::{Map, Value as Json, json};
use std::alloc::Global;

/// What an entry of a reply is about.
#[derive(Clone, Copy, Debug, PartialEq, Eq)]
pub enum Thing {
    Record,
    Zone,
    ShortGuid,
    Subscription,
}

/// The member that has the name of a thing.
pub(crate) fn name_key(thing: Thing) -> &'static str
    ensures { result.now ≡ name_key thing }
{
    match thing {
        Thing::Record => "recordName",
        Thing::Zone => "zoneID",
        Thing::ShortGuid => "shortGUID",
        Thing::Subscription => "subscriptionID",
    }
}

/// That a thing is gone.
pub(crate) fn gone_of(alloc: Global, thing: Thing, name: Json) -> Result<Json, NoMemory>
    ensures { IfOk result (λ json. view json ≡ gone_of thing (view name)) }
{
    match thing {
        Thing::Record => Ok(json!(in alloc; {"deleted": true, "recordName": name})?),
        Thing::Zone => Ok(json!(in alloc; {"deleted": true, "zoneID": name})?),
        Thing::ShortGuid => Ok(json!(in alloc; {"deleted": true, "shortGUID": name})?),
        Thing::Subscription => Ok(json!(in alloc; {"deleted": true, "subscriptionID": name})?),
    }
}

/// That of a thing there is an error.
pub(crate) fn failed_of(
    alloc: Global,
    thing: Thing,
    error: ServerError,
    name: Json,
) -> Result<Json, NoMemory>
    ensures { IfOk result (λ json. view json ≡ failed_of thing error (view name)) }
{
    let code = Json::try_from_str(alloc, code_of(error))?;
    let reason = Json::try_from_str(alloc, reason_of(error))?;
    let mut members = Map::new(alloc);
    put_some(&mut members, alloc, "serverErrorCode", Some(code))?;
    put_some(&mut members, alloc, "reason", Some(reason))?;
    put_some(&mut members, alloc, name_key(thing), Some(name))?;
    Ok(Json::Object(members))
}
