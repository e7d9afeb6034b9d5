// Reading the entries that tell of a thing by its name alone. Each is read loosely, written again, and
// compared.
ghost use Rattle.std.specs.Prelude.{◌≡◌, IfOk, IfSome, Option, Some};
ghost use Rattle.serde_json.specs.Data.{Data};
ghost use Rattle.serde_json.specs.View.{view};
ghost use Rattle.wire_calls.specs.declared.thing.Thing.{Thing};
ghost use Rattle.wire_calls.specs.Found.{Finds, error_named, error_in, IsPlain, name_given, IsGoneOf, IsFailedOf};

use crate::thing::{Thing, failed_of, gone_of, name_key};
use ck_base::NoMemory;
use error_replies::{ServerError, code_of};
use field_values::{member, same_json};
use serde_json::Value as Json;
use std::alloc::Global;

/// The names of things of one sort, as the entries of replies have them.
pub(crate) trait Names<N> {
    ghost about: { Self → Thing };

    /// The JSON of a name.
    ghost name_data: { Self → N → Data };

    /// The name that JSON is, if it is one.
    ghost name_of: { Self → Data → Option N };

    ghost is_name: { Self → N → Type 0 };

    fn thing(&self) -> Thing
        ensures { result ≡ about self.now };

    fn name_json(&self, alloc: Global, name: &N) -> Result<Json, NoMemory>
        ensures { IfOk result (λ json. view json ≡ name_data self.now name.now) };

    fn read_name(&self, alloc: Global, json: &Json) -> Result<Option<N>, NoMemory>
        ensures name { IfOk result (λ name. name ≡ name_of self.now (view json.now)) }
        ensures meant { IfOk result (λ name. IfSome name (is_name self.now)) };

    /// What is written for a name is plain, and read as the name.
    fn names_read_back(&self)
        ensures told { (name : N) → is_name self.now name → name_of self.now (name_data self.now name) ≡ Some name }
        ensures plain { (name : N) → is_name self.now name → IsPlain (name_data self.now name) };
}

const ERRORS: [ServerError; 11] = [
    ServerError::AccessDenied,
    ServerError::AtomicError,
    ServerError::AuthenticationFailed,
    ServerError::AuthenticationRequired,
    ServerError::BadRequest,
    ServerError::Conflict,
    ServerError::Exists,
    ServerError::NotFound,
    ServerError::TryAgainLater,
    ServerError::ValidatingReferenceError,
    ServerError::ZoneNotFound,
];

fn error_named(code: &str) -> Option<ServerError>
    ensures { result ≡ error_named code.now }
{
    ERRORS.iter().copied().find(|error| code_of(*error) == code)
}

/// The error whose code an object has.
pub(crate) fn error_in(json: &Json) -> Option<ServerError>
    ensures { result ≡ error_in (view json.now) }
{
    match member(json, "serverErrorCode").and_then(Json::as_str) {
        Some(code) => error_named(code),
        None => None,
    }
}

/// The name that an entry has, if it has one.
pub(crate) fn entry_name<N: Drop, R: Names<N>>(
    alloc: Global,
    names: &R,
    json: &Json,
) -> Result<Option<N>, NoMemory>
    ensures name { IfOk result (λ name.
        name ≡ name_given (R.about names.now) (R.name_of names.now) (view json.now)) }
    ensures meant { IfOk result (λ name. IfSome name (R.is_name names.now)) }
{
    match member(json, name_key(names.thing())) {
        Some(name) => names.read_name(alloc, name),
        None => Ok(None),
    }
}

/// The name of the thing that an entry says is gone.
pub(crate) fn read_gone<N: Drop, R: Names<N>>(
    alloc: Global,
    names: &R,
    json: &Json,
) -> Result<Option<N>, NoMemory>
    ensures { IfOk result (Finds
        (IsGoneOf (R.about names.now) (R.is_name names.now) (R.name_data names.now) (view json.now))) }
{
    names.names_read_back();
    let Some(name) = entry_name(alloc, names, json)? else {
        return Ok(None);
    };
    let written = names.name_json(alloc, &name)?;
    let written = gone_of(alloc, names.thing(), written)?;
    if same_json(alloc, json, &written)? {
        Ok(Some(name))
    } else {
        Ok(None)
    }
}

/// The error that an entry tells, and the name of its thing.
pub(crate) fn read_failed<N: Drop, R: Names<N>>(
    alloc: Global,
    names: &R,
    json: &Json,
) -> Result<Option<(ServerError, N)>, NoMemory>
    ensures { IfOk result (Finds
        (IsFailedOf (R.about names.now) (R.is_name names.now) (R.name_data names.now) (view json.now))) }
{
    names.names_read_back();
    let Some(error) = error_in(json) else {
        return Ok(None);
    };
    if error == ServerError::Conflict {
        return Ok(None);
    }
    let Some(name) = entry_name(alloc, names, json)? else {
        return Ok(None);
    };
    let written = names.name_json(alloc, &name)?;
    let written = failed_of(alloc, names.thing(), error, written)?;
    if same_json(alloc, json, &written)? {
        Ok(Some((error, name)))
    } else {
        Ok(None)
    }
}
