// Who calls.
ghost use Rattle.std.specs.Prelude.{◌≡◌, Some, IfOk, Contains, option_map};
ghost use Rattle.ck_base.specs.Names.{IsName};
ghost use Rattle.ck_base.specs.Told.{IsToldUnless};
ghost use Rattle.http_front.specs.Callers.{is_given, segment_at, is_for, user_by, caller_of};
ghost use Rattle.http_front.specs.Users.{names_of};

use crate::query::query_item;
use crate::route::path_of;
use crate::users::Users;
use ck_base::{NoMemory, UserName};
use std::alloc::{AllocError, Global};

/// The place of the container between the slashes of a path.
const CONTAINER: usize = 3;

/// The place of the environment between the slashes of a path.
const ENVIRONMENT: usize = 4;

/// Why a request has no caller.
#[derive(Clone, Copy, Debug, PartialEq, Eq)]
pub enum CallerFault {
    /// The API token is missing or another, the container or the environment is not the served one,
    /// or no user has the web token.
    Failed,
    /// The web token is missing.
    Required,
    /// Memory ran out.
    NoMemory,
}

impl From<NoMemory> for CallerFault {
    ghost use Rattle.std.specs.Prelude.{◌≡◌};
    ghost use Rattle.http_front.specs.declared.caller.CallerFault.TheVariants.{NoMemory as OutOfMemory};

    ghost from_gives = { λ _ e. e ≡ OutOfMemory };

    fn from(_e: NoMemory) -> Self {
        CallerFault::NoMemory
    }
}

impl From<AllocError> for CallerFault {
    ghost use Rattle.std.specs.Prelude.{◌≡◌};
    ghost use Rattle.http_front.specs.declared.caller.CallerFault.TheVariants.{NoMemory as OutOfMemory};

    ghost from_gives = { λ _ e. e ≡ OutOfMemory };

    fn from(_e: AllocError) -> Self {
        CallerFault::NoMemory
    }
}

fn is_given(value: Option<&[u8]>, wanted: &[u8]) -> bool
    ensures { result ≡ is_given wanted.now (option_map (λ v. v.now) value.entry) }
{
    match value {
        Some(value) => value == wanted,
        None => false,
    }
}

fn segment_at(path: &[u8], place: usize) -> Option<&[u8]>
    ensures { option_map (λ s. s.now) result ≡ segment_at place path.now }
{
    path.split(|byte| *byte == b'/').nth(place)
}

// Whether the target has the API token, the container and the environment of the table.
fn is_for(alloc: Global, users: &Users, target: &[u8]) -> Result<bool, NoMemory>
    ensures { IfOk result (λ is. is ≡ is_for users.now target.now) }
{
    let path = path_of(target);
    let api_token = query_item(alloc, target, "ckAPIToken")?;
    let api_token = api_token.as_ref().map(|token| token.as_bytes());
    Ok(
        is_given(api_token, users.api_token())
            && is_given(segment_at(path, CONTAINER), users.container())
            && is_given(segment_at(path, ENVIRONMENT), users.environment()),
    )
}

// The user of a web token.
fn user_of(alloc: Global, users: &Users, web_token: &[u8]) -> Result<UserName, CallerFault>
    ensures exact { IsToldUnless CallerFault.NoMemory result (user_by users.now (Some web_token.now)) }
    ensures meant { IfOk result (λ name. IsName name × Contains (names_of users.now.users) name) }
{
    match users.user_of_token(web_token) {
        Some(user) => {
            // The clause of this call tells that the user is a name.
            let _bytes = user.as_bytes();
            Ok(user.clone()?)
        }
        None => Err(CallerFault::Failed),
    }
}

/// The user who calls, by the target of a request, as "Composing Web Service Requests" of the
/// CloudKit Web Services Reference gives it: the path names the container and the environment, and
/// the query has the items `ckAPIToken` and `ckWebAuthToken`. Of a repeated item the first counts.
///
/// Without the API token of the table, or with another container or environment than the table's,
/// the answer is `Failed`, whatever the web token is. Then a missing web token is `Required`, and one
/// that the table does not have, also an empty one, is `Failed`.
pub fn caller_of(alloc: Global, users: &Users, target: &[u8]) -> Result<UserName, CallerFault>
    ensures exact { IsToldUnless CallerFault.NoMemory result (caller_of users.now target.now) }
    ensures meant { IfOk result (λ name. IsName name × Contains (names_of users.now.users) name) }
{
    if !is_for(alloc, users, target)? {
        return Err(CallerFault::Failed);
    }
    match query_item(alloc, target, "ckWebAuthToken")? {
        Some(web_token) => user_of(alloc, users, web_token.as_bytes()),
        None => Err(CallerFault::Required),
    }
}
