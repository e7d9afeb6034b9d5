// What is wanted of a request.
ghost use Rattle.std.specs.Prelude.{◌≡◌, IfOk, Ok};
ghost use Rattle.ck_base.specs.Told.{IsToldUnless};
ghost use Rattle.http_front.specs.Callers.{caller_of};
ghost use Rattle.http_front.specs.Routes.{route_of};
ghost use Rattle.wire_calls.specs.Calls.{call_of};
ghost use Rattle.wire_calls.specs.Meant.{IsMeantCall};
ghost use Rattle.talk_model.specs.Requests.{sender_with, sender_in, json_of, want_of_call, want_by, want_of};
ghost use Rattle.ck_server.specs.Askable.{MayBeServed};

use crate::built::{is_built, is_built_route};
use ck_base::{NoMemory, Route};
use error_replies::ServerError;
use http_front::{CallerFault, Request, RouteFault, Users, caller_of};
use std::alloc::Global;
use talk_model::{Sender, Want};
use wire_calls::{BadCall, Call, read_call};

fn sender_with(
    alloc: Global,
    users: &Users,
    route: Route,
    target: &[u8],
) -> Result<Result<Sender, ServerError>, NoMemory>
    ensures { IfOk result (λ found. found ≡ sender_with route (caller_of users.now target.now)) }
{
    match caller_of(alloc, users, target) {
        Ok(user) => Ok(Ok(Sender { route, user })),
        Err(CallerFault::Failed) => Ok(Err(ServerError::AuthenticationFailed)),
        Err(CallerFault::Required) => Ok(Err(ServerError::AuthenticationRequired)),
        Err(CallerFault::NoMemory) => Err(NoMemory),
    }
}

// Who asks for what, or the first refusal ahead of the body.
fn find_sender(
    alloc: Global,
    users: &Users,
    request: &Request,
) -> Result<Result<Sender, ServerError>, NoMemory>
    ensures { IfOk result (λ found. found ≡ sender_in users.now request.now) }
{
    let target = request.target.as_slice();
    match users.routes().route_of(request.method.as_slice(), target) {
        Ok(route) => sender_with(alloc, users, route, target),
        Err(RouteFault::NoRoute) => Ok(Err(ServerError::BadRequest)),
        Err(RouteFault::NoMemory) => Err(NoMemory),
    }
}

// The call that a body is, if it is one.
fn call_in(alloc: Global, sender: &Sender, body: &[u8]) -> Result<Call, BadCall>
    ensures call { IsToldUnless BadCall.NoMemory result
        (call_of sender.now.route sender.now.user (json_of body.now)) }
    ensures meant { IfOk result IsMeantCall }
{
    read_call(alloc, &sender.route, &sender.user, body)
}

// What is wanted by a call, or nothing where it is not built.
fn want_call(call: Call) -> Option<Want>
    requires { IsMeantCall call }
    ensures want { result ≡ want_of_call (Ok call) }
    ensures askable { MayBeServed result }
{
    if is_built(&call) {
        Some(Want::Called(call))
    } else {
        None
    }
}

// What is wanted by a body, or nothing where its call is not built.
fn read_body(alloc: Global, sender: &Sender, body: &[u8]) -> Result<Option<Want>, NoMemory>
    ensures want { IfOk result (λ want. want ≡ want_by (Ok sender.now) (json_of body.now)) }
    ensures askable { IfOk result MayBeServed }
{
    if !is_built_route(sender.route) {
        return Ok(None);
    }
    match call_in(alloc, sender, body) {
        Ok(call) => Ok(want_call(call)),
        Err(BadCall::NoMemory) => Err(NoMemory),
        Err(BadCall::NotBuilt) => Ok(None),
        Err(_fault) => Ok(Some(Want::Refused(ServerError::BadRequest))),
    }
}

// What is wanted of a request, or nothing where its form is not built.
pub(crate) fn read_want(
    alloc: Global,
    users: &Users,
    request: &Request,
) -> Result<Option<Want>, NoMemory>
    ensures want { IfOk result (λ want. want ≡ want_of users.now request.now) }
    ensures askable { IfOk result MayBeServed }
{
    match find_sender(alloc, users, request)? {
        Ok(sender) => read_body(alloc, &sender, request.body.as_slice()),
        Err(error) => Ok(Some(Want::Refused(error))),
    }
}
