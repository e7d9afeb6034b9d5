// What a request asks for.
ghost use Rattle.std.specs.Prelude.{◌≡◌, Some, option_map, IfOk};
ghost use Rattle.ck_base.specs.Told.{IsToldUnless};
ghost use Rattle.matchit.specs.Params.{AllText};
ghost use Rattle.http_front.specs.Routes.{path_of, segments_of as path_segments, database_of, records_call, zones_call, changes_call};
ghost use Rattle.http_front.specs.Routes.{subscriptions_call, operation_of, is_list, is_on_links, is_served, route_by, route_of};
ghost use Rattle.http_front.specs.Matching.{path_rows, parts_taken, segments_named, segments_now};

use crate::cuts::place_of;
use crate::users::is_environment;
use ck_base::{Database, NoMemory, Operation, Route};
use matchit::{Params, Router};
use std::alloc::Global;
use std::str;

/// The form of each path that has a route.
const PATHS: &str = "/database/1/{container}/{environment}/{database}/{group}/{name}";

/// Why a request has no route.
#[derive(Clone, Copy, Debug, PartialEq, Eq)]
pub enum RouteFault {
    /// The path is no UTF-8, has another form or names what is not served, or the method is not the
    /// operation's.
    NoRoute,
    /// Memory ran out.
    NoMemory,
}

impl From<NoMemory> for RouteFault {
    ghost use Rattle.std.specs.Prelude.{◌≡◌};
    ghost use Rattle.http_front.specs.declared.route.RouteFault.TheVariants.{NoMemory as OutOfMemory};

    ghost from_gives = { λ _ e. e ≡ OutOfMemory };

    fn from(_e: NoMemory) -> Self {
        RouteFault::NoMemory
    }
}

/// The segments of a path behind its first two words.
#[derive(Clone, Copy)]
struct Segments<'a> {
    container: &'a [u8],
    environment: &'a [u8],
    database: &'a [u8],
    group: &'a [u8],
    name: &'a [u8],
}

// The path of a target, which its first question mark ends.
pub(crate) fn path_of(target: &[u8]) -> &[u8]
    ensures { result.now ≡ path_of target.now }
{
    match place_of(target, b'?') {
        Some(at) => &target[..at],
        None => target,
    }
}

fn router(alloc: Global) -> Result<Router<()>, NoMemory>
    ensures { IfOk result (λ router. router ≡ path_rows) }
{
    let mut router = Router::new(alloc);
    match router.insert(PATHS, ()) {
        Ok(()) => Ok(router),
        // The form reads well and stands alone, so memory is all that can be wanting.
        Err(_) => Err(NoMemory),
    }
}

// The segments that the parameters of a match took.
fn segments_of<'p>(params: &Params<'_, 'p>) -> Option<Segments<'p>>
    requires { AllText (parts_taken params.now) }
    ensures { option_map segments_now result ≡ segments_named (parts_taken params.now) }
{
    Some(Segments {
        container: params.get("container")?.as_bytes(),
        environment: params.get("environment")?.as_bytes(),
        database: params.get("database")?.as_bytes(),
        group: params.get("group")?.as_bytes(),
        name: params.get("name")?.as_bytes(),
    })
}

fn database_of(word: &[u8]) -> Option<Database>
    ensures { result ≡ database_of word.now }
{
    if word == b"private".as_slice() {
        Some(Database::Private)
    } else if word == b"shared".as_slice() {
        Some(Database::Shared)
    } else if word == b"public".as_slice() {
        Some(Database::Public)
    } else {
        None
    }
}

fn records_call(name: &[u8]) -> Option<Operation>
    ensures { result ≡ records_call name.now }
{
    if name == b"modify".as_slice() {
        Some(Operation::RecordsModify)
    } else if name == b"lookup".as_slice() {
        Some(Operation::RecordsLookup)
    } else if name == b"query".as_slice() {
        Some(Operation::RecordsQuery)
    } else if name == b"resolve".as_slice() {
        Some(Operation::RecordsResolve)
    } else if name == b"accept".as_slice() {
        Some(Operation::RecordsAccept)
    } else {
        None
    }
}

fn zones_call(name: &[u8]) -> Option<Operation>
    ensures { result ≡ zones_call name.now }
{
    if name == b"list".as_slice() {
        Some(Operation::ZonesList)
    } else if name == b"lookup".as_slice() {
        Some(Operation::ZonesLookup)
    } else if name == b"modify".as_slice() {
        Some(Operation::ZonesModify)
    } else {
        None
    }
}

fn changes_call(name: &[u8]) -> Option<Operation>
    ensures { result ≡ changes_call name.now }
{
    if name == b"zone".as_slice() {
        Some(Operation::ChangesZone)
    } else if name == b"database".as_slice() {
        Some(Operation::ChangesDatabase)
    } else {
        None
    }
}

fn subscriptions_call(name: &[u8]) -> Option<Operation>
    ensures { result ≡ subscriptions_call name.now }
{
    if name == b"list".as_slice() {
        Some(Operation::SubscriptionsList)
    } else if name == b"lookup".as_slice() {
        Some(Operation::SubscriptionsLookup)
    } else if name == b"modify".as_slice() {
        Some(Operation::SubscriptionsModify)
    } else if name == b"notices".as_slice() {
        Some(Operation::SubscriptionsNotices)
    } else {
        None
    }
}

fn operation_of(group: &[u8], name: &[u8]) -> Option<Operation>
    ensures { result ≡ operation_of group.now name.now }
{
    if group == b"records".as_slice() {
        records_call(name)
    } else if group == b"zones".as_slice() {
        zones_call(name)
    } else if group == b"changes".as_slice() {
        changes_call(name)
    } else if group == b"subscriptions".as_slice() {
        subscriptions_call(name)
    } else {
        None
    }
}

fn is_list(operation: Operation) -> bool
    ensures { result ≡ is_list operation }
{
    match operation {
        Operation::ZonesList | Operation::SubscriptionsList => true,
        Operation::RecordsModify
        | Operation::RecordsLookup
        | Operation::RecordsQuery
        | Operation::RecordsResolve
        | Operation::RecordsAccept
        | Operation::ZonesLookup
        | Operation::ZonesModify
        | Operation::ChangesZone
        | Operation::ChangesDatabase
        | Operation::SubscriptionsLookup
        | Operation::SubscriptionsModify
        | Operation::SubscriptionsNotices => false,
    }
}

fn is_on_links(operation: Operation) -> bool
    ensures { result ≡ is_on_links operation }
{
    match operation {
        Operation::RecordsResolve | Operation::RecordsAccept => true,
        Operation::RecordsModify
        | Operation::RecordsLookup
        | Operation::RecordsQuery
        | Operation::ZonesList
        | Operation::ZonesLookup
        | Operation::ZonesModify
        | Operation::ChangesZone
        | Operation::ChangesDatabase
        | Operation::SubscriptionsList
        | Operation::SubscriptionsLookup
        | Operation::SubscriptionsModify
        | Operation::SubscriptionsNotices => false,
    }
}

fn is_served(method: &[u8], database: Database, operation: Operation) -> bool
    ensures { result ≡ is_served method.now database operation }
{
    let wanted = if is_list(operation) {
        b"GET".as_slice()
    } else {
        b"POST".as_slice()
    };
    method == wanted && (database != Database::Public || is_on_links(operation))
}

// The route of these segments.
fn route_by(method: &[u8], segments: Segments) -> Result<Route, RouteFault>
    ensures { result ≡ route_by method.now (Some (segments_now segments.entry)) }
{
    if segments.container.is_empty() || !is_environment(segments.environment) {
        return Err(RouteFault::NoRoute);
    }
    let Some(database) = database_of(segments.database) else {
        return Err(RouteFault::NoRoute);
    };
    let Some(operation) = operation_of(segments.group, segments.name) else {
        return Err(RouteFault::NoRoute);
    };
    if is_served(method, database, operation) {
        Ok(Route {
            database,
            operation,
        })
    } else {
        Err(RouteFault::NoRoute)
    }
}

// The route of a path.
fn route_at(router: &Router<()>, method: &[u8], path: &[u8]) -> Result<Route, RouteFault>
    requires { router.now ≡ path_rows }
    ensures { result ≡ route_by method.now (path_segments path.now) }
{
    let Ok(path) = str::from_utf8(path) else {
        return Err(RouteFault::NoRoute);
    };
    let Ok(found) = router.at(path) else {
        return Err(RouteFault::NoRoute);
    };
    match segments_of(&found.params) {
        Some(segments) => route_by(method, segments),
        None => Err(RouteFault::NoRoute),
    }
}

/// The forms of the paths that have a route, made ready for any number of requests.
#[derive(Drop)]
pub struct Routes {
    paths: Router<()>,
    ghost ready: { paths ≡ path_rows },
}

impl Routes {
    /// The forms of all paths. It fails only where memory runs out.
    pub fn new(alloc: Global) -> Result<Routes, NoMemory> {
        let paths = router(alloc)?;
        Ok(Routes { paths })
    }

    /// The route of a request, as the free `route_of` tells it. It takes no memory.
    pub fn route_of(&self, method: &[u8], target: &[u8]) -> Result<Route, RouteFault>
        ensures { result ≡ route_of method.now target.now }
    {
        route_at(&self.paths, method, path_of(target))
    }
}

/// The route of a request by its method and its target, which is an origin form of RFC 9112, section
/// 3.2.1. Its path, which is UTF-8, is compared as it stands, and is never decoded.
///
/// A path of another form than "Composing Web Service Requests" of the CloudKit Web Services Reference
/// gives it is `NoRoute`, and so is an environment, a database or an operation that is not served,
/// another operation on the public database than one on share links, and another method than the
/// operation's.
pub fn route_of(alloc: Global, method: &[u8], target: &[u8]) -> Result<Route, RouteFault>
    ensures { IsToldUnless RouteFault.NoMemory result (route_of method.now target.now) }
{
    let routes = Routes::new(alloc)?;
    routes.route_of(method, target)
}
