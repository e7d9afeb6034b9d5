// The judgement of a put.
ghost use Rattle.std.specs.Prelude.{◌≡◌, map};
ghost use Rattle.zone_model.specs.Requests.{names_put};
ghost use Rattle.zone_model.specs.PutChecks.{fault_of_put};
ghost use Rattle.zone_judging.specs.Asked.{named, grounds_in};
ghost use Rattle.zone_judging.specs.Wishes.{AreInOrder};
ghost use Rattle.zone_judging.specs.Sights.{AreSeen};

use crate::dangling::is_dangling;
use crate::form::has_bad_form;
use crate::meets::{is_in_conflict, is_missing};
use crate::taken::is_name_taken;
use crate::writable::is_denied;
use crate::{Grounds, NamedOp, Sees};
use zone_model::OpFault;

/// Why the put is refused, if it is: the fault of the first check that it fails, where these
/// operations come earlier in the request.
pub fn fault_of_put<V: Sees>(g: &Grounds<V>, p: &NamedOp, earlier: &[NamedOp]) -> Option<OpFault>
    requires seen { AreSeen (V.rows g.now.seen.now) }
    requires wishes { AreInOrder p.now.op.now.draft.fields }
    ensures { result ≡ fault_of_put (grounds_in V.rows g.now) (named p.now) (names_put (map named earlier.now)) }
{
    if is_name_taken(g, p, earlier) {
        return Some(OpFault::Exists);
    }
    if is_missing(g, p) {
        return Some(OpFault::NotFound);
    }
    if is_in_conflict(g, p) {
        return Some(OpFault::Conflict);
    }
    if has_bad_form(g, p) {
        return Some(OpFault::BadRequest);
    }
    if is_denied(g, p) {
        return Some(OpFault::AccessDenied);
    }
    if is_dangling(g, p) {
        return Some(OpFault::Validating);
    }
    None
}
