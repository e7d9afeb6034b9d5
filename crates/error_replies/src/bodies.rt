// The body of a reply that refuses a whole request.
ghost use Rattle.std.specs.Prelude.{◌≡◌, IfOk};
ghost use Rattle.serde_json.specs.View.{view};
ghost use Rattle.error_replies.specs.Bodies.{error_data};

use crate::ServerError;
use crate::errors::{code_of, reason_of};
use ck_base::NoMemory;
use serde_json::{Value as Json, json};
use std::alloc::Global;

/// The body of a reply that refuses a whole request: an object with the error's reason and its
/// code. It fails only where memory runs out.
pub fn error_json(alloc: Global, error: ServerError) -> Result<Json, NoMemory>
    ensures { IfOk result (λ json. view json ≡ error_data error) }
{
    let code = code_of(error);
    let reason = reason_of(error);
    Ok(json!(in alloc; {"reason": reason, "serverErrorCode": code})?)
}
