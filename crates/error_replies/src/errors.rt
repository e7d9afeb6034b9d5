// The errors, and the status of each.
ghost use Rattle.std.specs.Prelude.{◌≡◌, IsTrue};
ghost use Rattle.error_replies.specs.Errors.{code_of, reason_of, status_of, is_error_status};

/// An error that a reply tells by its code, as "Error Codes" of the CloudKit Web Services Reference
/// lists them. Codes of that list that no request is answered with are left out.
#[derive(Clone, Copy, Debug, PartialEq, Eq)]
pub enum ServerError {
    AccessDenied,
    AtomicError,
    AuthenticationFailed,
    AuthenticationRequired,
    BadRequest,
    Conflict,
    Exists,
    NotFound,
    TryAgainLater,
    ValidatingReferenceError,
    ZoneNotFound,
}

/// The status of a reply that refuses a whole request, as RFC 9110, sections 15.5 and 15.6 name
/// them.
pub fn status(error: ServerError) -> u16
    ensures status { result ≡ status_of error }
    ensures known { IsTrue (is_error_status result) }
{
    match error {
        ServerError::AccessDenied => 403,
        ServerError::AtomicError => 400,
        ServerError::AuthenticationFailed => 401,
        ServerError::AuthenticationRequired => 421,
        ServerError::BadRequest => 400,
        ServerError::Conflict => 409,
        ServerError::Exists => 409,
        ServerError::NotFound => 404,
        ServerError::TryAgainLater => 503,
        ServerError::ValidatingReferenceError => 412,
        ServerError::ZoneNotFound => 404,
    }
}

/// The code of an error, as "Error Codes" of the CloudKit Web Services Reference names it.
pub fn code_of(error: ServerError) -> &'static str
    ensures { result.now ≡ code_of error }
{
    match error {
        ServerError::AccessDenied => "ACCESS_DENIED",
        ServerError::AtomicError => "ATOMIC_ERROR",
        ServerError::AuthenticationFailed => "AUTHENTICATION_FAILED",
        ServerError::AuthenticationRequired => "AUTHENTICATION_REQUIRED",
        ServerError::BadRequest => "BAD_REQUEST",
        ServerError::Conflict => "CONFLICT",
        ServerError::Exists => "EXISTS",
        ServerError::NotFound => "NOT_FOUND",
        ServerError::TryAgainLater => "TRY_AGAIN_LATER",
        ServerError::ValidatingReferenceError => "VALIDATING_REFERENCE_ERROR",
        ServerError::ZoneNotFound => "ZONE_NOT_FOUND",
    }
}

/// The reason that a reply gives for an error, in this project's own words.
pub fn reason_of(error: ServerError) -> &'static str
    ensures { result.now ≡ reason_of error }
{
    match error {
        ServerError::AccessDenied => "access denied",
        ServerError::AtomicError => "atomic error",
        ServerError::AuthenticationFailed => "authentication failed",
        ServerError::AuthenticationRequired => "authentication required",
        ServerError::BadRequest => "bad request",
        ServerError::Conflict => "conflict",
        ServerError::Exists => "exists",
        ServerError::NotFound => "not found",
        ServerError::TryAgainLater => "try again later",
        ServerError::ValidatingReferenceError => "validating reference error",
        ServerError::ZoneNotFound => "zone not found",
    }
}
