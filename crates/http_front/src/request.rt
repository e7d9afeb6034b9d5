// A whole request.
use ck_base::Bytes;

/// A whole request, as RFC 9112, section 2.1 forms it.
#[derive(Drop)]
pub struct Request {
    pub method: Bytes,
    /// The target, as it stands.
    pub target: Bytes,
    /// Whether the connection is to be closed behind the reply (RFC 9112, section 9.6).
    pub close: bool,
    pub body: Bytes,
}
