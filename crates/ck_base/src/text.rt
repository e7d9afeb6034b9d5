// Texts that contracts see as the list of their UTF-8 bytes.
ghost use Rattle.std.specs.Prelude.{◌≡◌, IfOk, IfSome, IfNone, IsUtf8};

use crate::Bytes;
use std::alloc::{AllocError, Global};
use std::marker::Model;
use std::str;

/// A text in UTF-8 (RFC 3629). Texts are ordered by their bytes.
#[derive(Clone, Debug, PartialEq, Eq, PartialOrd, Ord, Drop)]
pub struct Text {
    bytes: Bytes,
}

impl Model for Text {
    ghost use Rattle.std.specs.Prelude.{List, ℕ, IsUtf8};

    ghost Value = { List ℕ };

    ghost view = { λ t. t.bytes };

    ghost invariant = { λ t. IsUtf8 t.bytes };

    ghost inverse = { λ bytes. record { bytes = bytes } };
}

impl Text {
    /// A copy of this text.
    pub fn from_str(alloc: Global, text: &str) -> Result<Self, AllocError>
        ensures { IfOk result (λ t. t ≡ text.now) }
    {
        let bytes = Bytes::from_slice(alloc, text.as_bytes())?;
        Ok(Text { bytes })
    }

    /// The text of these bytes, or `None` where they are no UTF-8.
    pub fn from_bytes(bytes: Bytes) -> Option<Self>
        ensures text { IfSome result (λ t. t ≡ bytes) }
        ensures utf8 { IfSome result (λ _. IsUtf8 bytes) }
        ensures other { IfNone result (¬ IsUtf8 bytes) }
    {
        match str::from_utf8(bytes.as_slice()) {
            Ok(_) => Some(Text { bytes }),
            Err(_) => None,
        }
    }

    /// The text, borrowed.
    pub fn as_str(&self) -> &str
        ensures { result.now ≡ self.now }
    {
        str::from_utf8(self.bytes.as_slice()).unwrap()
    }

    /// The bytes of the text, borrowed.
    pub fn as_bytes(&self) -> &[u8]
        ensures bytes { result.now ≡ self.now }
        ensures utf8 { IsUtf8 result.now }
    {
        self.bytes.as_slice()
    }
}
