// Short GUIDs of shares.
ghost use Rattle.std.specs.Prelude.{◌≡◌, IfSome};
ghost use Rattle.std.specs.List.{list_all};
ghost use Rattle.ck_base.specs.Guids.{is_hex_digit, IsGuid, guid_of};

use std::marker::Model;

const DIGITS: usize = 33;

/// The short GUID of a share, by which others find it: 33 lower-case hexadecimal digits. In
/// one that is made here the first is the number of the zone's lock, and the others are a random
/// word.
#[derive(Clone, Copy, Debug, PartialEq, Eq, PartialOrd, Ord)]
pub struct Guid {
    digits: [u8; 33],
}

impl Model for Guid {
    ghost use Rattle.std.specs.Prelude.{List, ℕ};
    ghost use Rattle.ck_base.specs.Guids.{IsGuid};

    ghost Value = { List ℕ };

    ghost view = { λ g. g.digits };

    ghost invariant = { λ g. IsGuid g.digits };

    ghost inverse = { λ digits. record { digits = digits } };
}

fn is_hex(byte: u8) -> bool
    ensures { result ≡ is_hex_digit byte }
{
    (b'0' <= byte && byte <= b'9') || (b'a' <= byte && byte <= b'f')
}

fn all_hex(bytes: &[u8]) -> bool
    ensures { result ≡ list_all is_hex_digit bytes.now }
{
    bytes.iter().all(|byte| is_hex(*byte))
}

impl Guid {
    /// The GUID of these digits, or `None` where they are none.
    pub fn from_bytes(bytes: &[u8]) -> Option<Self>
        ensures guid { result ≡ guid_of bytes.now }
        ensures form { IfSome result IsGuid }
    {
        if bytes.len() != DIGITS || !all_hex(bytes) {
            return None;
        }
        let mut digits = [0; DIGITS];
        digits.copy_from_slice(bytes);
        Some(Guid { digits })
    }

    /// The digits, borrowed.
    pub fn as_bytes(&self) -> &[u8]
        ensures digits { result.now ≡ self.now }
        ensures guid { IsGuid result.now }
    {
        &self.digits
    }
}
