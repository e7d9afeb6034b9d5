// The lock of a zone.
ghost use Rattle.std.specs.Prelude.{◌≡◌, ◌<◌, ◌≤◌, ◌*◌, length, sum};
ghost use Rattle.ck_base.specs.Names.{lock_of_names};

use crate::ZoneKey;
use crate::limits::LOCKS;

/// The lock that the zone belongs to, below 16: the sum of the bytes of the owner, a zero byte and
/// the zone name, modulo 16.
pub fn lock_of(key: &ZoneKey) -> u8
    ensures lock { result ≡ lock_of_names key.now.owner key.now.zone }
    ensures bound { result < 16 }
{
    let total = byte_sum(key.owner.as_bytes()) + byte_sum(key.zone.as_bytes());
    (total % u32::from(LOCKS)) as u8
}

fn byte_sum(bytes: &[u8]) -> u32
    requires { length bytes.now ≤ 255 }
    ensures total { result ≡ sum bytes.now }
    ensures bound { result ≤ 255 * 255 }
{
    let mut total = 0;
    for byte in bytes {
        total += u32::from(*byte);
    }
    total
}
