//! Names that the service knows.
ghost use Rattle.std.specs.Prelude.{◌≡◌};
ghost use Rattle.ck_base.specs.KnownNames.{is_own_default};

use crate::{UserName, ZoneKey};

/// The zone that each user has from the start.
pub const DEFAULT_ZONE: &str = "_defaultZone";

/// The owner that stands for the caller.
pub const DEFAULT_OWNER: &str = "__defaultOwner__";

/// The type of the records that are shares.
pub const SHARE_TYPE: &str = "cloudkit.share";

/// Whether the zone is the user's own default zone.
pub fn is_own_default(user: &UserName, key: &ZoneKey) -> bool
    ensures { result ≡ is_own_default user.now key.now }
{
    key.owner.as_bytes() == user.as_bytes() && key.zone.as_bytes() == DEFAULT_ZONE.as_bytes()
}
