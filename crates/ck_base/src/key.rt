// What names a zone.
use crate::{UserName, ZoneName};

/// A zone: its owner, and its name among the owner's zones. Keys are ordered by owner and then by
/// name.
#[derive(Clone, Debug, PartialEq, Eq, PartialOrd, Ord, Drop)]
pub struct ZoneKey {
    pub owner: UserName,
    pub zone: ZoneName,
}
