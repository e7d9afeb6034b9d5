// Tests of names.
ghost use Rattle.std.specs.Prelude.{◌≡◌};
ghost use Rattle.zone_model.specs.Names.{same_option, is_default};

use ck_base::known::DEFAULT_ZONE;
use ck_base::{RecordName, ZoneKey};

pub(crate) fn same_option(a: &Option<RecordName>, b: &Option<RecordName>) -> bool
    ensures { result ≡ same_option a.now b.now }
{
    match (a, b) {
        (None, None) => true,
        (None, Some(_)) => false,
        (Some(_), None) => false,
        (Some(a), Some(b)) => *a == *b,
    }
}

pub(crate) fn is_default(key: &ZoneKey) -> bool
    ensures { result ≡ is_default key.now }
{
    key.zone.as_bytes() == DEFAULT_ZONE.as_bytes()
}
