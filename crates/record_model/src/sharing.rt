// Which records are shares.
ghost use Rattle.std.specs.Prelude.{◌≡◌};
ghost use Rattle.record_model.specs.RecordForms.{is_share_type};

use ck_base::RecordName;
use ck_base::known::SHARE_TYPE;

/// Whether the records of this type are shares.
pub fn is_share_type(rtype: &RecordName) -> bool
    ensures { result ≡ is_share_type rtype.now }
{
    rtype.as_bytes() == SHARE_TYPE.as_bytes()
}
