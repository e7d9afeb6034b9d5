// What operations do.
ghost use Rattle.std.specs.Prelude.{◌≡◌};
ghost use Rattle.zone_model.specs.Requests.{is_deletion};

use zone_model::OpKind;

/// Whether an operation of the kind removes a record.
pub fn is_deletion(kind: OpKind) -> bool
    ensures { result ≡ is_deletion kind }
{
    match kind {
        OpKind::Create => false,
        OpKind::Update => false,
        OpKind::ForceUpdate => false,
        OpKind::Replace => false,
        OpKind::ForceReplace => false,
        OpKind::Delete => true,
        OpKind::ForceDelete => true,
    }
}
