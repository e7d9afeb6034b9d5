// The words of operations in JSON.
ghost use Rattle.std.specs.Prelude.{◌≡◌};
ghost use Rattle.modify_ops.specs.Kinds.{kind_name, kind_named};

use crate::OpKind;

const KINDS: [OpKind; 7] = [
    OpKind::Create,
    OpKind::Update,
    OpKind::ForceUpdate,
    OpKind::Replace,
    OpKind::ForceReplace,
    OpKind::Delete,
    OpKind::ForceDelete,
];

pub(crate) fn kind_name(kind: OpKind) -> &'static str
    ensures { result.now ≡ kind_name kind }
{
    match kind {
        OpKind::Create => "create",
        OpKind::Update => "update",
        OpKind::ForceUpdate => "forceUpdate",
        OpKind::Replace => "replace",
        OpKind::ForceReplace => "forceReplace",
        OpKind::Delete => "delete",
        OpKind::ForceDelete => "forceDelete",
    }
}

pub(crate) fn kind_named(name: &str) -> Option<OpKind>
    ensures { result ≡ kind_named name.now }
{
    KINDS.iter().copied().find(|kind| kind_name(*kind) == name)
}
