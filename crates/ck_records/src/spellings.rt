// How shares are spelled in JSON.
ghost use Rattle.std.specs.Prelude.{◌≡◌};
ghost use Rattle.ck_records.specs.Spellings.{permission_name, permission_named, kind_name, type_named, status_name};

use share_records::{PartKind, Permission};

const PERMISSIONS: [Permission; 3] = [
    Permission::Nothing,
    Permission::ReadOnly,
    Permission::ReadWrite,
];

pub(crate) fn permission_name(permission: Permission) -> &'static str
    ensures { result.now ≡ permission_name permission }
{
    match permission {
        Permission::Nothing => "NONE",
        Permission::ReadOnly => "READ_ONLY",
        Permission::ReadWrite => "READ_WRITE",
    }
}

pub(crate) fn permission_named(name: &str) -> Option<Permission>
    ensures { result ≡ permission_named name.now }
{
    PERMISSIONS
        .iter()
        .copied()
        .find(|permission| permission_name(*permission) == name)
}

pub(crate) fn kind_name(kind: PartKind) -> &'static str
    ensures { result.now ≡ kind_name kind }
{
    match kind {
        PartKind::Member => "USER",
        PartKind::Public => "PUBLIC_USER",
    }
}

/// Whom an entry of a list of participants is for.
#[derive(Clone, Copy)]
pub(crate) enum EntryType {
    /// The owner of the share.
    Owner,
    /// A participant of this kind.
    Listed(PartKind),
}

pub(crate) fn type_named(name: &str) -> Option<EntryType>
    ensures { result ≡ type_named name.now }
{
    match name {
        "OWNER" => Some(EntryType::Owner),
        "USER" => Some(EntryType::Listed(PartKind::Member)),
        "PUBLIC_USER" => Some(EntryType::Listed(PartKind::Public)),
        _ => None,
    }
}

pub(crate) fn status_name(accepted: bool) -> &'static str
    ensures { result.now ≡ status_name accepted }
{
    if accepted { "ACCEPTED" } else { "INVITED" }
}
