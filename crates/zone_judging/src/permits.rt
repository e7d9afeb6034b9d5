// Who may write, by the shares that the roots on the way upward name.
ghost use Rattle.std.specs.Prelude.{◌≡◌, Some, find, nat_le, option_map};
ghost use Rattle.std.specs.List.{list_any};
ghost use Rattle.name_rules.specs.Parents.{upward};
ghost use Rattle.share_records.specs.declared.participant.Participant.{Participant as ParticipantOf};
ghost use Rattle.share_records.specs.declared.permission.Permission.TheVariants.{ReadWrite};
ghost use Rattle.share_records.specs.Permissions.{rank, permission_given, permission_in};
ghost use Rattle.zone_model.specs.Names.{same};
ghost use Rattle.zone_model.specs.Records.{record_at};
ghost use Rattle.zone_model.specs.Ancestry.{links_of};
ghost use Rattle.zone_model.specs.Coverage.{may_write};
ghost use Rattle.zone_judging.specs.Sights.{AreSeen, lets_write, share_lets, permits};

use crate::Sees;
use ck_base::{RecordName, UserName};
use record_model::{Body, Record};
use share_records::{PartKind, Participant, Permission, Share};

fn permission_given(public: Permission, p: &Participant) -> Permission
    ensures { result ≡ permission_given public p.now }
{
    if !p.accepted {
        return Permission::Nothing;
    }
    match p.kind {
        PartKind::Member => p.permission,
        PartKind::Public => public,
    }
}

fn found_participant<'a>(share: &'a Share, user: &UserName) -> Option<&'a Participant>
    ensures { option_map (λ p. p.now) result ≡ find (λ (p : ParticipantOf). same user.now p.user) share.now.participants }
{
    share
        .participants
        .as_slice()
        .iter()
        .find(|p| *user == p.user)
}

fn permission_in(share: &Share, user: &UserName) -> Permission
    ensures { result ≡ permission_in share.now user.now }
{
    match found_participant(share, user) {
        Some(p) => permission_given(share.public, p),
        None => Permission::Nothing,
    }
}

fn is_writing(permission: Permission) -> bool
    ensures { result ≡ nat_le (rank ReadWrite) (rank permission) }
{
    match permission {
        Permission::Nothing => false,
        Permission::ReadOnly => false,
        Permission::ReadWrite => true,
    }
}

fn lets_write(user: &UserName, root: &RecordName, share: &Share) -> bool
    ensures { result ≡ lets_write user.now root.now share.now }
{
    *root == share.root && is_writing(permission_in(share, user))
}

fn share_lets<V: Sees>(seen: &V, user: &UserName, root: &RecordName, name: &RecordName) -> bool
    ensures { result ≡ share_lets (V.rows seen.now) user.now root.now name.now }
{
    let Some(row) = seen.record_at(name) else {
        return false;
    };
    match &row.body {
        Body::Plain => false,
        Body::Share(share) => lets_write(user, root, share),
    }
}

// Whether the record names a share that lets the user write.
fn permits<V: Sees>(seen: &V, user: &UserName, row: &Record, name: &RecordName) -> bool
    requires { record_at (V.rows seen.now) name.now ≡ Some row.now }
    ensures { result ≡ permits (V.rows seen.now) user.now name.now }
{
    match &row.share {
        Some(mark) => share_lets(seen, user, name, mark),
        None => false,
    }
}

// Whether one of the names on the way upward is a root whose share lets the user write.
#[tactic(auto, using(crate::proofs::PermitLemmas::unseen_ends, crate::proofs::PermitLemmas::permit_met, crate::proofs::PermitLemmas::permit_ended, crate::proofs::PermitLemmas::permit_goes_on, crate::proofs::PermitLemmas::permit_last))]
fn any_permits<V: Sees>(seen: &V, user: &UserName, name: &RecordName, steps: u64) -> bool
    ensures { result ≡ list_any (permits (V.rows seen.now) user.now) (upward steps (links_of (V.rows seen.now)) name.now) }
{
    let mut at = name;
    let mut left = steps;
    while left > 0 {
        let Some(row) = seen.record_at(at) else {
            return false;
        };
        if permits(seen, user, row, at) {
            return true;
        }
        match &row.parent {
            Some(parent) => at = parent,
            None => return false,
        }
        left -= 1;
    }
    match seen.record_at(at) {
        Some(row) => permits(seen, user, row, at),
        None => false,
    }
}

/// Whether the shares that are seen let the user write the record.
#[tactic(auto, using(crate::proofs::PermitLemmas::permitted_by))]
pub(crate) fn may_write<V: Sees>(seen: &V, user: &UserName, name: &RecordName) -> bool
    requires { AreSeen (V.rows seen.now) }
    ensures { result ≡ may_write (V.rows seen.now) user.now name.now }
{
    any_permits(seen, user, name, seen.most())
}
