// The participants of a share after a put, by the list that its owner gives.
ghost use Rattle.std.specs.Prelude.{◌≡◌, ◌≤◌, length, drop, Some, option_map, IfOk, OnOk};
ghost use Rattle.share_records.specs.ShareLists.{participant_at, kept_as, with_participant, rewritten};
ghost use Rattle.zone_puts.specs.Participants.{AreUsersInOrder, place_of, is_at, kept_of, with_kept};

use ck_base::{Items, NoMemory, UserName};
use share_records::{PartKind, Participant, Participants, Wanted};
use std::alloc::Global;

fn participant_at<'a>(old: &'a [Participant], user: &UserName) -> Option<&'a Participant>
    ensures { option_map (λ p. p.now) result ≡ participant_at old.now user.now }
{
    old.iter().find(|p| *user == p.user)
}

fn copy_participant(p: &Participant) -> Result<Participant, NoMemory>
    ensures { IfOk result (λ copy. copy ≡ p.now) }
{
    Ok(Participant {
        user: p.user.clone()?,
        kind: p.kind,
        permission: p.permission,
        accepted: p.accepted,
    })
}

fn kept_member(wanted: &Wanted, old: Option<&Participant>) -> Result<Participant, NoMemory>
    ensures { IfOk result (λ kept. Some kept ≡ kept_as PartKind.Member wanted.now (option_map (λ p. p.now) old.entry)) }
{
    Ok(Participant {
        user: wanted.user.clone()?,
        kind: PartKind::Member,
        permission: wanted.permission,
        accepted: match old {
            Some(p) => p.accepted,
            None => false,
        },
    })
}

fn kept_public(old: Option<&Participant>) -> Result<Option<Participant>, NoMemory>
    ensures { IfOk result (λ kept. (w : Wanted) → kept ≡ kept_as PartKind.Public w (option_map (λ p. p.now) old.entry)) }
{
    match old {
        Some(p) => match p.kind {
            PartKind::Public => Ok(Some(copy_participant(p)?)),
            PartKind::Member => Ok(None),
        },
        None => Ok(None),
    }
}

// What becomes of a participant that is wanted.
fn kept_as(wanted: &Wanted, old: Option<&Participant>) -> Result<Option<Participant>, NoMemory>
    ensures { IfOk result (λ kept. kept ≡ kept_as wanted.now.kind wanted.now (option_map (λ p. p.now) old.entry)) }
{
    match wanted.kind {
        PartKind::Member => Ok(Some(kept_member(wanted, old)?)),
        PartKind::Public => {
            let kept = kept_public(old)?;
            Ok(kept)
        }
    }
}

fn place_of(participants: &[Participant], user: &UserName) -> usize
    ensures told { result ≡ place_of user.now participants.now }
    ensures within { result ≤ length participants.now }
{
    let mut place = 0;
    for p in participants {
        if !(p.user < *user) {
            return place;
        }
        place += 1;
    }
    place
}

fn is_at(participants: &[Participant], place: usize, user: &UserName) -> bool
    ensures { result ≡ is_at user.now (drop place participants.now) }
{
    match participants.get(place) {
        Some(p) => p.user == *user,
        None => false,
    }
}

// The participant takes its place by user.
#[tactic(auto, using(crate::proofs::ParticipantLemmas::inserted, crate::proofs::ParticipantLemmas::replaced))]
fn put_participant(participants: &mut Vec<Participant>, p: Participant) -> Result<(), NoMemory>
    requires { AreUsersInOrder participants.old.items }
    ensures { OnOk result (participants.new.items ≡ with_participant participants.old.items p) }
{
    let place = place_of(participants, &p.user);
    if is_at(participants, place, &p.user) {
        participants[place] = p;
    } else {
        participants.insert(place, p)?;
    }
    Ok(())
}

// The participants with what becomes of one that is wanted.
fn put_wanted(
    after: &mut Vec<Participant>,
    old: &[Participant],
    wanted: &Wanted,
) -> Result<(), NoMemory>
    requires { AreUsersInOrder after.old.items }
    ensures { OnOk result (after.new.items ≡ with_kept after.old.items (kept_of old.now wanted.now)) }
{
    match kept_as(wanted, participant_at(old, &wanted.user))? {
        Some(p) => put_participant(after, p),
        None => Ok(()),
    }
}

/// The participants of a share after its owner gave this list, in the order of their users. It takes
/// some steps for each two of them, of which there are at most 100 where the list is not refused. It
/// fails only where memory runs out.
pub fn rewritten(
    alloc: Global,
    old: &[Participant],
    wanted: &[Wanted],
) -> Result<Participants, NoMemory>
    ensures { IfOk result (λ after. after ≡ rewritten old.now wanted.now) }
{
    let mut after = Vec::new(alloc);
    for w in wanted {
        put_wanted(&mut after, old, w)?;
    }
    Ok(Items::from_vec(after))
}
