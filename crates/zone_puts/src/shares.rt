// Shares and what makes a record one, after a put.
ghost use Rattle.std.specs.Prelude.{OnOk, ◌++◌, ◌∷◌, ◌≡◌, IfOk, unwrap_or, not, filter, [], Some};
ghost use Rattle.std.specs.Option.{option_map_or};
ghost use Rattle.name_rules.specs.Names.{same};
ghost use Rattle.share_records.specs.ShareLists.{rewritten, first_share, share_without};
ghost use Rattle.zone_model.specs.Requests.{root_given};
ghost use Rattle.zone_model.specs.Sharing.{share_after};
ghost use Rattle.zone_model.specs.Putting.{new_body, body_after};
ghost use Rattle.zone_model.specs.Effect.{body_without};
ghost use Rattle.zone_puts.specs.Beginnings.{HasGuid};
ghost use Rattle.zone_puts.specs.Participants.{is_other};

use crate::participants::rewritten;
use ck_base::{Guid, Items, NoMemory, RecordName, UserName};
use record_model::{Body, Draft, WantedList};
use share_records::{Participant, Participants, Permission, Share};
use std::alloc::Global;
use std::collections::VecDeque;
use zone_judging::{has_share_type, root_given};

fn participants_after(
    alloc: Global,
    old: Participants,
    wanted: &Option<WantedList>,
) -> Result<Participants, NoMemory>
    ensures { IfOk result (λ after. after ≡ option_map_or (rewritten old) wanted.now old) }
{
    match wanted {
        Some(wanted) => rewritten(alloc, old.as_slice(), wanted.as_slice()),
        None => Ok(old),
    }
}

/// The share after a put, which leaves what it does not give. It fails only where memory runs out.
pub fn share_after(alloc: Global, share: Share, draft: &Draft) -> Result<Share, NoMemory>
    ensures { IfOk result (λ after. after ≡ share_after share draft.now) }
{
    let public = match draft.public {
        Some(public) => public,
        None => share.public,
    };
    Ok(Share {
        root: share.root,
        guid: share.guid,
        public,
        participants: participants_after(alloc, share.participants, &draft.participants)?,
    })
}

/// A share of the root as it begins: it lets nobody in.
pub fn first_share(alloc: Global, root: RecordName, guid: Guid) -> Share
    ensures { result ≡ first_share root guid }
{
    Share {
        root,
        guid,
        public: Permission::Nothing,
        participants: Items::new(alloc),
    }
}

fn share_of(alloc: Global, root: &RecordName, guid: Guid, draft: &Draft) -> Result<Share, NoMemory>
    ensures { IfOk result (λ share. share ≡ share_after (first_share root.now guid) draft.now) }
{
    share_after(alloc, first_share(alloc, root.clone()?, guid), draft)
}

/// What a new record of the draft is beside its fields: a share of the root that the draft gives,
/// with this GUID, if its type is that of shares. It fails only where memory runs out.
pub fn new_body(alloc: Global, draft: &Draft, guid: Option<Guid>) -> Result<Body, NoMemory>
    requires { HasGuid draft.now guid }
    ensures { IfOk result (λ body. body ≡ new_body draft.now (unwrap_or guid [])) }
{
    if !has_share_type(draft) {
        return Ok(Body::Plain);
    }
    match (root_given(draft), guid) {
        (Some(root), Some(guid)) => Ok(Body::Share(share_of(alloc, root, guid, draft)?)),
        (Some(_), None) => Ok(Body::Plain),
        (None, _) => Ok(Body::Plain),
    }
}

fn keep_other(
    rest: &mut VecDeque<Participant>,
    p: Participant,
    user: &UserName,
) -> Result<(), NoMemory>
    ensures { OnOk result (rest.new.items ≡ filter (is_other user.now) (p ∷ []) ++ rest.old.items) }
{
    if *user == p.user {
        return Ok(());
    }
    rest.push_front(p)?;
    Ok(())
}

#[tactic(auto, using(crate::proofs::ParticipantLemmas::one_left))]
fn participants_without(
    alloc: Global,
    participants: Participants,
    user: &UserName,
) -> Result<Participants, NoMemory>
    ensures { IfOk result (λ after. after ≡ filter (is_other user.now) participants) }
{
    let mut left = participants;
    let mut rest = VecDeque::new(alloc);
    while let Some(p) = left.pop() {
        keep_other(&mut rest, p, user)?;
    }
    Ok(Items::from_vec(rest.into_vec()))
}

/// What a record is beside its fields once the user has left it, if it is a share. It fails only
/// where memory runs out.
pub fn body_without(alloc: Global, body: Body, user: &UserName) -> Result<Body, NoMemory>
    ensures { IfOk result (λ after. after ≡ body_without user.now body) }
{
    match body {
        Body::Plain => Ok(Body::Plain),
        Body::Share(share) => Ok(Body::Share(Share {
            root: share.root,
            guid: share.guid,
            public: share.public,
            participants: participants_without(alloc, share.participants, user)?,
        })),
    }
}

/// What a record is beside its fields after a put. It fails only where memory runs out.
pub fn body_after(alloc: Global, body: Body, draft: &Draft) -> Result<Body, NoMemory>
    ensures { IfOk result (λ after. after ≡ body_after body draft.now) }
{
    match body {
        Body::Plain => Ok(Body::Plain),
        Body::Share(share) => Ok(Body::Share(share_after(alloc, share, draft)?)),
    }
}
