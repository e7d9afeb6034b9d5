// Copies of records and of what they are made of.
ghost use Rattle.std.specs.Prelude.{◌≡◌, IfOk};

use crate::{Body, Field, Fields, Record, Stamp, copy_value};
use ck_base::{Items, NoMemory, RecordName};
use share_records::{Participant, Participants, Share};
use std::alloc::Global;

pub(crate) fn copy_name(name: &Option<RecordName>) -> Result<Option<RecordName>, NoMemory>
    ensures { IfOk result (λ copy. copy ≡ name.now) }
{
    match name {
        Some(name) => Ok(Some(name.clone()?)),
        None => Ok(None),
    }
}

pub(crate) fn copy_field(alloc: Global, field: &Field) -> Result<Field, NoMemory>
    ensures { IfOk result (λ copy. copy ≡ field.now) }
{
    Ok((field.0.clone()?, copy_value(alloc, &field.1)?))
}

pub(crate) fn copy_stamp(stamp: &Stamp) -> Result<Stamp, NoMemory>
    ensures { IfOk result (λ copy. copy ≡ stamp.now) }
{
    Ok(Stamp {
        moment: stamp.moment,
        user: stamp.user.clone()?,
    })
}

fn copy_participant(participant: &Participant) -> Result<Participant, NoMemory>
    ensures { IfOk result (λ copy. copy ≡ participant.now) }
{
    Ok(Participant {
        user: participant.user.clone()?,
        kind: participant.kind,
        permission: participant.permission,
        accepted: participant.accepted,
    })
}

fn copy_participants(alloc: Global, participants: &[Participant]) -> Result<Participants, NoMemory>
    ensures { IfOk result (λ copy. copy ≡ participants.now) }
{
    let mut copies = Vec::new(alloc);
    for participant in participants {
        copies.push(copy_participant(participant)?)?;
    }
    Ok(Items::from_vec(copies))
}

fn copy_share(alloc: Global, share: &Share) -> Result<Share, NoMemory>
    ensures { IfOk result (λ copy. copy ≡ share.now) }
{
    Ok(Share {
        root: share.root.clone()?,
        guid: share.guid,
        public: share.public,
        participants: copy_participants(alloc, share.participants.as_slice())?,
    })
}

pub(crate) fn copy_body(alloc: Global, body: &Body) -> Result<Body, NoMemory>
    ensures { IfOk result (λ copy. copy ≡ body.now) }
{
    match body {
        Body::Plain => Ok(Body::Plain),
        Body::Share(share) => Ok(Body::Share(copy_share(alloc, share)?)),
    }
}

fn copy_fields(alloc: Global, fields: &[Field]) -> Result<Fields, NoMemory>
    ensures { IfOk result (λ copy. copy ≡ fields.now) }
{
    let mut copies = Vec::new(alloc);
    for field in fields {
        copies.push(copy_field(alloc, field)?)?;
    }
    Ok(Items::from_vec(copies))
}

/// A copy of the record. It fails only where memory runs out.
pub fn copy_record(alloc: Global, record: &Record) -> Result<Record, NoMemory>
    ensures { IfOk result (λ copy. copy ≡ «record».now) }
{
    Ok(Record {
        name: record.name.clone()?,
        rtype: record.rtype.clone()?,
        tag: record.tag,
        parent: copy_name(&record.parent)?,
        share: copy_name(&record.share)?,
        fields: copy_fields(alloc, record.fields.as_slice())?,
        created: copy_stamp(&record.created)?,
        modified: copy_stamp(&record.modified)?,
        body: copy_body(alloc, &record.body)?,
    })
}
