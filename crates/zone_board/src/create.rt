// Creations of records, each with its name.
ghost use Rattle.std.specs.Prelude.{◌≡◌, ◌<◌, ◌++◌, ◌∷◌, [], true, length, IfOk};
ghost use Rattle.std.specs.List.{AllByRecursion};
ghost use Rattle.record_model.specs.DraftForms.{IsMeantDraft, AreWishes};
ghost use Rattle.zone_model.specs.Events.{log_of};
ghost use Rattle.plain_creates.specs.OnePuts.{IsOnePut};
ghost use Rattle.plain_creates.specs.PlainCreates.{is_plain_create};
ghost use Rattle.zone_board.specs.Kept.{IsCreation};
ghost use Rattle.zone_board.specs.Creations.{given_field, given_fields, first_of_type, first_record};
ghost use Rattle.zone_board.specs.Askings.{commit_by, with_name, one_done, IsOfOwner};

use crate::find::is_taken;
use ck_base::limits::RECORD_SIZE;
use ck_base::{Items, NoMemory, RecordName, UserName, ZoneKey};
use record_model::{
    Body, Draft, Field, Fields, Record, Stamp, Wish, copy_record, copy_value, record_size,
};
use std::alloc::Global;
use zone_model::{Act, Commit, Event, Op, OpFault, Outcome, Write};

/// Who asks for creations in which zone, and when.
#[derive(Clone, Copy)]
pub(crate) struct Asking<'a> {
    pub(crate) user: &'a UserName,
    pub(crate) key: &'a ZoneKey,
    pub(crate) moment: u64,
}

fn copy_given(alloc: Global, wish: &Wish) -> Result<Option<Field>, NoMemory>
    ensures { IfOk result (λ field. field ≡ given_field wish.now) }
{
    match &wish.1 {
        Some(value) => Ok(Some((wish.0.clone()?, copy_value(alloc, value)?))),
        None => Ok(None),
    }
}

fn copy_all_given(alloc: Global, wishes: &[Wish]) -> Result<Fields, NoMemory>
    ensures { IfOk result (λ fields. fields ≡ given_fields wishes.now) }
{
    let mut fields = Vec::new(alloc);
    for wish in wishes {
        if let Some(field) = copy_given(alloc, wish)? {
            fields.push(field)?;
        }
    }
    Ok(Items::from_vec(fields))
}

fn stamp(asking: Asking) -> Result<Stamp, NoMemory>
    ensures { IfOk result (λ stamp. stamp ≡ record { moment = asking.entry.moment; user = asking.entry.user.now }) }
{
    Ok(Stamp {
        moment: asking.moment,
        user: asking.user.clone()?,
    })
}

// The first record of a name, whose tag is 1 since nothing has put the name.
fn first_of_type(
    alloc: Global,
    asking: Asking,
    name: RecordName,
    rtype: &RecordName,
    wishes: &[Wish],
) -> Result<Record, NoMemory>
    ensures { IfOk result (λ row. row ≡ first_of_type asking.entry.user.now asking.entry.moment name rtype.now (given_fields wishes.now)) }
{
    Ok(Record {
        name,
        rtype: rtype.clone()?,
        tag: 1,
        parent: None,
        share: None,
        fields: copy_all_given(alloc, wishes)?,
        created: stamp(asking)?,
        modified: stamp(asking)?,
        body: Body::Plain,
    })
}

// The record of a draft with its name, unless it has no type or is too large.
fn first_record(
    alloc: Global,
    asking: Asking,
    name: RecordName,
    draft: &Draft,
) -> Result<Option<Record>, NoMemory>
    requires { AreWishes draft.now.fields }
    ensures { IfOk result (λ row. row ≡ first_record asking.entry.user.now asking.entry.moment name draft.now) }
{
    let Some(rtype) = &draft.rtype else {
        return Ok(None);
    };
    let row = first_of_type(alloc, asking, name, rtype, draft.fields.as_slice())?;
    if record_size(&row) > RECORD_SIZE {
        return Ok(None);
    }
    Ok(Some(row))
}

fn put_commit(alloc: Global, asking: Asking, row: Record) -> Result<Commit, NoMemory>
    ensures { IfOk result (λ commit. commit ≡ commit_by asking.entry row) }
{
    let mut writes = Items::new(alloc);
    writes.push(Write::Put(row))?;
    Ok(Commit {
        key: asking.key.clone()?,
        user: asking.user.clone()?,
        moment: asking.moment,
        act: Act::Writes(writes),
    })
}

fn refused(fault: OpFault) -> Outcome
    ensures { result ≡ Outcome.Refused fault None }
{
    Outcome::Refused {
        fault,
        server: None,
    }
}

/// The outcome of a creation after the events and the commits, to which its own is added.
pub(crate) fn create_record(
    alloc: Global,
    events: &[Event],
    commits: &mut Vec<Commit>,
    asking: Asking,
    op: &Op,
    name: RecordName,
) -> Result<Outcome, NoMemory>
    requires own { IsOfOwner asking }
    requires puts { AllByRecursion IsOnePut (log_of events.now ++ commits.now.items) }
    requires plain { is_plain_create op.now ≡ true }
    requires meant { IsMeantDraft op.now.draft }
    ensures told { IfOk result (λ outcome. (one_done asking.entry (log_of events.now ++ commits.old.items) (with_name op.now name)).outcomes ≡ outcome ∷ []) }
    ensures made { IfOk result (λ _. commits.new.items ≡ commits.old.items ++ (one_done asking.entry (log_of events.now ++ commits.old.items) (with_name op.now name)).commits) }
    ensures formed { IfOk result (λ _. AllByRecursion (IsCreation asking.entry.key.now) (one_done asking.entry (log_of events.now ++ commits.old.items) (with_name op.now name)).commits) }
{
    if is_taken(events, commits, asking.key, &name) {
        return Ok(refused(OpFault::Exists));
    }
    let Some(row) = first_record(alloc, asking, name, &op.draft)? else {
        return Ok(refused(OpFault::BadRequest));
    };
    let shown = copy_record(alloc, &row)?;
    commits.push(put_commit(alloc, asking, row)?)?;
    Ok(Outcome::Put(shown))
}
