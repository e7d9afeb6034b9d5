// The records that puts write.
ghost use Rattle.std.specs.Prelude.{◌≡◌, IfOk, true, is_some, unwrap_or, [], if◌then◌else◌};
ghost use Rattle.zone_model.specs.Requests.{drops_fields, new_parent};
ghost use Rattle.zone_model.specs.Putting.{new_record, changed_record};
ghost use Rattle.zone_judging.specs.Asked.{named};
ghost use Rattle.zone_judging.specs.Wishes.{AreInOrder};
ghost use Rattle.zone_puts.specs.Orders.{AreFieldsInOrder};
ghost use Rattle.zone_puts.specs.Beginnings.{CanBegin, CanWrite, begun, written_with};

use crate::fields::after_wishes;
use crate::shares::{body_after, new_body};
use ck_base::{Items, NoMemory, RecordName};
use record_model::{Draft, Fields, Record, Stamp};
use std::alloc::Global;
use zone_judging::{NamedOp, drops_fields, is_create, makes_new, new_parent};
use zone_model::OpKind;

pub(crate) fn copy_stamp(stamp: &Stamp) -> Result<Stamp, NoMemory>
    ensures { IfOk result (λ copy. copy ≡ stamp.now) }
{
    Ok(Stamp {
        moment: stamp.moment,
        user: stamp.user.clone()?,
    })
}

fn copy_parent(draft: &Draft) -> Result<Option<RecordName>, NoMemory>
    ensures { IfOk result (λ parent. parent ≡ new_parent draft.now) }
{
    match new_parent(draft) {
        Some(parent) => Ok(Some(parent.clone()?)),
        None => Ok(None),
    }
}

fn copy_type(draft: &Draft) -> Result<RecordName, NoMemory>
    requires { is_some draft.now.rtype ≡ true }
    ensures { IfOk result (λ rtype. rtype ≡ unwrap_or draft.now.rtype []) }
{
    let rtype = draft.rtype.as_ref().unwrap();
    Ok(rtype.clone()?)
}

/// The record that a put begins. Its tag is 0, and its stamps are the one given: the commit that
/// writes it sets them. It fails only where memory runs out.
pub fn new_record(alloc: Global, p: &NamedOp, stamp: &Stamp) -> Result<Record, NoMemory>
    requires begins { CanBegin p.now }
    requires wishes { AreInOrder p.now.op.now.draft.fields }
    ensures { IfOk result (λ row. row ≡ begun stamp.now (new_record (named p.now))) }
{
    let draft = &p.op.draft;
    Ok(Record {
        name: p.name.clone()?,
        rtype: copy_type(draft)?,
        tag: 0,
        parent: copy_parent(draft)?,
        share: None,
        fields: after_wishes(alloc, Items::new(alloc), draft.fields.as_slice())?,
        created: copy_stamp(stamp)?,
        modified: copy_stamp(stamp)?,
        body: new_body(alloc, draft, p.guid)?,
    })
}

// The fields that stay where the operation finds these.
fn fields_left(alloc: Global, kind: OpKind, fields: Fields) -> Fields
    requires { AreFieldsInOrder fields }
    ensures told { result ≡ (if drops_fields kind then [] else fields) }
    ensures ordered { AreFieldsInOrder result }
{
    if drops_fields(kind) {
        Items::new(alloc)
    } else {
        fields
    }
}

/// The record after a put: it keeps its type and its parent, and its tag and its stamps until they
/// are set. It fails only where memory runs out.
pub fn changed_record(alloc: Global, p: &NamedOp, row: Record) -> Result<Record, NoMemory>
    requires fields { AreFieldsInOrder row.fields }
    requires wishes { AreInOrder p.now.op.now.draft.fields }
    ensures { IfOk result (λ after. after ≡ changed_record (named p.now) row) }
{
    let draft = &p.op.draft;
    let left = fields_left(alloc, p.op.kind, row.fields);
    Ok(Record {
        name: row.name,
        rtype: row.rtype,
        tag: row.tag,
        parent: row.parent,
        share: row.share,
        fields: after_wishes(alloc, left, draft.fields.as_slice())?,
        created: row.created,
        modified: row.modified,
        body: body_after(alloc, row.body, draft)?,
    })
}

/// What a put writes where the caller sees this record, or none, of its name; a record that it
/// begins has the stamp. It fails only where memory runs out.
pub fn written_over(
    alloc: Global,
    p: &NamedOp,
    old: Option<Record>,
    stamp: &Stamp,
) -> Result<Option<Record>, NoMemory>
    requires ready { CanWrite p.now old }
    requires wishes { AreInOrder p.now.op.now.draft.fields }
    ensures { IfOk result (λ row. row ≡ written_with stamp.now (named p.now) old) }
{
    match old {
        None => {
            if makes_new(p.op.kind) {
                Ok(Some(new_record(alloc, p, stamp)?))
            } else {
                Ok(None)
            }
        }
        Some(row) => {
            if is_create(p.op.kind) {
                Ok(None)
            } else {
                Ok(Some(changed_record(alloc, p, row)?))
            }
        }
    }
}
