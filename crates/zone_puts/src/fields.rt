// The fields of a record after a put. The fields and what is given both stand in the order of their
// names, so that they are merged: n fields and k that are given take some n + k comparisons of names.
ghost use Rattle.std.specs.Prelude.{◌≡◌, ◌++◌, false, filter, IfOk, OnOk};
ghost use Rattle.zone_model.specs.Putting.{after_wishes};
ghost use Rattle.zone_judging.specs.Wishes.{AreInOrder};
ghost use Rattle.zone_puts.specs.Orders.{AreFieldsInOrder, stands_before, stands_behind, begins_before, begins_with, IsNextBefore, given};

use ck_base::{Items, NoMemory, RecordName};
use record_model::{Field, Fields, Wish, copy_value};
use std::alloc::Global;
use std::collections::VecDeque;

// The fields, to be taken one by one from the front.
fn in_turn(alloc: Global, fields: Fields) -> Result<VecDeque<Field>, NoMemory>
    ensures { IfOk result (λ rest. rest.items ≡ fields) }
{
    let mut left = fields;
    let mut rest = VecDeque::new(alloc);
    while let Some(field) = left.pop() {
        rest.push_front(field)?;
    }
    Ok(rest)
}

fn begins_before(rest: &VecDeque<Field>, name: &RecordName) -> bool
    ensures { result ≡ begins_before name.now rest.now.items }
{
    match rest.front() {
        Some(field) => field.0 < *name,
        None => false,
    }
}

fn next_before(rest: &mut VecDeque<Field>, name: &RecordName) -> Option<Field>
    ensures { IsNextBefore name.now rest.old.items result rest.new.items }
{
    if begins_before(rest, name) {
        rest.pop_front()
    } else {
        None
    }
}

#[tactic(auto, using(crate::proofs::FieldLemmas::one_moved, crate::proofs::FieldLemmas::all_moved))]
fn move_before(
    rest: &mut VecDeque<Field>,
    name: &RecordName,
    after: &mut Vec<Field>,
) -> Result<(), NoMemory>
    requires { AreFieldsInOrder rest.old.items }
    ensures moved { OnOk result (after.new.items ≡ after.old.items ++ filter (stands_before name.now) rest.old.items) }
    ensures behind { OnOk result (filter (stands_behind name.now) rest.new.items ≡ filter (stands_behind name.now) rest.old.items) }
    ensures left { OnOk result (begins_before name.now rest.new.items ≡ false) }
    ensures ordered { OnOk result (AreFieldsInOrder rest.new.items) }
{
    while let Some(field) = next_before(rest, name) {
        after.push(field)?;
    }
    Ok(())
}

fn begins_with(rest: &VecDeque<Field>, name: &RecordName) -> bool
    ensures { result ≡ begins_with name.now rest.now.items }
{
    match rest.front() {
        Some(field) => field.0 == *name,
        None => false,
    }
}

#[tactic(auto, using(crate::proofs::FieldLemmas::same_skipped, crate::proofs::FieldLemmas::none_skipped))]
fn skip_same(rest: &mut VecDeque<Field>, name: &RecordName)
    requires ordered { AreFieldsInOrder rest.old.items }
    requires left { begins_before name.now rest.old.items ≡ false }
    ensures { rest.new.items ≡ filter (stands_behind name.now) rest.old.items }
{
    if begins_with(rest, name) {
        rest.pop_front();
    }
}

// The fields before the name go to those that are done, and one of that name goes.
fn pass(
    rest: &mut VecDeque<Field>,
    name: &RecordName,
    after: &mut Vec<Field>,
) -> Result<(), NoMemory>
    requires { AreFieldsInOrder rest.old.items }
    ensures moved { OnOk result (after.new.items ≡ after.old.items ++ filter (stands_before name.now) rest.old.items) }
    ensures behind { OnOk result (rest.new.items ≡ filter (stands_behind name.now) rest.old.items) }
{
    move_before(rest, name, after)?;
    skip_same(rest, name);
    Ok(())
}

fn give(alloc: Global, wish: &Wish, after: &mut Vec<Field>) -> Result<(), NoMemory>
    ensures { OnOk result (after.new.items ≡ after.old.items ++ given wish.now) }
{
    if let Some(value) = &wish.1 {
        after.push((wish.0.clone()?, copy_value(alloc, value)?))?;
    }
    Ok(())
}

fn take_rest(rest: VecDeque<Field>, after: &mut Vec<Field>) -> Result<(), NoMemory>
    ensures { OnOk result (after.new.items ≡ after.old.items ++ rest.items) }
{
    let mut left = rest;
    while let Some(field) = left.pop_front() {
        after.push(field)?;
    }
    Ok(())
}

/// The fields of a record after a put that gives these: one that is given takes its place by name,
/// and one that is given without a value goes. It fails only where memory runs out.
pub fn after_wishes(alloc: Global, fields: Fields, wishes: &[Wish]) -> Result<Fields, NoMemory>
    requires fields { AreFieldsInOrder fields }
    requires wishes { AreInOrder wishes.now }
    ensures { IfOk result (λ after. after ≡ after_wishes fields wishes.now) }
{
    let mut rest = in_turn(alloc, fields)?;
    let mut after = Vec::new(alloc);
    for wish in wishes {
        pass(&mut rest, &wish.0, &mut after)?;
        give(alloc, wish, &mut after)?;
    }
    take_rest(rest, &mut after)?;
    Ok(Items::from_vec(after))
}
