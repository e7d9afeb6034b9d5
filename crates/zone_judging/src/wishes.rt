// The fields of a record after a put, without making them. The names of the fields that the put gives
// ascend, so that each field of the record is looked for among them in some log steps.
ghost use Rattle.std.specs.Prelude.{◌≡◌, ◌-◌, ◌^◌, min, nat_lt, sum_by};
ghost use Rattle.record_model.specs.RecordSizes.{size_of_field};
ghost use Rattle.zone_model.specs.Limits.{most_record_size};
ghost use Rattle.zone_model.specs.Putting.{after_wishes};
ghost use Rattle.zone_judging.specs.Wishes.{AreInOrder, is_wished, kept_size, given_size};

use ck_base::RecordName;
use ck_base::limits::RECORD_SIZE;
use record_model::{Field, Value, Wish, size_of};
use std::cmp::Ordering;

// Whether one of the wishes names the field.
#[tactic(auto, using(crate::proofs::WishLemmas::nothing_wished, crate::proofs::WishLemmas::wished_here, crate::proofs::WishLemmas::wished_front, crate::proofs::WishLemmas::wished_behind, crate::proofs::WishLemmas::front_ordered, crate::proofs::WishLemmas::behind_ordered))]
pub(crate) fn is_wished(wishes: &[Wish], name: &RecordName) -> bool
    requires { AreInOrder wishes.now }
    ensures { result ≡ is_wished wishes.now name.now }
{
    let (front, back) = wishes.split_at(wishes.len() / 2);
    match back.split_first() {
        None => false,
        Some((wish, behind)) => match name.cmp(&wish.0) {
            Ordering::Less => is_wished(front, name),
            Ordering::Equal => true,
            Ordering::Greater => is_wished(behind, name),
        },
    }
}

fn field_size(name: &RecordName, value: &Value) -> u64
    ensures { result ≡ min (size_of_field (name.now, value.now)) (2 ^ 64 - 1) }
{
    size_of(value).saturating_add(name.as_bytes().len() as u64 + 8)
}

fn kept_field_size(wishes: &[Wish], field: &Field) -> u64
    requires { AreInOrder wishes.now }
    ensures { result ≡ min (kept_size wishes.now field.now) (2 ^ 64 - 1) }
{
    if is_wished(wishes, &field.0) {
        0
    } else {
        field_size(&field.0, &field.1)
    }
}

fn given_size(wish: &Wish) -> u64
    ensures { result ≡ min (given_size wish.now) (2 ^ 64 - 1) }
{
    match &wish.1 {
        Some(value) => field_size(&wish.0, value),
        None => 0,
    }
}

fn all_kept_size(wishes: &[Wish], fields: &[Field]) -> u64
    requires { AreInOrder wishes.now }
    ensures { result ≡ min (sum_by (kept_size wishes.now) fields.now) (2 ^ 64 - 1) }
{
    let mut total = 0u64;
    for field in fields {
        total = total.saturating_add(kept_field_size(wishes, field));
    }
    total
}

fn all_given_size(wishes: &[Wish]) -> u64
    ensures { result ≡ min (sum_by given_size wishes.now) (2 ^ 64 - 1) }
{
    let mut total = 0u64;
    for wish in wishes {
        total = total.saturating_add(given_size(wish));
    }
    total
}

#[tactic(auto, using(crate::proofs::SizeLemmas::size_after, crate::proofs::SizeLemmas::added))]
fn size_after(fields: &[Field], wishes: &[Wish]) -> u64
    requires { AreInOrder wishes.now }
    ensures { result ≡ min (sum_by size_of_field (after_wishes fields.now wishes.now)) (2 ^ 64 - 1) }
{
    all_kept_size(wishes, fields).saturating_add(all_given_size(wishes))
}

// Whether the fields are too large after the wishes.
#[tactic(auto, using(crate::proofs::SizeLemmas::over))]
pub(crate) fn are_too_large(fields: &[Field], wishes: &[Wish]) -> bool
    requires { AreInOrder wishes.now }
    ensures { result ≡ nat_lt most_record_size (sum_by size_of_field (after_wishes fields.now wishes.now)) }
{
    size_after(fields, wishes) > RECORD_SIZE
}
