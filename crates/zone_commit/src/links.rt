// Links from names to names.
ghost use Rattle.std.specs.Prelude.{◌≡◌, ℕ, List, [], not, filter, find, if◌then◌else◌, OnOk};
ghost use Rattle.std.specs.List.{list_any};
ghost use Rattle.std.specs.Option.{option_copied};
ghost use Rattle.ck_base.specs.Order.{is_before};
ghost use Rattle.zone_model.specs.Names.{same, with_name};
ghost use Rattle.zone_model.specs.References.{deletes_self, references_in};
ghost use Rattle.zone_records.specs.Next.{first_after};
ghost use Rattle.zone_commit.specs.Maps.{linked, with_or_without, Relinked, takes_along, element_takes_along, field_takes_along};

use ck_base::{NoMemory, RecordName};
use record_model::{Action, Field, RefTo, Value};
use std::alloc::Global;
use std::collections::{BTreeMap, BTreeSet};
use std::ops::Bound;

/// Names, in ascending order.
pub(crate) type Names = BTreeSet<RecordName>;

/// For each name those that it is linked to. A name that is linked to none may stand there with none.
pub(crate) type Links = BTreeMap<RecordName, Names>;

fn add_name(names: &mut Names, name: &RecordName) -> Result<(), NoMemory>
    ensures { OnOk result (names.new.keys ≡ with_name names.old.keys name.now) }
{
    let _count = names.len();
    names.insert(name.clone()?)?;
    Ok(())
}

fn drop_name(names: &mut Names, name: &RecordName)
    ensures { names.new.keys ≡ filter (λ y. not (same name.now y)) names.old.keys }
{
    if names.len() > 0 {
        let _found = names.remove(name);
    }
}

// What a name is linked to, taken out.
fn take_names(alloc: Global, links: &mut Links, above: &RecordName) -> Names
    ensures taken { result.keys ≡ linked links.old above.now }
    ensures rest { (x : List ℕ) → linked links.new x ≡ (if same x above.now then [] else linked links.old x) }
{
    match links.remove(above) {
        Some(names) => names,
        None => BTreeSet::new(alloc),
    }
}

// Links a name that is linked to none to these names.
fn put_names(links: &mut Links, above: &RecordName, names: Names) -> Result<(), NoMemory>
    requires { linked links.old above.now ≡ [] }
    ensures { OnOk result ((x : List ℕ) → linked links.new x ≡ (if same x above.now then names.keys else linked links.old x)) }
{
    if names.len() > 0 {
        links.insert(above.clone()?, names)?;
    }
    Ok(())
}

fn set_name(names: &mut Names, name: &RecordName, there: bool) -> Result<(), NoMemory>
    ensures { OnOk result (names.new.keys ≡ with_or_without there names.old.keys name.now) }
{
    if there {
        add_name(names, name)
    } else {
        drop_name(names, name);
        Ok(())
    }
}

// Links a name to another, or takes the link out.
pub(crate) fn set_link(
    alloc: Global,
    links: &mut Links,
    above: &RecordName,
    name: &RecordName,
    there: bool,
) -> Result<(), NoMemory>
    ensures { OnOk result (Relinked (λ x. same x above.now) there name.now links.old links.new) }
{
    let mut names = take_names(alloc, links, above);
    set_name(&mut names, name, there)?;
    put_names(links, above, names)
}

fn deletes_self(action: Action) -> bool
    ensures { result ≡ deletes_self action }
{
    match action {
        Action::DeleteSelf => true,
        _ => false,
    }
}

fn set_reference(
    alloc: Global,
    links: &mut Links,
    to: &RefTo,
    name: &RecordName,
    there: bool,
) -> Result<(), NoMemory>
    ensures { OnOk result (Relinked (takes_along to.now) there name.now links.old links.new) }
{
    if !deletes_self(to.action) {
        return Ok(());
    }
    set_link(alloc, links, &to.name, name, there)
}

fn set_single(
    alloc: Global,
    links: &mut Links,
    value: &Value,
    name: &RecordName,
    there: bool,
) -> Result<(), NoMemory>
    ensures { OnOk result (Relinked (λ x. element_takes_along x value.now) there name.now links.old links.new) }
{
    match value {
        Value::Reference(to) => set_reference(alloc, links, to, name, there),
        _ => Ok(()),
    }
}

fn set_elements(
    alloc: Global,
    links: &mut Links,
    values: &[Value],
    name: &RecordName,
    there: bool,
) -> Result<(), NoMemory>
    ensures { OnOk result (Relinked (λ x. list_any (element_takes_along x) values.now) there name.now links.old links.new) }
{
    for value in values {
        set_single(alloc, links, value, name, there)?;
    }
    Ok(())
}

fn set_value(
    alloc: Global,
    links: &mut Links,
    value: &Value,
    name: &RecordName,
    there: bool,
) -> Result<(), NoMemory>
    ensures { OnOk result (Relinked (λ x. list_any (λ q. takes_along q x) (references_in value.now)) there name.now links.old links.new) }
{
    match value {
        Value::List(_, items) => set_elements(alloc, links, items.as_slice(), name, there),
        _ => set_single(alloc, links, value, name, there),
    }
}

// Links each name that one of the fields has a DELETE_SELF reference to, or takes these links out.
pub(crate) fn set_fields(
    alloc: Global,
    links: &mut Links,
    fields: &[Field],
    name: &RecordName,
    there: bool,
) -> Result<(), NoMemory>
    ensures { OnOk result (Relinked (λ x. list_any (field_takes_along x) fields.now) there name.now links.old links.new) }
{
    for field in fields {
        set_value(alloc, links, &field.1, name, there)?;
    }
    Ok(())
}

/// The first name that another is linked to after a given one.
pub(crate) fn next_name<'a>(
    links: &'a Links,
    above: &RecordName,
    after: Option<&RecordName>,
) -> Option<&'a RecordName>
    ensures { option_copied result ≡ first_after (option_copied after.entry) (linked links.now above.now) }
{
    match links.get(above) {
        Some(names) => first_name(names, after),
        None => None,
    }
}

fn name_after<'a>(names: &'a Names, after: &RecordName) -> Option<&'a RecordName>
    ensures { option_copied result ≡ find (is_before after.now) names.now.keys }
{
    names
        .range((Bound::Excluded(after), Bound::Unbounded))
        .next()
}

fn first_name<'a>(names: &'a Names, after: Option<&RecordName>) -> Option<&'a RecordName>
    ensures { option_copied result ≡ first_after (option_copied after.entry) names.now.keys }
{
    match after {
        Some(after) => name_after(names, after),
        None => names.iter().next(),
    }
}
