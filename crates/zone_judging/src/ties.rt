// How records are tied to others of their zone.
ghost use Rattle.std.specs.Prelude.{◌≡◌, ◌&&◌, option_map};
ghost use Rattle.zone_model.specs.Names.{same};
ghost use Rattle.zone_model.specs.References.{validates, deletes_self, wants, goes_with};
ghost use Rattle.name_rules.specs.Options.{is_some_and};
ghost use Rattle.zone_judging.specs.Ties.{is_tied, is_behind};

use crate::references::{RefTest, any_in_fields};
use ck_base::RecordName;
use record_model::{Action, Record, RefTo};

/// How a record is tied to another one of its zone.
#[derive(Clone, Copy, Debug, PartialEq, Eq)]
pub enum Tie {
    /// The other one is its parent.
    Child,
    /// It refers to the other one, and wants it to be there.
    Wants,
    /// It refers to the other one, and is to be deleted with it.
    GoesWith,
}

// A reference that wants its target to be there.
pub(crate) fn validates(action: Action) -> bool
    ensures { result ≡ validates action }
{
    match action {
        Action::Plain => false,
        Action::DeleteSelf => false,
        Action::Validate => true,
    }
}

// A reference whose record goes with its target.
pub(crate) fn deletes_self(action: Action) -> bool
    ensures { result ≡ deletes_self action }
{
    match action {
        Action::Plain => false,
        Action::DeleteSelf => true,
        Action::Validate => false,
    }
}

// A reference that wants this name to be there.
#[derive(Drop)]
pub(crate) struct WantsName<'n> {
    pub(crate) name: &'n RecordName,
}

impl<'n> RefTest for WantsName<'n> {
    ghost test = { λ t to. validates to.action && same t.name.now to.name };

    fn passes(&self, to: &RefTo) -> bool {
        validates(to.action) && *self.name == to.name
    }
}

// A reference whose record goes with this name.
#[derive(Drop)]
struct GoesWithName<'n> {
    name: &'n RecordName,
}

impl<'n> RefTest for GoesWithName<'n> {
    ghost test = { λ t to. deletes_self to.action && same t.name.now to.name };

    fn passes(&self, to: &RefTo) -> bool {
        deletes_self(to.action) && *self.name == to.name
    }
}

fn is_child(row: &Record, name: &RecordName) -> bool
    ensures { result ≡ is_some_and (same name.now) row.now.parent }
{
    match &row.parent {
        Some(parent) => *name == *parent,
        None => false,
    }
}

fn wants(row: &Record, name: &RecordName) -> bool
    ensures { result ≡ wants name.now row.now }
{
    any_in_fields(&WantsName { name }, row.fields.as_slice())
}

fn goes_with(row: &Record, name: &RecordName) -> bool
    ensures { result ≡ goes_with name.now row.now }
{
    any_in_fields(&GoesWithName { name }, row.fields.as_slice())
}

pub(crate) fn is_tied(tie: Tie, row: &Record, name: &RecordName) -> bool
    ensures { result ≡ is_tied tie name.now row.now }
{
    match tie {
        Tie::Child => is_child(row, name),
        Tie::Wants => wants(row, name),
        Tie::GoesWith => goes_with(row, name),
    }
}

pub(crate) fn is_behind(after: Option<&RecordName>, row: &Record) -> bool
    ensures { result ≡ is_behind (option_map (λ x. x.now) after.entry) row.now }
{
    match after {
        Some(name) => *name < row.name,
        None => true,
    }
}
