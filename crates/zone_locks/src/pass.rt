// A pass, and the value while a pass has it.
ghost use Rattle.std.specs.Prelude.{◌<◌, ◌+◌, ◌^◌};

use crate::grows::Grows;
use crate::lock::ZoneLock;
use crate::rule::{Turned, View};
use atomic_table::Seat;
use std::marker::Model;
use std::snapshot::Snapshot;

/// What a thread goes to the lock with. Contracts see what it knows.
#[derive(Drop)]
pub struct Pass<T: Grows> {
    pub(crate) seat: Seat<Option<Turned<T>>, View<T::Item>>,
    /// The seat of its items: the first pass's is 0, and any other has one from its first take on.
    pub(crate) number: Option<u64>,
    /// How many items of its seat it has seen.
    pub(crate) count: u64,
}

impl<T: Grows> Model for Pass<T> {
    ghost use Rattle.zone_locks.specs.Passes.{Known, known, IsSound};

    ghost Value = { Known T.Item };

    ghost view = { λ p. known p.seat.table_id p.seat.me };

    ghost invariant = { λ p. IsSound T.seat_of p.number p.count p.seat.me };
}

/// The value, while a pass has it. It is given back, and not dropped.
pub struct Held<T: Grows> {
    pub value: T,
    /// The seat of the items that are added.
    pub seat: u64,
    /// How many items of the seat the list had when it was taken.
    pub count: u64,
    pub(crate) ticket: u64,
    /// How long the list was when it was taken.
    pub(crate) found: u64,
    /// The lock that it is of.
    pub(crate) lock: Snapshot<ZoneLock<T>>,
    pub(crate) ghost room: { ticket + 1 < 2 ^ 64 },
}
