// The rule of the lock's table. Its first word is the next ticket, its second the ticket that is served, and its
// slot has the value.
use crate::grows::Grows;
use atomic_table::TableRule;
use std::collections::LinkedList;
use std::marker::PhantomData;
use std::snapshot::Snapshot;

/// The value, and the ticket for which it stands.
#[derive(Drop)]
pub(crate) struct Turned<T> {
    pub value: T,
    pub turn: u64,
}

/// Where a pass is. No value of it is made.
pub(crate) enum Stage {
    Idle,
    Waits(u64),
    In(u64),
    /// The value is back in the slot, and the next ticket is not yet served.
    Back(u64),
}

/// What a pass knows. No value of it is made.
pub(crate) struct View<I> {
    pub seen: LinkedList<I>,
    /// What a pass that it met had seen.
    pub told: LinkedList<I>,
    /// The list that it has put back.
    pub put: LinkedList<I>,
    /// The items that it made.
    pub made: LinkedList<I>,
    /// One more than its last ticket, or 0.
    pub drawn: u64,
    pub stage: Stage,
    /// Its seat: the first pass's is 0, and any other has one from its first ticket on.
    pub seat: Option<u64>,
}

pub(crate) struct Turns<T> {
    marker: PhantomData<T>,
}

impl<T: Grows> TableRule<Option<Turned<T>>, View<T::Item>, Snapshot<T>> for Turns<T> {
    ghost use Rattle.zone_locks.specs.Rules.{IsKept, first_view};

    ghost holds = { λ key. IsKept T.items T.seat_of };

    ghost first = { λ key. first_view (T.items key.value) };
}
