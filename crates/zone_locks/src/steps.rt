// The kinds of step that change what a pass knows. To move the value out of the slot and back changes nothing of it.
ghost use Rattle.std.specs.Prelude.{[]};
ghost use Rattle.zone_locks.specs.Steps.{draws, looks, notes, serves, seer, told_view, learns};

use crate::grows::Grows;
use crate::rule::{Turned, View};
use atomic_table::{Join, Play, Split};

/// Draws a ticket.
pub(crate) struct Draw;

impl<T: Grows> Play<Option<Turned<T>>, View<T::Item>> for Draw {
    ghost then = { draws T.seat_of };
}

/// Looks at the ticket that is served.
pub(crate) struct Look;

impl<T: Grows> Play<Option<Turned<T>>, View<T::Item>> for Look {
    ghost then = { looks T.items T.seat_of };
}

/// Gives the slot back, and notes the list that was put there.
pub(crate) struct Note;

impl<T: Grows> Play<Option<Turned<T>>, View<T::Item>> for Note {
    ghost then = { notes T.items };
}

/// Serves the next ticket.
pub(crate) struct Serve;

impl<T: Grows> Play<Option<Turned<T>>, View<T::Item>> for Serve {
    ghost then = { serves };
}

/// Splits a pass.
pub(crate) struct Cut;

impl<I> Split<View<I>> for Cut {
    ghost left = { λ v. v };

    ghost right = { λ v. seer v.seen };
}

/// Joins a pass with another, which is spent.
pub(crate) struct Glue;

impl<I> Join<View<I>> for Glue {
    ghost both = { told_view };

    ghost spent = { seer [] };
}

/// The end of a join: what was told is seen.
pub(crate) struct Learn;

impl<T: Grows> Play<Option<Turned<T>>, View<T::Item>> for Learn {
    ghost then = { learns T.seat_of };
}
