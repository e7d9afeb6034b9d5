// The lock.
ghost use Rattle.std.specs.Prelude.{◌≡◌, ◌≢◌, ◌<◌, ◌+◌, ◌^◌, ℕ, Some, None, [], ◌∷◌, ◌⊎◌, length, unwrap_or, IfOk, MatchBool, MatchResult};
ghost use Rattle.zone_locks.specs.Growing.{StartsWith, AreOf, GrownBy, own_of, longer};
ghost use Rattle.zone_locks.specs.Steps.{Drew, Entered, IsInside, back_view, served_view};
ghost use Rattle.zone_locks.specs.Passes.{Took, HasTaken, first_pass, newcomer, having_seen};
ghost use Rattle.zone_locks.specs.declared.rule.Stage.TheVariants.{Idle, Waits, In, Back};

use crate::grows::Grows;
use crate::pass::{Held, Pass};
use crate::rule::{Turned, Turns, View};
use crate::steps::{Cut, Draw, Glue, Learn, Look, Note, Serve};
use atomic_table::{Seat, Table};
use ck_base::NoMemory;
use std::alloc::Global;
use std::marker::Model;
use std::snapshot::Snapshot;
use std::sync::Wait;

/// A lock round a value that grows. Contracts see which lock it is.
#[derive(Drop)]
pub struct ZoneLock<T: Grows> {
    table: Table<Option<Turned<T>>, View<T::Item>, Snapshot<T>, Turns<T>, Global>,
}

impl<T: Grows> Model for ZoneLock<T> {
    ghost use Rattle.std.specs.Prelude.{◌≡◌};
    ghost use Rattle.atomic_table.specs.Seated.{TableId};

    ghost Value = { TableId };

    ghost view = { λ l. l.table.shared.table_id };

    ghost invariant = { λ l. (l.table.shared.table_id.words ≡ 2) × (l.table.shared.table_id.slots ≡ 1) };
}

impl<T: Grows> ZoneLock<T> {
    // One try to draw this ticket, or what the next ticket is.
    fn try_draw(
        &self,
        seat: &mut Seat<Option<Turned<T>>, View<T::Item>>,
        ticket: u64,
    ) -> Result<(), u64>
        requires lock { seat.old.table_id ≡ self.now }
        requires out { (seat.old.me.0.stage ≡ Idle) × (seat.old.me.1 ≡ []) }
        requires room { ticket + 1 < 2 ^ 64 }
        ensures lock { seat.new.table_id ≡ seat.old.table_id }
        ensures drew { MatchResult result (λ _. Drew T.seat_of ticket seat.old.me seat.new.me) (λ _. seat.new.me ≡ seat.old.me) }
    {
        let found = self
            .table
            .shared
            .compare_exchange::<Draw>(seat, 0, ticket, ticket + 1);
        if found == ticket { Ok(()) } else { Err(found) }
    }

    // Draws a ticket. At the last of all it waits for ever.
    fn draw<R: Wait>(&self, seat: &mut Seat<Option<Turned<T>>, View<T::Item>>, rt: &R) -> u64
        requires lock { seat.old.table_id ≡ self.now }
        requires out { (seat.old.me.0.stage ≡ Idle) × (seat.old.me.1 ≡ []) }
        ensures lock { seat.new.table_id ≡ seat.old.table_id }
        ensures room { result + 1 < 2 ^ 64 }
        ensures drew { Drew T.seat_of result seat.old.me seat.new.me }
    {
        let mut ticket = 0;
        for _ in rt.forever() {
            match self.try_draw(seat, ticket) {
                Ok(()) => return ticket,
                Err(next) if next < u64::MAX => ticket = next,
                Err(_) => {}
            }
        }
        unreachable!()
    }

    // One look at the ticket that is served. Where it is this one, the slot is taken.
    fn look(&self, seat: &mut Seat<Option<Turned<T>>, View<T::Item>>, ticket: u64) -> bool
        requires lock { seat.old.table_id ≡ self.now }
        requires waits { (seat.old.me.0.stage ≡ Waits ticket) × (seat.old.me.1 ≡ []) }
        ensures lock { seat.new.table_id ≡ seat.old.table_id }
        ensures looked { MatchBool result (Entered T.items T.seat_of ticket seat.old.me seat.new.me) (seat.new.me ≡ seat.old.me) }
    {
        self.table.shared.load::<Look>(seat, 1) == ticket
    }

    fn wait_turn<R: Wait>(
        &self,
        seat: &mut Seat<Option<Turned<T>>, View<T::Item>>,
        rt: &R,
        ticket: u64,
    )
        requires lock { seat.old.table_id ≡ self.now }
        requires waits { (seat.old.me.0.stage ≡ Waits ticket) × (seat.old.me.1 ≡ []) }
        ensures lock { seat.new.table_id ≡ seat.old.table_id }
        ensures entered { Entered T.items T.seat_of ticket seat.old.me seat.new.me }
    {
        for _ in rt.forever() {
            if self.look(seat, ticket) {
                return;
            }
        }
        unreachable!()
    }

    // Waits until the ticket is served, and moves the value out.
    #[tactic(auto, using(crate::proofs::TurnLemmas::entered_out))]
    fn enter<R: Wait>(
        &self,
        seat: &mut Seat<Option<Turned<T>>, View<T::Item>>,
        rt: &R,
        ticket: u64,
    ) -> T
        requires lock { seat.old.table_id ≡ self.now }
        requires waits { (seat.old.me.0.stage ≡ Waits ticket) × (seat.old.me.1 ≡ []) }
        ensures lock { seat.new.table_id ≡ seat.old.table_id }
        ensures inside { IsInside T.seat_of ticket (T.items result) seat.old.me seat.new.me }
    {
        self.wait_turn(seat, rt, ticket);
        let was = self.table.shared.exchange(seat, 0, None);
        let Some(turned) = was else { unreachable!() };
        turned.value
    }

    // Moves the value back for the next ticket, and notes its list.
    fn put_back(
        &self,
        seat: &mut Seat<Option<Turned<T>>, View<T::Item>>,
        value: T,
        ticket: u64,
        number: u64,
    )
        requires lock { seat.old.table_id ≡ self.now }
        requires room { ticket + 1 < 2 ^ 64 }
        requires inside { (seat.old.me.0.stage ≡ In ticket) × (seat.old.me.1 ≡ (0, None) ∷ []) × (seat.old.me.0.seat ≡ Some number) }
        requires grown { GrownBy T.seat_of number seat.old.me.0.seen (T.items value) }
        ensures lock { seat.new.table_id ≡ seat.old.table_id }
        ensures back { seat.new.me ≡ (back_view seat.old.me.0 ticket (T.items value), []) }
    {
        let back = Some(Turned {
            value,
            turn: ticket + 1,
        });
        let was = self.table.shared.exchange(seat, 0, back);
        let None = was else { unreachable!() };
        self.table.shared.load::<Note>(seat, 1);
    }

    // Serves the next ticket, once the value is back for it.
    fn serve(&self, seat: &mut Seat<Option<Turned<T>>, View<T::Item>>, ticket: u64)
        requires lock { seat.old.table_id ≡ self.now }
        requires room { ticket + 1 < 2 ^ 64 }
        requires back { (seat.old.me.0.stage ≡ Back ticket) × (seat.old.me.1 ≡ []) }
        ensures lock { seat.new.table_id ≡ seat.old.table_id }
        ensures served { seat.new.me ≡ (served_view seat.old.me.0, []) }
    {
        self.table.shared.store::<Serve>(seat, 1, ticket + 1);
    }

    /// Takes the value, once it is this pass's turn.
    #[tactic(auto, using(crate::proofs::PassLemmas::took, crate::proofs::PassLemmas::took_sound))]
    pub fn take<R: Wait>(&self, pass: &mut Pass<T>, rt: &R) -> Held<T>
        requires lock { pass.old.lock ≡ self.now }
        requires out { pass.old.turn ≡ None }
        ensures took { Took T.seat_of pass.old pass.new (T.items result.value) result.ticket result.seat result.count }
        ensures len { result.found ≡ length (T.items result.value) }
        ensures lock { result.lock.value ≡ self.now }
    {
        let ticket = self.draw(&mut pass.seat, rt);
        let seat = pass.number.unwrap_or(ticket + 1);
        let value = self.enter(&mut pass.seat, rt, ticket);
        pass.number = Some(seat);
        let found = value.len();
        Held {
            value,
            seat,
            count: pass.count,
            ticket,
            found,
            lock: Snapshot::of(self),
        }
    }

    /// Gives back the value that the pass took, as it was or with more items of its seat. The pass has then seen its list.
    pub fn give(&self, pass: &mut Pass<T>, held: Held<T>)
        requires lock { pass.old.lock ≡ self.now }
        requires held { held.lock.value ≡ self.now }
        requires taken { HasTaken pass.old held.ticket held.seat held.found }
        requires grown { GrownBy T.seat_of held.seat pass.old.seen (T.items held.value) }
        ensures { pass.new ≡ having_seen (T.items held.value) pass.old }
    {
        let Held {
            value,
            seat,
            count: _,
            ticket,
            found,
            lock: _,
        } = held;
        let added = value.len() - found;
        self.put_back(&mut pass.seat, value, ticket, seat);
        self.serve(&mut pass.seat, ticket);
        pass.count += added;
    }

    /// A pass that has seen the same, for another thread.
    #[tactic(auto, using(crate::proofs::StepLemmas::split_allowed))]
    pub fn split(&self, pass: &mut Pass<T>) -> Pass<T>
        requires { pass.old.lock ≡ self.now }
        ensures same { pass.new ≡ pass.old }
        ensures new { result ≡ newcomer pass.old }
    {
        let seat = self.table.shared.split_seat::<Cut>(&mut pass.seat);
        Pass {
            seat,
            number: None,
            count: 0,
        }
    }

    /// Takes in what another pass has seen, which ends with that. One of the two lists begins the other.
    pub fn meet(&self, pass: &mut Pass<T>, ended: Pass<T>)
        requires lock { (pass.old.lock ≡ self.now) × (ended.lock ≡ self.now) }
        requires out { (pass.old.turn ≡ None) × (ended.turn ≡ None) }
        ensures met { pass.new ≡ having_seen (longer pass.old.seen ended.seen) pass.old }
        ensures own { own_of T.seat_of pass.new.seat pass.new.seen ≡ own_of T.seat_of pass.old.seat pass.old.seen }
        ensures alike { StartsWith pass.old.seen ended.seen ⊎ StartsWith ended.seen pass.old.seen }
    {
        let Pass {
            seat,
            number: _,
            count: _,
        } = ended;
        self.table.shared.join_seat::<Glue>(&mut pass.seat, seat);
        self.table.shared.load::<Learn>(&mut pass.seat, 0);
    }
}

impl<T: Grows + Drop> ZoneLock<T> {
    /// A lock round a value whose items all have seat 0, and its first pass.
    pub fn new(alloc: Global, value: T) -> Result<(ZoneLock<T>, Pass<T>), NoMemory>
        requires { AreOf T.seat_of 0 (T.items value) }
        ensures { IfOk result (λ made. made.1 ≡ first_pass made.0 (T.items value)) }
    {
        let about = Snapshot::of(&value);
        let count = value.len();
        let mut slots = Vec::new(alloc);
        slots.push(Some(Turned { value, turn: 0 }))?;
        let Ok((table, seat)) = Table::new(alloc, &[0, 0], slots, &about) else {
            return Err(NoMemory);
        };
        let pass = Pass {
            seat,
            number: Some(0),
            count,
        };
        Ok((ZoneLock { table }, pass))
    }
}
