// A board behind the zone lock: the threads that share it ask it one after another.
ghost use Rattle.std.specs.Prelude.{◌≡◌, [], None, length, IfOk, IfErr, OnErr};
ghost use Rattle.zone_locks.specs.Growing.{GrownBy};
ghost use Rattle.zone_locks.specs.Passes.{first_pass};
ghost use Rattle.zone_model.specs.Legal.{IsLegal};
ghost use Rattle.board_model.specs.Parts.{MayBeAsked};
ghost use Rattle.zone_board.specs.Stripes.{list_at};
ghost use Rattle.device_tests.specs.LockedBoards.{seat_in, looks_up, WasAnswered, AskedAt, SawAt, at_lock};

use board_model::{Answered, Part};
use ck_base::NoMemory;
use std::alloc::Global;
use std::marker::Model;
use std::sync::Wait;
use zone_board::{AskFault, Board, Solo};
use zone_locks::{Grows, Pass, ZoneLock};
use zone_model::Event;

/// The lock of the zone that the tests ask.
pub const LOCK: u8 = 13;

/// A board of one thread, as the list of its events at that lock.
#[derive(Drop)]
pub struct OneHistory {
    pub board: Solo,
}

impl Grows for OneHistory {
    type Item = Event;

    ghost items = { λ history. list_at history.board.0 13 };

    ghost seat_of = { seat_in };

    fn len(&self) -> u64 {
        self.board.seen(LOCK)
    }
}

fn looks_up(part: &Part) -> bool
    ensures { result ≡ looks_up part.now }
{
    match part {
        Part::Modify { .. } => false,
        Part::Lookup { .. } => true,
    }
}

// Asks the board. Its events are of seat 0, so another seat may only look up.
fn ask_kept(board: &mut Solo, seat: u64, part: &Part) -> Result<Answered, AskFault>
    requires part { MayBeAsked 13 part.now }
    ensures grown { GrownBy seat_in seat (list_at board.old.0 13) (list_at board.new.0 13) }
    ensures asked { IfOk result (WasAnswered seat (list_at board.old.0 13) (list_at board.new.0 13) part.now) }
    ensures failed { OnErr result (list_at board.new.0 13 ≡ list_at board.old.0 13) }
{
    if seat != 0 && !looks_up(part) {
        return Err(AskFault::NoMemory);
    }
    board.ask(LOCK, part)
}

// Takes the board, asks it, and gives it back.
fn ask_once<R: Wait>(
    lock: &ZoneLock<OneHistory>,
    pass: &mut Pass<OneHistory>,
    rt: &R,
    part: &Part,
) -> (Result<Answered, AskFault>, u64)
    requires lock { pass.old.lock ≡ lock.now }
    requires out { pass.old.turn ≡ None }
    requires part { MayBeAsked 13 part.now }
    ensures same { (pass.new.lock ≡ pass.old.lock) × (pass.new.turn ≡ None) }
    ensures legal { IsLegal 13 pass.new.seen }
    ensures seen { result.1 ≡ length pass.new.seen }
    ensures asked { IfOk result.0 (AskedAt pass.old pass.new part.now) }
    ensures failed { IfErr result.0 (λ _. SawAt pass.old pass.new) }
{
    let mut held = lock.take(pass, rt);
    let seat = held.seat;
    let told = ask_kept(&mut held.value.board, seat, part);
    held.value.board.hold_legal();
    let seen = held.value.len();
    lock.give(pass, held);
    (told, seen)
}

/// Who asks the board goes to the lock with a pass.
#[derive(Drop)]
pub struct LockedBoard<'a, R: Wait> {
    rt: &'a R,
    lock: &'a ZoneLock<OneHistory>,
    pass: Pass<OneHistory>,
    seen: u64,
    turns: Vec<u64>,
}

impl<'a, R: Wait> Model for LockedBoard<'a, R> {
    ghost use Rattle.std.specs.Prelude.{◌≡◌, ℕ, List, None, length};
    ghost use Rattle.std.specs.Coded.{codes};
    ghost use Rattle.record_model.specs.contracts.value.Value as field_value;
    ghost use Rattle.zone_model.specs.declared.events.Event.{Event};
    ghost use Rattle.zone_model.specs.Legal.{IsLegal};
    ghost use Rattle.zone_locks.specs.Passes.{Known};

    ghost Value = { Known Event × List ℕ };

    ghost coded = { Prim.hlevel (codes, field_value.the_row.coded) };

    ghost view = { λ b. (b.pass, b.turns.items) };

    ghost invariant = { λ b. (b.pass.lock ≡ b.lock.now) × (b.pass.turn ≡ None) × (b.seen ≡ length b.pass.seen) × IsLegal 13 b.pass.seen };
}

/// A board without events behind a lock, and the first pass to it.
pub fn lock_board(alloc: Global) -> Result<(ZoneLock<OneHistory>, Pass<OneHistory>), NoMemory>
    ensures { IfOk result (λ made. made.1 ≡ first_pass made.0 []) }
{
    let board = Solo::new(alloc);
    ZoneLock::new(alloc, OneHistory { board })
}

impl<'a, R: Wait> LockedBoard<'a, R> {
    /// The first board at a lock without events.
    pub fn first(
        alloc: Global,
        rt: &'a R,
        lock: &'a ZoneLock<OneHistory>,
        pass: Pass<OneHistory>,
    ) -> LockedBoard<'a, R>
        requires { pass ≡ first_pass lock.now [] }
    {
        LockedBoard {
            rt,
            lock,
            pass,
            seen: 0,
            turns: Vec::new(alloc),
        }
    }

    /// Another board at the lock, whose pass met this one's, which ends.
    pub fn follow(self, alloc: Global) -> LockedBoard<'a, R> {
        let LockedBoard {
            rt,
            lock,
            mut pass,
            seen,
            turns: _,
        } = self;
        let mut other = lock.split(&mut pass);
        lock.meet(&mut other, pass);
        LockedBoard {
            rt,
            lock,
            pass: other,
            seen,
            turns: Vec::new(alloc),
        }
    }
}

impl<R: Wait> Board for LockedBoard<'_, R> {
    ghost state = { at_lock };

    // Other locks are not asked.
    fn ask(&mut self, lock: u8, part: &Part) -> Result<Answered, AskFault> {
        if lock != LOCK {
            return Err(AskFault::NoMemory);
        }
        self.turns.reserve(1)?;
        let (told, seen) = ask_once(self.lock, &mut self.pass, self.rt, part);
        self.seen = seen;
        match told {
            Ok(answered) => {
                self.turns.push(answered.len).unwrap();
                Ok(answered)
            }
            Err(fault) => Err(fault),
        }
    }

    fn seen(&self, lock: u8) -> u64 {
        if lock == LOCK { self.seen } else { 0 }
    }

    // It is looked at for what is known of it.
    fn hold_legal(&self) {
        let _seen = self.seen;
    }
}
