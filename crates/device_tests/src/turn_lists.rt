// A value that grows: the turns that were taken at it.
ghost use Rattle.std.specs.Prelude.{◌≡◌, ◌<◌, None, IfOk};
ghost use Rattle.zone_locks.specs.Growing.{StartsWith};

use ck_base::NoMemory;
use std::sync::Wait;
use zone_locks::{Grows, Pass, ZoneLock};

/// One turn: whose it is, and how many of its own were before it.
#[derive(Clone, Copy, Debug, PartialEq, Eq)]
pub struct Turn {
    pub seat: u64,
    pub number: u64,
}

/// The turns that were taken, in order.
#[derive(Drop)]
pub struct TurnList {
    pub turns: Vec<Turn>,
}

impl Grows for TurnList {
    type Item = Turn;

    ghost items = { λ list. list.turns.items };

    ghost seat_of = { λ turn. turn.seat };

    fn len(&self) -> u64 {
        self.turns.len() as u64
    }
}

/// Takes the list, adds a turn, and gives it back.
#[tactic(auto, using(zone_locks::proofs::ListLemmas::grown_by_none, zone_locks::proofs::ListLemmas::grown_by_one))]
pub fn add_turn<R: Wait>(
    lock: &ZoneLock<TurnList>,
    pass: &mut Pass<TurnList>,
    rt: &R,
) -> Result<(), NoMemory>
    requires lock { pass.old.lock ≡ lock.now }
    requires out { pass.old.turn ≡ None }
    ensures same { (pass.new.lock ≡ pass.old.lock) × (pass.new.turn ≡ None) }
    ensures seen { StartsWith pass.new.seen pass.old.seen }
{
    let mut held = lock.take(pass, rt);
    let turn = Turn {
        seat: held.seat,
        number: held.count,
    };
    let pushed = held.value.turns.push(turn);
    lock.give(pass, held);
    Ok(pushed?)
}

/// Takes so many turns.
pub fn add_turns<R: Wait>(
    lock: &ZoneLock<TurnList>,
    mut pass: Pass<TurnList>,
    rt: &R,
    turns: u64,
) -> (Pass<TurnList>, Result<(), NoMemory>)
    requires lock { pass.lock ≡ lock.now }
    requires out { pass.turn ≡ None }
    ensures { (result.0.lock ≡ lock.now) × (result.0.turn ≡ None) }
{
    for _ in 0..turns {
        if let Err(fault) = add_turn(lock, &mut pass, rt) {
            return (pass, Err(fault));
        }
    }
    (pass, Ok(()))
}
