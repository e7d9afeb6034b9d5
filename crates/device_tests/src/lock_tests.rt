// The zone lock: passes that meet, and two threads that take turns.
ghost use Rattle.std.specs.Prelude.{◌≡◌, None};

use crate::turn_lists::{Turn, TurnList, add_turn, add_turns};
use std::test::Fail;
use std::thread::join;
use zone_locks::ZoneLock;

const TURNS: u64 = 10_000;

// The pass that splits has added the turn that the other, begun before, finds. The other's seat is one more than
// its first ticket.
#[test]
fn a_pass_finds_what_the_pass_that_it_met_had_added(rt: HostRuntime) -> Result<(), Fail> {
    let alloc = rt.alloc();
    let list = TurnList {
        turns: vec![in alloc; Turn { seat: 0, number: 0 }]?,
    };
    let (lock, mut first) = ZoneLock::new(alloc, list)?;
    let mut second = lock.split(&mut first);
    add_turn(&lock, &mut first, &rt)?;
    lock.meet(&mut second, first);
    let held = lock.take(&mut second, &rt);
    let (seat, count) = (held.seat, held.count);
    let found = held.value.turns.to_vec(alloc);
    lock.give(&mut second, held);
    assert_eq!(rt; (seat, count), (2, 0));
    let added = [Turn { seat: 0, number: 0 }, Turn { seat: 0, number: 1 }];
    assert_eq!(rt; found?.as_slice(), added.as_slice());
    Ok(())
}

// Each thread's turns stand in order, each once, and no other turns are there.
#[test]
fn two_threads_take_their_turns(rt: HostRuntime) -> Result<(), Fail> {
    let alloc = rt.alloc();
    let list = TurnList {
        turns: Vec::new(alloc),
    };
    let (lock, mut first) = ZoneLock::new(alloc, list)?;
    let second = lock.split(&mut first);
    let (one, two) = join(
        &rt,
        || add_turns(&lock, first, &rt, TURNS),
        || add_turns(&lock, second, &rt, TURNS),
    );
    one.1?;
    two.1?;
    let mut last = one.0;
    lock.meet(&mut last, two.0);
    let held = lock.take(&mut last, &rt);
    let found = held.value.turns.to_vec(alloc);
    lock.give(&mut last, held);
    let found = found?;
    for first_seat in [true, false] {
        let mut own = 0;
        for turn in found.iter().filter(|turn| (turn.seat == 0) == first_seat) {
            assert_eq!(rt; turn.number, own);
            own = turn.number.saturating_add(1);
        }
        assert_eq!(rt; own, TURNS);
    }
    Ok(())
}
