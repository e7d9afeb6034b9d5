// What a call asks of the board.
ghost use Rattle.std.specs.Prelude.{◌≡◌, [], true, IfOk, OnErr};
ghost use Rattle.talk_model.specs.Calls.{scope_of};
ghost use Rattle.ck_server.specs.Marking.{given_with, asking_of, step_from, IsAskable, AsksAll, MarksAsks};

use crate::replies::{ReplyOptions, reply_from};
use crate::serving::Arrival;
use board_model::{Part, Word};
use ck_base::{Database, Items, NoMemory, Scope, lock_of};
use std::alloc::Global;
use talk_model::{At, Mark};
use wire_calls::{Call, Reply};
use zone_board::{AskFault, Board};

/// A part that is to be asked of a lock, and what its reply takes of the call beside.
#[derive(Drop)]
pub(crate) struct Asking {
    pub lock: u8,
    pub part: Part,
    pub options: ReplyOptions,
}

fn scope_of(database: Database) -> Scope
    ensures { result ≡ scope_of database }
{
    match database {
        Database::Private | Database::Public => Scope::Private,
        Database::Shared => Scope::Shared,
    }
}

// What a call asks first.
pub(crate) fn asking_of(
    alloc: Global,
    call: Call,
    moment: u64,
    words: &[Word],
) -> Result<Asking, NoMemory>
    ensures { IfOk result (λ asking. asking ≡ asking_of call (given_with moment words.now true)) }
{
    match call {
        Call::Modify(call) => Ok(Asking {
            lock: lock_of(&call.zone),
            part: Part::Modify {
                user: call.caller,
                scope: scope_of(call.database),
                key: call.zone,
                atomic: call.atomic,
                ops: call.ops,
                moment,
                words: Items::from_slice(alloc, words)?,
            },
            options: ReplyOptions {
                numbers_as_strings: call.numbers_as_strings,
                desired_keys: None,
            },
        }),
        Call::Lookup(call) => Ok(Asking {
            lock: lock_of(&call.zone),
            part: Part::Lookup {
                user: call.caller,
                scope: scope_of(call.database),
                key: call.zone,
                names: call.names,
            },
            options: ReplyOptions {
                numbers_as_strings: call.numbers_as_strings,
                desired_keys: call.desired_keys,
            },
        }),
    }
}

// Asks the board until there is a reply, in room that is made for each trace before its ask.
fn ask_all<B: Board>(
    alloc: Global,
    board: &mut B,
    asking: &Asking,
    asks: &mut Vec<At>,
) -> Result<Reply, NoMemory>
    requires askable { IsAskable asking.now }
    requires none { asks.now.items ≡ [] }
    ensures asks { AsksAll (B.state board.old) (B.state board.new) asks.new.items (step_from asking.now) result }
{
    asks.reserve(1)?;
    let answered = match board.ask(asking.lock, &asking.part) {
        Ok(answered) => answered,
        Err(AskFault::NoMemory) => return Err(NoMemory),
    };
    asks.push(At {
        lock: asking.lock,
        len: answered.len,
        event: answered.event,
    })
    .unwrap();
    reply_from(alloc, &asking.part, &asking.options, answered.answer)
}

// Asks the board, and marks the request with the asks that were whole. The room of the mark is made before.
pub(crate) fn mark_asks<B: Board>(
    alloc: Global,
    board: &mut B,
    asking: &Asking,
    arrival: Arrival,
    words: Vec<Word>,
    marks: &mut Vec<Mark>,
) -> Result<Reply, NoMemory>
    requires { IsAskable asking.now }
    ensures { MarksAsks arrival.number (given_with arrival.moment words.items true) (B.state board.old) (B.state board.new)
        marks.old.items marks.new.items (step_from asking.now) result }
{
    marks.reserve(1)?;
    let mut asks = Vec::new(alloc);
    let told = ask_all(alloc, board, asking, &mut asks);
    marks
        .push(Mark {
            request: arrival.number,
            moment: arrival.moment,
            words,
            drawn: true,
            asks,
        })
        .unwrap();
    told
}
