// Serving one request.
ghost use Rattle.std.specs.Prelude.{◌≡◌, [], IfOk, OnErr};
ghost use Rattle.ck_devices.specs.Causes.{StopsAt};
ghost use Rattle.wire_calls.specs.declared.reply.Reply.TheVariants.{Refused};
ghost use Rattle.talk_model.specs.Given.{Draws, GaveFor};
ghost use Rattle.talk_model.specs.Calls.{text_of};
ghost use Rattle.ck_server.specs.Askable.{IsServable};
ghost use Rattle.ck_server.specs.Answering.{Serves};
ghost use Rattle.ck_server.specs.Marking.{IsMarked, given_with, ServesWant, Refuses, GaveOne};

use crate::asking::{asking_of, mark_asks};
use crate::drawing::{Drawn, draw_words, nothing_drawn, words_of};
use crate::sending::send_reply;
use crate::want::read_want;
use ck_base::NoMemory;
use ck_devices::{Clock, Sink, Words};
use error_replies::ServerError;
use http_front::{Request, Users};
use std::alloc::Global;
use talk_model::{Mark, TalkFaultKind, Want};
use wire_calls::{Call, Reply};
use zone_board::Board;

/// What one request came to.
#[derive(Clone, Copy, Debug, PartialEq, Eq)]
pub(crate) enum Served {
    /// It was answered.
    Answered,
    /// Its form is not built.
    NotBuilt,
}

/// Which request of a connection is served, counted from 0, and at what moment.
#[derive(Clone, Copy)]
pub(crate) struct Arrival {
    pub number: u64,
    pub moment: u64,
}

// Marks a request that asks nothing.
fn mark_refusal(
    alloc: Global,
    arrival: Arrival,
    drawn: Drawn,
    marks: &mut Vec<Mark>,
) -> Result<(), NoMemory>
    ensures marked { IfOk result (λ _. IsMarked arrival.number (given_with arrival.moment drawn.words.items drawn.drawn) [] marks.old.items marks.new.items) }
    ensures kept { OnErr result (marks.new.items ≡ marks.old.items) }
{
    marks.push(Mark {
        request: arrival.number,
        moment: arrival.moment,
        words: drawn.words,
        drawn: drawn.drawn,
        asks: Vec::new(alloc),
    })?;
    Ok(())
}

// Marks a request that asks nothing, and refuses it.
fn refuse_request<W: Sink>(
    alloc: Global,
    sink: &mut W,
    error: ServerError,
    close: bool,
    arrival: Arrival,
    drawn: Drawn,
    marks: &mut Vec<Mark>,
) -> Result<Served, TalkFaultKind>
    ensures refuses { Refuses arrival.number (given_with arrival.moment drawn.words.items drawn.drawn) (W.held sink.old) (W.held sink.new)
        marks.old.items marks.new.items (text_of close (Refused error)) result }
    ensures cause { StopsAt TalkFaultKind.WriteFault (W.failures sink.old) (W.failures sink.new) result }
{
    mark_refusal(alloc, arrival, drawn, marks)?;
    send_reply(alloc, sink, close, Reply::Refused(error))?;
    Ok(Served::Answered)
}

// Draws the words of a call, asks the board, and replies.
fn serve_call<B: Board, W: Sink, R: Words>(
    alloc: Global,
    board: &mut B,
    sink: &mut W,
    words: &mut R,
    call: Call,
    close: bool,
    arrival: Arrival,
    marks: &mut Vec<Mark>,
) -> Result<Served, TalkFaultKind>
    requires { IsServable call }
    ensures serves { ServesWant (GaveOne arrival.moment (Draws R.gives R.fault_count) words.old words.new) arrival.number
        (record { held = W.held sink.old; board = B.state board.old }) (record { held = W.held sink.new; board = B.state board.new })
        marks.old.items marks.new.items close (Want.Called call) result }
    ensures cause { StopsAt TalkFaultKind.WriteFault (W.failures sink.old) (W.failures sink.new) result }
{
    let drawn = draw_words(alloc, words, words_of(&call))?;
    if drawn.drawn {
        let asking = asking_of(alloc, call, arrival.moment, drawn.words.as_slice())?;
        let reply = mark_asks(alloc, board, &asking, arrival, drawn.words, marks)?;
        match send_reply(alloc, sink, close, reply) {
            Ok(()) => Ok(Served::Answered),
            Err(at) => Err(at),
        }
    } else {
        refuse_request(
            alloc,
            sink,
            ServerError::TryAgainLater,
            close,
            arrival,
            drawn,
            marks,
        )
    }
}

// Serves a request: reads what is wanted of it, then the clock, and refuses it or asks the board.
pub(crate) fn serve_request<B: Board, W: Sink, C: Clock, R: Words>(
    alloc: Global,
    board: &mut B,
    users: &Users,
    sink: &mut W,
    clock: &mut C,
    words: &mut R,
    request: &Request,
    number: u64,
    marks: &mut Vec<Mark>,
) -> Result<Served, TalkFaultKind>
    ensures serves { Serves (GaveFor C.gives (Draws R.gives R.fault_count) clock.old clock.new words.old words.new) number
        (record { held = W.held sink.old; board = B.state board.old }) (record { held = W.held sink.new; board = B.state board.new })
        marks.old.items marks.new.items users.now request.now result }
    ensures cause { StopsAt TalkFaultKind.WriteFault (W.failures sink.old) (W.failures sink.new) result }
{
    let Some(want) = read_want(alloc, users, request)? else {
        return Ok(Served::NotBuilt);
    };
    let arrival = Arrival {
        number,
        moment: clock.now(),
    };
    match want {
        Want::Refused(error) => {
            let drawn = nothing_drawn(alloc);
            refuse_request(alloc, sink, error, request.close, arrival, drawn, marks)
        }
        Want::Called(call) => {
            serve_call(
                alloc,
                board,
                sink,
                words,
                call,
                request.close,
                arrival,
                marks,
            )
        }
    }
}
