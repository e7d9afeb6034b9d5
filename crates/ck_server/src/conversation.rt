// A conversation over one connection.
ghost use Rattle.talk_model.specs.Given.{Draws, GaveFor};
ghost use Rattle.ck_server.specs.Outcomes.{Converses, marks_of, outcome_of};

use crate::sending::finish;
use crate::serving::{Served, serve_request};
use ck_base::limits::REQUESTS;
use ck_devices::{Clock, Sink, Source, Words};
use http_front::{Buffer, Users, read_request};
use std::alloc::Global;
use talk_model::{End, Talk, TalkFault};
use zone_board::Board;

/// Answers the requests of a source to a sink, one after another, until the source ends, a request
/// asks to close, the bytes are none of a request, a request has a form that is not built, or as
/// many were answered as a connection may have. Where the bytes can be no request, the last reply
/// says so. A fault of the source or the sink, and want of memory, break the conversation off: a use
/// that failed is the last use of that device, and the fault tells it.
///
/// Where the source has whole requests to its end and neither device fails, they are answered, up to
/// one that asks to close or whose form is not built and as many as a connection may have, unless
/// memory runs out.
///
/// For each request the clock is read once, and then a random word is drawn for each record that it
/// creates without a name; a draw that fails refuses the request.
pub fn converse<B: Board, S: Source, W: Sink, C: Clock, R: Words>(
    alloc: Global,
    board: &mut B,
    users: &Users,
    source: &mut S,
    sink: &mut W,
    clock: &mut C,
    words: &mut R,
) -> Result<Talk, TalkFault>
    ensures converses { Converses users.now (GaveFor C.gives (Draws R.gives R.fault_count) clock.old clock.new words.old words.new)
        (record { left = S.left source.old; source_failures = S.failures source.old; held = W.held sink.old; sink_failures = W.failures sink.old; board = B.state board.old })
        (record { left = S.left source.new; source_failures = S.failures source.new; held = W.held sink.new; sink_failures = W.failures sink.new; board = B.state board.new })
        (marks_of result) (outcome_of result) }
{
    board.hold_legal();
    let mut marks = Vec::new(alloc);
    let mut buffer = Buffer::new(alloc);
    for number in 0..REQUESTS {
        let request = match read_request(alloc, source, &mut buffer) {
            Ok(request) => request,
            Err(fault) => match finish(alloc, sink, fault) {
                Ok(end) => return Ok(Talk { marks, end }),
                Err(at) => return Err(TalkFault { at, marks }),
            },
        };
        match serve_request(
            alloc, board, users, sink, clock, words, &request, number, &mut marks,
        ) {
            Ok(Served::Answered) if !request.close => {}
            Ok(Served::Answered) => {
                let end = End::CloseAsked;
                return Ok(Talk { marks, end });
            }
            Ok(Served::NotBuilt) => {
                let end = End::NotBuilt;
                return Ok(Talk { marks, end });
            }
            Err(at) => return Err(TalkFault { at, marks }),
        }
    }
    Ok(Talk {
        marks,
        end: End::Spent,
    })
}
