// What is written to a sink.
ghost use Rattle.std.specs.Prelude.{◌≡◌, Ok, OnOk};
ghost use Rattle.ck_devices.specs.Causes.{StopsAt};
ghost use Rattle.talk_model.specs.Calls.{text_of};
ghost use Rattle.talk_model.specs.Connections.{farewell, last_text};
ghost use Rattle.ck_server.specs.Answering.{Sends};
ghost use Rattle.ck_server.specs.Finishing.{Finishes};

use ck_devices::Sink;
use error_replies::ServerError;
use http_front::{FrontFault, WriteFault, write_reply};
use std::alloc::Global;
use talk_model::{End, TalkFaultKind};
use wire_calls::{Reply, reply_status, reply_text};

// Writes a reply. Each of its entries is dropped once its text is written.
#[tactic(auto, using(crate::proofs::SendingLemmas::is_status))]
pub(crate) fn send_reply<W: Sink>(
    alloc: Global,
    sink: &mut W,
    close: bool,
    reply: Reply,
) -> Result<(), TalkFaultKind>
    ensures sends { Sends (W.held sink.old) (W.held sink.new) (text_of close reply) result }
    ensures cause { StopsAt TalkFaultKind.WriteFault (W.failures sink.old) (W.failures sink.new) result }
{
    let status = reply_status(&reply);
    let body = reply_text(alloc, reply)?;
    match write_reply(alloc, sink, status, body.as_bytes(), close) {
        Ok(()) => Ok(()),
        Err(WriteFault::Failed) => Err(TalkFaultKind::WriteFault),
        Err(WriteFault::NoMemory) => Err(TalkFaultKind::NoMemory),
    }
}

// Refuses what cannot be a request, and ends with that.
fn refuse<W: Sink>(alloc: Global, sink: &mut W, end: End) -> Result<End, TalkFaultKind>
    requires { last_text end ≡ farewell }
    ensures sends { Sends (W.held sink.old) (W.held sink.new) (last_text end) result }
    ensures end { OnOk result (result ≡ Ok end) }
    ensures cause { StopsAt TalkFaultKind.WriteFault (W.failures sink.old) (W.failures sink.new) result }
{
    send_reply(alloc, sink, true, Reply::Refused(ServerError::BadRequest))?;
    Ok(end)
}

// Says what is said last where no further request is read.
pub(crate) fn finish<W: Sink>(
    alloc: Global,
    sink: &mut W,
    fault: FrontFault,
) -> Result<End, TalkFaultKind>
    ensures finishes { Finishes (W.held sink.old) (W.held sink.new) fault result }
    ensures cause { StopsAt TalkFaultKind.WriteFault (W.failures sink.old) (W.failures sink.new) result }
{
    match fault {
        FrontFault::Ended => Ok(End::Closed),
        FrontFault::Cut => Ok(End::Cut),
        FrontFault::BadHead => refuse(alloc, sink, End::BadHead),
        FrontFault::HeadTooLong => refuse(alloc, sink, End::HeadTooLong),
        FrontFault::NoLength => refuse(alloc, sink, End::NoLength),
        FrontFault::BodyTooLong => refuse(alloc, sink, End::BodyTooLong),
        FrontFault::ReadFault => Err(TalkFaultKind::ReadFault),
        FrontFault::NoMemory => Err(TalkFaultKind::NoMemory),
    }
}
