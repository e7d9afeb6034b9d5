// Replies to a sink.
ghost use Rattle.std.specs.Prelude.{◌≡◌, ◌++◌, string_bytes, length, IfOk, OnOk, IsErrOf};
ghost use Rattle.std.specs.Io.KnownBytes.{Appends};
ghost use Rattle.ck_devices.specs.Causes.{StopsAt};
ghost use Rattle.ck_devices.specs.Fronts.{WritesFront};
ghost use Rattle.http_front.specs.Replies.{IsStatus, phrase_of, status_line, last_lines, reply_head, reply_text};

use ck_base::NoMemory;
use ck_devices::{Failed, Sink, write_whole};
use std::alloc::Global;

/// Why a reply was not written.
#[derive(Clone, Copy, Debug, PartialEq, Eq)]
pub enum WriteFault {
    /// The sink failed.
    Failed,
    /// Memory ran out.
    NoMemory,
}

impl From<Failed> for WriteFault {
    ghost use Rattle.std.specs.Prelude.{◌≡◌};
    ghost use Rattle.http_front.specs.declared.reply.WriteFault.TheVariants.{Failed as OfSink};

    ghost from_gives = { λ _ e. e ≡ OfSink };

    fn from(_e: Failed) -> Self {
        WriteFault::Failed
    }
}

impl From<NoMemory> for WriteFault {
    ghost use Rattle.std.specs.Prelude.{◌≡◌};
    ghost use Rattle.http_front.specs.declared.reply.WriteFault.TheVariants.{NoMemory as OutOfMemory};

    ghost from_gives = { λ _ e. e ≡ OutOfMemory };

    fn from(_e: NoMemory) -> Self {
        WriteFault::NoMemory
    }
}

fn phrase_of(status: u16) -> &'static str
    ensures { result.now ≡ phrase_of status }
{
    match status {
        200 => "OK",
        400 => "Bad Request",
        401 => "Unauthorized",
        403 => "Forbidden",
        404 => "Not Found",
        409 => "Conflict",
        412 => "Precondition Failed",
        421 => "Misdirected Request",
        503 => "Service Unavailable",
        _ => "",
    }
}

fn last_lines(close: bool) -> &'static str
    ensures { result.now ≡ last_lines close }
{
    if close {
        "\r\nconnection: close\r\n\r\n"
    } else {
        "\r\n\r\n"
    }
}

fn status_line(alloc: Global, status: u16) -> Result<String, NoMemory>
    ensures { IfOk result (λ line. string_bytes line ≡ status_line status) }
{
    let number = status.to_string(alloc)?;
    let mut line = String::from_str(alloc, "HTTP/1.1 ")?;
    line.push_str(number.as_str())?;
    line.push_str(" ")?;
    line.push_str(phrase_of(status))?;
    Ok(line)
}

// The lines before a body of that length.
fn reply_head(alloc: Global, status: u16, size: usize, close: bool) -> Result<String, NoMemory>
    ensures { IfOk result (λ head. string_bytes head ≡ reply_head status size close) }
{
    let length = size.to_string(alloc)?;
    let mut head = status_line(alloc, status)?;
    head.push_str("\r\ncontent-type: application/json\r\ncontent-length: ")?;
    head.push_str(length.as_str())?;
    head.push_str(last_lines(close))?;
    Ok(head)
}

/// Writes a reply with that status and a JSON body, as RFC 9112, section 4 forms it, and says with
/// `close` that the connection is to be closed. After a fault of the sink a front of it was written, and not all. Where memory ran out
/// nothing was.
#[tactic(auto, using(ck_devices::proofs::Streams::appends_on))]
pub fn write_reply<W: Sink>(
    alloc: Global,
    sink: &mut W,
    status: u16,
    body: &[u8],
    close: bool,
) -> Result<(), WriteFault>
    requires { IsStatus status }
    ensures ok { OnOk result (Appends (W.held sink.old) (W.held sink.new) (reply_text status body.now close)) }
    ensures front { IsErrOf result WriteFault.Failed → WritesFront (W.held sink.old) (W.held sink.new) (reply_text status body.now close) }
    ensures spared { IsErrOf result WriteFault.NoMemory → sink.new ≡ sink.old }
    ensures cause { StopsAt WriteFault.Failed (W.failures sink.old) (W.failures sink.new) result }
{
    let head = reply_head(alloc, status, body.len(), close)?;
    write_whole(sink, head.as_bytes())?;
    write_whole(sink, body)?;
    Ok(())
}
