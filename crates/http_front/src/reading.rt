// Whole requests from a source.
ghost use Rattle.std.specs.Prelude.{◌≡◌, ◌≤◌, ◌+◌, ◌<◌, length, Ok, IfOk, OnOk, IfErr, OnErr};
ghost use Rattle.ck_devices.specs.Causes.{StopsAt};
ghost use Rattle.http_front.specs.Reading.{most_piece, Extends, ReadsOn, TakesRequest, IsFault};
ghost use Rattle.http_front.specs.Scans.{IsFound};
ghost use Rattle.http_front.specs.Taking.{StopsHead, TakesBehind};

use crate::head::HeadRead;
use crate::look::{Look, look_on};
use crate::scan::UNSEEN;
use crate::{Buffer, FrontFault, Request};
use ck_base::Bytes;
use ck_devices::Source;
use std::alloc::Global;

// Reads a further piece of a head, or says why there is none.
fn fill_head<S: Source>(source: &mut S, buffer: &mut Buffer) -> Result<(), FrontFault>
    ensures extends { Extends (S.left source.old) (S.left source.new) buffer.old buffer.new }
    ensures grown { OnOk result (length buffer.old < length buffer.new) }
    ensures piece { OnOk result (length buffer.new ≤ length buffer.old + most_piece) }
    ensures same { OnErr result (buffer.new ≡ buffer.old) }
    ensures stops { IfErr result (λ fault. StopsHead fault (S.left source.new) buffer.new) }
    ensures cause { StopsAt FrontFault.ReadFault (S.failures source.old) (S.failures source.new) result }
{
    if buffer.fill(source)? > 0 {
        Ok(())
    } else if buffer.as_slice().is_empty() {
        Err(FrontFault::Ended)
    } else {
        Err(FrontFault::Cut)
    }
}

// Reads until a head stands at the front.
#[tactic(auto, using(crate::proofs::ReadingLemmas::reads_on))]
fn read_head<S: Source>(source: &mut S, buffer: &mut Buffer) -> Result<HeadRead, FrontFault>
    ensures reads { ReadsOn (S.left source.old) (S.left source.new) buffer.old buffer.new }
    ensures head { IfOk result (λ head. IsFound buffer.new head) }
    ensures fault { IfErr result (λ fault. IsFault fault (S.left source.new) buffer.new) }
    ensures cause { StopsAt FrontFault.ReadFault (S.failures source.old) (S.failures source.new) result }
{
    let mut scan = UNSEEN;
    loop {
        match look_on(buffer.as_slice(), scan)? {
            Look::Head(head) => return Ok(head),
            Look::More(more) => scan = more,
        }
        fill_head(source, buffer)?;
    }
}

// Takes the request whose head was read, and whose body has come.
fn take_request(
    alloc: Global,
    buffer: &mut Buffer,
    head: HeadRead,
    size: usize,
) -> Result<Request, FrontFault>
    requires found { IsFound buffer.old head }
    requires stated { head.length ≡ Ok size }
    requires whole { head.len + size ≤ length buffer.old }
    ensures { TakesBehind buffer.old buffer.new result }
{
    let bytes = buffer.as_slice();
    let method = Bytes::from_slice(alloc, head.method.of(bytes))?;
    let target = Bytes::from_slice(alloc, head.target.of(bytes))?;
    let body = Bytes::from_slice(alloc, &bytes[head.len..head.len + size])?;
    buffer.drop_front(head.len + size);
    Ok(Request {
        method,
        target,
        close: head.close,
        body,
    })
}

// Reads until the buffer holds the body behind a head that was read.
fn read_body<S: Source>(
    source: &mut S,
    buffer: &mut Buffer,
    head: HeadRead,
    size: usize,
) -> Result<(), FrontFault>
    requires found { IsFound buffer.old head }
    requires stated { head.length ≡ Ok size }
    ensures reads { ReadsOn (S.left source.old) (S.left source.new) buffer.old buffer.new }
    ensures found { IsFound buffer.new head }
    ensures whole { OnOk result (head.len + size ≤ length buffer.new) }
    ensures fault { IfErr result (λ fault. IsFault fault (S.left source.new) buffer.new) }
    ensures cause { StopsAt FrontFault.ReadFault (S.failures source.old) (S.failures source.new) result }
{
    while buffer.as_slice().len() < head.len + size {
        if buffer.fill(source)? == 0 {
            return Err(FrontFault::Cut);
        }
    }
    Ok(())
}

// Reads until a whole request stands at the front, and says how long its body is.
#[tactic(auto, using(crate::proofs::ReadingLemmas::reads_on))]
fn read_whole<S: Source>(
    source: &mut S,
    buffer: &mut Buffer,
) -> Result<(HeadRead, usize), FrontFault>
    ensures reads { ReadsOn (S.left source.old) (S.left source.new) buffer.old buffer.new }
    ensures whole { IfOk result (λ whole. IsFound buffer.new whole.0 × (whole.0.length ≡ Ok whole.1) × (whole.0.len + whole.1 ≤ length buffer.new)) }
    ensures fault { IfErr result (λ fault. IsFault fault (S.left source.new) buffer.new) }
    ensures cause { StopsAt FrontFault.ReadFault (S.failures source.old) (S.failures source.new) result }
{
    let head = read_head(source, buffer)?;
    let size = head.length?;
    read_body(source, buffer, head, size)?;
    Ok((head, size))
}

/// Takes the next whole request, as RFC 9112, section 6.3 finds the end of its body. The buffer
/// keeps what was read beyond it. Nothing is read where a whole request is there already, and at most
/// the rest of one piece is read behind its end. After a fault the buffer holds what it held before, and then all
/// that was read.
#[tactic(auto, using(crate::proofs::ReadingLemmas::takes_behind))]
pub fn read_request<S: Source>(
    alloc: Global,
    source: &mut S,
    buffer: &mut Buffer,
) -> Result<Request, FrontFault>
    ensures request { IfOk result (λ r. TakesRequest (S.left source.old) (S.left source.new) buffer.old buffer.new r) }
    ensures kept { OnErr result (ReadsOn (S.left source.old) (S.left source.new) buffer.old buffer.new) }
    ensures fault { IfErr result (λ fault. IsFault fault (S.left source.new) buffer.new) }
    ensures cause { StopsAt FrontFault.ReadFault (S.failures source.old) (S.failures source.new) result }
{
    let (head, size) = read_whole(source, buffer)?;
    take_request(alloc, buffer, head, size)
}
