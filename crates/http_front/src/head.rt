// The head of a request.
ghost use Rattle.std.specs.Prelude.{◌≡◌, ◌≤◌, length};
ghost use Rattle.http_front.specs.Lines.{line_feeds, EndsInFeed};
ghost use Rattle.http_front.specs.Scans.{HasSpans, IsHeadRead, Parses};

use crate::FrontFault;
use crate::fields::{body_length, close_by};
use ck_base::limits::HEAD_LINES;
use httparse::spans::{EMPTY_HEADER_SPAN, HeaderSpan, RequestSpans, Span, parse_request};
use httparse::{Error, Status};

/// The parts of a head that stands at the front of some bytes.
#[derive(Clone, Copy)]
pub(crate) struct HeadRead {
    /// How many bytes it has.
    pub len: usize,
    pub method: Span,
    pub target: Span,
    /// Whether it asks to close the connection.
    pub close: bool,
    /// How long the body behind it is, or why that is not known.
    pub length: Result<usize, FrontFault>,
}

/// What stands at the front of whole lines.
#[derive(Clone, Copy)]
pub(crate) enum Parsed {
    Head(HeadRead),
    /// Nothing that can become a head.
    Never,
    /// No head yet.
    NotYet,
}

fn head_read(bytes: &[u8], spans: RequestSpans, headers: &[HeaderSpan]) -> HeadRead
    requires { HasSpans bytes.now spans headers.now }
    ensures { IsHeadRead bytes.now result }
{
    HeadRead {
        len: spans.len,
        method: spans.method,
        target: spans.path,
        close: spans.version == 0 || close_by(bytes, headers),
        length: body_length(spans.method.of(bytes), bytes, headers),
    }
}

/// What stands at the front of these whole lines.
pub(crate) fn parse_lines(lines: &[u8]) -> Parsed
    requires whole { EndsInFeed lines.now }
    requires few { line_feeds lines.now ≤ 128 }
    ensures { Parses lines.now result }
{
    let mut headers = [EMPTY_HEADER_SPAN; HEAD_LINES];
    match parse_request(lines, &mut headers) {
        Ok(Status::Complete(spans)) => {
            Parsed::Head(head_read(lines, spans, &headers[..spans.headers]))
        }
        Ok(Status::Partial) => Parsed::NotYet,
        Err(Error::TooManyHeaders) => Parsed::Never,
        Err(_) => Parsed::Never,
    }
}
