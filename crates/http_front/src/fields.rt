// What the fields of a head say of the body and of the connection.
ghost use Rattle.std.specs.Prelude.{◌≡◌, ◌≤◌, ◌<◌, ◌∷◌, [], ◌==◌, IsTrue, MatchOption, length, reverse, map, codes};
ghost use Rattle.std.specs.Char.{is_ascii_digit, to_ascii_lowercase};
ghost use Rattle.std.specs.List.{AllByRecursion, list_all};
ghost use Rattle.std.specs.Str.Parse.{digits_value};
ghost use Rattle.httparse.specs.Grammar.{trim_ows, skip_ows};
ghost use Rattle.httparse.specs.Spans.{IsHeaderWithin, header_bytes};
ghost use Rattle.http_front.specs.Fields.{is_named, values_of, stated_length, length_of, length_by, is_close, has_close, close_by};
ghost use Rattle.http_front.specs.Found.{HasFound};

use crate::FrontFault;
use ck_base::limits::BODY_BYTES;
use httparse::spans::HeaderSpan;

/// The most digits of a stated length.
const LENGTH_DIGITS: usize = 19;

// The value of a field, and the fields behind it.
#[derive(Clone, Copy)]
struct Found<'a, 'h> {
    value: &'a [u8],
    behind: &'h [HeaderSpan],
}

fn is_field_named(bytes: &[u8], header: HeaderSpan, name: &[u8]) -> bool
    requires within { IsHeaderWithin (length bytes.now) header }
    requires lower_case { map to_ascii_lowercase name.now ≡ name.now }
    ensures { result ≡ is_named name.now (header_bytes bytes.now header) }
{
    header.name.of(bytes).eq_ignore_ascii_case(name)
}

// The first field of that name.
fn find_named<'a, 'h>(
    bytes: &'a [u8],
    headers: &'h [HeaderSpan],
    name: &[u8],
) -> Option<Found<'a, 'h>>
    requires within { AllByRecursion (IsHeaderWithin (length bytes.now)) headers.now }
    requires lower_case { map to_ascii_lowercase name.now ≡ name.now }
    ensures { MatchOption result
        (values_of name.now (map (header_bytes bytes.now) headers.now) ≡ [])
        (λ found. HasFound bytes.now headers.now name.now found) }
{
    let mut rest = headers;
    while let [header, behind @ ..] = rest {
        if is_field_named(bytes, *header, name) {
            let value = header.value.of(bytes);
            return Some(Found { value, behind });
        }
        rest = behind;
    }
    None
}

fn are_digits(text: &[u8]) -> bool
    ensures { result ≡ list_all is_ascii_digit text.now }
{
    text.iter().all(|byte| byte.is_ascii_digit())
}

// The number that these digits write.
fn number_of(digits: &[u8]) -> u64
    requires few { length digits.now ≤ 19 }
    requires all { IsTrue (list_all is_ascii_digit digits.now) }
    ensures { result ≡ digits_value 10 digits.now }
{
    let mut number = 0;
    for digit in digits {
        number = number * 10 + u64::from(*digit - b'0');
    }
    number
}

// The length that a value states.
fn read_length(text: &[u8]) -> Result<usize, FrontFault>
    ensures { result ≡ stated_length text.now }
{
    if text.is_empty() || text.len() > LENGTH_DIGITS || !are_digits(text) {
        return Err(FrontFault::NoLength);
    }
    let number = number_of(text);
    if number <= BODY_BYTES as u64 {
        Ok(number as usize)
    } else {
        Err(FrontFault::BodyTooLong)
    }
}

// The length that the content-length fields state.
fn content_length(method: &[u8], bytes: &[u8], headers: &[HeaderSpan]) -> Result<usize, FrontFault>
    requires within { AllByRecursion (IsHeaderWithin (length bytes.now)) headers.now }
    ensures { result ≡ length_of method.now (values_of (codes "content-length") (map (header_bytes bytes.now) headers.now)) }
{
    match find_named(bytes, headers, b"content-length") {
        Some(found) => match find_named(bytes, found.behind, b"content-length") {
            Some(_) => Err(FrontFault::NoLength),
            None => read_length(found.value),
        },
        None => {
            if method == b"POST".as_slice() {
                Err(FrontFault::NoLength)
            } else {
                Ok(0)
            }
        }
    }
}

/// How long the body is, by the method and the fields.
pub(crate) fn body_length(
    method: &[u8],
    bytes: &[u8],
    headers: &[HeaderSpan],
) -> Result<usize, FrontFault>
    requires within { AllByRecursion (IsHeaderWithin (length bytes.now)) headers.now }
    ensures { result ≡ length_by method.now (map (header_bytes bytes.now) headers.now) }
{
    match find_named(bytes, headers, b"transfer-encoding") {
        Some(_) => Err(FrontFault::NoLength),
        None => content_length(method, bytes, headers),
    }
}

// The bytes from the first that is no blank and no tab.
fn skip_blanks(bytes: &[u8]) -> &[u8]
    ensures { result.now ≡ skip_ows bytes.now }
{
    let mut rest = bytes;
    while let [b' ' | b'\t', behind @ ..] = rest {
        rest = behind;
    }
    rest
}

// The bytes up to the last that is no blank and no tab.
fn skip_last_blanks(bytes: &[u8]) -> &[u8]
    ensures { result.now ≡ reverse (skip_ows (reverse bytes.now)) }
{
    let mut rest = bytes;
    while let [before @ .., b' ' | b'\t'] = rest {
        rest = before;
    }
    rest
}

fn trim_blanks(bytes: &[u8]) -> &[u8]
    ensures { result.now ≡ trim_ows bytes.now }
{
    skip_last_blanks(skip_blanks(bytes))
}

fn is_close(part: &[u8]) -> bool
    ensures { result ≡ is_close part.now }
{
    trim_blanks(part).eq_ignore_ascii_case(b"close")
}

fn has_close(value: &[u8]) -> bool
    ensures { result ≡ has_close value.now }
{
    value.split(|byte| *byte == b',').any(|part| is_close(part))
}

/// Whether a connection field asks to close.
pub(crate) fn close_by(bytes: &[u8], headers: &[HeaderSpan]) -> bool
    requires within { AllByRecursion (IsHeaderWithin (length bytes.now)) headers.now }
    ensures { result ≡ close_by (map (header_bytes bytes.now) headers.now) }
{
    let mut rest = headers;
    while let Some(found) = find_named(bytes, rest, b"connection") {
        if has_close(found.value) {
            return true;
        }
        rest = found.behind;
    }
    false
}
