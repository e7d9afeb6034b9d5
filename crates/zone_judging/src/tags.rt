// Change tags, which are decimal numbers in requests.
ghost use Rattle.std.specs.Prelude.{◌≡◌, ◌<◌, ◌+◌, ◌&&◌, [], nat_eq, decimal};
ghost use Rattle.zone_model.specs.Names.{same};
ghost use Rattle.zone_model.specs.Grounds.{is_stale};

use ck_base::Text;
use record_model::Record;

// Whether the one digit of the number is all of the text.
fn is_digit(front: &[u8], last: u8, number: u64) -> bool
    requires { number < 10 }
    ensures { result ≡ (nat_eq last (48 + number) && same front.now []) }
{
    last == b'0' + number as u8 && front.is_empty()
}

// Whether the text is the number, in decimal digits.
fn is_decimal(text: &[u8], number: u64) -> bool
    ensures { result ≡ same text.now (decimal number) }
{
    match text.split_last() {
        None => false,
        Some((last, front)) => {
            if number < 10 {
                is_digit(front, *last, number)
            } else {
                *last == b'0' + (number % 10) as u8 && is_decimal(front, number / 10)
            }
        }
    }
}

/// Whether the tag is none, or another text than the record's.
pub(crate) fn is_stale(tag: &Option<Text>, row: &Record) -> bool
    ensures { result ≡ is_stale tag.now row.now }
{
    match tag {
        Some(text) => !is_decimal(text.as_bytes(), row.tag),
        None => true,
    }
}
