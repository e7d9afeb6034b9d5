// The items of a target's query.
ghost use Rattle.std.specs.Prelude.{◌≡◌, string_bytes, option_map, IfOk};
ghost use Rattle.http_front.specs.Queries.{query_of, item_of};

use crate::cuts::place_of;
use ck_base::NoMemory;
use std::alloc::Global;

// The query of a target, which its first question mark begins.
fn query_of(target: &[u8]) -> &[u8]
    ensures { result.now ≡ query_of target.now }
{
    match place_of(target, b'?') {
        Some(at) => &target[at + 1..],
        None => &[],
    }
}

/// The value of the first item of that name in the query of a target, read as a form of the URL
/// Standard, section 5.1.
pub fn query_item(alloc: Global, target: &[u8], name: &str) -> Result<Option<String>, NoMemory>
    ensures { IfOk result (λ value. option_map string_bytes value ≡ item_of name.now target.now) }
{
    let mut pairs = form_urlencoded::parse(alloc, query_of(target));
    while let Some(pair) = pairs.next() {
        let (key, value) = pair?;
        if key.as_str() == name {
            return Ok(Some(value.into_owned(alloc)?));
        }
    }
    Ok(None)
}
