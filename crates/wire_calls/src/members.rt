// Members of calls that are truth values, texts or whole numbers.
ghost use Rattle.std.specs.Prelude.{◌≡◌, IfOk, IfSome, IsUtf8, option_map};
ghost use Rattle.serde_json.specs.View.{view};
ghost use Rattle.ck_base.specs.Told.{IsToldUnless};
ghost use Rattle.wire_calls.specs.Members.{flag_at, text_at, count_at, limit_at, IsPageLimit};

use crate::{BadCall, CallKey};
use ck_base::Text;
use ck_base::limits::PAGE_ENTRIES;
use serde_json::Value as Json;
use std::alloc::Global;

/// The truth value that a member of a call is, or the default where it is absent.
pub(crate) fn flag_at(key: CallKey, default: bool, json: Option<&Json>) -> Result<bool, BadCall>
    ensures { result ≡ flag_at key default (option_map (λ v. view v.now) json.entry) }
{
    let Some(json) = json else {
        return Ok(default);
    };
    match json.as_bool() {
        Some(flag) => Ok(flag),
        None => Err(BadCall::BadKey(key)),
    }
}

/// The text that a member of a call is, where it is there. What is no text is `BadKey`.
pub fn text_at(alloc: Global, key: CallKey, json: Option<&Json>) -> Result<Option<Text>, BadCall>
    ensures text { IsToldUnless BadCall.NoMemory result
        (text_at key (option_map (λ v. view v.now) json.entry)) }
    ensures meant { IfOk result (λ text. IfSome text IsUtf8) }
{
    let Some(json) = json else {
        return Ok(None);
    };
    match json.as_str() {
        Some(text) => Ok(Some(Text::from_str(alloc, text)?)),
        None => Err(BadCall::BadKey(key)),
    }
}

/// The whole number that a member of a call is, where it is there. A number below 0, one that is not
/// whole, and one past 64 bits are `BadKey`, as is what is no number.
pub fn count_at(key: CallKey, json: Option<&Json>) -> Result<Option<u64>, BadCall>
    ensures { result ≡ count_at key (option_map (λ v. view v.now) json.entry) }
{
    let Some(json) = json else {
        return Ok(None);
    };
    match json.as_u64() {
        Some(count) => Ok(Some(count)),
        None => Err(BadCall::BadKey(key)),
    }
}

/// How many results a call asks for with `resultsLimit`, where it does: at least 1, and 200 where it
/// asks for more. Anything else is `BadKey`.
pub fn limit_at(json: Option<&Json>) -> Result<Option<u64>, BadCall>
    ensures limit { result ≡ limit_at (option_map (λ v. view v.now) json.entry) }
    ensures meant { IfOk result (λ limit. IfSome limit IsPageLimit) }
{
    match count_at(CallKey::ResultsLimit, json)? {
        Some(0) => Err(BadCall::BadKey(CallKey::ResultsLimit)),
        Some(count) if count > PAGE_ENTRIES => Ok(Some(PAGE_ENTRIES)),
        Some(count) => Ok(Some(count)),
        None => Ok(None),
    }
}
