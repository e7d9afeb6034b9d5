// Requests by their callers.
use crate::fault::LineFault;
use crate::rows::Sent;
use std::alloc::Global;

/// What the targets of callers have behind the API token. A caller `nobody` brings no token of its
/// own, and no user has that of `stranger`.
const TOKENS: [(&str, &str); 6] = [
    ("ann", "&ckWebAuthToken=wa"),
    ("bob", "&ckWebAuthToken=wb"),
    ("cat", "&ckWebAuthToken=wc"),
    ("dan", "&ckWebAuthToken=wd"),
    ("stranger", "&ckWebAuthToken=no"),
    ("nobody", ""),
];

/// A request by `CALLER METHOD PATH`, perhaps with a version.
pub fn new_request(alloc: Global, line: &str) -> Result<Sent, LineFault> {
    let mut words = line.split_whitespace();
    let (Some(caller), Some(method), Some(path)) = (words.next(), words.next(), words.next()) else {
        return Err(LineFault::Wrong("no caller, method and path"));
    };
    let version = words.next().unwrap_or("HTTP/1.1");
    if words.next().is_some() {
        return Err(LineFault::Wrong("more words than a request has"));
    }
    let target = target_of(alloc, caller, path)?;
    let target = target.as_str();
    Ok(Sent::Request {
        head: format!(in alloc; "{method} {target} {version}\r\nhost: h\r\n")?,
        body: String::new(alloc),
    })
}

// A path that begins with a slash is the whole target.
fn target_of(alloc: Global, caller: &str, path: &str) -> Result<String, LineFault> {
    let token = token_of(caller)?;
    if path.starts_with('/') {
        return Ok(String::from_str(alloc, path)?);
    }
    Ok(format!(in alloc; "/database/1/iCloud.test/development/{path}?ckAPIToken=api{token}")?)
}

fn token_of(caller: &str) -> Result<&'static str, LineFault> {
    for (name, token) in &TOKENS {
        if *name == caller {
            return Ok(*token);
        }
    }
    Err(LineFault::Wrong("no such caller"))
}
