// The table of users, and the text that it is read from.
ghost use Rattle.std.specs.Prelude.{◌≡◌, ◌≢◌, ◌<◌, ◌∷◌, [], length, IsTrue, IfOk, IfErr, IfSome, MatchOption};
ghost use Rattle.std.specs.Option.{option_copied, option_map};
ghost use Rattle.std.specs.List.{list_all};
ghost use Rattle.ck_base.specs.Told.{IsToldUnless};
ghost use Rattle.http_front.specs.Users.{is_part, is_part_byte, is_environment, is_user, user_of_token, pieces_at, lines_of, parts_of, opening_of};
ghost use Rattle.http_front.specs.Users.{pair_of, users_of, table_of, table_text, IsTable, IsNoTable};

use crate::cuts::place_of;
use crate::route::Routes;
use ck_base::known::DEFAULT_OWNER;
use ck_base::{Bytes, Items, NameFault, NoMemory, UserName, user_name};
use std::alloc::{AllocError, AllocFailed, Global};
use std::marker::Model;

/// The most bytes of a part of a line.
const PART_BYTES: usize = 255;

/// Who may call: the container and its environment, the API token, and each web token with the
/// user that it stands for; and the paths that calls have, made ready. It has no `Debug`, so that no
/// token is printed.
#[derive(Drop)]
pub struct Users {
    routes: Routes,
    container: Bytes,
    environment: Bytes,
    api_token: Bytes,
    users: Items<(Bytes, UserName)>,
}

impl Model for Users {
    ghost use Rattle.http_front.specs.Users.{Table};

    ghost Value = { Table };

    ghost view = { λ u. record { container = u.container; environment = u.environment; api_token = u.api_token; users = u.users } };
}

/// Why bytes are no table of users.
#[derive(Clone, Copy, Debug, PartialEq, Eq)]
pub enum UsersFault {
    /// The first line, counted from 1, that has another form than a line of its place.
    BadLine(u64),
    /// Memory ran out.
    NoMemory,
}

impl From<AllocError> for UsersFault {
    ghost use Rattle.std.specs.Prelude.{◌≡◌};
    ghost use Rattle.http_front.specs.declared.users.UsersFault.TheVariants.{NoMemory};

    ghost from_gives = { λ _ e. e ≡ NoMemory };

    fn from(_e: AllocError) -> Self {
        UsersFault::NoMemory
    }
}

impl<T: Drop> From<AllocFailed<T>> for UsersFault {
    ghost use Rattle.std.specs.Prelude.{◌≡◌};
    ghost use Rattle.http_front.specs.declared.users.UsersFault.TheVariants.{NoMemory};

    ghost from_gives = { λ _ e. e ≡ NoMemory };

    fn from(_e: AllocFailed<T>) -> Self {
        UsersFault::NoMemory
    }
}

impl From<NoMemory> for UsersFault {
    ghost use Rattle.std.specs.Prelude.{◌≡◌};
    ghost use Rattle.http_front.specs.declared.users.UsersFault.TheVariants.{NoMemory as OutOfMemory};

    ghost from_gives = { λ _ e. e ≡ OutOfMemory };

    fn from(_e: NoMemory) -> Self {
        UsersFault::NoMemory
    }
}

impl Users {
    /// The paths that calls have.
    pub fn routes(&self) -> &Routes {
        &self.routes
    }

    /// The container that the server serves.
    pub fn container(&self) -> &[u8]
        ensures { result.now ≡ self.now.container }
    {
        self.container.as_slice()
    }

    /// The environment of the container, `development` or `production`.
    pub fn environment(&self) -> &[u8]
        ensures { result.now ≡ self.now.environment }
    {
        self.environment.as_slice()
    }

    /// The token that each request has to bring.
    pub fn api_token(&self) -> &[u8]
        ensures { result.now ≡ self.now.api_token }
    {
        self.api_token.as_slice()
    }

    /// The user that a web token stands for, or `None` where no line has the token.
    pub fn user_of_token(&self, web_token: &[u8]) -> Option<&UserName>
        ensures { option_copied result ≡ user_of_token self.now.users web_token.now }
    {
        find_user(self.users.as_slice(), web_token)
    }
}

/// The table of users that a text is. Its first line is the container, the environment and the API
/// token, and each later line a web token and the user that it stands for.
///
/// The first line that has another form is `BadLine`, and so is one that ends without a line feed,
/// an environment other than `development` and `production`, a web token that an earlier line has,
/// and the user `__defaultOwner__`.
pub fn read_users(alloc: Global, bytes: &[u8]) -> Result<Users, UsersFault>
    ensures exact { IsToldUnless UsersFault.NoMemory result (table_of bytes.now) }
    ensures spelled { IfOk result (λ users. IsTable users × (bytes.now ≡ table_text users)) }
    ensures refused { IfErr result (λ fault. fault ≢ UsersFault.NoMemory → IsNoTable bytes.now) }
{
    let Some((first, later)) = split_once(bytes, b'\n') else {
        return Err(UsersFault::BadLine(1));
    };
    let Some((container, environment, api_token)) = read_opening(first) else {
        return Err(UsersFault::BadLine(1));
    };
    Ok(Users {
        routes: Routes::new(alloc)?,
        container: Bytes::from_slice(alloc, container)?,
        environment: Bytes::from_slice(alloc, environment)?,
        api_token: Bytes::from_slice(alloc, api_token)?,
        users: read_pairs(alloc, later)?,
    })
}

fn read_pairs(alloc: Global, text: &[u8]) -> Result<Items<(Bytes, UserName)>, UsersFault>
    ensures { IsToldUnless UsersFault.NoMemory result (users_of 2 [] (lines_of text.now)) }
{
    let mut users = Items::new(alloc);
    let mut number = 2;
    let mut rest = text;
    while let Some((line, later)) = split_once(rest, b'\n') {
        let Some((web_token, user)) = read_pair(users.as_slice(), line) else {
            return Err(UsersFault::BadLine(number));
        };
        let web_token = Bytes::from_slice(alloc, web_token)?;
        users.push((web_token, name_of_user(alloc, user)?))?;
        number += 1;
        rest = later;
    }
    if rest.is_empty() {
        Ok(users)
    } else {
        Err(UsersFault::BadLine(number))
    }
}

fn read_opening(line: &[u8]) -> Option<(&[u8], &[u8], &[u8])>
    ensures { option_map (λ parts. record {
      container = parts.0.now;
      environment = parts.1.now;
      api_token = parts.2.now;
      users = [];
    }) result ≡ opening_of (parts_of line.now) }
{
    let (container, rest) = split_once(line, b' ')?;
    let (environment, api_token) = split_once(rest, b' ')?;
    if is_part(container) && is_environment(environment) && is_part(api_token) {
        Some((container, environment, api_token))
    } else {
        None
    }
}

fn read_pair<'a>(earlier: &[(Bytes, UserName)], line: &'a [u8]) -> Option<(&'a [u8], &'a [u8])>
    ensures { option_map (λ pair. (pair.0.now, pair.1.now)) result
        ≡ pair_of earlier.now (parts_of line.now) }
{
    let (web_token, user) = split_once(line, b' ')?;
    if is_part(web_token) && is_user(user) && find_user(earlier, web_token).is_none() {
        Some((web_token, user))
    } else {
        None
    }
}

fn find_user<'a>(users: &'a [(Bytes, UserName)], web_token: &[u8]) -> Option<&'a UserName>
    ensures { option_copied result ≡ user_of_token users.now web_token.now }
{
    users
        .iter()
        .find(|(token, _)| web_token == token.as_slice())
        .map(|(_, user)| user)
}

/// What stands before the first separator, and what stands behind it.
fn split_once(bytes: &[u8], separator: u8) -> Option<(&[u8], &[u8])>
    ensures pieces { MatchOption result
        (pieces_at separator bytes.now ≡ bytes.now ∷ [])
        (λ cut. pieces_at separator bytes.now ≡ cut.0.now ∷ pieces_at separator cut.1.now) }
    ensures shorter { IfSome result (λ cut. length cut.1.now < length bytes.now) }
{
    let at = place_of(bytes, separator)?;
    Some((&bytes[..at], &bytes[at + 1..]))
}

fn name_of_user(alloc: Global, part: &[u8]) -> Result<UserName, NoMemory>
    requires { IsTrue (is_part part.now) }
    ensures { IfOk result (λ name. name ≡ part.now) }
{
    match user_name(alloc, part) {
        Ok(name) => Ok(name),
        Err(NameFault::NoMemory) => Err(NoMemory),
        Err(NameFault::Empty | NameFault::TooLong(_) | NameFault::BadChar(_)) => unreachable!(),
    }
}

pub(crate) fn is_environment(bytes: &[u8]) -> bool
    ensures { result ≡ is_environment bytes.now }
{
    bytes == b"development".as_slice() || bytes == b"production".as_slice()
}

fn is_user(bytes: &[u8]) -> bool
    ensures { result ≡ is_user bytes.now }
{
    is_part(bytes) && bytes != DEFAULT_OWNER.as_bytes()
}

fn is_part(bytes: &[u8]) -> bool
    ensures { result ≡ is_part bytes.now }
{
    !bytes.is_empty() && bytes.len() <= PART_BYTES && is_visible(bytes)
}

fn is_visible(bytes: &[u8]) -> bool
    ensures { result ≡ list_all is_part_byte bytes.now }
{
    bytes.iter().all(|byte| byte.is_ascii_graphic())
}
