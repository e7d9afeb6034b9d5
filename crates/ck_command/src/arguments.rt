//! The arguments of the command line.
ghost use Rattle.std.specs.Prelude.{◌≡◌, not};
ghost use Rattle.std.specs.Option.{option_map};
ghost use Rattle.std.specs.Str.Parse.{starts_with_minus};
ghost use Rattle.ck_command.specs.Arguments.{asked_of};

use ck_base::{Text, read_number};

/// What the arguments of `run` ask for: the file of the users, and perhaps a moment in milliseconds
/// that stands for the clock.
#[derive(Clone, Copy, Debug)]
pub struct RunArguments<'a> {
    pub users: &'a str,
    pub moment: Option<u64>,
}

// A word that begins with a hyphen names no file.
fn names_file(word: &str) -> bool
    ensures { result ≡ not (starts_with_minus word.now) }
{
    !word.starts_with('-')
}

/// Reads `USERS` or `USERS --moment N`, with N as std's `parse` reads a u64. Other words are `None`.
pub fn read_arguments(args: &[Text]) -> Option<RunArguments<'_>>
    ensures { option_map (λ asked. record { users = asked.users.now; moment = asked.moment }) result
        ≡ asked_of args.now }
{
    match args {
        [users] if names_file(users.as_str()) => Some(RunArguments {
            users: users.as_str(),
            moment: None,
        }),
        [users, flag, number] if names_file(users.as_str()) && flag.as_str() == "--moment" => {
            match read_number(number.as_str()) {
                Some(moment) => Some(RunArguments {
                    users: users.as_str(),
                    moment: Some(moment),
                }),
                None => None,
            }
        }
        _ => None,
    }
}
