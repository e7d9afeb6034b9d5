//! One run of the server over the devices that it is handed.
ghost use Rattle.std.specs.Prelude.{◌≡◌, ◌≤◌, ◌↔◌, [], None, IfOk, OnOk, IfErr};
ghost use Rattle.talk_model.specs.Given.{Draws, GaveFor};
ghost use Rattle.ck_command.specs.Arguments.{asked_of};
ghost use Rattle.ck_command.specs.Endings.{ending_of, MayRefuse};
ghost use Rattle.ck_command.specs.Serving.{GivenAre, ServesFrom, IsTableIn, Runs};
ghost use Rattle.ck_command.specs.Runs.{IsThreeAtNoTable, Ran};

use crate::arguments::read_arguments;
use crate::endings::Ending;
use ck_base::Text;
use ck_devices::{Clock, FixedClock, Shelf, ShelfFault, Sink, Source, Words};
use ck_server::{End, TalkFaultKind, converse};
use http_front::{Users, UsersFault, read_users};
use std::alloc::Global;
use zone_board::Solo;

// Reads the table of users from its file.
fn load_users<'a, F: Shelf>(
    alloc: Global,
    shelf: &mut F,
    name: &'a str,
) -> Result<Users, Ending<'a>>
    ensures table { IfOk result (λ users. IsTableIn (F.files shelf.old) name.now users) }
    ensures refused { IfErr result (MayRefuse (F.files shelf.old) name.now (F.fault_count shelf.old) (F.fault_count shelf.new)) }
    ensures kept { F.files shelf.new ≡ F.files shelf.old }
    ensures counted { OnOk result (F.fault_count shelf.new ≡ F.fault_count shelf.old) }
{
    let mut bytes = Vec::new(alloc);
    match shelf.read(name, &mut bytes) {
        Ok(true) => match read_users(alloc, &bytes) {
            Ok(users) => Ok(users),
            Err(UsersFault::BadLine(_)) => Err(Ending::BadFile(name)),
            Err(UsersFault::NoMemory) => Err(Ending::OutOfMemory),
        },
        Ok(false) => Err(Ending::BadFile(name)),
        Err(ShelfFault::Failed) => Err(Ending::DeviceFault),
        Err(ShelfFault::NoMemory) => Err(Ending::OutOfMemory),
    }
}

// An end of a conversation that did not break off.
fn ending_at<'a>(end: End) -> Ending<'a>
    ensures { result ≡ ending_of end }
{
    match end {
        End::Closed | End::CloseAsked | End::Spent => Ending::Done,
        End::Cut
        | End::BadHead
        | End::HeadTooLong
        | End::NoLength
        | End::BodyTooLong
        | End::NotBuilt => Ending::Early(end),
    }
}

// Answers the requests of the source on a board of its own.
fn answer_all<'a, S: Source, W: Sink, C: Clock, R: Words>(
    alloc: Global,
    users: &Users,
    source: &mut S,
    sink: &mut W,
    clock: &mut C,
    words: &mut R,
) -> Ending<'a>
    ensures { ServesFrom (λ lock. []) users.now (GaveFor C.gives (Draws R.gives R.fault_count) clock.old clock.new words.old words.new)
        (record { left = S.left source.old; source_failures = S.failures source.old; held = W.held sink.old; sink_failures = W.failures sink.old })
        (record { left = S.left source.new; source_failures = S.failures source.new; held = W.held sink.new; sink_failures = W.failures sink.new }) result }
{
    let mut board = Solo::new(alloc);
    match converse(alloc, &mut board, users, source, sink, clock, words) {
        Ok(talk) => ending_at(talk.end),
        Err(fault) => match fault.at {
            TalkFaultKind::ReadFault => Ending::DeviceFault,
            TalkFaultKind::WriteFault => Ending::DeviceFault,
            TalkFaultKind::NoMemory => Ending::OutOfMemory,
        },
    }
}

// Reads the words and the table of users, and answers the requests.
fn run<'a, F: Shelf, S: Source, W: Sink, C: Clock, R: Words>(
    alloc: Global,
    args: &'a [Text],
    shelf: &mut F,
    source: &mut S,
    sink: &mut W,
    clock: &mut C,
    words: &mut R,
) -> Ending<'a>
    ensures { Runs (λ lock. []) (GivenAre C.gives (Draws R.gives R.fault_count) clock.old clock.new words.old words.new)
        (record {
          files = F.files shelf.old;
          shelf_faults = F.fault_count shelf.old;
          streams = record { left = S.left source.old; source_failures = S.failures source.old; held = W.held sink.old; sink_failures = W.failures sink.old };
        })
        (record {
          files = F.files shelf.new;
          shelf_faults = F.fault_count shelf.new;
          streams = record { left = S.left source.new; source_failures = S.failures source.new; held = W.held sink.new; sink_failures = W.failures sink.new };
        })
        (asked_of args.now) result }
{
    let Some(asked) = read_arguments(args) else {
        return Ending::WrongWords;
    };
    let users = match load_users(alloc, shelf, asked.users) {
        Ok(users) => users,
        Err(ending) => return ending,
    };
    match asked.moment {
        Some(moment) => {
            let mut clock = FixedClock(moment);
            answer_all(alloc, &users, source, sink, &mut clock, words)
        }
        None => answer_all(alloc, &users, source, sink, clock, words),
    }
}

/// Answers the requests of the source to the sink, for the users of a file of the shelf, until the
/// source ends, a request asks to close, 100,000 are answered, or the conversation ends otherwise. The
/// words are those behind `run`: `USERS`, or `USERS --moment N`, where N stands for the clock. The
/// answer is the status of the program, and `errors` takes the line that says why it is not 0.
pub fn run_command<F: Shelf, S: Source, W: Sink, E: Sink, C: Clock, R: Words>(
    alloc: Global,
    args: &[Text],
    shelf: &mut F,
    source: &mut S,
    sink: &mut W,
    errors: &mut E,
    clock: &mut C,
    words: &mut R,
) -> u8
    ensures status { result ≤ 5 }
    ensures words { (result ≡ 2) ↔ (asked_of args.now ≡ None) }
    ensures table { IsThreeAtNoTable (F.files shelf.old) (asked_of args.now) result }
    ensures ran { Ran (record { held = E.held errors.old; failures = E.failures errors.old }) (record { held = E.held errors.new; failures = E.failures errors.new }) result
        (Runs (λ lock. []) (GivenAre C.gives (Draws R.gives R.fault_count) clock.old clock.new words.old words.new)
        (record {
          files = F.files shelf.old;
          shelf_faults = F.fault_count shelf.old;
          streams = record { left = S.left source.old; source_failures = S.failures source.old; held = W.held sink.old; sink_failures = W.failures sink.old };
        })
        (record {
          files = F.files shelf.new;
          shelf_faults = F.fault_count shelf.new;
          streams = record { left = S.left source.new; source_failures = S.failures source.new; held = W.held sink.new; sink_failures = W.failures sink.new };
        })
        (asked_of args.now)) }
{
    let ending = run(alloc, args, shelf, source, sink, clock, words);
    ending.report(errors);
    ending.status()
}
