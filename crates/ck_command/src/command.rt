//! The command line, over the devices that it is handed.
ghost use Rattle.std.specs.Prelude.{◌≡◌, ◌≤◌, ◌↔◌, [], None, option_map};
ghost use Rattle.talk_model.specs.Given.{Draws};
ghost use Rattle.ck_command.specs.Arguments.{args_of, asked_by};
ghost use Rattle.ck_command.specs.Endings.{status_of};
ghost use Rattle.ck_command.specs.Lines.{line_of, Tells};
ghost use Rattle.ck_command.specs.Serving.{GivenAre, Runs};
ghost use Rattle.ck_command.specs.Runs.{IsThreeAtNoTable, Ran};

use crate::endings::Ending;
use crate::run::run_command;
use ck_base::Text;
use ck_devices::{Clock, Shelf, Sink, Source, Words};
use std::alloc::Global;

// The words behind `run`, where that is the first.
fn behind_run(words: &[Text]) -> Option<&[Text]>
    ensures { option_map (λ args. args.now) result ≡ args_of words.now }
{
    match words.split_first() {
        Some((command, args)) if command.as_str() == "run" => Some(args),
        _ => None,
    }
}

/// Tells an ending on standard error, and gives its status.
pub fn end_with<E: Sink>(errors: &mut E, ending: Ending<'_>) -> u8
    ensures status { result ≡ status_of ending.entry }
    ensures told { Tells (E.held errors.old) (E.held errors.new)
        (E.failures errors.old) (E.failures errors.new) (line_of ending.entry) }
{
    ending.report(errors);
    ending.status()
}

/// Does what the words of a command line ask for. Behind the word `run` it is `run_command`; without
/// it the words are wrong.
pub fn dispatch<F: Shelf, S: Source, W: Sink, E: Sink, C: Clock, R: Words>(
    alloc: Global,
    words: &[Text],
    shelf: &mut F,
    source: &mut S,
    sink: &mut W,
    errors: &mut E,
    clock: &mut C,
    random: &mut R,
) -> u8
    ensures status { result ≤ 5 }
    ensures words { (result ≡ 2) ↔ (asked_by words.now ≡ None) }
    ensures table { IsThreeAtNoTable (F.files shelf.old) (asked_by words.now) result }
    ensures ran { Ran (record { held = E.held errors.old; failures = E.failures errors.old }) (record { held = E.held errors.new; failures = E.failures errors.new }) result
        (Runs (λ lock. []) (GivenAre C.gives (Draws R.gives R.fault_count) clock.old clock.new random.old random.new)
        (record {
          files = F.files shelf.old;
          shelf_faults = F.fault_count shelf.old;
          streams = record { left = S.left source.old; source_failures = S.failures source.old; held = W.held sink.old; sink_failures = W.failures sink.old };
        })
        (record {
          files = F.files shelf.new;
          shelf_faults = F.fault_count shelf.new;
          streams = record { left = S.left source.new; source_failures = S.failures source.new; held = W.held sink.new; sink_failures = W.failures sink.new };
        })
        (asked_by words.now)) }
{
    match behind_run(words) {
        Some(args) => run_command(alloc, args, shelf, source, sink, errors, clock, random),
        None => end_with(errors, Ending::WrongWords),
    }
}
