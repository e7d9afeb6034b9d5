// Drawing random words for a request.
ghost use Rattle.std.specs.Prelude.{◌≡◌, ◌<◌, [], true, IfOk, OnErr, MatchBool, length};
ghost use Rattle.ck_devices.specs.Runs.{GivesInTurn};
ghost use Rattle.wire_calls.specs.Meant.{IsMeantCall};
ghost use Rattle.talk_model.specs.declared.wants.Want.TheVariants.{Called};
ghost use Rattle.talk_model.specs.Given.{draws_by, Draws, words_of};

use board_model::Word;
use ck_base::NoMemory;
use ck_devices::Words;
use modify_ops::words_drawn;
use std::alloc::Global;
use wire_calls::Call;

/// The words that were drawn, and whether no draw failed.
#[derive(Drop)]
pub(crate) struct Drawn {
    pub words: Vec<Word>,
    pub drawn: bool,
}

// How many words a call draws.
pub(crate) fn words_of(call: &Call) -> usize
    requires { IsMeantCall call.now }
    ensures { result ≡ words_of (Called call.now) }
{
    match call {
        Call::Modify(call) => words_drawn(call.ops.as_slice()),
        Call::Lookup(_) => 0,
    }
}

// Nothing is drawn for a request that is refused.
pub(crate) fn nothing_drawn(alloc: Global) -> Drawn
    ensures words { result.words.items ≡ [] }
    ensures drawn { result.drawn ≡ true }
{
    Drawn {
        words: Vec::new(alloc),
        drawn: true,
    }
}

// Draws so many words, or those before the first draw that fails. Their room is made before.
pub(crate) fn draw_words<R: Words>(
    alloc: Global,
    words: &mut R,
    count: usize,
) -> Result<Drawn, NoMemory>
    ensures drew { IfOk result (λ d. GivesInTurn (Draws R.gives R.fault_count) words.old (draws_by d.words.items d.drawn) words.new) }
    ensures many { IfOk result (λ d. MatchBool d.drawn (length d.words.items ≡ count) (length d.words.items < count)) }
    ensures none { OnErr result (words.new ≡ words.old) }
{
    let mut drawn = Vec::with_capacity(alloc, count)?;
    while drawn.len() < count {
        match words.draw() {
            Ok(word) => drawn.push_reserved(word),
            Err(_) => {
                return Ok(Drawn {
                    words: drawn,
                    drawn: false,
                });
            }
        }
    }
    Ok(Drawn {
        words: drawn,
        drawn: true,
    })
}
