// The names that random words make.
ghost use Rattle.std.specs.Prelude.{◌≡◌, ◌<◌, ◌||◌, true, is_some, IfOk, length};
ghost use Rattle.std.specs.List.{AllByRecursion};
ghost use Rattle.ck_base.specs.Names.{IsName};
ghost use Rattle.drawn_names.specs.Drawing.{draws_name, words_drawn, name_of_word, drawn_name, names_of};
ghost use Rattle.zone_model.specs.OpForms.{IsMeantOp};
ghost use Rattle.zone_model.specs.Requests.{is_create};

use crate::words_for;
use ck_base::{Items, NoMemory, RecordName, RecordNames, record_name};
use std::alloc::Global;
use uuid::Builder;
use zone_model::Op;

/// The record name that a word makes: the text of a random UUID (RFC 9562, section 5.4).
pub fn name_of_word(alloc: Global, word: &[u8; 16]) -> Result<RecordName, NoMemory>
    ensures name { IfOk result (λ name. name ≡ name_of_word word.now) }
    ensures form { IfOk result IsName }
{
    let mut room = [0; 36];
    let uuid = Builder::from_random_bytes(*word).into_uuid();
    let text = uuid.hyphenated().encode_lower(&mut room);
    match record_name(alloc, text.as_bytes()) {
        Ok(name) => Ok(name),
        Err(_) => Err(NoMemory),
    }
}

/// The name of an operation's record: the one that it gives, or else that of the first word.
pub fn name_for(alloc: Global, op: &Op, words: &[[u8; 16]]) -> Result<RecordName, NoMemory>
    requires named { (is_create op.now.kind || is_some op.now.draft.name) ≡ true }
    requires word { draws_name op.now ≡ true → 0 < length words.now }
    ensures { IfOk result (λ name. name ≡ drawn_name op.now words.now) }
{
    match &op.draft.name {
        Some(name) => Ok(name.clone()?),
        None => name_of_word(alloc, &words[0]),
    }
}

/// The name of each operation's record: the one that it gives, or else that of the next of the words
/// that were drawn for the operations. It fails only where memory runs out.
pub fn names_of(alloc: Global, ops: &[Op], words: &[[u8; 16]]) -> Result<RecordNames, NoMemory>
    requires meant { AllByRecursion IsMeantOp ops.now }
    requires words { length words.now ≡ words_drawn ops.now }
    ensures { IfOk result (λ names. names ≡ names_of ops.now words.now) }
{
    let mut names = Vec::new(alloc);
    let mut rest = words;
    for op in ops {
        names.push(name_for(alloc, op, rest)?)?;
        rest = &rest[words_for(op)..];
    }
    Ok(Items::from_vec(names))
}
