// One ask at the history of one lock.
ghost use Rattle.std.specs.Prelude.{◌≡◌, ◌≤◌, ◌==◌, [], ◌∷◌, ◌++◌, length, IfOk, OnErr};
ghost use Rattle.std.specs.List.{AllByRecursion};
ghost use Rattle.zone_model.specs.Events.{origin_of, log_of, own};
ghost use Rattle.plain_creates.specs.OnePuts.{IsOnePut};
ghost use Rattle.board_model.specs.Parts.{AreBuilt, MayBeAsked};
ghost use Rattle.board_model.specs.Asks.{stored, ops_at, sight, answer, commits_by, event_of, made, makes};
ghost use Rattle.zone_board.specs.Kept.{IsKept, IsCreation};
ghost use Rattle.zone_board.specs.Askings.{all_done, IsOfOwner};

use crate::AskFault;
use crate::create::{Asking, create_record};
use crate::find::find_records;
use board_model::{Answer, Answered, Part, Word};
use ck_base::{Items, NoMemory};
use drawn_names::{name_for, words_for};
use std::alloc::Global;
use zone_model::{Commit, Event, Op, Origin, Outcome};

// The commits of the creations and their outcomes, one creation after another, each with its name.
fn create_records(
    alloc: Global,
    events: &[Event],
    asking: Asking,
    ops: &[Op],
    words: &[Word],
) -> Result<(Vec<Commit>, Vec<Outcome>), NoMemory>
    requires own { IsOfOwner asking }
    requires puts { AllByRecursion IsOnePut (log_of events.now) }
    requires built { AreBuilt ops.now asking.moment words.now }
    ensures made { IfOk result (λ done. done.0.items ≡ (all_done asking.entry (log_of events.now) (ops_at asking.entry.key.now ops.now words.now)).commits) }
    ensures told { IfOk result (λ done. done.1.items ≡ (all_done asking.entry (log_of events.now) (ops_at asking.entry.key.now ops.now words.now)).outcomes) }
    ensures formed { IfOk result (λ done. AllByRecursion (IsCreation asking.entry.key.now) done.0.items) }
{
    let mut commits = Vec::new(alloc);
    let mut outcomes = Vec::new(alloc);
    let mut drawn = 0;
    for op in ops {
        let name = name_for(alloc, op, &words[drawn..])?;
        let outcome = create_record(alloc, events, &mut commits, asking, op, name)?;
        outcomes.push(outcome)?;
        drawn += words_for(op);
    }
    Ok((commits, outcomes))
}

fn is_own(event: &Event, seat: u64) -> bool
    ensures { result ≡ ((origin_of event.now).seat == seat) }
{
    match event {
        Event::Made { origin, .. } => origin.seat == seat,
        Event::StoreFailed { origin, .. } => origin.seat == seat,
    }
}

// How many of the events the seat has made.
fn count_own(events: &[Event], seat: u64) -> u64
    ensures count { result ≡ length (own seat events.now) }
    ensures bound { result ≤ length events.now }
{
    events.iter().filter(|event| is_own(event, seat)).count() as u64
}

// Adds the event of the commits, unless there are none.
fn add_event(events: &mut Vec<Event>, seat: u64, commits: Vec<Commit>) -> Result<bool, NoMemory>
    ensures added { IfOk result (λ _. events.new.items ≡ events.old.items ++ event_of stored seat events.old.items commits.items) }
    ensures event { IfOk result (λ event. event ≡ makes commits.items) }
    ensures err { OnErr result (events.new.items ≡ events.old.items) }
{
    if commits.is_empty() {
        return Ok(false);
    }
    let origin = Origin {
        seat,
        count: count_own(events, seat) + 1,
    };
    events.push(Event::Made {
        origin,
        commits: Items::from_vec(commits),
    })?;
    Ok(true)
}

// Answers a modification, and adds its event.
fn modify(
    alloc: Global,
    events: &mut Vec<Event>,
    seat: u64,
    asking: Asking,
    ops: &[Op],
    words: &[Word],
) -> Result<Answered, NoMemory>
    requires own { IsOfOwner asking }
    requires puts { AllByRecursion IsOnePut (log_of events.now.items) }
    requires built { AreBuilt ops.now asking.moment words.now }
    ensures made { IfOk result (λ _. events.new.items ≡ events.old.items ++ event_of stored seat events.old.items (all_done asking.entry (log_of events.old.items) (ops_at asking.entry.key.now ops.now words.now)).commits) }
    ensures len { IfOk result (λ answered. answered.len ≡ length events.new.items) }
    ensures event { IfOk result (λ answered. answered.event ≡ makes (all_done asking.entry (log_of events.old.items) (ops_at asking.entry.key.now ops.now words.now)).commits) }
    ensures answer { IfOk result (λ answered. answered.answer ≡ Answer.Modify (all_done asking.entry (log_of events.old.items) (ops_at asking.entry.key.now ops.now words.now)).outcomes) }
    ensures formed { IfOk result (λ _. AllByRecursion (IsCreation asking.entry.key.now) (all_done asking.entry (log_of events.old.items) (ops_at asking.entry.key.now ops.now words.now)).commits) }
    ensures err { OnErr result (events.new.items ≡ events.old.items) }
{
    let (commits, outcomes) = create_records(alloc, events, asking, ops, words)?;
    let event = add_event(events, seat, commits)?;
    Ok(Answered {
        answer: Answer::Modify(Items::from_vec(outcomes)),
        len: events.len() as u64,
        event,
    })
}

// Answers a part at the history of its lock, and adds the event that it makes. Where memory runs
// out the history stays as it was.
fn ask_stripe(
    alloc: Global,
    events: &mut Vec<Event>,
    seat: u64,
    lock: u8,
    part: &Part,
) -> Result<Answered, AskFault>
    requires part { MayBeAsked lock part.now }
    requires puts { AllByRecursion IsOnePut (log_of events.now.items) }
    ensures made { IfOk result (λ _. events.new.items ≡ events.old.items ++ made stored lock seat events.old.items part.now) }
    ensures len { IfOk result (λ answered. answered.len ≡ length events.new.items) }
    ensures event { IfOk result (λ answered. answered.event ≡ makes (commits_by lock events.old.items part.now)) }
    ensures answer { IfOk result (λ answered. answered.answer ≡ answer lock (sight lock events.old.items part.now) part.now) }
    ensures err { OnErr result (events.new.items ≡ events.old.items) }
    ensures kept { IsKept lock events.old.items → IsKept lock events.new.items }
{
    match part {
        Part::Modify {
            user,
            key,
            ops,
            moment,
            words,
            ..
        } => {
            let asking = Asking {
                user,
                key,
                moment: *moment,
            };
            Ok(modify(
                alloc,
                events,
                seat,
                asking,
                ops.as_slice(),
                words.as_slice(),
            )?)
        }
        Part::Lookup { key, names, .. } => Ok(Answered {
            answer: Answer::Lookup(find_records(alloc, events, key, names.as_slice())?),
            len: events.len() as u64,
            event: false,
        }),
    }
}

/// What a board of one thread keeps of a lock: its events, and the lengths at which asks were answered.
#[derive(Drop)]
pub(crate) struct Stripe {
    pub events: Vec<Event>,
    pub turns: Vec<u64>,
}

impl Stripe {
    /// Nothing has happened yet.
    pub(crate) fn new(alloc: Global) -> Stripe
        ensures events { result.events.items ≡ [] }
        ensures turns { result.turns.items ≡ [] }
    {
        Stripe {
            events: Vec::new(alloc),
            turns: Vec::new(alloc),
        }
    }
}

/// Answers a part at the history of its lock as seat 0, adds the event that it makes, and counts the ask by the
/// length at which it was answered. Where memory runs out both lists stay as they were.
pub(crate) fn ask_counted(
    alloc: Global,
    stripe: &mut Stripe,
    lock: u8,
    part: &Part,
) -> Result<Answered, AskFault>
    requires part { MayBeAsked lock part.now }
    requires puts { AllByRecursion IsOnePut (log_of stripe.now.events.items) }
    ensures made { IfOk result (λ _. stripe.new.events.items ≡ stripe.old.events.items ++ made stored lock 0 stripe.old.events.items part.now) }
    ensures len { IfOk result (λ answered. answered.len ≡ length stripe.new.events.items) }
    ensures counted { IfOk result (λ answered. stripe.new.turns.items ≡ stripe.old.turns.items ++ answered.len ∷ []) }
    ensures event { IfOk result (λ answered. answered.event ≡ makes (commits_by lock stripe.old.events.items part.now)) }
    ensures answer { IfOk result (λ answered. answered.answer ≡ answer lock (sight lock stripe.old.events.items part.now) part.now) }
    ensures err { OnErr result (stripe.new.events.items ≡ stripe.old.events.items) }
    ensures uncounted { OnErr result (stripe.new.turns.items ≡ stripe.old.turns.items) }
    ensures kept { IsKept lock stripe.old.events.items → IsKept lock stripe.new.events.items }
{
    stripe.turns.reserve(1)?;
    let answered = ask_stripe(alloc, &mut stripe.events, 0, lock, part)?;
    stripe.turns.push(answered.len).unwrap();
    Ok(answered)
}
