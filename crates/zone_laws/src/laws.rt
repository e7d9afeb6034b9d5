// What holds of the rules. The functions do nothing: their clauses are the laws.
ghost use Rattle.zone_laws.specs.Answering.{EachIsAnswered, StampsAreSet, OutcomesAreWritten, DeletionsAreWritten, WritesAreAllowed, AnyLeastSetWillDo, MadeWhereWritten};
ghost use Rattle.zone_laws.specs.Stepping.{StepsKeepTheLaws};
ghost use Rattle.zone_laws.specs.Following.{PagesHold, FeedsTellAll, SeenIsTold};
ghost use Rattle.zone_laws.specs.People.{NobodyIsLetIn};
ghost use Rattle.zone_laws.specs.Writable.{WritableIsTold};
ghost use Rattle.zone_laws.specs.LawfulTests.{TestsDecide};
ghost use Rattle.zone_laws.specs.Lives.{LivesAreKept};
ghost use Rattle.zone_laws.specs.MeantRequests.{MeantRequestsAreLawful};
ghost use Rattle.zone_laws.specs.Laws.{AlikeIsSame, AncestorsAreFound, RemovalIsLeast, ZonesGrow, ChangesNothing, StaysInOrder, RepeatsAreDropped, ViewsGrow, ZoneEntriesGrow, FeedsLoseNothing, EqualViewsGiveNone, PagesKeepInStep, CopiesStayInStep, NothingIsInStep, EffectsAreInOrder, EffectsAreLawful, EffectsAreInForm, HistoriesStayLegal, PermissionsAreSeen, NothingElseIsSeen, EachIsJudged, OnePutMore, PutsAreFound, OwnersSeeAll, OneIsEitherWay, PlainCreatesAreDone, PlainCreatesAreInForm, ConflictsShowRecords, SharedChangesArePermitted};

/// Records that compare alike are the same, and each compares alike with itself; so do views.
pub fn alike_is_same()
    ensures { AlikeIsSame }
{}

/// All that is at or above a name is found, and nothing else, also where parents go in a ring.
pub fn ancestors_are_found()
    ensures { AncestorsAreFound }
{}

/// The removed names are the least set that is closed under the rules of removal.
pub fn removal_is_least()
    ensures { RemovalIsLeast }
{}

/// A zone after further commits is what these make of the zone before them, and counts of puts add
/// up.
pub fn zones_grow()
    ensures { ZonesGrow }
{}

/// A commit of another zone changes neither a zone nor what anyone sees of it.
pub fn others_change_nothing()
    ensures { ChangesNothing }
{}

/// The records of zones and of views stay in ascending order of their names.
pub fn records_stay_in_order()
    ensures { StaysInOrder }
{}

/// Views that are equal to the one before them are dropped, which changes neither entries nor pages.
pub fn repeats_are_dropped()
    ensures { RepeatsAreDropped }
{}

/// One commit more adds at most one view to those of a viewer, and the entries of what it changes.
pub fn views_grow()
    ensures { ViewsGrow }
{}

/// One commit more adds at most its own zone to those that changed for a user.
pub fn zone_entries_grow()
    ensures { ZoneEntriesGrow }
{}

/// A page of the feed of zones over all locks keeps its limit and goes on, and each zone that changed
/// is listed or comes later.
pub fn feeds_lose_nothing()
    ensures { FeedsLoseNothing }
{}

/// Views that are equal to those before them give no entries.
pub fn equal_views_give_none()
    ensures { EqualViewsGiveNone }
{}

/// A copy that is in step with a number, with the page above it folded in, is in step with the
/// page's number, and is the last view where no more follows; other commits may come before the
/// page. Pages keep their limit and go on.
pub fn pages_keep_in_step()
    ensures { PagesKeepInStep }
{}

/// A copy stays in step with its number under any further commits.
pub fn copies_stay_in_step()
    ensures { CopiesStayInStep }
{}

/// A copy of nothing is in step with 0, after any commits.
pub fn nothing_is_in_step()
    ensures { NothingIsInStep }
{}

/// What a request commits is in ascending order of names, and its puts have the next tags.
pub fn effects_are_in_order()
    ensures { EffectsAreInOrder }
{}

/// The test of what may be written passes just where the nearest name in the view may be.
pub fn writable_is_told()
    ensures { WritableIsTold }
{}

/// The tests of what may follow pass just where it may.
pub fn tests_decide()
    ensures { TestsDecide }
{}

/// What a request commits may follow after any lawful log, where its zone is there and no root is
/// given twice.
pub fn effects_are_lawful()
    ensures { EffectsAreLawful }
{}

/// One legal event more whose commits have their form leaves the history of a lock legal, and the
/// log of a legal history is lawful.
pub fn histories_stay_legal()
    ensures { HistoriesStayLegal }
{}

/// What a request commits has the form of a commit, where its operations are ones that requests give
/// and no count passes its range.
pub fn effects_are_in_form()
    ensures { EffectsAreInForm }
{}

/// After a commit that puts one record, the zone has it under its name, and all else as before.
pub fn one_put_more()
    ensures { OnePutMore }
{}

/// Where each commit puts one record, a zone has under each name what was put last.
pub fn puts_are_found()
    ensures { PutsAreFound }
{}

/// The owner sees all of a zone that is there.
pub fn owners_see_all()
    ensures { OwnersSeeAll }
{}

/// A request of one operation comes to the same whether it is judged as one or not.
pub fn one_is_either_way()
    ensures { OneIsEitherWay }
{}

/// The creation of a record that stands alone, in a zone of one's own, is refused or puts the
/// record.
pub fn plain_creates_are_done()
    ensures { PlainCreatesAreDone }
{}

/// The record of such a creation and its commit have their forms.
pub fn plain_creates_are_in_form()
    ensures { PlainCreatesAreInForm }
{}

/// What a participant may write shows in what they see: the view has each share that gives them a
/// permission, with all from its root down.
pub fn permissions_are_seen()
    ensures { PermissionsAreSeen }
{}

/// A participant sees nothing but what a share that they accepted covers, and such shares.
pub fn nothing_else_is_seen()
    ensures { NothingElseIsSeen }
{}

/// Each operation of a request that is judged as one is judged.
pub fn each_is_judged()
    ensures { EachIsJudged }
{}

/// A refusal shows a record only where it is a conflict, and each conflict shows the record that
/// stands in its way.
pub fn conflicts_show_records()
    ensures { ConflictsShowRecords }
{}

/// In the shared scope what a request puts or deletes without a fault is writable, and no share but
/// one that its user leaves.
pub fn shared_changes_are_permitted()
    ensures { SharedChangesArePermitted }
{}

/// In each lawful log a record's tag is the count of its puts, its parent is kept through its life,
/// and the records of a zone fit together; a zone that is not there holds nothing, and a default zone
/// is always there.
pub fn lives_are_kept()
    ensures { LivesAreKept }
{}

/// A list that its owner gives lets nobody into a share, and leaving takes the permission away.
pub fn nobody_is_let_in()
    ensures { NobodyIsLetIn }
{}

/// The law of pages, between any two histories of which one is the front of the other.
pub fn pages_hold()
    ensures { PagesHold }
{}

/// The feed lists just the zones that are due, each with whether it is here, and what is due stays
/// due.
pub fn feeds_tell_all()
    ensures { FeedsTellAll }
{}

/// A request has an outcome for each operation, which tells of that one; where it is judged as one it
/// makes at most one commit, and none where something is refused.
pub fn each_is_answered()
    ensures { EachIsAnswered }
{}

/// Whether a zone was seen is told without going over its views.
pub fn seen_is_told()
    ensures { SeenIsTold }
{}

/// Each put of a request has the moment and the user of its commit, as the first stamp too where it
/// begins a life.
pub fn stamps_are_set()
    ensures { StampsAreSet }
{}

/// What an outcome shows of a put is what its commit wrote, or wrote without the share mark, or put
/// and removed at once.
pub fn outcomes_are_written()
    ensures { OutcomesAreWritten }
{}

/// What an outcome shows of a deletion is what its commit removed, where the caller saw the name; or,
/// of a share in the shared scope, that its user left.
pub fn deletions_are_written()
    ensures { DeletionsAreWritten }
{}

/// A request writes only what it asks for, the roots of shares that it begins, what its user leaves
/// and what the cascade makes of it; and where it writes in the shared scope, each of its operations
/// is permitted.
pub fn writes_are_allowed()
    ensures { WritesAreAllowed }
{}

/// The commit of a request rests on any least set of removed names, however it is found.
pub fn any_least_set_will_do()
    ensures { AnyLeastSetWillDo }
{}

/// A request that is judged as one commits something just where some outcome tells of something
/// written.
pub fn made_where_written()
    ensures { MadeWhereWritten }
{}

/// Operations that are done one after another: what holds of a request of one operation holds of each at the log
/// that it finds.
pub fn steps_keep_the_laws()
    ensures { StepsKeepTheLaws }
{}

/// The operations that a request has name no record twice and give no root twice, and what they
/// commit may follow after any lawful log.
pub fn meant_requests_are_lawful()
    ensures { MeantRequestsAreLawful }
{}
