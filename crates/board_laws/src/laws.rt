// What holds of asks. The functions do nothing: their clauses are the laws.
ghost use Rattle.board_laws.specs.Drawn.{NamesAreDrawn};
ghost use Rattle.board_laws.specs.Answered.{AnswersAreTold, CommitsAreMade, FailuresAreTold, MadeWhereTold};
ghost use Rattle.board_laws.specs.Sighted.{SightsAreTold, SightsDecide};
ghost use Rattle.board_laws.specs.Lasting.{AsksStayLegal};

/// Each operation of a part has the name that it gives, or else that of its own word, and the GUID of its
/// own word; it keeps its kind and its draft.
pub fn names_are_drawn()
    ensures { NamesAreDrawn }
{}

/// A modify is answered with the outcomes of its operations, a lookup with records of the user's
/// view, and just where the user sees no such zone it is told so.
pub fn answers_are_told()
    ensures { AnswersAreTold }
{}

/// What is made are the commits of the operations, in one event at most.
pub fn commits_are_made()
    ensures { CommitsAreMade }
{}

/// A store that fails commits nothing, and just where something is made its fault is told instead of the
/// answer.
pub fn failures_are_told()
    ensures { FailuresAreTold }
{}

/// A sight is what the user sees, with the past of the offered names, and nothing else.
pub fn sights_are_told()
    ensures { SightsAreTold }
{}

/// Equal sights give equal answers, and histories that show a user the same give equal sights, but where
/// in the shared scope operations follow a deletion one after another.
pub fn sights_decide()
    ensures { SightsDecide }
{}

/// A modify makes something just where some outcome tells of something written.
pub fn made_where_told()
    ensures { MadeWhereTold }
{}

/// What an ask makes leaves a legal history legal: commits, and faults of the store.
pub fn asks_stay_legal()
    ensures { AsksStayLegal }
{}
