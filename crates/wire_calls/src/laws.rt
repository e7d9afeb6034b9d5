// What holds of the meanings of calls and of replies. The functions do nothing: their clauses are the
// laws.
ghost use Rattle.wire_calls.specs.CallTexts.{CallsAreExact};
ghost use Rattle.wire_calls.specs.Meant.{CallsReadBack};
ghost use Rattle.wire_calls.specs.RepliesTo.{RepliesAreExact, RepliesAreOne};
ghost use Rattle.wire_calls.specs.ZoneEntries.{ZoneListsAreExact, ZoneListsAreOne};

/// Reading what was written for a call gives the call back, for each that some body means.
pub fn calls_read_back()
    ensures { CallsReadBack }
{}

/// What is written for a call that some body means has no float and nests no deeper than what is
/// read: its text tells it exactly.
pub fn calls_are_exact()
    ensures { CallsAreExact }
{}

/// No status and body are those of two replies to one call.
pub fn replies_are_one()
    ensures { RepliesAreOne }
{}

/// What is written for a reply to a call has no float and nests no deeper than what is read: its
/// text tells it exactly.
pub fn replies_are_exact()
    ensures { RepliesAreExact }
{}

/// No JSON is that of two lists of zones.
pub fn zone_lists_are_one()
    ensures { ZoneListsAreOne }
{}

/// What is written for a list of zones has no float and nests no deeper than what is read: its text
/// tells it exactly.
pub fn zone_lists_are_exact()
    ensures { ZoneListsAreExact }
{}
