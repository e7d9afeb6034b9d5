// What holds of the meanings of records. The functions do nothing: their clauses are the laws.
ghost use Rattle.ck_records.specs.RoundTrip.{DraftsReadBack};
ghost use Rattle.ck_records.specs.Replied.{RecordsReadBack};
ghost use Rattle.ck_records.specs.Flat.{RecordsAreFlat, DraftsAreFlat, RecordsHaveNoFloat};

/// Reading what was written for a draft gives the draft back, for each draft that some JSON means.
pub fn drafts_read_back()
    ensures { DraftsReadBack }
{}

/// Reading what was written for a record gives the record back, for each record in the form in which
/// a zone keeps it: no JSON is what is written for two of them.
pub fn records_read_back()
    ensures { RecordsReadBack }
{}

/// What is written for a record in the form in which a zone keeps it, or for a draft that some JSON
/// means, has no float and nests at most five deep: its text tells it exactly. Nor has that of any
/// other record a float.
pub fn records_are_flat()
    ensures records { RecordsAreFlat }
    ensures drafts { DraftsAreFlat }
    ensures whole { RecordsHaveNoFloat }
{}
