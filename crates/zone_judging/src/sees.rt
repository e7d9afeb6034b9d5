// What tells the records that a caller sees of a zone.
ghost use Rattle.std.specs.Prelude.{◌≡◌, ◌≤◌, ◌<◌, ◌^◌, List, length, option_map};
ghost use Rattle.record_model.specs.declared.records.Record.{Record};
ghost use Rattle.zone_model.specs.Records.{record_at};
ghost use Rattle.zone_judging.specs.Ties.{next_tied};

use crate::Tie;
use crate::ties::{is_behind, is_tied};
use ck_base::RecordName;
use record_model::{Record, View};

/// The records that a caller sees of a zone, told one by one, so that nothing copies the zone.
pub trait Sees {
    /// The records that it stands for.
    ghost rows: { Self → List Record };

    /// The record of that name.
    fn record_at(&self, name: &RecordName) -> Option<&Record>
        ensures { option_map (λ r. r.now) result ≡ record_at (rows self.now) name.now };

    /// The first record that is tied to the name so, of those whose names come after the other one, or
    /// of all.
    fn next_tied(&self, tie: Tie, name: &RecordName, after: Option<&RecordName>) -> Option<&Record>
        ensures { option_map (λ r. r.now) result ≡ next_tied (rows self.now) tie name.now (option_map (λ x. x.now) after.entry) };

    /// A number of records that it does not pass, which bounds each way upward.
    fn most(&self) -> u64
        ensures bound { length (rows self.now) ≤ result }
        ensures small { result < 2 ^ 63 };
}

impl Sees for View {
    ghost rows = { λ view. view.rows };

    fn record_at(&self, name: &RecordName) -> Option<&Record> {
        self.rows.as_slice().iter().find(|row| *name == row.name)
    }

    fn next_tied(
        &self,
        tie: Tie,
        name: &RecordName,
        after: Option<&RecordName>,
    ) -> Option<&Record> {
        self.rows
            .as_slice()
            .iter()
            .find(|row| is_behind(after, row) && is_tied(tie, row, name))
    }

    fn most(&self) -> u64 {
        self.rows.as_slice().len() as u64
    }
}
