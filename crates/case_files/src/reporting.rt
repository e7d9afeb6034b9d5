// What a run over case files came to.
use crate::fault::LineFault;
use crate::judging::{Mismatch, Verdict};
use crate::outcomes::Outcome;
use crate::reading::Reader;
use crate::rows::{Call, Row, Scenario};
use crate::trials::Trial;
use std::alloc::{AllocError, Global};

/// How much was answered.
#[derive(Clone, Copy, Debug)]
struct Counts {
    rows: u64,
    runs: u64,
    replies: u64,
}

const NONE: Counts = Counts {
    rows: 0,
    runs: 0,
    replies: 0,
};

impl Counts {
    fn plus(self, more: Counts) -> Counts {
        Counts {
            rows: self.rows.saturating_add(more.rows),
            runs: self.runs.saturating_add(more.runs),
            replies: self.replies.saturating_add(more.replies),
        }
    }

    fn told(self, alloc: Global) -> Result<String, AllocError> {
        let (rows, runs, replies) = (self.rows, self.runs, self.replies);
        format!(in alloc; "{rows} rows in {runs} runs with {replies} replies")
    }
}

/// A line for each thing that is otherwise than its row says, the counts of each file, and those of
/// all.
#[derive(Drop)]
pub struct Report {
    alloc: Global,
    text: String,
    /// The file in hand, and how many rows were read from it.
    file: String,
    rows_read: u64,
    counts: Counts,
    total: Counts,
    wrong: u64,
}

impl Report {
    pub fn new(alloc: Global) -> Self {
        Report {
            alloc,
            text: String::new(alloc),
            file: String::new(alloc),
            rows_read: 0,
            counts: NONE,
            total: NONE,
            wrong: 0,
        }
    }

    /// The lines.
    pub fn text(&self) -> &str {
        self.text.as_str()
    }

    /// Whether all is as expected.
    pub fn is_clean(&self) -> bool {
        self.wrong == 0
    }

    fn add_line(&mut self, line: &str) -> Result<(), AllocError> {
        self.text.push_str(line)?;
        self.text.push_str("\n")
    }

    // Adds a line for something that is wrong in the file in hand.
    fn add_wrong(&mut self, line: u64, about: &str) -> Result<(), AllocError> {
        self.wrong = self.wrong.saturating_add(1);
        let file = self.file.as_str();
        let told = format!(in self.alloc; "{file}:{line}: {about}")?;
        self.add_line(told.as_str())
    }

    /// Says that a file can't be read.
    pub fn add_unread(&mut self, name: &str) -> Result<(), AllocError> {
        self.file = String::from_str(self.alloc, name)?;
        self.add_wrong(0, "the file can't be read")
    }

    /// Begins with a file, and reads its rows.
    pub fn begin_file(&mut self, name: &str, text: &str) -> Result<Vec<Row>, AllocError> {
        self.file = String::from_str(self.alloc, name)?;
        let mut reader = Reader::new(self.alloc);
        for line in text.lines() {
            match reader.take_line(line) {
                Ok(()) => {}
                Err(LineFault::Wrong(why)) => self.add_wrong(reader.line(), why)?,
                Err(LineFault::NoMemory) => return Err(AllocError),
            }
        }
        self.rows_read = reader.rows.len() as u64;
        Ok(reader.rows)
    }

    /// Begins with a scenario that has so many runs. One without runs is wrong.
    pub fn begin_scenario(&mut self, scenario: &Scenario, runs: usize) -> Result<(), AllocError> {
        self.counts.rows = self.counts.rows.saturating_add(1);
        if runs == 0 {
            self.add_wrong(scenario.line, "the row has no run")?;
        }
        Ok(())
    }

    /// Judges a run of a scenario.
    pub fn judge_run(
        &mut self,
        scenario: &Scenario,
        trial: &Trial,
        outcome: &mut Outcome,
    ) -> Result<(), AllocError> {
        self.counts.runs = self.counts.runs.saturating_add(1);
        let replies = outcome.answered.unwrap_or(0);
        self.counts.replies = self.counts.replies.saturating_add(replies);
        outcome.tell_counts(self.alloc, scenario.replies.len())?;
        let mut verdict = Verdict::new(self.alloc);
        verdict.judge(scenario, outcome)?;
        if verdict.mismatches.is_empty() {
            return Ok(());
        }
        let title = scenario.title.as_str();
        let run = trial.told(self.alloc)?;
        let run = run.as_str();
        let about = format!(in self.alloc; "{title} ({run})")?;
        self.add_mismatches(scenario.line, about.as_str(), &verdict.mismatches)
    }

    /// Judges what a call made of its text. `None` says that there is no such call.
    pub fn judge_call(&mut self, call: &Call, got: Option<&str>) -> Result<(), AllocError> {
        self.counts.rows = self.counts.rows.saturating_add(1);
        self.counts.runs = self.counts.runs.saturating_add(1);
        let Some(got) = got else {
            return self.add_wrong(call.line, "no such word, and no such call");
        };
        let mut verdict = Verdict::new(self.alloc);
        verdict.compare_bytes("the answers", call.expected.as_bytes(), got.as_bytes())?;
        self.add_mismatches(call.line, call.name.as_str(), &verdict.mismatches)
    }

    fn add_mismatches(
        &mut self,
        line: u64,
        what: &str,
        mismatches: &[Mismatch],
    ) -> Result<(), AllocError> {
        for mismatch in mismatches {
            let about = mismatch.about.as_str();
            let (expected, got) = (mismatch.expected.as_str(), mismatch.got.as_str());
            let told = format!(in self.alloc; "{what}: {about}: expected {expected}, got {got}")?;
            self.add_wrong(line, told.as_str())?;
        }
        Ok(())
    }

    /// Ends with a file: adds its counts. A file without rows is wrong, and so is a row that was not
    /// reached.
    pub fn end_file(&mut self) -> Result<(), AllocError> {
        if self.rows_read == 0 {
            self.add_wrong(0, "the file has no rows")?;
        }
        if self.rows_read != self.counts.rows {
            self.add_wrong(0, "some rows were not reached")?;
        }
        let counts = self.counts.told(self.alloc)?;
        let (file, counts) = (self.file.as_str(), counts.as_str());
        let line = format!(in self.alloc; "{file}: {counts}")?;
        self.add_line(line.as_str())?;
        self.total = self.total.plus(self.counts);
        self.counts = NONE;
        Ok(())
    }

    /// Adds the last line, with the counts of all files.
    pub fn close(&mut self) -> Result<(), AllocError> {
        let counts = self.total.told(self.alloc)?;
        let (counts, wrong) = (counts.as_str(), self.wrong);
        let line = if wrong == 0 {
            format!(in self.alloc; "{counts}, all as expected")?
        } else {
            format!(in self.alloc; "{counts}, {wrong} not as expected")?
        };
        self.add_line(line.as_str())
    }
}
