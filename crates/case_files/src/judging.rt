// What came of a run, against what its scenario expects.
use crate::comparing::{same_front, shown_from, window};
use crate::outcomes::{Fact, Facts, Outcome};
use crate::quoting::push_shown;
use crate::rows::{Expected, Scenario};
use std::alloc::{AllocError, Global};

/// Something that is otherwise than expected.
#[derive(Drop)]
pub struct Mismatch {
    pub about: String,
    pub expected: String,
    pub got: String,
}

/// What is otherwise than expected in one run.
#[derive(Drop)]
pub struct Verdict {
    alloc: Global,
    pub mismatches: Vec<Mismatch>,
}

impl Verdict {
    pub fn new(alloc: Global) -> Self {
        Verdict {
            alloc,
            mismatches: Vec::new(alloc),
        }
    }

    fn add(&mut self, about: &str, expected: &str, got: &str) -> Result<(), AllocError> {
        let alloc = self.alloc;
        self.mismatches.push(Mismatch {
            about: String::from_str(alloc, about)?,
            expected: String::from_str(alloc, expected)?,
            got: String::from_str(alloc, got)?,
        })?;
        Ok(())
    }

    fn compare(&mut self, about: &str, expected: &str, got: &str) -> Result<(), AllocError> {
        if expected == got {
            Ok(())
        } else {
            self.add(about, expected, got)
        }
    }

    fn compare_numbers(&mut self, about: &str, expected: u64, got: u64) -> Result<(), AllocError> {
        if expected == got {
            return Ok(());
        }
        let expected = expected.to_string(self.alloc)?;
        let got = got.to_string(self.alloc)?;
        self.add(about, expected.as_str(), got.as_str())
    }

    /// Compares bytes. What is shown begins a little ahead of the first that is wrong.
    pub fn compare_bytes(
        &mut self,
        about: &str,
        expected: &[u8],
        got: &[u8],
    ) -> Result<(), AllocError> {
        if expected == got {
            return Ok(());
        }
        let alloc = self.alloc;
        let place = same_front(expected, got);
        let from = shown_from(place);
        let about = format!(in alloc; "{about} differ at byte {place}, from byte {from}")?;
        let expected = shown(alloc, window(expected, from))?;
        let got = shown(alloc, window(got, from))?;
        self.add(about.as_str(), expected.as_str(), got.as_str())
    }

    /// Compares all that a run came to with what the scenario expects.
    pub fn judge(&mut self, scenario: &Scenario, outcome: &Outcome) -> Result<(), AllocError> {
        self.judge_written(scenario, outcome)?;
        self.judge_facts(&scenario.facts, &outcome.facts)?;
        for (reply, facts) in scenario.replies.iter().zip(outcome.requests.iter()) {
            self.judge_facts(&reply.facts, facts)?;
        }
        Ok(())
    }

    // All replies, or just a front of them where a write failed.
    fn judge_written(&mut self, scenario: &Scenario, outcome: &Outcome) -> Result<(), AllocError> {
        let replies = scenario.reply_bytes(self.alloc)?;
        let written = outcome.written.as_slice();
        if outcome.is_front {
            let count = written.len().min(replies.len());
            self.compare_bytes("the written bytes", &replies[..count], written)
        } else {
            self.compare_bytes("the replies", &replies, written)
        }
    }

    // Each fact that is told, and each that is expected and not told.
    fn judge_facts(&mut self, expected: &[Expected], facts: &Facts) -> Result<(), AllocError> {
        for fact in facts.as_slice() {
            self.judge_fact(expected, fact)?;
        }
        for (name, text) in expected {
            if facts.named(name).is_none() {
                self.add(name, text.as_str(), "nothing that a run tells")?;
            }
        }
        Ok(())
    }

    // The word `some` stands for each number but 0.
    fn compare_fact(&mut self, expected: &str, fact: &Fact) -> Result<(), AllocError> {
        if expected == "some" && fact.text.as_str() != "0" {
            return Ok(());
        }
        self.compare(fact.name, expected, fact.text.as_str())
    }

    fn judge_fact(&mut self, expected: &[Expected], fact: &Fact) -> Result<(), AllocError> {
        for (name, text) in expected {
            if *name == fact.name {
                return self.compare_fact(text.as_str(), fact);
            }
        }
        match &fact.usual {
            Some(usual) => self.compare(fact.name, usual.as_str(), fact.text.as_str()),
            None => Ok(()),
        }
    }
}

fn shown(alloc: Global, bytes: &[u8]) -> Result<String, AllocError> {
    let mut text = String::new(alloc);
    push_shown(alloc, &mut text, bytes)?;
    Ok(text)
}
