// Case files, line by line.
use crate::adding::{Open, opened_by};
use crate::fault::LineFault;
use crate::names::Names;
use crate::rows::{Call, Row, Scenario};
use crate::words::{Word, word_named};
use std::alloc::Global;

/// Reads a case file, line by line.
#[derive(Drop)]
pub struct Reader {
    alloc: Global,
    names: Names,
    open: Open,
    /// The number of the line, from 1.
    line: u64,
    pub rows: Vec<Row>,
}

impl Reader {
    pub fn new(alloc: Global) -> Self {
        Reader {
            alloc,
            names: Names::new(alloc),
            open: Open::Nothing,
            line: 0,
            rows: Vec::new(alloc),
        }
    }

    /// The number of the line that was taken last.
    pub fn line(&self) -> u64 {
        self.line
    }

    /// Takes the next line.
    pub fn take_line(&mut self, line: &str) -> Result<(), LineFault> {
        self.line = self.line.saturating_add(1);
        if let Some(piece) = line.strip_prefix("  ") {
            let piece = self.names.expand(piece)?;
            let open = self.open;
            return self.last_scenario()?.add_body(open, piece.as_str());
        }
        let (name, rest) = line.split_once(' ').unwrap_or((line, ""));
        match word_named(name) {
            _ if line.is_empty() => Ok(()),
            Some(Word::Remark) => Ok(()),
            Some(Word::Let) => self.names.define(rest),
            Some(Word::Title) => self.begin(rest),
            Some(word) => self.add_line(word, rest),
            None => self.add_call(name, rest),
        }
    }

    fn begin(&mut self, title: &str) -> Result<(), LineFault> {
        let scenario = Scenario::new(self.alloc, self.line, title)?;
        self.rows.push(Row::Scenario(scenario))?;
        self.open = Open::Nothing;
        Ok(())
    }

    // Adds what a line says to the scenario.
    fn add_line(&mut self, word: Word, rest: &str) -> Result<(), LineFault> {
        let (alloc, open) = (self.alloc, self.open);
        let rest = self.names.expand(rest)?;
        self.open = opened_by(word, open);
        self.last_scenario()?
            .add_line(alloc, open, word, rest.as_str())
    }

    // Adds a call by `TEXT => EXPECTED`.
    fn add_call(&mut self, name: &str, rest: &str) -> Result<(), LineFault> {
        let rest = self.names.expand(rest)?;
        let Some((text, expected)) = rest.as_str().split_once(" => ") else {
            return Err(LineFault::Wrong("no such word, and no call with ' => '"));
        };
        let expected = if expected == "same" { text } else { expected };
        self.rows.push(Row::Call(Call {
            line: self.line,
            name: String::from_str(self.alloc, name)?,
            text: String::from_str(self.alloc, text)?,
            expected: String::from_str(self.alloc, expected)?,
        }))?;
        self.open = Open::Nothing;
        Ok(())
    }

    fn last_scenario(&mut self) -> Result<&mut Scenario, LineFault> {
        match self.rows.last_mut() {
            Some(Row::Scenario(scenario)) => Ok(scenario),
            _ => Err(LineFault::Wrong("no scenario above")),
        }
    }
}
