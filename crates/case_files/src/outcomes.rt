// What came of a run.
use std::alloc::{AllocError, Global};

/// A fact of a run, by the word of case files for it.
#[derive(Drop)]
pub struct Fact {
    pub name: &'static str,
    pub text: String,
    /// What it is to be where a row says nothing of it.
    pub usual: Option<String>,
}

/// Facts of a run, or of one of its requests.
#[derive(Drop)]
pub struct Facts {
    alloc: Global,
    facts: Vec<Fact>,
}

impl Facts {
    pub fn new(alloc: Global) -> Self {
        Facts {
            alloc,
            facts: Vec::new(alloc),
        }
    }

    /// Tells a fact that holds as it comes, unless a row says what it is to be.
    pub fn tell(&mut self, name: &'static str, text: String) -> Result<(), AllocError> {
        self.facts.push(Fact {
            name,
            text,
            usual: None,
        })?;
        Ok(())
    }

    /// Tells a fact that is to be the usual one, unless a row says otherwise.
    pub fn tell_usual(
        &mut self,
        name: &'static str,
        text: String,
        usual: &str,
    ) -> Result<(), AllocError> {
        let usual = Some(String::from_str(self.alloc, usual)?);
        self.facts.push(Fact { name, text, usual })?;
        Ok(())
    }

    /// Tells a number that is to be the usual one, unless a row says otherwise.
    pub fn tell_number(
        &mut self,
        name: &'static str,
        number: u64,
        usual: u64,
    ) -> Result<(), AllocError> {
        let text = number.to_string(self.alloc)?;
        let usual = usual.to_string(self.alloc)?;
        self.tell_usual(name, text, usual.as_str())
    }

    pub fn as_slice(&self) -> &[Fact] {
        self.facts.as_slice()
    }

    /// The fact of that name.
    pub fn named(&self, name: &str) -> Option<&Fact> {
        self.facts.iter().find(|fact| fact.name == name)
    }
}

/// What came of a run.
#[derive(Drop)]
pub struct Outcome {
    pub written: Vec<u8>,
    /// Whether a write failed, so that just a front of the replies was written.
    pub is_front: bool,
    /// How many requests were answered, where that is told.
    pub answered: Option<u64>,
    /// How many replies answer no request.
    pub farewells: u64,
    pub facts: Facts,
    /// The facts of each answered request, in order.
    pub requests: Vec<Facts>,
}

impl Outcome {
    /// A run that wrote these bytes, of which nothing else is told.
    pub fn new(alloc: Global, written: Vec<u8>) -> Self {
        Outcome {
            written,
            is_front: false,
            answered: None,
            farewells: 0,
            facts: Facts::new(alloc),
            requests: Vec::new(alloc),
        }
    }

    /// Tells how many bytes were written, and how many requests were answered: usually each but the
    /// last ones of so many replies, unless a write failed.
    pub fn tell_counts(&mut self, alloc: Global, replies: usize) -> Result<(), AllocError> {
        let written = self.written.len().to_string(alloc)?;
        self.facts.tell("written", written)?;
        let Some(answered) = self.answered else {
            return Ok(());
        };
        if self.is_front {
            return self.facts.tell("answered", answered.to_string(alloc)?);
        }
        let usual = (replies as u64).saturating_sub(self.farewells);
        self.facts.tell_number("answered", answered, usual)
    }
}
