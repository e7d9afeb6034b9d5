// Names for texts that come often.
use crate::fault::LineFault;
use crate::numbers::{copies_in, padded};
use std::alloc::Global;

/// The most copies of a text that one name may ask for.
const COPIES: u64 = 100_000;

// What is written for each copy of a text.
#[derive(Clone, Copy)]
enum Copying {
    // The text.
    Same,
    // The text with the number of the copy in place of each `#`, in so many digits.
    Numbered(usize),
}

/// The names of a case file, each with the text that it stands for.
#[derive(Drop)]
pub struct Names {
    alloc: Global,
    texts: Vec<(String, String)>,
}

impl Names {
    pub fn new(alloc: Global) -> Self {
        Names {
            alloc,
            texts: Vec::new(alloc),
        }
    }

    /// Takes `NAME = TEXT`. A later text of a name hides an earlier one.
    pub fn define(&mut self, line: &str) -> Result<(), LineFault> {
        let Some((name, text)) = line.split_once(" = ") else {
            return Err(LineFault::Wrong("no ' = ' behind the name"));
        };
        let text = self.expand(text)?;
        let name = String::from_str(self.alloc, name)?;
        self.texts.push((name, text))?;
        Ok(())
    }

    /// The text with the meaning of NAME for each `{{NAME}}` in it, and with N copies of it, with
    /// commas between them, for each `{{NAME*N}}`. For `{{NAME#N}}` each `#` in a copy is its number,
    /// from 0 on, in as many digits as N has.
    pub fn expand(&self, text: &str) -> Result<String, LineFault> {
        let mut whole = String::new(self.alloc);
        let mut is_first = true;
        for piece in text.split("{{") {
            if is_first {
                is_first = false;
                whole.push_str(piece)?;
            } else {
                self.push_piece(&mut whole, piece)?;
            }
        }
        Ok(whole)
    }

    // Appends what a name stands for and then what stands behind its braces.
    fn push_piece(&self, whole: &mut String, piece: &str) -> Result<(), LineFault> {
        let Some((spelled, rest)) = piece.split_once("}}") else {
            return Err(LineFault::Wrong("no '}}' behind a name"));
        };
        self.push_spelled(whole, spelled)?;
        whole.push_str(rest)?;
        Ok(())
    }

    fn push_spelled(&self, whole: &mut String, spelled: &str) -> Result<(), LineFault> {
        if let Some((name, copies)) = spelled.split_once('*') {
            return self.push_copies(whole, name, copies, Copying::Same);
        }
        match spelled.split_once('#') {
            Some((name, copies)) => {
                self.push_copies(whole, name, copies, Copying::Numbered(copies.len()))
            }
            None => self.push_meaning(whole, spelled),
        }
    }

    fn push_copies(
        &self,
        whole: &mut String,
        name: &str,
        copies: &str,
        copying: Copying,
    ) -> Result<(), LineFault> {
        let meaning = self.meaning_of(name)?;
        for copy in 0..copies_in(copies, COPIES)? {
            if copy > 0 {
                whole.push_str(",")?;
            }
            match copying {
                Copying::Same => whole.push_str(meaning)?,
                Copying::Numbered(digits) => self.push_numbered(whole, meaning, copy, digits)?,
            }
        }
        Ok(())
    }

    // Appends a text with a number for each `#` in it.
    fn push_numbered(
        &self,
        whole: &mut String,
        text: &str,
        number: u64,
        digits: usize,
    ) -> Result<(), LineFault> {
        let number = padded(self.alloc, number, digits)?;
        let mut is_first = true;
        for piece in text.split('#') {
            if !is_first {
                whole.push_str(number.as_str())?;
            }
            is_first = false;
            whole.push_str(piece)?;
        }
        Ok(())
    }

    fn push_meaning(&self, whole: &mut String, name: &str) -> Result<(), LineFault> {
        whole.push_str(self.meaning_of(name)?)?;
        Ok(())
    }

    // What a name stands for.
    fn meaning_of(&self, name: &str) -> Result<&str, LineFault> {
        for (defined, text) in self.texts.iter().rev() {
            if defined.as_str() == name {
                return Ok(text.as_str());
            }
        }
        Err(LineFault::Wrong("a name that no line above defines"))
    }
}
