// Numbers of lines.
use crate::fault::LineFault;
use std::alloc::{AllocError, Global};

/// Reads a number.
pub fn number_in(text: &str) -> Result<u64, LineFault> {
    match text.parse::<u64>() {
        Ok(number) => Ok(number),
        Err(_) => Err(LineFault::Wrong("no number")),
    }
}

/// Reads a number of copies, which is at most the given one.
pub fn copies_in(text: &str, most: u64) -> Result<u64, LineFault> {
    let copies = number_in(text)?;
    if copies <= most {
        Ok(copies)
    } else {
        Err(LineFault::Wrong("too many copies"))
    }
}

/// A number in at least so many digits, with zeros in front.
pub fn padded(alloc: Global, number: u64, digits: usize) -> Result<String, AllocError> {
    let text = number.to_string(alloc)?;
    let mut whole = String::new(alloc);
    for _ in text.len()..digits {
        whole.push_str("0")?;
    }
    whole.push_str(text.as_str())?;
    Ok(whole)
}
