// How a scenario is run.
use crate::fault::LineFault;
use crate::numbers::number_in;
use std::alloc::Global;

/// A device that can fail.
#[derive(Clone, Copy, Debug, PartialEq, Eq)]
pub enum Device {
    Read,
    Write,
    Draw,
    /// A read of a file.
    Shelf,
    /// A write of a line on standard error.
    Errors,
}

const DEVICES: [(&str, Device); 5] = [
    ("read", Device::Read),
    ("write", Device::Write),
    ("draw", Device::Draw),
    ("shelf", Device::Shelf),
    ("errors", Device::Errors),
];

impl Device {
    /// The word of case files for it.
    pub fn name(self) -> &'static str {
        match self {
            Device::Read => "read",
            Device::Write => "write",
            Device::Draw => "draw",
            Device::Shelf => "shelf",
            Device::Errors => "errors",
        }
    }
}

/// The calls of a device of which each fails in a run of its own, by their numbers from 1.
#[derive(Clone, Copy, Debug)]
pub struct Failing {
    pub device: Device,
    pub first: u64,
    pub last: u64,
}

/// How a scenario is run. Each size of pieces, each call that fails and each front of what is sent
/// has a run of its own.
#[derive(Drop)]
pub struct Settings {
    pub moment: u64,
    pub first_word: u64,
    /// The most bytes of a read or a write.
    pub pieces: Vec<usize>,
    pub failing: Option<Failing>,
    /// Only a front of the bytes comes: each that is neither empty nor whole.
    pub fronts: bool,
}

impl Settings {
    /// One run in large pieces, without faults, at the moment 1000 and with words from 1.
    pub fn new(alloc: Global) -> Self {
        Settings {
            moment: 1000,
            first_word: 1,
            pieces: Vec::new(alloc),
            failing: None,
            fronts: false,
        }
    }
}

/// Reads numbers of bytes above 0.
pub fn pieces_in(alloc: Global, text: &str) -> Result<Vec<usize>, LineFault> {
    let mut pieces = Vec::new(alloc);
    for word in text.split_whitespace() {
        match usize::try_from(number_in(word)?) {
            Ok(piece) if piece > 0 => pieces.push(piece)?,
            _ => return Err(LineFault::Wrong("no number of bytes")),
        }
    }
    if pieces.is_empty() {
        return Err(LineFault::Wrong("no number of bytes"));
    }
    Ok(pieces)
}

/// Reads `DEVICE N` and `DEVICE N..M`.
pub fn failing_in(text: &str) -> Result<Failing, LineFault> {
    let Some((device, numbers)) = text.split_once(' ') else {
        return Err(LineFault::Wrong("no number behind the device"));
    };
    let (first, last) = numbers.split_once("..").unwrap_or((numbers, numbers));
    let (first, last) = (number_in(first)?, number_in(last)?);
    if first == 0 || last < first {
        return Err(LineFault::Wrong("no numbers of calls"));
    }
    Ok(Failing {
        device: device_named(device)?,
        first,
        last,
    })
}

fn device_named(name: &str) -> Result<Device, LineFault> {
    for (spelled, device) in &DEVICES {
        if *spelled == name {
            return Ok(*device);
        }
    }
    Err(LineFault::Wrong("no such device"))
}
