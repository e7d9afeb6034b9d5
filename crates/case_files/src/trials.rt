// The runs of a scenario.
use crate::rows::Scenario;
use crate::settings::{Device, Failing, Settings};
use std::alloc::{AllocError, Global};

/// The most bytes that a read or a write moves, where a scenario doesn't say.
const PIECE: usize = 65_536;

/// A run of a scenario.
#[derive(Clone, Copy, Debug)]
pub struct Trial {
    /// The most bytes that a read or a write moves.
    pub piece: usize,
    /// The call that fails, if one does.
    pub fault: Option<(Device, u64)>,
    /// How many of the bytes come.
    pub count: usize,
}

impl Trial {
    /// The calls of the device that fail in the run.
    pub fn fails_of(&self, alloc: Global, device: Device) -> Result<Vec<u64>, AllocError> {
        let mut fails = Vec::new(alloc);
        if let Some((failing, number)) = self.fault
            && failing == device
        {
            fails.push(number)?;
        }
        Ok(fails)
    }

    /// The run in words, as `pieces 7, read 3 fails, 88 bytes`.
    pub fn told(&self, alloc: Global) -> Result<String, AllocError> {
        let (piece, count) = (self.piece, self.count);
        match self.fault {
            Some((device, number)) => {
                let device = device.name();
                format!(in alloc; "pieces {piece}, {device} {number} fails, {count} bytes")
            }
            None => format!(in alloc; "pieces {piece}, {count} bytes"),
        }
    }

    /// The bytes that come, of all that the scenario sends.
    pub fn front_of<'a>(&self, bytes: &'a [u8]) -> &'a [u8] {
        &bytes[..self.count.min(bytes.len())]
    }
}

/// The runs of a scenario that sends so many bytes.
pub fn trials_of(
    alloc: Global,
    scenario: &Scenario,
    count: usize,
) -> Result<Vec<Trial>, AllocError> {
    let settings = &scenario.settings;
    let mut trials = Vec::new(alloc);
    if settings.pieces.is_empty() {
        add_trials(&mut trials, settings, PIECE, count)?;
    }
    for piece in &settings.pieces {
        add_trials(&mut trials, settings, *piece, count)?;
    }
    Ok(trials)
}

fn add_trials(
    trials: &mut Vec<Trial>,
    settings: &Settings,
    piece: usize,
    count: usize,
) -> Result<(), AllocError> {
    let whole = Trial {
        piece,
        fault: None,
        count,
    };
    match settings.failing {
        Some(failing) => add_faults(trials, whole, failing),
        None if settings.fronts => add_fronts(trials, whole),
        None => Ok(trials.push(whole)?),
    }
}

fn add_faults(trials: &mut Vec<Trial>, whole: Trial, failing: Failing) -> Result<(), AllocError> {
    for number in failing.first..=failing.last {
        let fault = Some((failing.device, number));
        trials.push(Trial { fault, ..whole })?;
    }
    Ok(())
}

fn add_fronts(trials: &mut Vec<Trial>, whole: Trial) -> Result<(), AllocError> {
    for count in 1..whole.count {
        trials.push(Trial { count, ..whole })?;
    }
    Ok(())
}
