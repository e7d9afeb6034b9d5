// Why a line of a case file is not taken.
use std::alloc::{AllocError, AllocFailed};

/// Why a line of a case file is not taken.
#[derive(Clone, Copy, Debug)]
pub enum LineFault {
    /// It has another form than such a line has.
    Wrong(&'static str),
    /// Memory ran out.
    NoMemory,
}

impl From<AllocError> for LineFault {
    fn from(_e: AllocError) -> Self {
        LineFault::NoMemory
    }
}

impl<T: Drop> From<AllocFailed<T>> for LineFault {
    fn from(_e: AllocFailed<T>) -> Self {
        LineFault::NoMemory
    }
}
