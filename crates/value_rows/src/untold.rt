// Why a call has no answer.
use ck_base::{NameFault, NoMemory};
use ck_records::ReplyRecordFault;
use field_values::FieldFault;
use std::alloc::{AllocError, AllocFailed};

/// Why a call has no answer.
#[derive(Clone, Copy)]
pub enum Untold {
    /// The name of a fault that says no more, or what is wrong with the text.
    Because(&'static str),
    /// Memory ran out.
    NoMemory,
}

impl From<AllocError> for Untold {
    fn from(_e: AllocError) -> Self {
        Untold::NoMemory
    }
}

impl<T: Drop> From<AllocFailed<T>> for Untold {
    fn from(_e: AllocFailed<T>) -> Self {
        Untold::NoMemory
    }
}

impl From<NoMemory> for Untold {
    fn from(_e: NoMemory) -> Self {
        Untold::NoMemory
    }
}

impl From<NameFault> for Untold {
    fn from(fault: NameFault) -> Self {
        match fault {
            NameFault::NoMemory => Untold::NoMemory,
            _ => Untold::Because("no name"),
        }
    }
}

impl From<FieldFault> for Untold {
    fn from(fault: FieldFault) -> Self {
        match fault {
            FieldFault::NoMemory => Untold::NoMemory,
            fault => Untold::Because(field_fault_named(fault)),
        }
    }
}

impl From<ReplyRecordFault> for Untold {
    fn from(fault: ReplyRecordFault) -> Self {
        match fault {
            ReplyRecordFault::NotARecord => Untold::Because("NotARecord"),
            ReplyRecordFault::NoMemory => Untold::NoMemory,
        }
    }
}

/// The name of what is wrong with a field.
pub fn field_fault_named(fault: FieldFault) -> &'static str {
    match fault {
        FieldFault::NotAField => "NotAField",
        FieldFault::UnknownType => "UnknownType",
        FieldFault::MixedList => "MixedList",
        FieldFault::Fraction => "Fraction",
        FieldFault::OutOfRange => "OutOfRange",
        FieldFault::BadBase64 => "BadBase64",
        FieldFault::WrongValue => "WrongValue",
        FieldFault::NoMemory => "NoMemory",
    }
}
