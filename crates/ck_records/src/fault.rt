// Why the JSON of a record is refused.
use ck_base::{NoMemory, RecordName};
use field_values::FieldFault;
use std::alloc::{AllocError, AllocFailed};

/// A member of the JSON of a record in a request, in the order in which they are looked at.
#[derive(Clone, Copy, Debug, PartialEq, Eq)]
pub enum RecordKey {
    RecordName,
    RecordType,
    RecordChangeTag,
    Parent,
    ForRecord,
    PublicPermission,
    Participants,
    Fields,
}

/// Why JSON is no record of a request.
#[derive(Debug, Drop)]
pub enum RecordFault {
    /// It is no object.
    NotARecord,
    /// This member, the first such one, has a wrong form. That of `fields` is wrong where it is no
    /// object, or where the name of one of its members is no name.
    BadKey(RecordKey),
    /// The JSON of this field, the first such one, is refused.
    BadField { name: RecordName, fault: FieldFault },
    /// Memory ran out.
    NoMemory,
}

impl From<AllocError> for RecordFault {
    ghost use Rattle.std.specs.Prelude.{◌≡◌};
    ghost use Rattle.ck_records.specs.declared.fault.RecordFault.TheVariants.{NoMemory};

    ghost from_gives = { λ _ e. e ≡ NoMemory };

    fn from(_e: AllocError) -> Self {
        RecordFault::NoMemory
    }
}

impl<T: Drop> From<AllocFailed<T>> for RecordFault {
    ghost use Rattle.std.specs.Prelude.{◌≡◌};
    ghost use Rattle.ck_records.specs.declared.fault.RecordFault.TheVariants.{NoMemory};

    ghost from_gives = { λ _ e. e ≡ NoMemory };

    fn from(_e: AllocFailed<T>) -> Self {
        RecordFault::NoMemory
    }
}

impl From<NoMemory> for RecordFault {
    ghost use Rattle.std.specs.Prelude.{◌≡◌};
    ghost use Rattle.ck_records.specs.declared.fault.RecordFault.TheVariants.{NoMemory as OutOfMemory};

    ghost from_gives = { λ _ e. e ≡ OutOfMemory };

    fn from(_e: NoMemory) -> Self {
        RecordFault::NoMemory
    }
}

/// Why JSON is no record as replies have it.
#[derive(Clone, Copy, Debug, PartialEq, Eq)]
pub enum ReplyRecordFault {
    /// It is not what is written for a record in the form in which a zone keeps it.
    NotARecord,
    /// Memory ran out.
    NoMemory,
}

impl From<AllocError> for ReplyRecordFault {
    ghost use Rattle.std.specs.Prelude.{◌≡◌};
    ghost use Rattle.ck_records.specs.declared.fault.ReplyRecordFault.TheVariants.{NoMemory};

    ghost from_gives = { λ _ e. e ≡ NoMemory };

    fn from(_e: AllocError) -> Self {
        ReplyRecordFault::NoMemory
    }
}

impl<T: Drop> From<AllocFailed<T>> for ReplyRecordFault {
    ghost use Rattle.std.specs.Prelude.{◌≡◌};
    ghost use Rattle.ck_records.specs.declared.fault.ReplyRecordFault.TheVariants.{NoMemory};

    ghost from_gives = { λ _ e. e ≡ NoMemory };

    fn from(_e: AllocFailed<T>) -> Self {
        ReplyRecordFault::NoMemory
    }
}

impl From<NoMemory> for ReplyRecordFault {
    ghost use Rattle.std.specs.Prelude.{◌≡◌};
    ghost use Rattle.ck_records.specs.declared.fault.ReplyRecordFault.TheVariants.{NoMemory as OutOfMemory};

    ghost from_gives = { λ _ e. e ≡ OutOfMemory };

    fn from(_e: NoMemory) -> Self {
        ReplyRecordFault::NoMemory
    }
}
