// Names of records, zones and users.
ghost use Rattle.std.specs.Prelude.{◌≡◌};
ghost use Rattle.ck_base.specs.Names.{is_name_byte, first_outside, IsName};
ghost use Rattle.ck_base.specs.Reading.{name_of};
ghost use Rattle.ck_base.specs.Told.{IsToldUnless};

use crate::Bytes;
use crate::limits::{FIRST_NAME_BYTE, LAST_NAME_BYTE, NAME_BYTES};
use std::alloc::{AllocError, Global};
use std::marker::{Model, PhantomData};
use std::str;

/// Marks the names of records, of record types, fields and subscriptions.
#[derive(Clone, Copy, Debug, PartialEq, Eq, PartialOrd, Ord)]
pub struct OfRecord;

/// Marks the names of zones.
#[derive(Clone, Copy, Debug, PartialEq, Eq, PartialOrd, Ord)]
pub struct OfZone;

/// Marks the names of users.
#[derive(Clone, Copy, Debug, PartialEq, Eq, PartialOrd, Ord)]
pub struct OfUser;

/// A name: 1 to 255 bytes, each from 0x20 to 0x7E, as a record name of CloudKit is an ASCII text of
/// at most 255 characters. `K` marks what it names. Names are ordered by their bytes.
#[derive(Clone, Debug, PartialEq, Eq, PartialOrd, Ord, Drop)]
pub struct Name<K> {
    bytes: Bytes,
    kind: PhantomData<K>,
}

impl<K> Model for Name<K> {
    ghost use Rattle.std.specs.Prelude.{List, ℕ};
    ghost use Rattle.ck_base.specs.Names.{IsName};

    ghost Value = { List ℕ };

    ghost view = { λ n. n.bytes };

    ghost invariant = { λ n. IsName n.bytes };

    ghost inverse = { λ bytes. record { bytes = bytes; kind = record {} } };
}

/// Names a record, a record type, a field or a subscription.
pub type RecordName = Name<OfRecord>;

/// Names a zone of its owner.
pub type ZoneName = Name<OfZone>;

/// Names a user.
pub type UserName = Name<OfUser>;

/// Why bytes are no name.
#[derive(Clone, Copy, Debug, PartialEq, Eq)]
pub enum NameFault {
    /// There are no bytes.
    Empty,
    /// There are so many bytes, and that is more than 255.
    TooLong(usize),
    /// The byte at this place, counted from 0, is none of 0x20 to 0x7E.
    BadChar(usize),
    /// Memory ran out.
    NoMemory,
}

impl From<AllocError> for NameFault {
    ghost use Rattle.std.specs.Prelude.{◌≡◌};
    ghost use Rattle.ck_base.specs.declared.name.NameFault.TheVariants.{NoMemory};

    ghost from_gives = { λ _ e. e ≡ NoMemory };

    fn from(_e: AllocError) -> Self {
        NameFault::NoMemory
    }
}

impl<K> Name<K> {
    /// The name of these bytes. The faults come in the order in which `NameFault` lists them.
    pub fn from_bytes(alloc: Global, bytes: &[u8]) -> Result<Self, NameFault>
        ensures { IsToldUnless NameFault.NoMemory result (name_of bytes.now) }
    {
        if bytes.is_empty() {
            return Err(NameFault::Empty);
        }
        if bytes.len() > NAME_BYTES {
            return Err(NameFault::TooLong(bytes.len()));
        }
        if let Some(at) = first_bad_byte(bytes) {
            return Err(NameFault::BadChar(at));
        }
        Ok(Name {
            bytes: Bytes::from_slice(alloc, bytes)?,
            kind: PhantomData,
        })
    }

    /// The bytes of the name.
    pub fn as_bytes(&self) -> &[u8]
        ensures bytes { result.now ≡ self.now }
        ensures name { IsName result.now }
    {
        self.bytes.as_slice()
    }

    /// The name as a text, which it is since its bytes are ASCII.
    #[tactic(auto, using(crate::proofs::NameLemmas::name_is_text))]
    pub fn as_str(&self) -> &str
        ensures { result.now ≡ self.now }
    {
        str::from_utf8(self.as_bytes()).unwrap()
    }
}

/// The name of a record, a record type, a field or a subscription that these bytes are.
pub fn record_name(alloc: Global, bytes: &[u8]) -> Result<RecordName, NameFault>
    ensures { IsToldUnless NameFault.NoMemory result (name_of bytes.now) }
{
    Name::from_bytes(alloc, bytes)
}

/// The name of a zone that these bytes are.
pub fn zone_name(alloc: Global, bytes: &[u8]) -> Result<ZoneName, NameFault>
    ensures { IsToldUnless NameFault.NoMemory result (name_of bytes.now) }
{
    Name::from_bytes(alloc, bytes)
}

/// The name of a user that these bytes are.
pub fn user_name(alloc: Global, bytes: &[u8]) -> Result<UserName, NameFault>
    ensures { IsToldUnless NameFault.NoMemory result (name_of bytes.now) }
{
    Name::from_bytes(alloc, bytes)
}

fn is_allowed(byte: u8) -> bool
    ensures { result ≡ is_name_byte byte }
{
    FIRST_NAME_BYTE <= byte && byte <= LAST_NAME_BYTE
}

fn first_bad_byte(bytes: &[u8]) -> Option<usize>
    ensures { result ≡ first_outside bytes.now }
{
    bytes.iter().position(|byte| !is_allowed(*byte))
}
