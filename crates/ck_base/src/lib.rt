//! The words that every other crate speaks: names, zone keys and locks, scopes and routes, texts,
//! bytes and lists, the limits of the service, and a counter of steps.
#![tactic(auto)]

mod bytes;
mod guid;
mod key;
pub mod known;
mod laws;
pub mod limits;
mod lists;
mod lock;
mod memory;
mod name;
mod number;
mod route;
mod scope;
mod steps;
mod text;

pub use bytes::Bytes;
pub use guid::Guid;
pub use key::ZoneKey;
pub use known::is_own_default;
pub use laws::keys_are_ordered;
pub use lists::{Items, RecordNames, Texts, ZoneKeys, clone_items};
pub use lock::lock_of;
pub use memory::NoMemory;
pub use name::{
    Name, NameFault, OfRecord, OfUser, OfZone, RecordName, UserName, ZoneName, record_name,
    user_name, zone_name,
};
pub use number::read_number;
pub use route::{Database, Operation, Route};
pub use scope::Scope;
pub use steps::{Steps, Top};
pub use text::Text;
