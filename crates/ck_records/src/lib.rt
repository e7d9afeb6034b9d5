//! Records as replies tell them and as requests give them, as JSON, both ways. Their types, their
//! sizes and what is cut from them are those of `record_model`. The meaning of `parent`, `share` and
//! `forRecord`, and the JSON of participants, are this project's own.
#![tactic(auto)]

mod draft_fields;
mod draft_write;
mod fault;
mod laws;
mod members;
mod names;
mod participants;
mod read;
mod record_write;
mod reply_record;
mod shown;
mod shown_share;
mod spellings;
mod write;

pub use draft_write::draft_json;
pub use fault::{RecordFault, RecordKey, ReplyRecordFault};
pub use laws::{drafts_read_back, records_are_flat, records_read_back};
pub use members::put_some;
pub use read::read_record;
pub use record_model::{
    Body, Comparator, Draft, Field, Fields, Filter, Filters, Fires, ForRoot, ParentWish, Record,
    Rows, Stamp, SubKind, Subscription, View, WantedList, Wish, Wishes, copy_record, cut, fits,
    record_size,
};
pub use record_write::record_json;
pub use reply_record::read_reply_record;
