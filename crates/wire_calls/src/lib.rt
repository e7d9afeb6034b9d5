//! The calls of the service and their replies as JSON, both ways.
#![tactic(auto)]

mod asked;
mod built;
mod call;
mod call_write;
mod each;
mod entry_read;
mod fault;
mod guids;
mod laws;
mod limits;
mod list_read;
mod list_write;
mod lists;
mod lookup;
mod members;
mod modify;
mod read;
mod reply;
mod reply_body;
mod reply_fault;
mod reply_read;
mod reply_write;
mod subscription_lists;
mod thing;
mod thing_names;
mod thing_read;
mod zone_entries;
mod zone_lists;
mod zones;

pub use built::is_built_operation;
pub use call::{Call, LookupCall, ModifyCall};
pub use call_write::{call_json, call_text};
pub use fault::{BadCall, CallKey};
pub use guids::guids_at;
pub use laws::{
    calls_are_exact, calls_read_back, replies_are_exact, replies_are_one, zone_lists_are_exact,
    zone_lists_are_one,
};
pub use limits::{CallList, limited_list};
pub use lists::subscriptions_at;
pub use members::{count_at, limit_at, text_at};
pub use read::read_call;
pub use reply::{RecordEntries, RecordEntry, RecordsReply, Reply};
pub use reply_body::reply_text;
pub use reply_fault::ReplyFault;
pub use reply_read::read_reply;
pub use reply_write::{reply_json, reply_status};
pub use subscription_lists::{SubscriptionOp, subscription_ops_at};
pub use zone_entries::{AskedZone, ZoneEntries, ZoneEntry, asked_by_op, read_zones, zones_text};
pub use zone_lists::{ChangedZone, ZoneOp, changed_zones_at, zone_ops_at, zones_at};
