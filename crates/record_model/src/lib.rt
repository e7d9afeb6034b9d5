//! Values, records and shares as data: their types, their forms, their sizes, their order, and
//! copies of them; with what a user sees of a zone, the filters of queries, and subscriptions. Their
//! JSON stands above, in `field_values` and `ck_records`.
#![tactic(auto)]

mod comparator;
mod counts;
mod cutting;
mod draft;
mod filter;
mod laws;
mod record_copies;
mod record_sizes;
mod records;
mod sharing;
mod subscription;
mod value;
mod value_copies;
mod value_order;
mod value_sizes;
mod view;

pub use comparator::{Comparator, fits};
pub use counts::{are_counted, fits_two_bytes};
pub use cutting::cut;
pub use draft::{Draft, ForRoot, ParentWish, WantedList, Wish, Wishes};
pub use filter::{Filter, Filters};
pub use laws::values_are_ordered;
pub use record_copies::copy_record;
pub use record_sizes::record_size;
pub use records::{Body, Field, Fields, Record, Rows, Stamp};
pub use sharing::is_share_type;
pub use subscription::{Fires, SubKind, Subscription};
pub use value::{Action, Kind, RefTo, Shape, Value, Values};
pub use value_copies::copy_value;
pub use value_order::{compare, elements};
pub use value_sizes::size_of;
pub use view::View;
