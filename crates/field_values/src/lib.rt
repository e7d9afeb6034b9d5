//! The values of fields as JSON, both ways. Their types, their sizes and their order are those of
//! `record_model`.
#![tactic(auto)]

mod fault;
mod laws;
mod members;
mod names;
mod numbers;
mod read;
mod references;
mod same;
mod shapes;
mod write;
mod zone_ids;

pub use fault::FieldFault;
pub use laws::{fields_are_flat, fields_read_back};
pub use members::{member, unless_null};
pub use names::{is_name, name_in, valid_name};
pub use read::read_field;
pub use record_model::{
    Action, Kind, RefTo, Value, Values, compare, copy_value, size_of, values_are_ordered,
};
pub use same::same_json;
pub use write::field_json;
pub use zone_ids::{zone_in, zone_json};
