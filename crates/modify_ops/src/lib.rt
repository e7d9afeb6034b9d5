//! The operations of requests on records: which ones JSON means, and their JSON.
#![tactic(auto)]

mod fault;
mod form;
mod kind;
mod laws;
mod names;
mod read;
mod write;

pub use drawn_names::{draws_name, name_of_word, names_of, words_drawn, words_for};
pub use fault::BadOps;
pub use form::read_op_list;
pub use laws::{ops_read_back, requests_read_back};
pub use names::named_again;
pub use read::read_ops;
pub use write::{op_json, ops_json};
pub use zone_model::{Op, OpKind, Ops};
