//! Schema fragments, values, entities and requests, written as Cedar's JSON.
//!
//! [`fragment_to_json`] writes a fragment in Cedar's JSON schema format; [`value_to_json`],
//! [`entity_to_json`] and [`request_to_json`] write a value, an entity and a request. What the
//! format can't say is refused ([`WriteFault`], [`Unwritable`]). That a fragment is read back as it
//! was is said in [`theorems`].
#![tactic(auto)]

mod actions;
mod definitions;
mod entity_text;
mod entity_types;
mod fault;
mod fields;
mod request_text;
mod text;
pub mod theorems;
mod types;
mod value_text;
mod values;
mod written;

pub use entity_text::entity_to_json;
pub use fault::{Unwritable, WriteFault};
pub use request_text::request_to_json;
pub use text::fragment_to_json;
pub use value_text::value_to_json;
