//! Cedar's JSON schema format, read into the plain data of schema fragments.
//!
//! [`fragment_from_json`] reads a text, and [`fragment_from_slice`] its bytes. Each declaration
//! keeps where it stands in the text. A refusal ([`JsonSchemaFault`]) says what is wrong and where
//! ([`Place`], [`FaultKind`]). [`cedar_extensions`] gives Cedar's own extension types and
//! functions.
#![tactic(auto)]

mod action_reading;
mod annotations;
mod definition_reading;
mod entity_reading;
mod extensions;
mod fault;
mod fields;
mod from_json;
mod from_json_owned;
mod gathering;
mod map_builder;
mod place_table;
mod repeated_keys;
mod spelling;
mod stop;
mod text_reading;
mod type_reading;
mod value_place;
mod value_reading;

pub use extensions::cedar_extensions;
pub use fault::{Expected, FaultKind, Row, Step};
pub use text_reading::{JsonSchemaFault, fragment_from_json, fragment_from_slice};
pub use value_place::Place;
