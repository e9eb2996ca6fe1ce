//! A schema, converted back as a fragment that declares it again.
//!
//! [`json_schema`] makes the fragment of the tables of a schema's entity types and actions. It is
//! refused exactly where no fragment declares the schema as it is ([`WriteBackFault`]). The
//! fragment is plain data, which `cedar_json_writer` writes as text.
#![tactic(auto)]

pub use fragment::json_schema;
pub use write_back_fault::WriteBackFault;

mod actions;
mod definitions;
mod entity_types;
mod fragment;
mod known;
mod names;
mod parents;
mod types;
mod write_back_fault;
