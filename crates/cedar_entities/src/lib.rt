//! Which entities exist in a schema, what values name, and the entities and requests of a schema.
//!
//! The definitions stand in `specs/`: an enumerated entity type has the entities of its choices and
//! no others (RFC 53), and an action type those of the schema's actions, wherever one is named.
//! [`theorems`] has their laws, and there is no other code.
#![tactic(auto)]

pub mod theorems;
