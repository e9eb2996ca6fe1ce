//! The entity types and the actions of a schema, built from what is declared of them.
//!
//! [`entity_types`] and [`actions`] are two steps of the builder. Each puts the declarations of a
//! name together, elaborates its definition, makes descendants of the declared parents, with all
//! that chains of these reach, and refuses what is at fault.
#![tactic(auto)]

pub use action_building::actions;
pub use entity_type_building::entity_types;

mod action_building;
mod action_links;
mod action_nodes;
mod action_requests;
mod declared_node;
mod entity_type_building;
mod entity_type_checks;
mod entity_type_kinds;
mod entity_type_links;
mod entity_type_nodes;
mod links;
mod named_type;
mod parents;
mod request_types;
