//! What a schema of the validator holds: entity types, actions, the entities of actions, and the
//! environments of requests.
//!
//! [`ValidatorEntityType`] and [`ValidatorActionId`] are an entity type and an action, each with
//! its descendants. Both are nodes of a hierarchy ([`SchemaNode`]), and [`upper_sets`] gives what
//! stands above each node. A [`TypeSet`] holds the types of an action's principals, or of its
//! resources, and [`ValidatorApplySpec`] is both of them, or of the references to them.
//! [`action_entities`] and [`environments`] make the entities of actions and the environments of
//! their requests ([`UnlinkedRequestEnv`]). [`theorems`] has laws of how these compare.
#![tactic(auto)]

pub use action_id::ValidatorActionId;
pub use ancestors::{Ancestors, upper_sets};
pub use apply_spec::ValidatorApplySpec;
pub use entities_of_actions::action_entities;
pub use entity_type::ValidatorEntityType;
pub use entity_type_kind::{StandardValidatorEntityType, ValidatorEntityTypeKind};
pub use request_env::{RequestEnv, UnlinkedRequestEnv};
pub use request_environments::environments;
pub use schema_node::SchemaNode;
pub use type_set::{RequestTypes, TypeSet};

mod action_id;
mod action_kind;
mod action_node;
mod ancestors;
mod apply_spec;
mod entities_of_actions;
mod entity_type;
mod entity_type_kind;
mod entity_type_node;
mod qualified;
mod request_env;
mod request_environments;
mod schema_node;
mod sets;
pub mod theorems;
mod type_set;
