//! Fragments and the definitions of their namespaces, with what their names may stand for.
//!
//! The parameter `N` is the form of a reference to a type: a name that isn't resolved yet, or the
//! full name of what it names. The parameter `A` is the same of the type of an action's parent.

pub use action_def::ActionDef;
pub use action_type::UnqualifiedActionType;
pub use actions::{ActionFragment, ActionParent, ActionRequests, ActionsDef};
pub use cedar_name_resolution::Written;
pub use common_types::{CommonTypeDef, CommonTypeDefs};
pub use declared_names::{ActionNames, CommonTypeNames, EntityTypeNames};
pub use definition::ValidatorNamespaceDef;
pub use entity_type_def::EntityTypeDef;
pub use entity_types::{EntityTypeFragment, EntityTypesDef};
pub use fragment::ValidatorSchemaFragment;
pub use namespaces::Namespaces;

mod action_def;
mod action_type;
mod actions;
mod common_types;
mod copy_actions;
mod copy_definitions;
mod copy_types;
mod declared_names;
mod definition;
mod entity_type_def;
mod entity_types;
mod fragment;
mod given_common_types;
mod into_parts;
mod listed_names;
mod located;
mod named_action;
mod namespaces;
mod qualify_actions;
mod qualify_definitions;
mod qualify_entities;
mod qualify_types;
mod taken_names;
mod taken_over;
