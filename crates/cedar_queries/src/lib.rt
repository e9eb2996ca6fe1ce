//! What a schema answers, over tables of its entity types and its actions.
//!
//! `ValidatorSchema` of `cedar_schema` hands these answers on: what stands above and below in the
//! hierarchy, the principals and resources of actions, what is declared elsewhere
//! ([`check_complete`]), the leaves of types ([`leaf_types`]), and what is known of the attributes
//! and tags of types ([`all_attributes`], [`may_have_attr`]). [`theorems`] has laws of them.
#![tactic(auto)]

pub use completeness::{CompleteError, IncompleteSchemaError, check_complete};
pub use descent::{
    ActionGroups, Actions, Ancestors, EntityTypes, action_groups, actions_in_set, ancestors,
    any_descendent_of, entity_types_in, is_known_entity_type,
};
pub use environments::RequestEnvs;
pub use known::{all_attributes, known_attributes};
pub use leaves::{TypeIterator, leaf_types};
pub use possible::{
    has_declared_entity_types, is_known_uid, lookup_attribute_type, may_have_attr, may_have_tags,
};
pub use requests::{
    ActionsFor, ApplicableTypes, actions_for_principal_and_resource, context_type,
    is_known_action_id, principals, principals_for_action, resources, resources_for_action,
};
pub use unresolved::{
    UnresolvedDeclaration, UnresolvedDeclarations, is_complete, unresolved_declarations,
};

mod completeness;
mod descent;
mod environments;
mod known;
mod leaves;
mod possible;
mod requests;
mod selected;
mod tests_of_values;
pub mod theorems;
mod unresolved;
