//! Fragments: namespaces with their declarations.

use crate::json_schema::action_type::ActionType;
use crate::json_schema::common_type_id::CommonTypeId;
use crate::json_schema::entity_type::EntityType;
use crate::json_schema::type_of::Type;
use cedar_ast::{Loc, Name, UnreservedId};
use std::collections::BTreeMap;

/// A part of a schema: namespaces and what each declares. The namespace None is the empty one.
#[derive(Debug, Drop)]
pub struct Fragment<N>(pub BTreeMap<Option<Name>, NamespaceDefinition<N>>);

/// The declarations of one namespace.
#[derive(Debug, Drop)]
pub struct NamespaceDefinition<N> {
    /// The common types, each under its base name.
    pub common_types: BTreeMap<CommonTypeId, CommonType<N>>,
    /// The entity types, each under its base name.
    pub entity_types: BTreeMap<UnreservedId, EntityType<N>>,
    /// The actions, each under its id.
    pub actions: BTreeMap<String, ActionType<N>>,
    /// Where the namespace was written, if that is known.
    pub loc: Option<Loc>,
}

/// The declaration of a common type: a name for a type, to be used in other declarations.
#[derive(Debug, Drop)]
pub struct CommonType<N> {
    /// The type that the name stands for.
    pub ty: Type<N>,
    /// Where the declaration was written, if that is known.
    pub loc: Option<Loc>,
}
