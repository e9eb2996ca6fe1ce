//! Definitions of nothing but given common types.

ghost use Rattle.std.specs.Prelude.{◌≡◌, ◌∷◌, [], IfOk, IfErr};
ghost use Rattle.std.specs.Option.{option_map};
ghost use Rattle.cedar_fragments.specs.Words.{common_type, common_type_declarations, conditional_definition, declared_as, definition_namespace, fault_of, given_common_type, given_common_types, name_of, namespace_name, out_of_memory, positional_expr, positional_reference};
ghost use Rattle.cedar_schema_ast.specs.declared.json_schema.conditional_name.ConditionalName.{ConditionalName as Conditional};

use crate::namespace::actions::ActionsDef;
use crate::namespace::common_types::{CommonTypeDef, CommonTypeDefs};
use crate::namespace::definition::{ValidatorNamespaceDef, lend};
use crate::namespace::entity_types::EntityTypesDef;
use cedar_ast::{InternalName, M, UnreservedId};
use cedar_name_resolution::full_name::full_name;
use cedar_schema_ast::json_schema::{ConditionalName, Type};
use cedar_schema_semantics::SchemaError;
use std::alloc::Global;
use std::collections::HashMap;

/// A common type under its full name in a namespace.
fn given_def(
    alloc: Global,
    namespace: Option<&InternalName>,
    definition: (UnreservedId, Type<ConditionalName>),
) -> M<CommonTypeDef<ConditionalName>>
    ensures { IfOk result (λ def. declared_as (name_of def.name)
        (common_type (positional_expr def.ty))
        ≡ given_common_type (namespace_name namespace.entry) definition) }
{
    let (id, ty) = definition;
    let name = full_name(alloc, namespace, id.into_id(), None)?;
    Ok(CommonTypeDef { name, ty })
}

/// The common types of a map, each under its full name in a namespace.
fn given_defs(
    alloc: Global,
    namespace: Option<&InternalName>,
    definitions: HashMap<UnreservedId, Type<ConditionalName>>,
) -> M<CommonTypeDefs<ConditionalName>>
    ensures { IfOk result (λ it. common_type_declarations Conditional positional_reference it
        ≡ given_common_types (namespace_name namespace.entry) definitions.entries) }
{
    let mut defs = Vec::new(alloc);
    for definition in definitions {
        defs.push(given_def(alloc, namespace, definition)?)?;
    }
    Ok(CommonTypeDefs { defs })
}

/// A definition of nothing but some common types.
fn only_common_types(
    alloc: Global,
    namespace: Option<InternalName>,
    common_types: CommonTypeDefs<ConditionalName>,
) -> ValidatorNamespaceDef<ConditionalName, ConditionalName>
    ensures declarations { conditional_definition result
        ≡ common_type_declarations Conditional positional_reference common_types }
    ensures namespace { definition_namespace Conditional Conditional result
        ≡ option_map name_of namespace }
{
    ValidatorNamespaceDef {
        namespace,
        common_types,
        entity_types: EntityTypesDef::new(alloc),
        actions: ActionsDef::new(alloc),
        loc: None,
    }
}

impl ValidatorNamespaceDef<ConditionalName, ConditionalName> {
    /// The definition that declares just these common types, each under its id in the namespace,
    /// None being the empty one. The only refusal is that memory ran out.
    pub fn from_common_type_defs(
        alloc: Global,
        namespace: Option<InternalName>,
        definitions: HashMap<UnreservedId, Type<ConditionalName>>,
    ) -> Result<Self, SchemaError>
        ensures declarations { IfOk result (λ it. conditional_definition it
            ≡ given_common_types (option_map name_of namespace) definitions.entries) }
        ensures namespace { IfOk result (λ it.
            definition_namespace Conditional Conditional it ≡ option_map name_of namespace) }
        ensures fault { IfErr result (λ error. fault_of error ≡ out_of_memory) }
    {
        let common_types = given_defs(alloc, lend(&namespace), definitions)?;
        Ok(only_common_types(alloc, namespace, common_types))
    }

    /// The definition that declares just this common type, under its id in the namespace, None
    /// being the empty one. The only refusal is that memory ran out.
    pub fn from_common_type_def(
        alloc: Global,
        namespace: Option<InternalName>,
        definition: (UnreservedId, Type<ConditionalName>),
    ) -> Result<Self, SchemaError>
        ensures declarations { IfOk result (λ it. conditional_definition it
            ≡ given_common_type (option_map name_of namespace) definition ∷ []) }
        ensures namespace { IfOk result (λ it.
            definition_namespace Conditional Conditional it ≡ option_map name_of namespace) }
        ensures fault { IfErr result (λ error. fault_of error ≡ out_of_memory) }
    {
        let def = given_def(alloc, lend(&namespace), definition)?;
        let mut defs = Vec::new(alloc);
        defs.push(def)?;
        Ok(only_common_types(alloc, namespace, CommonTypeDefs { defs }))
    }
}
