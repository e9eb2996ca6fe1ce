//! Definitions of namespaces.

ghost use Rattle.std.specs.Prelude.{◌≡◌, ◌⊎◌, IfOk, IfErr, OnOk};
ghost use Rattle.std.specs.List.{AllByRecursion};
ghost use Rattle.std.specs.Option.{option_copied, option_map};
ghost use Rattle.cedar_fragments.specs.Words.{HasNoDefinitionFault, IsDefinitionFault, IsSound, NamesAllWithAttributes, conditional_definition, definition_common_names, definition_loc, definition_name, definition_namespace, fault_of, located_name, name_of, namespace_name, out_of_memory, raw_declarations, written_common_names};
ghost use Rattle.cedar_schema_ast.specs.declared.json_schema.conditional_name.ConditionalName.{ConditionalName as Conditional};

use crate::namespace::action_type::UnqualifiedActionType;
use crate::namespace::actions::ActionsDef;
use crate::namespace::common_types::CommonTypeDefs;
use crate::namespace::entity_types::EntityTypesDef;
use cedar_ast::{InternalName, Loc};
use cedar_schema_ast::json_schema::{ConditionalName, NamespaceDefinition, RawName};
use cedar_schema_semantics::SchemaError;
use std::alloc::Global;

/// The declarations of one namespace.
#[derive(Debug, Drop)]
pub struct ValidatorNamespaceDef<N, A> {
    pub(crate) namespace: Option<InternalName>,
    pub(crate) common_types: CommonTypeDefs<N>,
    pub(crate) entity_types: EntityTypesDef<N>,
    pub(crate) actions: ActionsDef<N, A>,
    pub(crate) loc: Option<Loc>,
}

impl<N, A> ValidatorNamespaceDef<N, A> {
    /// The namespace's name, or None for the empty one.
    pub fn namespace(&self) -> Option<&InternalName>
        ensures name { namespace_name result ≡ definition_namespace N A self.now }
        ensures located { option_map located_name (option_copied result)
            ≡ definition_name N A self.now }
    {
        self.namespace.as_ref()
    }
}

/// The name of a namespace, borrowed.
pub(crate) fn lend(namespace: &Option<InternalName>) -> Option<&InternalName>
    ensures { namespace_name result ≡ option_map name_of namespace.now }
{
    namespace.as_ref()
}

impl ValidatorNamespaceDef<ConditionalName, ConditionalName> {
    /// The declarations of a definition that is written in the namespace, None being the empty
    /// one.
    ///
    /// It is refused with one of these kinds, also for external declarations:
    ///
    /// - `UnsupportedFeature`: an action is written with attributes; it names all such actions,
    ///   in order
    /// - `ActionEntityTypeDeclared`: an entity type has the id `Action`
    /// - `ReservedName`: an entity type or an action is declared in a reserved namespace
    /// - `Memory`: memory ran out
    pub fn from_namespace_definition(
        alloc: Global,
        namespace: Option<InternalName>,
        definition: NamespaceDefinition<RawName>,
    ) -> Result<Self, SchemaError>
        ensures declarations { IfOk result (λ it. conditional_definition it
            ≡ raw_declarations (option_map name_of namespace) definition) }
        ensures namespace { IfOk result (λ it.
            definition_namespace Conditional Conditional it ≡ option_map name_of namespace) }
        ensures common_types { IfOk result (λ it. definition_common_names Conditional Conditional it
            ≡ written_common_names (option_map name_of namespace) definition.common_types.entries) }
        ensures name { IfOk result (λ it.
            definition_name Conditional Conditional it ≡ option_map located_name namespace) }
        ensures loc { IfOk result (λ it.
            definition_loc Conditional Conditional it ≡ definition.loc) }
        ensures sound { OnOk result (AllByRecursion IsSound
            (raw_declarations (option_map name_of namespace) definition)) }
        ensures no_fault { OnOk result
            (HasNoDefinitionFault (raw_declarations (option_map name_of namespace) definition)) }
        ensures fault { IfErr result (λ error. (fault_of error ≡ out_of_memory)
            ⊎ IsDefinitionFault (raw_declarations (option_map name_of namespace) definition)
            (fault_of error)) }
        ensures all_named { IfErr result (λ error. NamesAllWithAttributes
            (raw_declarations (option_map name_of namespace) definition)
            (option_map name_of namespace) (fault_of error)) }
    {
        let unqualified = UnqualifiedActionType::new(alloc)?;
        Self::taken_over(alloc, namespace, definition, &unqualified)
    }
}
