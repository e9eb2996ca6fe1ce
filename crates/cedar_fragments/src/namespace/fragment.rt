//! Fragments: namespaces with their definitions.

ghost use Rattle.std.specs.Prelude.{◌≡◌, ◌⊎◌, [], ◌∷◌, IfOk, IfErr, OnOk};
ghost use Rattle.std.specs.List.{AllByRecursion};
ghost use Rattle.std.specs.Option.{option_map};
ghost use Rattle.cedar_fragments.specs.Words.{HasNoDefinitionFault, IsDefinitionFault, IsSound, NamesAllOfADefinition, conditional_fragment, conditional_pairwise, fault_of, fragment_common_names, located_name, located_namespaces, located_plain_name, name_of, named_namespaces, out_of_memory, plain_name, raw_common_names, raw_fragment, raw_located_namespaces, raw_namespaces, raw_pairwise};
ghost use Rattle.cedar_schema_ast.specs.declared.json_schema.conditional_name.ConditionalName.{ConditionalName as Conditional};

use crate::namespace::action_type::UnqualifiedActionType;
use crate::namespace::definition::ValidatorNamespaceDef;
use cedar_ast::{InternalName, Name};
use cedar_schema_ast::json_schema::{ConditionalName, Fragment, RawName};
use cedar_schema_semantics::SchemaError;
use std::alloc::Global;

/// A part of a schema: the definitions of some namespaces.
#[derive(Debug, Drop)]
pub struct ValidatorSchemaFragment<N, A> {
    pub(crate) definitions: Vec<ValidatorNamespaceDef<N, A>>,
}

/// The name of a namespace, which may be the empty one.
pub(crate) fn internal_namespace(namespace: Option<Name>) -> Option<InternalName>
    ensures name { option_map name_of result ≡ option_map plain_name namespace }
    ensures located { option_map located_name result ≡ option_map located_plain_name namespace }
{
    match namespace {
        Some(name) => Some(name.into_internal()),
        None => None,
    }
}

impl ValidatorSchemaFragment<ConditionalName, ConditionalName> {
    /// The fragment over conditional names, with one definition for each that is written, in
    /// order, be it empty.
    ///
    /// It is refused with one of these kinds, also for external declarations:
    ///
    /// - `UnsupportedFeature`: an action is written with attributes; it names all such actions of
    ///   one definition, in order
    /// - `ActionEntityTypeDeclared`: an entity type has the id `Action`
    /// - `Memory`: memory ran out
    ///
    /// Since no namespace of a fragment is reserved, `ReservedName` never comes.
    pub fn from_schema_fragment(
        alloc: Global,
        fragment: Fragment<RawName>,
    ) -> Result<Self, SchemaError>
        ensures declarations { IfOk result (λ it. conditional_fragment it ≡ raw_fragment fragment) }
        ensures pairwise { IfOk result (λ it. conditional_pairwise it ≡ raw_pairwise fragment) }
        ensures located { IfOk result (λ it.
            located_namespaces Conditional Conditional it ≡ raw_located_namespaces fragment) }
        ensures common_types { IfOk result (λ it.
            fragment_common_names Conditional Conditional it ≡ raw_common_names fragment) }
        ensures namespaces { IfOk result (λ it.
            named_namespaces Conditional Conditional it ≡ raw_namespaces fragment) }
        ensures sound { OnOk result (AllByRecursion IsSound (raw_fragment fragment)) }
        ensures no_fault { OnOk result (HasNoDefinitionFault (raw_fragment fragment)) }
        ensures fault { IfErr result (λ error. (fault_of error ≡ out_of_memory)
            ⊎ IsDefinitionFault (raw_fragment fragment) (fault_of error)) }
        ensures all_named { IfErr result (λ error.
            NamesAllOfADefinition (fragment ∷ []) (fault_of error)) }
    {
        let unqualified = UnqualifiedActionType::new(alloc)?;
        Self::taken_over(alloc, fragment, &unqualified)
    }
}
