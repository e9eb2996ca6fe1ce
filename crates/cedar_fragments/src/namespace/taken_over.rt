//! What is written becomes what is declared, by the names that are written or by what each may
//! stand for. Ordered maps are emptied from their ends, and what is made of them is turned round at
//! last: an iterator over one is large.

ghost use Rattle.std.specs.Prelude.{◌≡◌, ◌⊎◌, ◌∷◌, [], IfErr, IfOk, OnOk};
ghost use Rattle.std.specs.List.{AllByRecursion};
ghost use Rattle.std.specs.Option.{option_map};
ghost use Rattle.cedar_fragments.specs.Words.{HasNoDefinitionFault, IsDefinitionFault, IsSound, NamesAllOfADefinition, NamesAllWithAttributes, NamesNoAttributes, action_declarations, action_fragment_declarations, common_declarations, common_type_declarations, common_type_defs, definition_common_names, definition_loc, definition_name, definition_namespace, entity_declarations, entity_type_declarations, fault_of, fragment_common_names, located_common_names, located_name, located_namespaces, name_of, named_namespaces, namespace_name, out_of_memory, raw_common_names, raw_declarations, raw_fragment, raw_located_namespaces, raw_namespaces, raw_pairwise, raw_reference, written_common_names, written_definition, written_fragment, written_pairwise};
ghost use Rattle.cedar_schema_ast.specs.declared.json_schema.raw_name.RawName.{RawName as Raw};

use crate::namespace::action_def::ActionDef;
use crate::namespace::action_type::UnqualifiedActionType;
use crate::namespace::actions::{ActionFragment, ActionsDef, action_uid, refuse_attributes};
use crate::namespace::common_types::{CommonTypeDef, CommonTypeDefs};
use crate::namespace::definition::{ValidatorNamespaceDef, lend};
use crate::namespace::entity_type_def::EntityTypeDef;
use crate::namespace::entity_types::{EntityTypeFragment, EntityTypesDef, entity_type_name};
use crate::namespace::fragment::{ValidatorSchemaFragment, internal_namespace};
use crate::namespace::taken_names::TakenOver;
use cedar_ast::{InternalName, M, UnreservedId};
use cedar_name_resolution::full_name::full_name;
use cedar_schema_ast::json_schema;
use cedar_schema_ast::json_schema::{
    ActionType, CommonType, CommonTypeId, Fragment, NamespaceDefinition, RawName,
};
use cedar_schema_semantics::SchemaError;
use std::alloc::Global;
use std::collections::BTreeMap;

impl<N: TakenOver> CommonTypeDefs<N> {
    /// The common types that are written in a namespace.
    pub(crate) fn taken_over(
        alloc: Global,
        namespace: Option<&InternalName>,
        written: BTreeMap<CommonTypeId, CommonType<RawName>>,
    ) -> M<Self>
        ensures declarations { IfOk result (λ it.
            common_type_declarations N (N.refer (namespace_name namespace.entry)) it
            ≡ common_declarations Raw (raw_reference (namespace_name namespace.entry))
            (namespace_name namespace.entry) written.entries) }
        ensures located { IfOk result (λ it.
            located_common_names N (common_type_defs N it)
            ≡ written_common_names (namespace_name namespace.entry) written.entries) }
    {
        let mut written = written;
        let mut defs = Vec::with_capacity(alloc, written.len())?;
        while let Some((id, common)) = written.pop_last() {
            let CommonType { ty, loc } = common;
            let name = full_name(alloc, namespace, id.into_id().into_id(), loc)?;
            let ty = N::taken_type(alloc, namespace, ty)?;
            defs.push(CommonTypeDef { name, ty })?;
        }
        defs.reverse();
        Ok(CommonTypeDefs { defs })
    }
}

impl<N: TakenOver> EntityTypesDef<N> {
    /// The entity types that are written in a namespace.
    pub(crate) fn taken_over(
        alloc: Global,
        namespace: Option<&InternalName>,
        written: BTreeMap<UnreservedId, json_schema::EntityType<RawName>>,
    ) -> Result<Self, SchemaError>
        ensures declarations { IfOk result (λ it.
            entity_type_declarations N (N.refer (namespace_name namespace.entry)) it
            ≡ entity_declarations Raw (raw_reference (namespace_name namespace.entry))
            (namespace_name namespace.entry) written.entries) }
        ensures sound { OnOk result (AllByRecursion IsSound
            (entity_declarations Raw (raw_reference (namespace_name namespace.entry))
            (namespace_name namespace.entry) written.entries)) }
        ensures fault { IfErr result (λ error. (fault_of error ≡ out_of_memory)
            ⊎ IsDefinitionFault (entity_declarations Raw
            (raw_reference (namespace_name namespace.entry)) (namespace_name namespace.entry)
            written.entries) (fault_of error)) }
        ensures no_actions { IfErr result (λ error. NamesNoAttributes (fault_of error)) }
    {
        let mut written = written;
        let mut defs = Vec::with_capacity(alloc, written.len())?;
        while let Some((id, declared)) = written.pop_last() {
            let name = entity_type_name(alloc, namespace, id, declared.loc)?;
            let fragment = EntityTypeFragment::taken_over(alloc, namespace, declared)?;
            defs.push(EntityTypeDef { name, fragment })?;
        }
        defs.reverse();
        Ok(EntityTypesDef { defs })
    }
}

impl<N: TakenOver> ActionsDef<N, N> {
    /// The actions that are written in a namespace.
    pub(crate) fn taken_over(
        alloc: Global,
        namespace: Option<&InternalName>,
        written: BTreeMap<String, ActionType<RawName>>,
        unqualified: &UnqualifiedActionType,
    ) -> Result<Self, SchemaError>
        ensures declarations { IfOk result (λ it.
            action_fragment_declarations N (N.refer (namespace_name namespace.entry)) N
            (N.refer (namespace_name namespace.entry)) it
            ≡ action_declarations Raw (raw_reference (namespace_name namespace.entry))
            (namespace_name namespace.entry) written.entries) }
        ensures sound { OnOk result (AllByRecursion IsSound
            (action_declarations Raw (raw_reference (namespace_name namespace.entry))
            (namespace_name namespace.entry) written.entries)) }
        ensures fault { IfErr result (λ error. (fault_of error ≡ out_of_memory)
            ⊎ IsDefinitionFault (action_declarations Raw
            (raw_reference (namespace_name namespace.entry)) (namespace_name namespace.entry)
            written.entries) (fault_of error)) }
        ensures all_named { IfErr result (λ error. NamesAllWithAttributes
            (action_declarations Raw (raw_reference (namespace_name namespace.entry))
            (namespace_name namespace.entry) written.entries)
            (namespace_name namespace.entry) (fault_of error)) }
    {
        refuse_attributes(alloc, &written)?;
        let mut written = written;
        let mut defs = Vec::with_capacity(alloc, written.len())?;
        let ty = unqualified.within(alloc, namespace)?;
        while let Some((id, declared)) = written.pop_last() {
            let uid = action_uid(&ty, id, declared.defn_loc)?;
            let fragment = ActionFragment::taken_over(alloc, namespace, declared)?;
            defs.push(ActionDef { uid, fragment })?;
        }
        defs.reverse();
        Ok(ActionsDef { defs })
    }
}

impl<N: TakenOver> ValidatorNamespaceDef<N, N> {
    /// The declarations of a definition that is written in the namespace, None being the empty
    /// one.
    pub(crate) fn taken_over(
        alloc: Global,
        namespace: Option<InternalName>,
        definition: NamespaceDefinition<RawName>,
        unqualified: &UnqualifiedActionType,
    ) -> Result<Self, SchemaError>
        ensures declarations { IfOk result (λ it. written_definition N N.refer it
            ≡ raw_declarations (option_map name_of namespace) definition) }
        ensures namespace { IfOk result (λ it.
            definition_namespace N N it ≡ option_map name_of namespace) }
        ensures common_types { IfOk result (λ it. definition_common_names N N it
            ≡ written_common_names (option_map name_of namespace) definition.common_types.entries) }
        ensures name { IfOk result (λ it.
            definition_name N N it ≡ option_map located_name namespace) }
        ensures loc { IfOk result (λ it. definition_loc N N it ≡ definition.loc) }
        ensures sound { OnOk result (AllByRecursion IsSound
            (raw_declarations (option_map name_of namespace) definition)) }
        ensures no_fault { OnOk result
            (HasNoDefinitionFault (raw_declarations (option_map name_of namespace) definition)) }
        ensures fault { IfErr result (λ error. (fault_of error ≡ out_of_memory)
            ⊎ IsDefinitionFault (raw_declarations (option_map name_of namespace) definition)
            (fault_of error)) }
        ensures all_named { IfErr result (λ error. NamesAllWithAttributes
            (raw_declarations (option_map name_of namespace) definition)
            (option_map name_of namespace) (fault_of error)) }
    {
        let NamespaceDefinition {
            common_types,
            entity_types,
            actions,
            loc,
        } = definition;
        let within = lend(&namespace);
        let common_types = CommonTypeDefs::taken_over(alloc, within, common_types)?;
        let entity_types = EntityTypesDef::taken_over(alloc, within, entity_types)?;
        let actions = ActionsDef::taken_over(alloc, within, actions, unqualified)?;
        Ok(ValidatorNamespaceDef {
            namespace,
            common_types,
            entity_types,
            actions,
            loc,
        })
    }
}

impl<N: TakenOver> ValidatorSchemaFragment<N, N> {
    /// The fragment, with one definition for each that is written, in order, be it empty. Actions
    /// that are declared in no namespace share the name of their type.
    pub(crate) fn taken_over(
        alloc: Global,
        fragment: Fragment<RawName>,
        unqualified: &UnqualifiedActionType,
    ) -> Result<Self, SchemaError>
        ensures declarations { IfOk result (λ it.
            written_fragment N N.refer it ≡ raw_fragment fragment) }
        ensures pairwise { IfOk result (λ it.
            written_pairwise N N.refer it ≡ raw_pairwise fragment) }
        ensures located { IfOk result (λ it.
            located_namespaces N N it ≡ raw_located_namespaces fragment) }
        ensures common_types { IfOk result (λ it.
            fragment_common_names N N it ≡ raw_common_names fragment) }
        ensures namespaces { IfOk result (λ it.
            named_namespaces N N it ≡ raw_namespaces fragment) }
        ensures sound { OnOk result (AllByRecursion IsSound (raw_fragment fragment)) }
        ensures no_fault { OnOk result (HasNoDefinitionFault (raw_fragment fragment)) }
        ensures fault { IfErr result (λ error. (fault_of error ≡ out_of_memory)
            ⊎ IsDefinitionFault (raw_fragment fragment) (fault_of error)) }
        ensures all_named { IfErr result (λ error.
            NamesAllOfADefinition (fragment ∷ []) (fault_of error)) }
    {
        let mut definitions = Vec::with_capacity(alloc, fragment.0.len())?;
        let mut named = fragment.0;
        while let Some((name, written)) = named.pop_last() {
            let namespace = internal_namespace(name);
            definitions.push(ValidatorNamespaceDef::taken_over(
                alloc,
                namespace,
                written,
                unqualified,
            )?)?;
        }
        definitions.reverse();
        Ok(ValidatorSchemaFragment { definitions })
    }
}

impl ValidatorSchemaFragment<RawName, RawName> {
    /// The fragment over the names that are written, with one definition for each that is written,
    /// in order, be it empty. What is written is moved, and no type is gone over. Actions that are
    /// declared in no namespace share the name of their type.
    ///
    /// It is refused with one of these kinds, also for external declarations:
    ///
    /// - `UnsupportedFeature`: an action is written with attributes; it names all such actions of
    ///   one definition, in order
    /// - `ActionEntityTypeDeclared`: an entity type has the id `Action`
    /// - `Memory`: memory ran out
    pub fn as_written(
        alloc: Global,
        fragment: Fragment<RawName>,
        unqualified: &UnqualifiedActionType,
    ) -> Result<Self, SchemaError>
        ensures declarations { IfOk result (λ it.
            written_fragment Raw raw_reference it ≡ raw_fragment fragment) }
        ensures common_types { IfOk result (λ it.
            fragment_common_names Raw Raw it ≡ raw_common_names fragment) }
        ensures namespaces { IfOk result (λ it.
            named_namespaces Raw Raw it ≡ raw_namespaces fragment) }
        ensures sound { OnOk result (AllByRecursion IsSound (raw_fragment fragment)) }
        ensures no_fault { OnOk result (HasNoDefinitionFault (raw_fragment fragment)) }
        ensures fault { IfErr result (λ error. (fault_of error ≡ out_of_memory)
            ⊎ IsDefinitionFault (raw_fragment fragment) (fault_of error)) }
        ensures all_named { IfErr result (λ error.
            NamesAllOfADefinition (fragment ∷ []) (fault_of error)) }
    {
        Self::taken_over(alloc, fragment, unqualified)
    }
}
