//! Definitions of namespaces, and fragments, over names that aren't resolved yet become those over
//! full names.

ghost use Rattle.std.specs.Prelude.{◌≡◌, IfOk, IfErr, OnOk};
ghost use Rattle.cedar_ast.specs.declared.entity_type.EntityType.{EntityType as ActionEntityType};
ghost use Rattle.cedar_ast.specs.declared.internal_name.InternalName.{InternalName as Full};
ghost use Rattle.cedar_fragments.specs.Words.{HoldsPairwise, IsRequested, IsUnresolvableBag, NoneIsReserved, ResolvesBag, conditional_definition, conditional_fragment, conditional_pairwise, definition_common_names, definition_loc, definition_locs, definition_name, definition_namespace, fault_of, fragment_common_names, held_names, located_namespaces, locs_pairwise, no_locs, resolved_definition, resolved_fragment, resolved_in_turn, written_definition, written_fragment, written_pairwise};
ghost use Rattle.cedar_schema_ast.specs.declared.json_schema.conditional_name.ConditionalName.{ConditionalName as Conditional};

use crate::namespace::definition::{ValidatorNamespaceDef, lend};
use crate::namespace::fragment::ValidatorSchemaFragment;
use cedar_ast::{EntityType, InternalName};
use cedar_name_resolution::defs::{AllDefs, WrittenName};
use cedar_schema_ast::json_schema::ConditionalName;
use cedar_schema_semantics::SchemaError;

impl<N: WrittenName + Drop> ValidatorNamespaceDef<N, N> {
    /// The same definition, where each name that is written in its namespace is that of what it
    /// resolves to.
    pub(crate) fn qualify_within(
        self,
        all_defs: &AllDefs,
    ) -> Result<ValidatorNamespaceDef<InternalName, EntityType>, SchemaError>
        ensures resolved { IfOk result (λ it.
            ResolvesBag (held_names all_defs.now) (written_definition N N.refer self)
            (resolved_definition it)) }
        ensures name { IfOk result (λ it.
            definition_name Full ActionEntityType it ≡ definition_name N N self) }
        ensures loc { IfOk result (λ it.
            definition_loc Full ActionEntityType it ≡ definition_loc N N self) }
        ensures common_types { IfOk result (λ it.
            definition_common_names Full ActionEntityType it ≡ definition_common_names N N self) }
        ensures locs { IfOk result (λ it. definition_locs Full no_locs ActionEntityType no_locs it
            ≡ definition_locs N no_locs N no_locs self) }
        ensures unreserved { OnOk result (NoneIsReserved (held_names all_defs.now)
            (IsRequested (written_definition N N.refer self))) }
        ensures fault { IfErr result (λ error.
            IsUnresolvableBag (held_names all_defs.now) (written_definition N N.refer self)
            (fault_of error)) }
    {
        let ValidatorNamespaceDef {
            namespace,
            common_types,
            entity_types,
            actions,
            loc,
        } = self;
        let within = lend(&namespace);
        let common_types = common_types.qualify_within(within, all_defs)?;
        let entity_types = entity_types.qualify_within(within, all_defs)?;
        let actions = actions.qualify_within(within, all_defs)?;
        Ok(ValidatorNamespaceDef {
            namespace,
            common_types,
            entity_types,
            actions,
            loc,
        })
    }
}

impl ValidatorNamespaceDef<ConditionalName, ConditionalName> {
    /// The same definition, where each name is that of what it resolves to.
    ///
    /// It is refused with one of these kinds:
    ///
    /// - `ActionNotDefined`: a parent of an action names no action
    /// - `TypeNotDefined`: another name resolves to nothing
    /// - `ReservedName`: a principal or a resource resolves to a reserved name
    /// - `Memory`: memory ran out
    pub fn fully_qualify_type_references(
        self,
        all_defs: &AllDefs,
    ) -> Result<ValidatorNamespaceDef<InternalName, EntityType>, SchemaError>
        ensures resolved { IfOk result (λ it.
            ResolvesBag (held_names all_defs.now) (conditional_definition self)
            (resolved_definition it)) }
        ensures namespace { IfOk result (λ it.
            definition_namespace Full ActionEntityType it
            ≡ definition_namespace Conditional Conditional self) }
        ensures name { IfOk result (λ it.
            definition_name Full ActionEntityType it
            ≡ definition_name Conditional Conditional self) }
        ensures loc { IfOk result (λ it.
            definition_loc Full ActionEntityType it ≡ definition_loc Conditional Conditional self) }
        ensures locs { IfOk result (λ it. definition_locs Full no_locs ActionEntityType no_locs it
            ≡ definition_locs Conditional no_locs Conditional no_locs self) }
        ensures unreserved { OnOk result
            (NoneIsReserved (held_names all_defs.now) (IsRequested (conditional_definition self))) }
        ensures fault { IfErr result (λ error.
            IsUnresolvableBag (held_names all_defs.now) (conditional_definition self)
            (fault_of error)) }
    {
        self.qualify_within(all_defs)
    }
}

impl<N: WrittenName + Drop> ValidatorSchemaFragment<N, N> {
    /// The same fragment, where each name that is written in the namespace of its definition is
    /// that of what it resolves to: one definition for each, in order, of the same namespace, be
    /// it empty.
    ///
    /// It is refused with one of these kinds:
    ///
    /// - `ActionNotDefined`: a parent of an action names no action
    /// - `TypeNotDefined`: another name resolves to nothing
    /// - `ReservedName`: a principal or a resource resolves to a reserved name
    /// - `Memory`: memory ran out
    pub fn qualify_within(
        self,
        all_defs: &AllDefs,
    ) -> Result<ValidatorSchemaFragment<InternalName, EntityType>, SchemaError>
        ensures resolved { IfOk result (λ it.
            ResolvesBag (held_names all_defs.now) (written_fragment N N.refer self)
            (resolved_fragment it)) }
        ensures pairwise { IfOk result (λ it.
            HoldsPairwise (ResolvesBag (held_names all_defs.now))
            (written_pairwise N N.refer self) (resolved_in_turn it)) }
        ensures located { IfOk result (λ it.
            located_namespaces Full ActionEntityType it ≡ located_namespaces N N self) }
        ensures common_types { IfOk result (λ it.
            fragment_common_names Full ActionEntityType it ≡ fragment_common_names N N self) }
        ensures locs { IfOk result (λ it.
            locs_pairwise Full ActionEntityType it ≡ locs_pairwise N N self) }
        ensures unreserved { OnOk result (NoneIsReserved (held_names all_defs.now)
            (IsRequested (written_fragment N N.refer self))) }
        ensures fault { IfErr result (λ error.
            IsUnresolvableBag (held_names all_defs.now) (written_fragment N N.refer self)
            (fault_of error)) }
    {
        let mut definitions = Vec::with_capacity(all_defs.alloc, self.definitions.len())?;
        for definition in self.definitions {
            definitions.push(definition.qualify_within(all_defs)?)?;
        }
        Ok(ValidatorSchemaFragment { definitions })
    }
}

impl ValidatorSchemaFragment<ConditionalName, ConditionalName> {
    /// The same fragment, where each name is that of what it resolves to: one definition for
    /// each, in order, of the same namespace, be it empty.
    ///
    /// It is refused with one of these kinds:
    ///
    /// - `ActionNotDefined`: a parent of an action names no action
    /// - `TypeNotDefined`: another name resolves to nothing
    /// - `ReservedName`: a principal or a resource resolves to a reserved name
    /// - `Memory`: memory ran out
    pub fn fully_qualify_type_references(
        self,
        all_defs: &AllDefs,
    ) -> Result<ValidatorSchemaFragment<InternalName, EntityType>, SchemaError>
        ensures resolved { IfOk result (λ it.
            ResolvesBag (held_names all_defs.now) (conditional_fragment self)
            (resolved_fragment it)) }
        ensures pairwise { IfOk result (λ it.
            HoldsPairwise (ResolvesBag (held_names all_defs.now)) (conditional_pairwise self)
            (resolved_in_turn it)) }
        ensures located { IfOk result (λ it.
            located_namespaces Full ActionEntityType it
            ≡ located_namespaces Conditional Conditional self) }
        ensures locs { IfOk result (λ it.
            locs_pairwise Full ActionEntityType it ≡ locs_pairwise Conditional Conditional self) }
        ensures unreserved { OnOk result
            (NoneIsReserved (held_names all_defs.now) (IsRequested (conditional_fragment self))) }
        ensures fault { IfErr result (λ error.
            IsUnresolvableBag (held_names all_defs.now) (conditional_fragment self)
            (fault_of error)) }
    {
        self.qualify_within(all_defs)
    }
}
