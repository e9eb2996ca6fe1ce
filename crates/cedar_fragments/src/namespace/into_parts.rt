//! Fragments and definitions taken apart, so that what they declare can be moved out of them.

ghost use Rattle.std.specs.Prelude.{◌≡◌, ◌++◌, map};
ghost use Rattle.cedar_fragments.specs.Words.{Reference, action_fragment_declaration, action_fragment_declarations, common_type_declaration, common_type_declarations, definition_declarations, entity_type_declaration, entity_type_declarations, fragment_definitions};
ghost use Rattle.cedar_schema_ast.specs.declared.json_schema.reference_type.ReferenceType.{ReferenceType as Kind};

use crate::namespace::action_def::ActionDef;
use crate::namespace::actions::ActionsDef;
use crate::namespace::common_types::{CommonTypeDef, CommonTypeDefs};
use crate::namespace::definition::ValidatorNamespaceDef;
use crate::namespace::entity_type_def::EntityTypeDef;
use crate::namespace::entity_types::EntityTypesDef;
use crate::namespace::fragment::ValidatorSchemaFragment;

impl<N, A> ValidatorSchemaFragment<N, A> {
    /// The definitions, in order.
    pub fn into_definitions(self) -> Vec<ValidatorNamespaceDef<N, A>>
        ensures { result.items ≡ fragment_definitions N A self }
    {
        self.definitions
    }
}

impl<N, A> ValidatorNamespaceDef<N, A> {
    /// The common types, the entity types and the actions that are declared.
    pub fn into_parts(self) -> (CommonTypeDefs<N>, EntityTypesDef<N>, ActionsDef<N, A>)
        ensures { (refer : Kind → N → Reference) (refer_action : Kind → A → Reference)
            → definition_declarations N refer A refer_action self
            ≡ common_type_declarations N refer result.0
            ++ entity_type_declarations N refer result.1
            ++ action_fragment_declarations N refer A refer_action result.2 }
    {
        let ValidatorNamespaceDef {
            common_types,
            entity_types,
            actions,
            ..
        } = self;
        (common_types, entity_types, actions)
    }
}

impl<N> CommonTypeDefs<N> {
    /// The common types, in order.
    pub fn into_defs(self) -> Vec<CommonTypeDef<N>>
        ensures { (refer : Kind → N → Reference)
            → common_type_declarations N refer self
            ≡ map (common_type_declaration N refer) result.items }
    {
        self.defs
    }
}

impl<N> EntityTypesDef<N> {
    /// The entity types, in order.
    pub fn into_defs(self) -> Vec<EntityTypeDef<N>>
        ensures { (refer : Kind → N → Reference)
            → entity_type_declarations N refer self
            ≡ map (entity_type_declaration N refer) result.items }
    {
        self.defs
    }
}

impl<N, A> ActionsDef<N, A> {
    /// The actions, in order.
    pub fn into_defs(self) -> Vec<ActionDef<N, A>>
        ensures { (refer : Kind → N → Reference) (refer_action : Kind → A → Reference)
            → action_fragment_declarations N refer A refer_action self
            ≡ map (action_fragment_declaration N refer A refer_action) result.items }
    {
        self.defs
    }
}
