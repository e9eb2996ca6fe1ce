//! What the steps that entity types and actions have in common ask of an entity type.

ghost use Rattle.cedar_builder.specs.Words.{Entity, EntityBody, IsBodyFault, IsElaboratedEntity, IsSoundBody, IsTypeFault, NamesType, PlainName, entity_parents, entity_type_of, is_entity_definition, type_name, written_entity_body, written_namespace};
ghost use Rattle.cedar_schema_ast.specs.Reference.{Reference as PlainReference};

use crate::declared_node::DeclaredNode;
use crate::entity_type_kinds::elaborated_type;
use crate::named_type::named_type;
use crate::parents::HasParents;
use cedar_ast::{EntityType, M};
use cedar_elaboration::TypeScope;
use cedar_fragments::namespace::EntityTypeFragment;
use cedar_name_resolution::Written;
use cedar_name_resolution::defs::{AllDefs, WrittenName};
use cedar_schema_elements::ValidatorEntityType;
use cedar_schema_semantics::SchemaError;
use std::alloc::Global;

impl<N: WrittenName> HasParents<EntityType> for Written<EntityTypeFragment<N>> {
    type Parent = N;

    ghost Name = { PlainName };

    ghost key_name = { type_name };

    ghost Reference = { PlainReference };

    ghost reference_of = { λ it. N.refer (written_namespace it) Entity };

    ghost parents_of = { λ it. entity_parents (written_entity_body N N.refer it) };

    ghost Resolves = { NamesType };

    ghost Refuses = { IsTypeFault };

    fn parents(&self) -> &[N] {
        self.declared.parents()
    }

    fn parent_key(
        &self,
        alloc: Global,
        parent: &N,
        defs: &AllDefs,
    ) -> Result<EntityType, SchemaError> {
        named_type(alloc, parent, self.namespace(), defs)
    }

    fn copy_key(key: &EntityType) -> M<EntityType> {
        key.clone()
    }
}

impl<'a, N: WrittenName + Drop> DeclaredNode<
    EntityType,
    TypeScope<'a>,
    Written<EntityTypeFragment<N>>,
> for ValidatorEntityType {
    ghost Body = { EntityBody };

    ghost body_of = { written_entity_body N N.refer };

    ghost is_definition = { is_entity_definition };

    ghost Gives = { λ scope body node.
        IsElaboratedEntity scope (entity_type_of node).name body node };

    ghost IsSound = { IsSoundBody };

    ghost IsBodyFault = { λ scope key. IsBodyFault scope (type_name key) };

    fn declared(
        alloc: Global,
        name: EntityType,
        fragment: Written<EntityTypeFragment<N>>,
        scope: &TypeScope<'a>,
    ) -> Result<ValidatorEntityType, SchemaError> {
        let Written {
            namespace,
            declared,
        } = fragment;
        elaborated_type(alloc, name, declared, namespace.as_ref(), scope)
    }
}
