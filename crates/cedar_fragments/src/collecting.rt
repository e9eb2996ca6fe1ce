//! How declarations are collected: moved out of fragments, in order.

ghost use Rattle.std.specs.Prelude.{◌≡◌, ◌++◌, [], IfOk};
ghost use Rattle.std.specs.Option.{option_map};
ghost use Rattle.cedar_fragments.specs.Words.{CollectsAlso, action_fragment_declarations, common_type_declarations, declared_actions, declared_common, declared_entities, entity_type_declarations, name_of, namespace_name, written_actions, written_bag, written_common, written_definition, written_entities, written_fragment, written_namespace};

use crate::declarations::{Declarations, DeclaredAction, DeclaredEntityType};
use crate::namespace::{
    ActionDef, ActionsDef, CommonTypeDef, CommonTypeDefs, EntityTypeDef, EntityTypesDef,
    ValidatorNamespaceDef, ValidatorSchemaFragment,
};
use cedar_ast::{InternalName, M};
use cedar_name_resolution::defs::WrittenName;
use cedar_name_resolution::{DeclaredCommonType, Written};
use std::alloc::Global;

/// The name of a namespace, shared, so that what is declared in it has it at a count.
fn shared_namespace(namespace: Option<&InternalName>) -> M<Option<InternalName>>
    ensures { IfOk result (λ it. option_map name_of it ≡ namespace_name namespace.entry) }
{
    match namespace {
        None => Ok(None),
        Some(name) => Ok(Some(name.clone()?.into_shared()?)),
    }
}

/// What is declared in a namespace.
fn written_in<D: Drop>(namespace: &Option<InternalName>, declared: D) -> M<Written<D>>
    ensures namespace { IfOk result (λ it.
        written_namespace it ≡ option_map name_of namespace.now) }
    ensures declared { IfOk result (λ it. it.declared ≡ declared) }
{
    let namespace = match namespace {
        None => None,
        Some(name) => Some(name.clone()?),
    };
    Ok(Written {
        namespace,
        declared,
    })
}

/// The common types, and then also those of a definition of a namespace.
fn add_common_types<N: WrittenName + Drop>(
    common_types: Vec<DeclaredCommonType<N>>,
    namespace: &Option<InternalName>,
    defs: CommonTypeDefs<N>,
) -> M<Vec<DeclaredCommonType<N>>>
    ensures { IfOk result (λ it. written_common N N.refer it.items
        ≡ written_common N N.refer common_types.items
        ++ declared_common
        (common_type_declarations N (N.refer (option_map name_of namespace.now)) defs)) }
{
    let mut common_types = common_types;
    for def in defs.into_defs() {
        let CommonTypeDef { name, ty } = def;
        let written = written_in(namespace, ty)?;
        common_types.push((name, written))?;
    }
    Ok(common_types)
}

/// The entity types, and then also those of a definition of a namespace.
fn add_entity_types<N: WrittenName + Drop>(
    entity_types: Vec<DeclaredEntityType<N>>,
    namespace: &Option<InternalName>,
    defs: EntityTypesDef<N>,
) -> M<Vec<DeclaredEntityType<N>>>
    ensures { IfOk result (λ it. written_entities N N.refer it.items
        ≡ written_entities N N.refer entity_types.items
        ++ declared_entities
        (entity_type_declarations N (N.refer (option_map name_of namespace.now)) defs)) }
{
    let alloc = *entity_types.allocator();
    let mut entity_types = entity_types;
    for def in defs.into_defs() {
        let EntityTypeDef { name, fragment } = def;
        let written = written_in(namespace, fragment)?;
        entity_types.push(Box::new(alloc, (name, written))?)?;
    }
    Ok(entity_types)
}

/// The actions, and then also those of a definition of a namespace.
fn add_actions<N: WrittenName + Drop>(
    actions: Vec<DeclaredAction<N>>,
    namespace: &Option<InternalName>,
    defs: ActionsDef<N, N>,
) -> M<Vec<DeclaredAction<N>>>
    ensures { IfOk result (λ it. written_actions N N.refer it.items
        ≡ written_actions N N.refer actions.items
        ++ declared_actions
        (action_fragment_declarations N (N.refer (option_map name_of namespace.now)) N
        (N.refer (option_map name_of namespace.now)) defs)) }
{
    let alloc = *actions.allocator();
    let mut actions = actions;
    for def in defs.into_defs() {
        let ActionDef { uid, fragment } = def;
        let written = written_in(namespace, fragment)?;
        actions.push(Box::new(alloc, (uid, written))?)?;
    }
    Ok(actions)
}

/// What was collected, and then also what a definition declares.
fn add_definition<N: WrittenName + Drop>(
    declared: Declarations<N>,
    definition: ValidatorNamespaceDef<N, N>,
) -> M<Declarations<N>>
    ensures { IfOk result (CollectsAlso N N.refer declared
        (written_definition N N.refer definition)) }
{
    let namespace = shared_namespace(definition.namespace())?;
    let (common, entities, of_actions) = definition.into_parts();
    let Declarations {
        common_types,
        entity_types,
        actions,
    } = declared;
    let common_types = add_common_types(common_types, &namespace, common)?;
    let entity_types = add_entity_types(entity_types, &namespace, entities)?;
    let actions = add_actions(actions, &namespace, of_actions)?;
    Ok(Declarations {
        common_types,
        entity_types,
        actions,
    })
}

/// What was collected, and then also what a fragment declares.
pub(crate) fn add_fragment<N: WrittenName + Drop>(
    declared: Declarations<N>,
    fragment: ValidatorSchemaFragment<N, N>,
) -> M<Declarations<N>>
    ensures { IfOk result (CollectsAlso N N.refer declared
        (written_fragment N N.refer fragment)) }
{
    let mut declared = declared;
    for definition in fragment.into_definitions() {
        declared = add_definition(declared, definition)?;
    }
    Ok(declared)
}

/// No declarations, with room for this many entity types and as many actions.
pub(crate) fn empty_with_room<N: Drop>(alloc: Global, room: usize) -> M<Declarations<N>>
    ensures common { IfOk result (λ it. it.common_types.items ≡ []) }
    ensures entities { IfOk result (λ it. it.entity_types.items ≡ []) }
    ensures actions { IfOk result (λ it. it.actions.items ≡ []) }
{
    Ok(Declarations {
        common_types: Vec::new(alloc),
        entity_types: Vec::with_capacity(alloc, room)?,
        actions: Vec::with_capacity(alloc, room)?,
    })
}
