//! Entity types and actions put under their names.

ghost use Rattle.std.specs.Prelude.{◌≡◌, Contains, IfOk};
ghost use Rattle.cedar_validation.specs.Words.{action_of, entity_type_of, get_by, is_eq, last_named, last_of_uid, last_that, name_cmp, type_name, uid_cmp, uid_of};
ghost use Rattle.cedar_schema_elements.specs.declared.action_id.ValidatorActionId.{ValidatorActionId as ActionOfSchema};
ghost use Rattle.cedar_ast.specs.declared.entity_type.EntityType.{EntityType as Name};
ghost use Rattle.cedar_ast.specs.declared.entity_uid.EntityUID.{EntityUID as Uid};
ghost use Rattle.cedar_schema_elements.specs.ValidatorActionId as action_specs;
ghost use Rattle.cedar_schema_elements.specs.ValidatorEntityType as type_specs;
ghost use Rattle.cedar_schema_elements.specs.declared.entity_type.ValidatorEntityType.{ValidatorEntityType as EntityTypeOfSchema};

use crate::parts::{Actions, Types};
use cedar_ast::{EntityType, EntityUID, M, QuickHash};
use cedar_schema_elements::{SchemaNode, ValidatorActionId, ValidatorEntityType};
use cedar_table::Table;
use std::alloc::Global;
use std::collections::BTreeMap;
use std::hash::Hash;

/// The nodes, each under its name, located as in the node; of those of one name the last. Out of
/// memory is the only refusal.
fn by_name<K: Ord + Hash + QuickHash + Drop, V: SchemaNode<K> + Drop>(
    alloc: Global,
    nodes: Vec<V>,
) -> M<Table<K, V>>
    ensures last { IfOk result (λ named. (name : K)
        → get_by (λ key. V.name_order (V.key_name name) (V.key_name key)) named
        ≡ last_that (λ it. is_eq (V.name_order (V.key_name name) (V.node_name it))) nodes.items) }
    ensures under_names { IfOk result (λ named. (it : K × V) → Contains named.entries it
        → V.node_name it.1 ≡ V.key_name it.0) }
    ensures located { IfOk result (λ named.
        (it : K × V) → Contains named.entries it → V.IsLocatedAs it.0 it.1) }
{
    let mut named = BTreeMap::new(alloc);
    for node in nodes {
        let name = V::copy_name(node.name())?;
        // A map keeps the key that it has, so that of an earlier one goes first.
        let _earlier = named.remove(&name);
        named.insert(name, node)?;
    }
    Ok(Table::from_map(alloc, named)?)
}

/// The entity types, each under its name; of those of one name the last. Out of memory is the
/// only refusal.
pub fn types_by_name(alloc: Global, types: Vec<ValidatorEntityType>) -> M<Types>
    ensures last { IfOk result (λ named.
        (name : Name) → get_by (λ key. name_cmp (type_name name) (type_name key)) named
        ≡ last_named (type_name name) types.items) }
    ensures under_names { IfOk result (λ named.
        (it : Name × EntityTypeOfSchema) → Contains named.entries it
        → (entity_type_of it.1).name ≡ type_name it.0) }
    ensures located { IfOk result (λ named. type_specs.AreLocatedAsKeys named.entries) }
{
    by_name::<EntityType, ValidatorEntityType>(alloc, types)
}

/// The actions, each under its uid; of those of one uid the last. Out of memory is the only
/// refusal.
pub fn actions_by_uid(alloc: Global, actions: Vec<ValidatorActionId>) -> M<Actions>
    ensures last { IfOk result (λ named.
        (uid : Uid) → get_by (λ key. uid_cmp (uid_of uid) (uid_of key)) named
        ≡ last_of_uid (uid_of uid) actions.items) }
    ensures under_uids { IfOk result (λ named.
        (it : Uid × ActionOfSchema) → Contains named.entries it
        → (action_of it.1).uid ≡ uid_of it.0) }
    ensures located { IfOk result (λ named. action_specs.AreLocatedAsKeys named.entries) }
{
    by_name::<EntityUID, ValidatorActionId>(alloc, actions)
}
