//! The declarations of a name, put together and collected in a table under that name.

ghost use Rattle.std.specs.Prelude.{◌≡◌, ◌≢◌, ◌⊎◌, ◌↔◌, Bool, Contains, IfErr, IfOk, OnOk, false, length, map, zip};
ghost use Rattle.std.specs.List.Sorted.{IsStrictlySortedBy};
ghost use Rattle.cedar_builder.specs.Words.{AreInOrder, AreLocated, Fault, IsCollectedAt, IsCollectingFault, IsDefinedAt, IsPut, NoneAbove, Twice, at_key, defined_in, fault_of, named, out_of_memory};

use cedar_ast::QuickHash;
use cedar_schema_elements::SchemaNode;
use cedar_schema_semantics::SchemaError;
use cedar_table::{Table, TableKeys};
use std::alloc::Global;
use std::hash::Hash;

/// An entity type or an action as a declaration gives it, over a scope.
///
/// The ghost members are what contracts speak of: what a fragment declares, whether that is a
/// definition, what a declaration gives, whether one is sound, and why one is refused.
pub(crate) trait DeclaredNode<K: Ord + Hash, S, F: Drop>: SchemaNode<K> {
    ghost Body: { Type 0 };

    ghost body_of: { F → Body };

    ghost is_definition: { Body → Bool };

    ghost Gives: { S → Body → Self → Type 0 };

    ghost IsSound: { S → Body → Type 0 };

    ghost IsBodyFault: { S → K → Body → Fault → Type 0 };

    /// What a declaration of the name gives.
    fn declared(alloc: Global, name: K, fragment: F, scope: &S) -> Result<Self, SchemaError>
        ensures name { IfOk result (λ node. Self.node_name node ≡ Self.key_name name) }
        ensures gives { IfOk result (λ node. Gives scope.now (body_of fragment) node) }
        ensures external { IfOk result (λ node.
            Self.IsExternal node ↔ (is_definition (body_of fragment) ≡ false)) }
        ensures sound { OnOk result (IsSound scope.now (body_of fragment)) }
        ensures fault { IfErr result (λ error.
            IsBodyFault scope.now name (body_of fragment) (fault_of error)) };
}

/// Puts a node under its name behind others, whose keys are in order, none above that name. An
/// external one changes nothing where one stands; any other replaces an external one, and is
/// refused where a definition stands.
fn put_node<K: Ord + Hash + Drop, V: SchemaNode<K> + Drop>(
    keys: &mut Vec<K>,
    nodes: &mut Vec<V>,
    node: V,
) -> Result<(), SchemaError>
    requires columns { length nodes.old.items ≡ length keys.old.items }
    requires sorted { IsStrictlySortedBy K.cmp keys.old.items }
    requires behind { (name : K) → V.key_name name ≡ V.node_name node
        → NoneAbove K.cmp keys.old.items name }
    ensures columns { OnOk result (length nodes.new.items ≡ length keys.new.items) }
    ensures sorted { OnOk result (IsStrictlySortedBy K.cmp keys.new.items) }
    ensures keys { OnOk result ((key : K) → Contains keys.new.items key
        → Contains keys.old.items key ⊎ (V.key_name key ≡ V.node_name node)) }
    ensures other { OnOk result ((key : K) → V.key_name key ≢ V.node_name node
        → at_key K.eq (zip keys.new.items nodes.new.items) key
        ≡ at_key K.eq (zip keys.old.items nodes.old.items) key) }
    ensures put { OnOk result ((key : K) → V.key_name key ≡ V.node_name node
        → IsPut V.IsExternal node (at_key K.eq (zip keys.old.items nodes.old.items) key)
        (at_key K.eq (zip keys.new.items nodes.new.items) key)) }
    ensures located { OnOk result (AreLocated V.IsLocatedAs (zip keys.old.items nodes.old.items)
        → AreLocated V.IsLocatedAs (zip keys.new.items nodes.new.items)) }
    ensures fault { IfErr result (λ error. (fault_of error ≡ out_of_memory)
        ⊎ ((fault_of error ≡ V.duplicate_fault (V.node_name node)) × (¬ V.IsExternal node)
        × ((key : K) × (V.key_name key ≡ V.node_name node)
        × IsDefinedAt V.IsExternal (at_key K.eq (zip keys.old.items nodes.old.items) key)))) }
{
    let name = V::copy_name(node.name())?;
    if let (Some(last), Some(old)) = (keys.last(), nodes.last()) {
        if *last == name {
            if node.is_external() {
                return Ok(());
            }
            if !old.is_external() {
                return Err(V::duplicate(name));
            }
            // The key of an external declaration says where that one stands, so it goes too.
            let _external = (keys.pop(), nodes.pop());
        }
    }
    keys.push(name)?;
    nodes.push(node)?;
    Ok(())
}

/// What is declared, as [`collected_nodes`] has it, where no name is above one behind it.
fn collected_in_order<
    K: Ord + Hash + QuickHash + Drop,
    S,
    F: Drop,
    V: DeclaredNode<K, S, F> + Drop,
>(alloc: Global, declared: Vec<Box<(K, F)>>, scope: &S) -> Result<Table<K, V>, SchemaError>
    requires { AreInOrder K.cmp declared.items }
    ensures collected { IfOk result (λ nodes.
        (key : K) → IsCollectedAt V.is_definition V.IsExternal V.node_name (V.Gives scope.now)
        (map (named V.key_name V.body_of) declared.items) (V.key_name key)
        (at_key K.eq nodes.entries key)) }
    ensures once { OnOk result ((name : V.Name)
        → ¬ Twice (defined_in V.is_definition
        (map (named V.key_name V.body_of) declared.items)) name) }
    ensures sound { OnOk result ((name : V.Name) (body : V.Body)
        → Contains (map (named V.key_name V.body_of) declared.items) (name, body)
        → V.IsSound scope.now body) }
    ensures located { IfOk result (λ nodes. AreLocated V.IsLocatedAs nodes.entries) }
    ensures fault { IfErr result (λ error.
        IsCollectingFault V.is_definition V.key_name (V.IsBodyFault scope.now) V.duplicate_fault
        (map (named V.key_name V.body_of) declared.items) (fault_of error)) }
{
    let mut keys = Vec::with_capacity(alloc, declared.len())?;
    let mut nodes = Vec::with_capacity(alloc, declared.len())?;
    for item in declared {
        let (name, fragment) = Box::into_inner(item);
        let node = V::declared(alloc, name, fragment, scope)?;
        put_node::<K, V>(&mut keys, &mut nodes, node)?;
    }
    Ok(Table::from_parts(TableKeys::of(alloc, keys)?, nodes))
}

/// What is declared, each under its name: what its definition says, or what is external where there
/// is none.
pub(crate) fn collected_nodes<
    K: Ord + Hash + QuickHash + Drop,
    S,
    F: Drop,
    V: DeclaredNode<K, S, F> + Drop,
>(alloc: Global, declared: Vec<Box<(K, F)>>, scope: &S) -> Result<Table<K, V>, SchemaError>
    ensures collected { IfOk result (λ nodes.
        (key : K) → IsCollectedAt V.is_definition V.IsExternal V.node_name (V.Gives scope.now)
        (map (named V.key_name V.body_of) declared.items) (V.key_name key)
        (at_key K.eq nodes.entries key)) }
    ensures once { OnOk result ((name : V.Name)
        → ¬ Twice (defined_in V.is_definition
        (map (named V.key_name V.body_of) declared.items)) name) }
    ensures sound { OnOk result ((name : V.Name) (body : V.Body)
        → Contains (map (named V.key_name V.body_of) declared.items) (name, body)
        → V.IsSound scope.now body) }
    ensures located { IfOk result (λ nodes. AreLocated V.IsLocatedAs nodes.entries) }
    ensures fault { IfErr result (λ error.
        IsCollectingFault V.is_definition V.key_name (V.IsBodyFault scope.now) V.duplicate_fault
        (map (named V.key_name V.body_of) declared.items) (fault_of error)) }
{
    let mut declared = declared;
    declared.sort_by(|a, b| a.0.cmp(&b.0))?;
    collected_in_order::<K, S, F, V>(alloc, declared, scope)
}
