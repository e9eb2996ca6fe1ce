//! Whether a schema is complete, and what it lacks.

ghost use Rattle.std.specs.Fmt.{WritesOnOk};
ghost use Rattle.std.specs.Prelude.{◌≡◌, [], IfErr, IfOk, OnOk, Some, map};
ghost use Rattle.std.specs.List.{flat_map};
ghost use Rattle.std.specs.List.Sorted.{IsPermutation, IsSorted};
ghost use Rattle.cedar_queries.specs.Words.{IsIncomplete, complete_error_text, external_action_text, external_type_text, incomplete_text, loc_of_first, type_name, uid_of, unresolved, values_where};

use crate::descent::{Actions, EntityTypes};
use crate::selected::{SelectedEntries, Test};
use crate::tests_of_values::IsExternal;
use crate::unresolved::{UnresolvedDeclaration, is_complete, unresolved_declarations};
use cedar_ast::{EntityType, EntityUID, Loc, M, Memory, QuickHash};
use cedar_schema_elements::SchemaNode;
use cedar_table::Table;
use itertools::Itertools;
use std::alloc::Global;
use std::error::Error;
use std::fmt;
use std::hash::Hash;

/// A schema lacks the definitions of what it declares to be external.
#[derive(Debug, Drop)]
pub struct IncompleteSchemaError {
    /// The external entity types, in order.
    pub entity_types: Vec<EntityType>,
    /// The external actions, in order.
    pub actions: Vec<EntityUID>,
    /// Where the first of the entity types, or else the first of the actions, was declared, if that
    /// is known.
    pub loc: Option<Loc>,
}

impl Error for IncompleteSchemaError {}

/// Writes of each entity type that it is external, with `; ` before it.
fn write_types<W: fmt::Write>(types: &[EntityType], f: &mut fmt::Formatter<W>) -> fmt::Result
    ensures { WritesOnOk W.write_str_gives f.old result
        (flat_map external_type_text (map type_name types.now)) f.new }
{
    for ty in types {
        write!(f, "; the entity type {ty} is external")?;
    }
    Ok(())
}

/// Writes of each action that it is external, with `; ` before it.
fn write_actions<W: fmt::Write>(actions: &[EntityUID], f: &mut fmt::Formatter<W>) -> fmt::Result
    ensures { WritesOnOk W.write_str_gives f.old result
        (flat_map external_action_text (map uid_of actions.now)) f.new }
{
    for uid in actions {
        write!(f, "; the action {uid} is external")?;
    }
    Ok(())
}

/// Prints all external entity types and then all external actions, in order, as
/// `the schema is incomplete; the entity type U is external; the action Action::"view" is
/// external`.
impl fmt::Display for IncompleteSchemaError {
    ghost output = { λ error. Some
        (incomplete_text (map type_name error.entity_types.items)
        (map uid_of error.actions.items)) };

    fn fmt<W: fmt::Write>(&self, f: &mut fmt::Formatter<W>) -> fmt::Result {
        f.write_str("the schema is incomplete")?;
        write_types(self.entity_types.as_slice(), f)?;
        write_actions(self.actions.as_slice(), f)
    }
}

/// Why a schema wasn't found complete.
#[derive(Debug, Drop)]
pub enum CompleteError {
    /// It isn't.
    Incomplete(IncompleteSchemaError),
    /// A growth was refused.
    Memory(Memory),
}

impl Error for CompleteError {}

impl fmt::Display for CompleteError {
    ghost output = { λ error. Some (complete_error_text error) };

    fn fmt<W: fmt::Write>(&self, f: &mut fmt::Formatter<W>) -> fmt::Result {
        match self {
            CompleteError::Incomplete(error) => error.fmt(f),
            CompleteError::Memory(_) => f.write_str("out of memory"),
        }
    }
}

impl From<Memory> for CompleteError {
    ghost use Rattle.cedar_queries.specs.declared.completeness.CompleteError.TheVariants.{Memory as MemoryFault};

    ghost from_gives = { λ memory e. e ≡ MemoryFault memory };

    fn from(memory: Memory) -> Self {
        CompleteError::Memory(memory)
    }
}

/// References to the names of those nodes that pass a test.
fn selected_names<K: Ord + Hash + QuickHash, V: SchemaNode<K>, T: Test<V>>(
    alloc: Global,
    nodes: &Table<K, V>,
    test: T,
) -> M<Vec<&K>>
    ensures { IfOk result (λ names. map (λ name. V.key_name name.now) names.items
        ≡ map V.node_name (values_where (T.holds test) nodes.now.entries)) }
{
    let mut names = Vec::new(alloc);
    for (_, node) in SelectedEntries::new(nodes, test) {
        names.push(node.name())?;
    }
    Ok(names)
}

/// The same references in the order of what they refer to.
fn in_order<'a, T: Ord>(references: Vec<&'a T>) -> M<Vec<&'a T>>
    ensures permutation { IfOk result (λ sorted.
        IsPermutation references.entry.items sorted.items) }
    ensures sorted { IfOk result (λ sorted. IsSorted (λ a b. T.cmp a.now b.now) sorted.items) }
{
    let alloc = *references.allocator();
    Ok(references.into_iter().sorted(alloc)?.collect_vec(alloc)?)
}

/// The names of those nodes that pass a test, in order.
fn names_in_order<K: Ord + Hash + QuickHash + Drop, V: SchemaNode<K>, T: Test<V>>(
    alloc: Global,
    nodes: &Table<K, V>,
    test: T,
) -> M<Vec<K>>
    ensures names { IfOk result (λ names. IsPermutation
        (map V.node_name (values_where (T.holds test) nodes.now.entries))
        (map V.key_name names.items)) }
    ensures sorted { IfOk result (λ names. IsSorted V.name_order (map V.key_name names.items)) }
{
    let mut names = Vec::new(alloc);
    for name in &in_order(selected_names(alloc, nodes, test)?)? {
        names.push(V::copy_name(*name)?)?;
    }
    Ok(names)
}

/// Where the first external entity type was declared, or else the first external action.
fn first_loc(types: &EntityTypes, actions: &Actions) -> Option<Loc>
    ensures { result ≡ loc_of_first (unresolved types.now.entries actions.now.entries) }
{
    match unresolved_declarations(types, actions).next()? {
        UnresolvedDeclaration::EntityType(ty) => ty.loc,
        UnresolvedDeclaration::Action(action) => action.loc(),
    }
}

/// That nothing is declared elsewhere; else the error carries what is, in order, with the location
/// of the first. Or out of memory.
pub fn check_complete(
    alloc: Global,
    types: &EntityTypes,
    actions: &Actions,
) -> Result<(), CompleteError>
    ensures complete { OnOk result (unresolved types.now.entries actions.now.entries ≡ []) }
    ensures incomplete { IfErr result (IsIncomplete types.now.entries actions.now.entries) }
{
    if is_complete(types, actions) {
        return Ok(());
    }
    Err(CompleteError::Incomplete(IncompleteSchemaError {
        entity_types: names_in_order(alloc, types, IsExternal)?,
        actions: names_in_order(alloc, actions, IsExternal)?,
        loc: first_loc(types, actions),
    }))
}
