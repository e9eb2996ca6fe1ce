//! The closure of the edges of a map of nodes.

ghost use Rattle.std.specs.Prelude.{◌≡◌, ℕ, ◌*◌, ◌<◌, ◌≤◌, vec_len, IsTrue, IfOk, IfErr, OnOk};
ghost use Rattle.std.specs.HashMap.{get, keys, hash_map_len};
ghost use Rattle.cedar_graph.specs.Words.{AreAlike, HasEdge, IsNumbered, IsRefusal, IsTarget, ListHas, Reaches};

use crate::closing::closed_lists;
use crate::list_edges::add_all_edges;
use crate::numbering::{Numbering, numbered_keys};
use crate::ordering::number_on_cycle;
use crate::targets::all_targets;
use crate::tc_error::TcError;
use crate::tc_node::TCNode;
use std::alloc::Global;
use std::collections::HashMap;
use std::hash::Hash;

/// What chains of edges reach from each key of a map, by numbers.
#[derive(Drop)]
struct Closed<K> {
    /// The keys by their numbers.
    names: Vec<K>,
    /// The numbers that chains reach from each key of the map.
    lists: Vec<Vec<usize>>,
    /// How many lists were gone through for that.
    joins: u128,
}

/// What chains of edges reach from each key of the map. With `enforce_dag` a chain that leads back
/// is refused, before any is followed to its end.
fn closed_names<K: Eq + Hash + Drop, V: TCNode<K>>(
    alloc: Global,
    nodes: &HashMap<K, V>,
    enforce_dag: bool,
) -> Result<Closed<K>, TcError<K>>
    ensures few { IfOk result (λ closed. vec_len closed.lists ≤ vec_len closed.names) }
    ensures within { IfOk result (λ closed.
        (i j : ℕ) → IsTarget closed.lists.items i j → j < vec_len closed.names) }
    ensures single { IfOk result (λ closed.
        (key : K) (i j : ℕ) → IsNumbered K.eq closed.names.items key i
        → IsNumbered K.eq closed.names.items key j → i ≡ j) }
    ensures sound { IfOk result (λ closed.
        (from to : K) → ListHas K.eq closed.names.items closed.lists.items from to
        → Reaches K.eq V.has_edge nodes.now from to) }
    ensures complete { IfOk result (λ closed.
        (from to : K) → Reaches K.eq V.has_edge nodes.now from to
        → ListHas K.eq closed.names.items closed.lists.items from to) }
    ensures count { IfOk result (λ closed.
        closed.joins ≤ hash_map_len nodes.now * hash_map_len nodes.now) }
    ensures acyclic { OnOk result (IsTrue enforce_dag → (key : K)
        → ¬ Reaches K.eq V.has_edge nodes.now key key) }
    ensures fault { IfErr result (IsRefusal (Reaches K.eq V.has_edge nodes.now) enforce_dag) }
{
    let mut numbering = numbered_keys::<K, V>(alloc, nodes)?;
    let targets = all_targets(alloc, nodes, &mut numbering)?;
    if let Some(number) = number_on_cycle(alloc, &targets, enforce_dag)? {
        return Err(TcError::HasCycle(numbering.names.swap_remove(number)));
    }
    let (lists, joins) = closed_lists(alloc, &targets, numbering.names.len())?;
    let Numbering {
        names,
        numbers: _numbers,
    } = numbering;
    Ok(Closed {
        names,
        lists,
        joins,
    })
}

/// The closure of `compute_tc`, which answers how many lists of targets it went through, one for
/// each number whose own list was added to that of another: at most the square of the number of
/// keys.
///
/// With `enforce_dag` it is refused with `HasCycle` where some node reaches itself, whose key it
/// holds. The only other refusal is that memory ran out. After either, each old edge stands and
/// each new one is of the closure.
pub fn compute_tc_counted<K: Eq + Hash + Drop, V: TCNode<K>>(
    alloc: Global,
    nodes: &mut HashMap<K, V>,
    enforce_dag: bool,
) -> Result<u128, TcError<K>>
    ensures keys { keys nodes.new ≡ keys nodes.old }
    ensures alike { (key : K) → AreAlike V.is_alike (get K.eq nodes.old key)
        (get K.eq nodes.new key) }
    ensures old_stay { (from to : K) → HasEdge K.eq V.has_edge nodes.old from to
        → HasEdge K.eq V.has_edge nodes.new from to }
    ensures sound { (from to : K) → HasEdge K.eq V.has_edge nodes.new from to
        → Reaches K.eq V.has_edge nodes.old from to }
    ensures complete { OnOk result ((from to : K) → Reaches K.eq V.has_edge nodes.old from to
        → HasEdge K.eq V.has_edge nodes.new from to) }
    ensures acyclic { OnOk result (IsTrue enforce_dag → (key : K)
        → ¬ Reaches K.eq V.has_edge nodes.old key key) }
    ensures fault { IfErr result (IsRefusal (Reaches K.eq V.has_edge nodes.old) enforce_dag) }
    ensures count { IfOk result (λ joins. joins ≤ hash_map_len nodes.old * hash_map_len nodes.old) }
{
    let Closed {
        names,
        lists,
        joins,
    } = closed_names(alloc, nodes, enforce_dag)?;
    add_all_edges(nodes, &names, &lists)?;
    Ok(joins)
}

/// Gives each node an edge to each key that a chain of one or more edges reaches from it.
///
/// A node is known by its key in the map. An edge to a key that is not in the map leads no
/// further. Each node stays alike but for its edges. Of keys `Drop` is asked besides `Eq` and
/// `Hash`, since copies of them are let go.
///
/// With `enforce_dag` it is refused with `HasCycle` where some node reaches itself, whose key it
/// holds. The only other refusal is that memory ran out. After either, each old edge stands and
/// each new one is of the closure.
pub fn compute_tc<K: Eq + Hash + Drop, V: TCNode<K>>(
    alloc: Global,
    nodes: &mut HashMap<K, V>,
    enforce_dag: bool,
) -> Result<(), TcError<K>>
    ensures keys { keys nodes.new ≡ keys nodes.old }
    ensures alike { (key : K) → AreAlike V.is_alike (get K.eq nodes.old key)
        (get K.eq nodes.new key) }
    ensures old_stay { (from to : K) → HasEdge K.eq V.has_edge nodes.old from to
        → HasEdge K.eq V.has_edge nodes.new from to }
    ensures sound { (from to : K) → HasEdge K.eq V.has_edge nodes.new from to
        → Reaches K.eq V.has_edge nodes.old from to }
    ensures complete { OnOk result ((from to : K) → Reaches K.eq V.has_edge nodes.old from to
        → HasEdge K.eq V.has_edge nodes.new from to) }
    ensures acyclic { OnOk result (IsTrue enforce_dag → (key : K)
        → ¬ Reaches K.eq V.has_edge nodes.old key key) }
    ensures fault { IfErr result (IsRefusal (Reaches K.eq V.has_edge nodes.old) enforce_dag) }
{
    compute_tc_counted(alloc, nodes, enforce_dag)?;
    Ok(())
}
