//! Keys known by numbers.

ghost use Rattle.std.specs.Prelude.{◌≡◌, ◌+◌, ℕ, vec_len, IfOk, OnOk, IfSome, None, slice_get};
ghost use Rattle.std.specs.HashMap.{get, keys, hash_map_len, IsUnique};
ghost use Rattle.cedar_graph.specs.Numbering.{IsNumbered, AreNumbers, KeepsNumbers};

use crate::tc_node::TCNode;
use cedar_ast::M;
use std::alloc::Global;
use std::collections::HashMap;
use std::hash::Hash;

/// Keys known by numbers: a key's number is its place among the names.
#[derive(Drop)]
pub(crate) struct Numbering<K: Eq + Hash> {
    /// The keys by their numbers.
    pub(crate) names: Vec<K>,
    /// The numbers by their keys.
    pub(crate) numbers: HashMap<K, usize>,
}

/// Gives the key the next number, which it answers.
fn add_number<K: Eq + Hash + Drop, V: TCNode<K>>(numbering: &mut Numbering<K>, key: &K) -> M<usize>
    requires numbers { AreNumbers K.eq numbering.old.names.items numbering.old.numbers }
    requires absent { get K.eq numbering.old.numbers key.now ≡ None }
    ensures numbers { OnOk result
        (AreNumbers K.eq numbering.new.names.items numbering.new.numbers) }
    ensures len { OnOk result (vec_len numbering.new.names ≡ vec_len numbering.old.names + 1) }
    ensures kept { OnOk result
        (KeepsNumbers K.eq numbering.old.names.items numbering.new.names.items) }
    ensures number { IfOk result (λ number. number ≡ vec_len numbering.old.names) }
    ensures numbered { IfOk result (λ number.
        IsNumbered K.eq numbering.new.names.items key.now number) }
{
    let number = numbering.names.len();
    let name = V::copy_key(key)?;
    let copy = V::copy_key(&name)?;
    numbering.numbers.insert(copy, number)?;
    numbering.names.push(name)?;
    Ok(number)
}

/// The number of the key, the next one if it has none yet.
pub(crate) fn number_of<K: Eq + Hash + Drop, V: TCNode<K>>(
    numbering: &mut Numbering<K>,
    key: &K,
) -> M<usize>
    requires { AreNumbers K.eq numbering.old.names.items numbering.old.numbers }
    ensures numbers { OnOk result
        (AreNumbers K.eq numbering.new.names.items numbering.new.numbers) }
    ensures kept { OnOk result
        (KeepsNumbers K.eq numbering.old.names.items numbering.new.names.items) }
    ensures numbered { IfOk result (λ number.
        IsNumbered K.eq numbering.new.names.items key.now number) }
{
    match numbering.numbers.get(key) {
        Some(number) => Ok(*number),
        None => add_number::<K, V>(numbering, key),
    }
}

/// The keys of the nodes, numbered in the order of the map.
pub(crate) fn numbered_keys<K: Eq + Hash + Drop, V: TCNode<K>>(
    alloc: Global,
    nodes: &HashMap<K, V>,
) -> M<Numbering<K>>
    ensures numbers { IfOk result (λ numbering.
        AreNumbers K.eq numbering.names.items numbering.numbers) }
    ensures unique { IsUnique K.eq nodes.now }
    ensures len { IfOk result (λ numbering. vec_len numbering.names ≡ hash_map_len nodes.now) }
    ensures in_order { IfOk result (λ numbering. (i : ℕ)
        → IfSome (slice_get (keys nodes.now) i) (λ key.
        IsNumbered K.eq numbering.names.items key i)) }
{
    let mut numbering = Numbering {
        names: Vec::with_capacity(alloc, nodes.len())?,
        numbers: HashMap::with_capacity(alloc, nodes.len())?,
    };
    for key in nodes.keys() {
        add_number::<K, V>(&mut numbering, key)?;
    }
    Ok(numbering)
}
