//! Parents of entity types and of actions, as they are written.

ghost use Rattle.std.specs.Prelude.{◌≡◌, ◌↔◌, Contains, IfErr, IfOk, OnOk, Option, map};
ghost use Rattle.std.specs.Map.{keys_of};
ghost use Rattle.cedar_schema_writer.specs.Words.{IsAncestor, Names, NamesNoOther, NamesNoOtherAction, PlainName, PlainUid, Refuses, known_names, plain_namespace, raw_name, type_name, uid_of, written_uid};

use crate::known::Known;
use crate::write_back_fault::WriteBackFault;
use cedar_ast::{EntityType, EntityUID, Name, QuickHash};
use cedar_schema_ast::json_schema::{ActionEntityUID, RawName};
use cedar_schema_elements::{Ancestors, SchemaNode};
use cedar_table::Table;
use std::collections::BTreeSet;
use std::hash::Hash;

/// A key of a hierarchy that can be written as a parent.
///
/// The ghost members are what contracts speak of: what a key and a written parent stand for, and
/// whether what is written in full in a namespace names no other there.
pub(crate) trait WrittenKey<P>: Ord {
    ghost Named: { Type 0 };

    ghost named: { Self → Named };

    ghost written: { P → Named };

    ghost IsUnambiguous: { Names → Option PlainName → Named → Type 0 };

    /// The key in full, as it is written in the namespace.
    fn write(&self, known: &Known, namespace: &Option<Name>) -> Result<P, WriteBackFault>
        ensures name { IfOk result (λ parent. written parent ≡ named self.now) }
        ensures no_other { OnOk result
            (IsUnambiguous (known_names known.now) (plain_namespace namespace.now)
            (named self.now)) }
        ensures refusal { IfErr result (Refuses
            (¬ IsUnambiguous (known_names known.now) (plain_namespace namespace.now)
            (named self.now))) };
}

impl WrittenKey<RawName> for EntityType {
    ghost Named = { PlainName };

    ghost named = { type_name };

    ghost written = { raw_name };

    ghost IsUnambiguous = { NamesNoOther };

    fn write(&self, known: &Known, namespace: &Option<Name>) -> Result<RawName, WriteBackFault> {
        known.write_name(namespace, self)
    }
}

impl WrittenKey<ActionEntityUID<RawName>> for EntityUID {
    ghost Named = { PlainUid };

    ghost named = { uid_of };

    ghost written = { written_uid };

    ghost IsUnambiguous = { NamesNoOtherAction };

    fn write(
        &self,
        known: &Known,
        namespace: &Option<Name>,
    ) -> Result<ActionEntityUID<RawName>, WriteBackFault> {
        known.write_uid(namespace, self)
    }
}

/// Some keys in full, in their order, as they are written in the namespace.
fn write_keys<K: WrittenKey<P>, P: Drop>(
    known: &Known,
    namespace: &Option<Name>,
    keys: &BTreeSet<K>,
) -> Result<Vec<P>, WriteBackFault>
    ensures names { IfOk result (λ parents.
        map K.written parents.items ≡ map K.named keys.now.keys) }
    ensures no_other { OnOk result ((name : K.Named) → Contains (map K.named keys.now.keys) name
        → K.IsUnambiguous (known_names known.now) (plain_namespace namespace.now) name) }
    ensures refusal { IfErr result
        (Refuses ((name : K.Named) × Contains (map K.named keys.now.keys) name
        × ¬ K.IsUnambiguous (known_names known.now) (plain_namespace namespace.now) name)) }
{
    let mut parents = Vec::new(known.alloc);
    for key in keys {
        parents.push(key.write(known, namespace)?)?;
    }
    Ok(parents)
}

/// What stands above a node, as its parents are written in the namespace.
pub(crate) fn write_parents<K: WrittenKey<P>, P: Drop>(
    known: &Known,
    namespace: &Option<Name>,
    ancestors: &Ancestors<K>,
    lower: &K,
) -> Result<Vec<P>, WriteBackFault>
    ensures names { IfOk result (λ parents.
        (upper : K.Named) → Contains (map K.written parents.items) upper
        ↔ IsAncestor K.cmp K.named ancestors.now lower.now upper) }
    ensures no_other { OnOk result
        ((upper : K.Named) → IsAncestor K.cmp K.named ancestors.now lower.now upper
        → K.IsUnambiguous (known_names known.now) (plain_namespace namespace.now) upper) }
    ensures refusal { IfErr result
        (Refuses ((upper : K.Named) × IsAncestor K.cmp K.named ancestors.now lower.now upper
        × ¬ K.IsUnambiguous (known_names known.now) (plain_namespace namespace.now) upper)) }
{
    match ancestors.get(lower) {
        Some(above) => write_keys(known, namespace, above),
        None => Ok(Vec::new(known.alloc)),
    }
}

/// That each descendant of a node is one of the nodes.
pub(crate) fn check_descendants<K: Ord + Hash + QuickHash, V: SchemaNode<K>>(
    nodes: &Table<K, V>,
    node: &V,
) -> Result<(), WriteBackFault>
    ensures there { OnOk result ((lower : V.Name) → Contains (V.below node.now) lower
        → Contains (map V.key_name (keys_of nodes.now.entries)) lower) }
    ensures refusal { IfErr result (Refuses ((lower : V.Name) × Contains (V.below node.now) lower
        × ¬ Contains (map V.key_name (keys_of nodes.now.entries)) lower)) }
{
    for lower in node.descendants() {
        if !nodes.contains_key(lower) {
            return Err(WriteBackFault::Unwritable);
        }
    }
    Ok(())
}
