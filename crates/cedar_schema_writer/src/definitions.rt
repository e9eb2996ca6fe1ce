//! Definitions of namespaces, as declarations are put into them.

ghost use Rattle.std.specs.Prelude.{◌≡◌, ◌++◌, All, Contains, OnOk, [], ◌∷◌, None, string_bytes};
ghost use Rattle.std.specs.BTreeMap.{get};
ghost use Rattle.std.specs.List.Sorted.{IsPermutation};
ghost use Rattle.std.specs.Map.{values_of};
ghost use Rattle.cedar_schema_writer.specs.Words.{ActionBody, AppliesIfDefined, AreProper, EntityBody, action_body, action_declared, definitions_bag, plain_namespace, raw_declarations, raw_entity_body, raw_reference, type_declared, unreserved_id_text};

use cedar_ast::{M, Name, UnreservedId, put};
use cedar_schema_ast::json_schema::{ActionType, EntityType, NamespaceDefinition, RawName};
use std::alloc::Global;
use std::collections::BTreeMap;

/// The definitions of some namespaces.
pub(crate) type Definitions = BTreeMap<Option<Name>, NamespaceDefinition<RawName>>;

/// Takes the definition of a namespace out, or makes one that declares nothing.
fn take_definition(
    alloc: Global,
    definitions: &mut Definitions,
    namespace: &Option<Name>,
) -> NamespaceDefinition<RawName>
    ensures taken { IsPermutation (raw_declarations (plain_namespace namespace.now) result
        ++ definitions_bag definitions.new.entries)
        (definitions_bag definitions.old.entries) }
    ensures proper { AreProper definitions.old.entries
        → All AppliesIfDefined (values_of result.actions.entries)
        × AreProper definitions.new.entries }
    ensures absent { get ⟦<Option<Name> as Ord>⟧.cmp definitions.new namespace.now ≡ None }
{
    match definitions.remove(namespace) {
        Some(definition) => definition,
        None => NamespaceDefinition {
            common_types: BTreeMap::new(alloc),
            entity_types: BTreeMap::new(alloc),
            actions: BTreeMap::new(alloc),
            loc: None,
        },
    }
}

/// Declares an entity type in a namespace.
pub(crate) fn put_entity_type(
    alloc: Global,
    definitions: &mut Definitions,
    namespace: Option<Name>,
    id: UnreservedId,
    declared: EntityType<RawName>,
) -> M<()>
    ensures put { OnOk result (((body : EntityBody)
        → ¬ Contains (definitions_bag definitions.old.entries)
        (type_declared (plain_namespace namespace) (unreserved_id_text id) body))
        → IsPermutation (definitions_bag definitions.old.entries
        ++ type_declared (plain_namespace namespace) (unreserved_id_text id)
        (raw_entity_body (plain_namespace namespace) declared) ∷ [])
        (definitions_bag definitions.new.entries)) }
    ensures proper { OnOk result (AreProper definitions.old.entries
        → AreProper definitions.new.entries) }
{
    let mut definition = take_definition(alloc, definitions, &namespace);
    put(&mut definition.entity_types, id, declared)?;
    put(definitions, namespace, definition)
}

/// Declares an action in a namespace.
pub(crate) fn put_action(
    alloc: Global,
    definitions: &mut Definitions,
    namespace: Option<Name>,
    id: String,
    declared: ActionType<RawName>,
) -> M<()>
    ensures put { OnOk result (((body : ActionBody)
        → ¬ Contains (definitions_bag definitions.old.entries)
        (action_declared (plain_namespace namespace) (string_bytes id) body))
        → IsPermutation (definitions_bag definitions.old.entries
        ++ action_declared (plain_namespace namespace) (string_bytes id)
        (action_body RawName (raw_reference (plain_namespace namespace))
        (plain_namespace namespace) declared) ∷ [])
        (definitions_bag definitions.new.entries)) }
    ensures proper { OnOk result (AppliesIfDefined declared → AreProper definitions.old.entries
        → AreProper definitions.new.entries) }
{
    let mut definition = take_definition(alloc, definitions, &namespace);
    put(&mut definition.actions, id, declared)?;
    put(definitions, namespace, definition)
}
