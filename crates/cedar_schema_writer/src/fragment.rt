//! A schema, converted back as a fragment.

ghost use Rattle.std.specs.Prelude.{IfErr, IfOk, List, OnOk};
ghost use Rattle.cedar_schema_writer.specs.Words.{ActionEntity, AreProper, IsConvertedBack, IsWritable, Refuses, parts_schema, raw_fragment};

use crate::actions::write_actions;
use crate::entity_types::write_entity_types;
use crate::known::{Known, action_types};
use crate::write_back_fault::WriteBackFault;
use cedar_ast::{EntityType, EntityUID};
use cedar_schema_ast::json_schema::{Fragment, RawName};
use cedar_schema_elements::{ValidatorActionId, ValidatorEntityType, upper_sets};
use cedar_table::Table;
use std::alloc::Global;
use std::collections::BTreeMap;

/// The fragment that declares a schema again, over its entity types and actions: one declaration
/// for each, with its parents, in the definition of its namespace. Names are written in full,
/// common types are unfolded, no action has attributes, and just the actions that are defined have
/// an `appliesTo` part. (Cedar's schemas in JSON form.)
///
/// It answers `Unwritable` exactly where no fragment would say the same: where a type is none that
/// a schema can write (`True`, `False`, `Never`, the any-set, any entity, a union of two entity
/// types, an open record, an extension type with a namespace), where a descendant isn't in the
/// schema or is enumerated, where the uid of an action isn't one of an action, or where a name
/// without a namespace is written in a namespace that has another of that base name. `Memory` is
/// that memory ran out.
pub fn json_schema(
    alloc: Global,
    entity_types: &Table<EntityType, ValidatorEntityType>,
    actions: &Table<EntityUID, ValidatorActionId>,
) -> Result<Fragment<RawName>, WriteBackFault>
    ensures writable { OnOk result ((entities : List ActionEntity)
        → IsWritable (parts_schema entity_types.now.entries actions.now.entries entities)) }
    ensures written { IfOk result (λ fragment. (entities : List ActionEntity)
        → IsConvertedBack (parts_schema entity_types.now.entries actions.now.entries entities)
        (raw_fragment fragment)) }
    ensures definitions { IfOk result (λ fragment. AreProper fragment.0.entries) }
    ensures refusal { IfErr result (Refuses ((entities : List ActionEntity)
        → ¬ IsWritable (parts_schema entity_types.now.entries actions.now.entries entities))) }
{
    let action_types = action_types(alloc, actions)?;
    let known = Known {
        alloc,
        entity_types,
        actions,
        action_types: &action_types,
    };
    let type_ancestors = upper_sets(alloc, entity_types)?;
    let action_ancestors = upper_sets(alloc, actions)?;
    let mut definitions = BTreeMap::new(alloc);
    write_entity_types(&known, &type_ancestors, &mut definitions)?;
    write_actions(&known, &action_ancestors, &mut definitions)?;
    Ok(Fragment(definitions))
}
