//! The references at the positions of entity types.

ghost use Rattle.std.specs.Prelude.{◌≡◌, ◌++◌, [], IfOk, OnOk, map};
ghost use Rattle.cedar_diagnosis.specs.Adding.{Adds};
ghost use Rattle.cedar_diagnosis.specs.Lent.{declaration_of};
ghost use Rattle.cedar_diagnosis.specs.Mentioned.{reference_of};
ghost use Rattle.cedar_schema_ast.specs.Words.{action, action_body, entity_type, namespace_name, raw_entity_body, raw_reference};
ghost use Rattle.cedar_schema_ast.specs.declared.json_schema.raw_name.RawName.{RawName as Raw};
ghost use Rattle.cedar_schema_semantics.specs.Words.{Entity, IsEntityTypePosition};

use crate::lent::{Lent, LentBody};
use crate::mentions::WrittenReference;
use cedar_ast::{InternalName, M};
use cedar_schema_ast::json_schema::{
    ActionType, EntityType, EntityTypeKind, RawName, ReferenceType,
};
use std::alloc::Global;

/// Adds names of entity types that are written in a namespace.
fn add_names<'a>(
    names: &'a [RawName],
    namespace: Option<&'a InternalName>,
    found: &mut Vec<WrittenReference<'a>>,
) -> M<()>
    ensures { OnOk result (map reference_of found.new.items ≡ map reference_of found.old.items
        ++ map (raw_reference (namespace_name namespace.entry) Entity) names.now) }
{
    for name in names {
        found.push(WrittenReference {
            name,
            kind: ReferenceType::Entity,
            namespace,
        })?;
    }
    Ok(())
}

/// Adds the parents of an entity type.
fn add_parents<'a>(
    declared: &'a EntityType<RawName>,
    namespace: Option<&'a InternalName>,
    found: &mut Vec<WrittenReference<'a>>,
) -> M<()>
    ensures { OnOk result (Adds (IsEntityTypePosition
        (entity_type (raw_entity_body (namespace_name namespace.entry) declared.now)))
        (map reference_of found.old.items) (map reference_of found.new.items)) }
{
    match &declared.kind {
        EntityTypeKind::Standard(standard) => {
            add_names(&standard.member_of_types, namespace, found)
        }
        EntityTypeKind::Enum { .. } => Ok(()),
    }
}

/// Adds the principals and the resources of an action.
fn add_requests<'a>(
    declared: &'a ActionType<RawName>,
    namespace: Option<&'a InternalName>,
    found: &mut Vec<WrittenReference<'a>>,
) -> M<()>
    ensures { OnOk result (Adds (IsEntityTypePosition
        (action (action_body Raw (raw_reference (namespace_name namespace.entry))
        (namespace_name namespace.entry) declared.now)))
        (map reference_of found.old.items) (map reference_of found.new.items)) }
{
    if declared.external {
        return Ok(());
    }
    let Some(requests) = &declared.applies_to else {
        return Ok(());
    };
    add_names(&requests.principal_types, namespace, found)?;
    add_names(&requests.resource_types, namespace, found)
}

/// Adds the references at the positions of a declaration that have to name entity types.
fn add_positions<'a>(it: &Lent<'a>, found: &mut Vec<WrittenReference<'a>>) -> M<()>
    ensures { OnOk result (Adds (IsEntityTypePosition (declaration_of it.now).body)
        (map reference_of found.old.items) (map reference_of found.new.items)) }
{
    let namespace = it.namespace();
    match it.body {
        LentBody::CommonType { .. } => Ok(()),
        LentBody::EntityType { declared, .. } => add_parents(declared, namespace, found),
        LentBody::Action { declared, .. } => add_requests(declared, namespace, found),
    }
}

/// The references at the positions of a declaration that have to name entity types: its parents, or
/// its principals and its resources.
pub(crate) fn positions_of<'a>(alloc: Global, it: &Lent<'a>) -> M<Vec<WrittenReference<'a>>>
    ensures { IfOk result (λ found. Adds (IsEntityTypePosition (declaration_of it.now).body)
        [] (map reference_of found.items)) }
{
    let mut found = Vec::new(alloc);
    add_positions(it, &mut found)?;
    Ok(found)
}
