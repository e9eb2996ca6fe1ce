//! The parents of actions, and the actions that they name.

ghost use Rattle.std.specs.Prelude.{◌≡◌, [], IfOk, map, string_bytes};
ghost use Rattle.cedar_ast.specs.Words.{name_of};
ghost use Rattle.cedar_diagnosis.specs.Adding.{Adds};
ghost use Rattle.cedar_diagnosis.specs.Finding.{HasParentIn};
ghost use Rattle.cedar_diagnosis.specs.Lent.{declaration_of};
ghost use Rattle.cedar_diagnosis.specs.ReferenceKeys.{IsActionAt, IsNamedBy, key_parent};
ghost use Rattle.cedar_name_resolution.specs.Words.{held_names};
ghost use Rattle.cedar_schema_ast.specs.Words.{namespace_name, parent_action, plain_action_type, raw_name, raw_reference};
ghost use Rattle.cedar_schema_ast.specs.declared.json_schema.raw_name.RawName.{RawName as Raw};

use crate::lent::{Lent, LentBody};
use crate::parent_key::ParentKey;
use crate::reference_key::reference_key;
use crate::shadowing::plain_type;
use crate::undefined_parents::{parent_reference, unwritten_type};
use cedar_ast::{Eid, EntityType, EntityUID, InternalName, M};
use cedar_name_resolution::defs::AllDefs;
use cedar_schema_ast::json_schema::{ActionEntityUID, RawName};
use std::alloc::Global;

/// The action of the id whose type has the name, or None where none is declared.
fn declared_action(
    alloc: Global,
    name: &InternalName,
    id: &String,
    defs: &AllDefs,
) -> M<Option<EntityUID>>
    ensures { IfOk result (λ found. IsActionAt (held_names defs.now).actions
        (record { ty = name_of name.now; eid = string_bytes id.now }) found) }
{
    match EntityType::from_internal(name.clone()?) {
        Ok(ty) => {
            let uid = EntityUID::new(ty, Eid(id.clone()?), None).into_shared()?;
            if defs.is_defined_as_action(&uid) {
                return Ok(Some(uid));
            }
            Ok(None)
        }
        Err(_) => Ok(None),
    }
}

/// The action that a parent names, or None where it names none.
pub(crate) fn named_action(
    alloc: Global,
    parent: &ParentKey,
    defs: &AllDefs,
) -> M<Option<EntityUID>>
    ensures { IfOk result (λ found.
        IsNamedBy (held_names defs.now).actions (key_parent parent.now) found) }
{
    let reference = &parent.reference;
    let first = declared_action(alloc, &reference.first, &parent.id, defs)?;
    if first.is_some() {
        return Ok(first);
    }
    if !reference.is_within {
        return Ok(None);
    }
    let base = plain_type(alloc, &reference.first)?;
    declared_action(alloc, &base, &parent.id, defs)
}

/// The key of a parent, where this is the name of a type that isn't written.
pub(crate) fn parent_key(
    alloc: Global,
    parent: &ActionEntityUID<RawName>,
    unwritten: &RawName,
    namespace: Option<&InternalName>,
) -> M<ParentKey>
    requires { raw_name unwritten.now ≡ plain_action_type }
    ensures { IfOk result (λ key. key_parent key
        ≡ parent_action Raw (raw_reference (namespace_name namespace.entry))
        (namespace_name namespace.entry) parent.now) }
{
    let it = parent_reference(parent, unwritten, namespace);
    let reference = reference_key(alloc, &it)?;
    let id = parent.id.clone()?;
    Ok(ParentKey { reference, id })
}

/// The keys of some parents.
fn parent_keys(
    alloc: Global,
    parents: &[ActionEntityUID<RawName>],
    namespace: Option<&InternalName>,
) -> M<Vec<ParentKey>>
    ensures { IfOk result (λ keys. map key_parent keys.items
        ≡ map (parent_action Raw (raw_reference (namespace_name namespace.entry))
        (namespace_name namespace.entry)) parents.now) }
{
    let unwritten = unwritten_type(alloc)?;
    let mut keys = Vec::new(alloc);
    for parent in parents {
        keys.push(parent_key(alloc, parent, &unwritten, namespace)?)?;
    }
    Ok(keys)
}

/// The keys of the parents of the action that is declared, if one is.
pub(crate) fn parents_of(alloc: Global, it: &Lent) -> M<Vec<ParentKey>>
    ensures { IfOk result (λ keys. Adds (HasParentIn (declaration_of it.now).body)
        [] (map key_parent keys.items)) }
{
    let LentBody::Action { declared, .. } = it.body else {
        return Ok(Vec::new(alloc));
    };
    let Some(parents) = &declared.member_of else {
        return Ok(Vec::new(alloc));
    };
    parent_keys(alloc, parents, it.namespace())
}
