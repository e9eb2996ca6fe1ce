//! Whether values of a type may have an attribute or tags, and which types and uids are known.

ghost use Rattle.std.specs.Prelude.{◌≡◌, ◌↔◌, Any, All, IfOk, IsTrue, map};
ghost use Rattle.std.specs.Option.{option_map};
ghost use Rattle.cedar_queries.specs.Words.{AreAttributesOf, AreDeclaredTypes, Fields, HasTags, IsActionType, IsDeclared, IsKnownUid, MayHaveAttribute, MayHaveTags, MemberMayHave, OpenAttributes, attribute_of, field_at, kind_ty, lub_names, plain_action_entry, plain_entry, ty_of, type_name, uid_of};

use crate::known::all_attributes;
use cedar_ast::{EntityType, EntityUID, M};
use cedar_schema_elements::{ValidatorActionId, ValidatorEntityType};
use cedar_table::Table;
use cedar_types::{AttributeType, EntityKind, EntityLUB, OpenTag, Type};
use std::alloc::Global;

/// The entity types of a schema, each under its name.
type EntityTypes = Table<EntityType, ValidatorEntityType>;

/// The attribute of a name among those of a type, if there is one. Out of memory is the only
/// refusal.
pub fn lookup_attribute_type(
    alloc: Global,
    types: &EntityTypes,
    ty: &Type,
    name: &str,
) -> M<Option<AttributeType>>
    ensures { IfOk result (λ found.
        (known : Fields) × AreAttributesOf (map plain_entry types.now.entries) (ty_of ty.now) known
        × (option_map attribute_of found ≡ field_at name.now known)) }
{
    let attrs = all_attributes(alloc, types, ty)?;
    match attrs.get_attr(name) {
        Some(attribute) => Ok(Some(attribute.clone()?)),
        None => Ok(None),
    }
}

/// Whether attributes may be there that aren't declared.
fn is_open(openness: OpenTag) -> bool
    ensures { IsTrue result ↔ (openness ≡ OpenAttributes) }
{
    openness == OpenTag::OpenAttributes
}

/// Whether entities of a type of this openness may have attributes that aren't declared.
fn is_open_type(member: &EntityType, openness: OpenTag) -> bool
    ensures { IsTrue result ↔ (¬ IsActionType (type_name member.now)
        × (openness ≡ OpenAttributes)) }
{
    !member.is_action() && is_open(openness)
}

/// Whether entities of a type may have the attribute.
fn member_may_have(types: &EntityTypes, name: &str, member: &EntityType) -> bool
    ensures { IsTrue result ↔ MemberMayHave (map plain_entry types.now.entries) name.now
        (type_name member.now) }
{
    match types.get(member) {
        Some(ty) => is_open_type(member, ty.open_attributes()) || ty.attr(name).is_some(),
        None => !member.is_action(),
    }
}

/// Whether entities of some type of a union may have the attribute.
fn any_may_have(types: &EntityTypes, name: &str, lub: &EntityLUB) -> bool
    ensures { IsTrue result ↔ Any (MemberMayHave (map plain_entry types.now.entries) name.now)
        (lub_names lub.now) }
{
    for member in lub.iter() {
        if member_may_have(types, name, member) {
            return true;
        }
    }
    false
}

/// Whether values of a type may have the attribute. `Never` and entities of any type may; entities
/// of a union, where some member declares it, or may have attributes that it doesn't declare: it is
/// no type of actions, and is open or not declared at all; a record, where it lists the attribute
/// or is open; and of every other type no value.
pub fn may_have_attr(types: &EntityTypes, ty: &Type, name: &str) -> bool
    ensures { IsTrue result ↔ MayHaveAttribute (map plain_entry types.now.entries)
        (ty_of ty.now) name.now }
{
    match ty {
        Type::Never | Type::Entity(EntityKind::AnyEntity) => true,
        Type::Entity(EntityKind::Entity(lub)) => any_may_have(types, name, lub),
        Type::Record {
            attrs,
            open_attributes,
        } => is_open(*open_attributes) || attrs.get_attr(name).is_some(),
        _ => false,
    }
}

/// Whether an entity type is declared with tags.
fn has_tags(types: &EntityTypes, ty: &EntityType) -> bool
    ensures { IsTrue result ↔ HasTags (map plain_entry types.now.entries) (type_name ty.now) }
{
    match types.get(ty) {
        Some(entity_type) => entity_type.tag_type().is_some(),
        None => false,
    }
}

/// Whether entities of some type of a union have tags.
fn any_has_tags(types: &EntityTypes, lub: &EntityLUB) -> bool
    ensures { IsTrue result ↔ Any (HasTags (map plain_entry types.now.entries))
        (lub_names lub.now) }
{
    for member in lub.iter() {
        if has_tags(types, member) {
            return true;
        }
    }
    false
}

/// Whether values of a type may have tags: of a union, where some member is declared with tags; of
/// every other type it isn't known that they haven't.
pub fn may_have_tags(types: &EntityTypes, ty: &Type) -> bool
    ensures { IsTrue result ↔ MayHaveTags (map plain_entry types.now.entries) (ty_of ty.now) }
{
    match ty {
        Type::Entity(EntityKind::Entity(lub)) => any_has_tags(types, lub),
        _ => true,
    }
}

/// Whether each type of a union is declared.
fn all_declared(types: &EntityTypes, lub: &EntityLUB) -> bool
    ensures { IsTrue result ↔ All (IsDeclared (map plain_entry types.now.entries))
        (lub_names lub.now) }
{
    for member in lub.iter() {
        if !types.contains_key(member) {
            return false;
        }
    }
    true
}

/// Whether the entity types of a kind are all declared; any entity is of none that isn't.
fn is_declared_kind(types: &EntityTypes, kind: &EntityKind) -> bool
    ensures { IsTrue result ↔ AreDeclaredTypes (map plain_entry types.now.entries)
        (kind_ty kind.now) }
{
    match kind {
        EntityKind::Entity(lub) => all_declared(types, lub),
        EntityKind::AnyEntity => true,
    }
}

/// Whether the entity types of a union are all declared; of every other type there is none that
/// isn't.
pub fn has_declared_entity_types(types: &EntityTypes, ty: &Type) -> bool
    ensures { IsTrue result ↔ AreDeclaredTypes (map plain_entry types.now.entries) (ty_of ty.now) }
{
    match ty {
        Type::Entity(kind) => is_declared_kind(types, kind),
        _ => true,
    }
}

/// Whether a uid is that of an action that is there, or of an entity type that is declared.
pub fn is_known_uid(
    types: &EntityTypes,
    actions: &Table<EntityUID, ValidatorActionId>,
    uid: &EntityUID,
) -> bool
    ensures { IsTrue result ↔ IsKnownUid (map plain_entry types.now.entries)
        (map plain_action_entry actions.now.entries) (uid_of uid.now) }
{
    if uid.entity_type().is_action() {
        actions.contains_key(uid)
    } else {
        types.contains_key(uid.entity_type())
    }
}
