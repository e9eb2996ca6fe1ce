//! The places that are shown for a refusal.

ghost use Rattle.std.specs.Prelude.{◌≡◌, ◌≢◌, ◌↔◌, IsTrue, Some, map, string_bytes};
ghost use Rattle.cedar_places.specs.Words.{IsAttributedPlace, IsFirstPlace, IsPlaceOf, IsSecondPlaceOf, IsShadowedPlace, IsSought, mark_of, marked, name_loc, name_of, type_loc, type_name, uid_loc, uid_of};

use crate::written::{Places, Written};
use cedar_ast::{EntityType, EntityUID, InternalName, Loc};
use cedar_schema_semantics::{ContextOrShape, SchemaError, UnsupportedFeature};

/// What is looked for in the table of a fragment.
#[derive(Drop)]
pub(crate) enum Sought<'a> {
    /// An action that has attributes, by its id.
    AttributedAction(&'a str),
    /// A record type that admits attributes which it doesn't list.
    OpenRecord,
    /// A type that names this extension type.
    ExtensionType(&'a str),
    /// The declaration of a common type or an entity type of this name.
    Type(&'a InternalName),
    /// The declaration of this common type at another place than that of the name.
    OtherCommonType(&'a InternalName),
    /// The declaration of this entity type at another place than that of the type.
    OtherEntityType(&'a EntityType),
    /// The declaration of this action at another place than that of the uid.
    OtherAction(&'a EntityUID),
}

/// Whether something was written at another place than a name.
fn is_elsewhere(named: Option<Loc>, loc: Loc) -> bool
    ensures { IsTrue result ↔ (named ≢ Some loc) }
{
    named != Some(loc)
}

/// Whether two names are the same, ignoring locations.
fn is_same(name: &InternalName, other: &InternalName) -> bool
    ensures { IsTrue result ↔ (name_of name.now ≡ name_of other.now) }
{
    name == other
}

/// Whether a name is this one, and was written at another place.
fn is_name_elsewhere(name: &InternalName, it: &InternalName, loc: Loc) -> bool
    ensures { IsTrue result
        ↔ ((name_of name.now ≡ name_of it.now) × (name_loc name.now ≢ Some loc)) }
{
    is_same(name, it) && is_elsewhere(name.loc(), loc)
}

/// Whether the name of an entity type is this one, and the type was written at another place.
fn is_type_elsewhere(ty: &EntityType, it: &InternalName, loc: Loc) -> bool
    ensures { IsTrue result
        ↔ ((type_name ty.now ≡ name_of it.now) × (type_loc ty.now ≢ Some loc)) }
{
    is_same(ty.name().as_internal(), it) && is_elsewhere(ty.loc(), loc)
}

/// Whether a uid has this type and this id.
fn is_uid(uid: &EntityUID, ty: &InternalName, id: &String) -> bool
    ensures { IsTrue result ↔ (((uid_of uid.now).ty ≡ name_of ty.now)
        × ((uid_of uid.now).eid ≡ string_bytes id.now)) }
{
    is_same(uid.entity_type().name().as_internal(), ty) && uid.eid().as_str() == id.as_str()
}

/// Whether a uid has this type and this id, and was written at another place.
fn is_uid_elsewhere(uid: &EntityUID, ty: &InternalName, id: &String, loc: Loc) -> bool
    ensures { IsTrue result ↔ ((((uid_of uid.now).ty ≡ name_of ty.now)
        × ((uid_of uid.now).eid ≡ string_bytes id.now)) × (uid_loc uid.now ≢ Some loc)) }
{
    is_uid(uid, ty, id) && is_elsewhere(uid.loc(), loc)
}

impl Sought<'_> {
    /// Whether this is what was written at a place.
    fn is_found(&self, what: &Written, loc: Loc) -> bool
        ensures { IsTrue result ↔ IsSought self.now (mark_of what.now) loc }
    {
        match (self, what) {
            (
                Sought::AttributedAction(sought),
                Written::Action {
                    id,
                    has_attributes,
                    ..
                },
            ) => *has_attributes && id.as_str() == *sought,
            (Sought::OpenRecord, Written::OpenRecord) => true,
            (Sought::ExtensionType(name), Written::ExtensionType(it)) => it.as_str() == *name,
            (Sought::Type(name), Written::CommonType(it) | Written::EntityType(it)) => {
                is_same(name, it)
            }
            (Sought::OtherCommonType(name), Written::CommonType(it)) => {
                is_name_elsewhere(name, it, loc)
            }
            (Sought::OtherEntityType(ty), Written::EntityType(it)) => {
                is_type_elsewhere(ty, it, loc)
            }
            (Sought::OtherAction(uid), Written::Action { ty, id, .. }) => {
                is_uid_elsewhere(uid, ty, id, loc)
            }
            _ => false,
        }
    }
}

/// The place of the first that is looked for, of those whose places are known.
fn first_place(places: &Places, sought: Sought<'_>) -> Option<Loc>
    ensures { IsFirstPlace (IsSought sought.entry) (map marked places.now.0.items) result }
{
    for it in &places.0 {
        if let Some(loc) = it.loc {
            if sought.is_found(&it.what, loc) {
                return Some(loc);
            }
        }
    }
    None
}

/// Where the action was written that a refusal of attributes shows.
fn attributed_place(places: &Places, ids: &Vec<String>) -> Option<Loc>
    ensures { IsAttributedPlace (map marked places.now.0.items) ids.now.items result }
{
    match ids.first() {
        Some(id) => first_place(places, Sought::AttributedAction(id.as_str())),
        None => None,
    }
}

/// Where the declaration was written that another in a namespace would shadow.
fn shadowed_place(places: &Places, name: &InternalName) -> Option<Loc>
    ensures { IsShadowedPlace (map marked places.now.0.items) name.now result }
{
    match name.loc() {
        Some(loc) => Some(loc),
        None => first_place(places, Sought::Type(name)),
    }
}

/// Where a fragment was written what a refusal of the builder names, if that is known. The places
/// are those of a fragment that was built.
pub fn place_of(places: &Places, error: &SchemaError) -> Option<Loc>
    ensures { IsPlaceOf (map marked places.now.0.items) error.now result }
{
    match error {
        SchemaError::UnsupportedFeature(UnsupportedFeature::ActionAttributes(ids)) => {
            attributed_place(places, ids)
        }
        SchemaError::UnsupportedFeature(UnsupportedFeature::OpenRecordsAndEntities) => {
            first_place(places, Sought::OpenRecord)
        }
        SchemaError::UnknownExtensionType(name) => {
            first_place(places, Sought::ExtensionType(name.basename().as_str()))
        }
        SchemaError::UndeclaredEntityTypes(types) => types.head.loc(),
        SchemaError::TypeNotDefined(it) => it.undefined_types.head.possibilities().head.loc(),
        SchemaError::ActionNotDefined(actions) => actions.head.loc,
        SchemaError::TypeShadowing(_, name)
        | SchemaError::DuplicateCommonType(name)
        | SchemaError::CycleInCommonTypeReferences(name)
        | SchemaError::ActionEntityTypeDeclared(name)
        | SchemaError::ReservedName(name) => name.loc(),
        SchemaError::DuplicateEntityType(ty)
        | SchemaError::ContextOrShapeNotRecord(ContextOrShape::EntityTypeShape(ty))
        | SchemaError::ExternalWithEnumAncestor(ty, _)
        | SchemaError::EnumEntityInHierarchy(ty, _) => ty.loc(),
        SchemaError::ActionShadowing(_, uid)
        | SchemaError::DuplicateAction(uid)
        | SchemaError::CycleInActionHierarchy(uid)
        | SchemaError::ContextOrShapeNotRecord(ContextOrShape::ActionContext(uid))
        | SchemaError::UndeclaredActionsDescendant(uid)
        | SchemaError::InvalidActionType(uid) => uid.loc(),
        SchemaError::CommonTypeInvariantViolation
        | SchemaError::ActionInvariantViolation
        | SchemaError::Memory(_) => None,
    }
}

/// Where the second thing was written that a refusal is about, if there is one: another declaration
/// of what is defined twice, the declaration that would be shadowed, or the upper of two entity
/// types. The places are those of a fragment that was built.
pub fn second_place_of(places: &Places, error: &SchemaError) -> Option<Loc>
    ensures { IsSecondPlaceOf (map marked places.now.0.items) error.now result }
{
    match error {
        SchemaError::DuplicateEntityType(ty) => { first_place(places, Sought::OtherEntityType(ty)) }
        SchemaError::DuplicateCommonType(name) => {
            first_place(places, Sought::OtherCommonType(name))
        }
        SchemaError::DuplicateAction(uid) => first_place(places, Sought::OtherAction(uid)),
        SchemaError::TypeShadowing(plain, _) => shadowed_place(places, plain),
        SchemaError::ActionShadowing(plain, _) => plain.loc(),
        SchemaError::ExternalWithEnumAncestor(_, upper) => upper.loc(),
        SchemaError::EnumEntityInHierarchy(_, upper) => upper.loc(),
        _ => None,
    }
}
