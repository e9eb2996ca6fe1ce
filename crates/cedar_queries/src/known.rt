//! The attributes that are known of entities.

ghost use Rattle.std.specs.Prelude.{◌≡◌, ◌≢◌, [], IfOk, OnOk, map};
ghost use Rattle.cedar_queries.specs.Words.{AreAttributesOf, AreKnownOfAll, IsRecordType, declared_fields, fields_of, kind_ty, lub_names, open_record, plain_entry, record_of, ty_of, type_name};
ghost use Rattle.cedar_type_rules.specs.declared.open_tag.OpenTag.{OpenTag as Openness};

use cedar_ast::{EntityType, M, Memory, ValidationMode};
use cedar_schema_elements::ValidatorEntityType;
use cedar_table::Table;
use cedar_types::{AttributeType, Attributes, EntityKind, EntityLUB, JoinError, OpenTag, Type};
use std::alloc::Global;

/// The entity types of a schema, each under its name.
type EntityTypes = Table<EntityType, ValidatorEntityType>;

/// The attributes that an entity type declares; one that isn't there declares none.
fn declared_attributes(alloc: Global, types: &EntityTypes, ty: &EntityType) -> M<Attributes>
    ensures { IfOk result (λ attrs.
        fields_of attrs ≡ declared_fields (map plain_entry types.now.entries) (type_name ty.now)) }
{
    match types.get(ty) {
        Some(entity_type) => entity_type.attributes().clone(),
        None => Attributes::empty(alloc),
    }
}

/// What each member of a union declares, as open records. A union has members.
fn open_records(alloc: Global, types: &EntityTypes, lub: &EntityLUB) -> M<Vec<Type>>
    ensures records { IfOk result (λ records. map ty_of records.items
        ≡ map (open_record (map plain_entry types.now.entries)) (lub_names lub.now)) }
    ensures members { OnOk result (lub_names lub.now ≢ []) }
{
    let mut records = Vec::new(alloc);
    for ty in lub.iter() {
        records.push(Type::Record {
            attrs: declared_attributes(alloc, types, ty)?,
            open_attributes: OpenTag::OpenAttributes,
        })?;
    }
    Ok(records)
}

/// The same attributes without their locations.
fn without_locations(alloc: Global, attrs: &Attributes) -> M<Attributes>
    ensures { IfOk result (λ bare. fields_of bare ≡ fields_of attrs.now) }
{
    let mut entries = Vec::new(alloc);
    for (name, attribute) in attrs.iter() {
        let ty = attribute.attr_type.clone()?;
        let bare = AttributeType::new(ty, attribute.is_required());
        entries.push((name.clone()?, bare))?;
    }
    Ok(Attributes::with_attributes(alloc, entries)?)
}

/// The attributes of a record type.
fn attributes_of(ty: Type) -> Attributes
    requires { IsRecordType (ty_of ty) }
    ensures { (openness : Openness) × (ty_of ty ≡ record_of (fields_of result) openness) }
{
    match ty {
        Type::Record { attrs, .. } => attrs,
        _ => unreachable!(),
    }
}

/// The attributes that are known of entities of each type of a union, without locations.
fn joined_attributes(alloc: Global, types: &EntityTypes, lub: &EntityLUB) -> M<Attributes>
    ensures { IfOk result (λ attrs.
        AreKnownOfAll (map plain_entry types.now.entries) (lub_names lub.now) (fields_of attrs)) }
{
    let records = open_records(alloc, types, lub)?;
    match Type::reduce_to_least_upper_bound(alloc, &records, ValidationMode::Permissive) {
        Ok(join) => without_locations(alloc, &attributes_of(join)),
        Err(JoinError::Help(_)) => unreachable!(),
        Err(JoinError::Memory) => Err(Memory),
    }
}

/// The attributes that are known of entities of a kind. Of one entity type they are the declared
/// ones, with their locations; of a union of more they are joined over its members in permissive
/// mode, without locations; of entities of any type none is known. An entity type that the schema
/// lacks counts as one without attributes. Out of memory is the only refusal.
pub fn known_attributes(alloc: Global, types: &EntityTypes, kind: &EntityKind) -> M<Attributes>
    ensures { IfOk result (λ attrs.
        AreAttributesOf (map plain_entry types.now.entries) (kind_ty kind.now) (fields_of attrs)) }
{
    let EntityKind::Entity(lub) = kind else {
        return Attributes::empty(alloc);
    };
    match lub.get_single_entity() {
        Some(ty) => declared_attributes(alloc, types, ty),
        None => joined_attributes(alloc, types, lub),
    }
}

/// The attributes of a type: a record's own, those that are known of a kind of entities, and of
/// every other type none. Out of memory is the only refusal.
pub fn all_attributes(alloc: Global, types: &EntityTypes, ty: &Type) -> M<Attributes>
    ensures { IfOk result (λ attrs.
        AreAttributesOf (map plain_entry types.now.entries) (ty_of ty.now) (fields_of attrs)) }
{
    match ty {
        Type::Record { attrs, .. } => attrs.clone(),
        Type::Entity(kind) => known_attributes(alloc, types, kind),
        _ => Attributes::empty(alloc),
    }
}
