//! What is known of the attributes and tags of types over a schema.

ghost use Rattle.std.specs.Prelude.{◌≡◌, ◌↔◌, ◌∷◌, [], IfOk, IfSome, IsSome, IsTrue};
ghost use Rattle.std.specs.Option.{option_map};
ghost use Rattle.cedar_schema.specs.Words.{AreAttributesOf, AreDeclaredTypes, Fields, IsKnownUid, MayHaveAttribute, MayHaveTags, Ty, attribute_of, field_at, fields_of, kind_ty, schema_of, ty_of, uid_of, union_of};

use crate::schema::ValidatorSchema;
use cedar_ast::{EntityUID, M};
use cedar_types::{AttributeType, Attributes, EntityKind, Type};
use std::alloc::Global;

/// What a schema says of a type.
///
/// Contracts speak of the plain type that a value stands for.
pub trait SchemaLookup: Sized {
    ghost stands_for: { Self → Ty };

    /// The type of a literal uid: that of the entities of the uid's entity type. None unless the
    /// uid is that of an action of the schema, where its type is a type of actions, or else its
    /// type is declared. Whether it is one of the choices of an enumerated entity type isn't looked
    /// at: [`ValidatorSchema::entity_exists`] tells it. Out of memory is the only refusal.
    fn euid_literal(alloc: Global, uid: &EntityUID, schema: &ValidatorSchema) -> M<Option<Self>>
        ensures known { IfOk result (λ literal. IsSome literal
            ↔ IsKnownUid (schema_of schema.now).entity_types (schema_of schema.now).actions
            (uid_of uid.now)) }
        ensures ty { IfOk result (λ literal.
            IfSome literal (λ ty. stands_for ty ≡ union_of ((uid_of uid.now).ty ∷ []))) };

    /// The attributes of the type: a record's own; those that are known of an entity's kind, as
    /// [`KnownAttrs::all_known_attrs`] gives them; and of every other type none. Out of memory is
    /// the only refusal.
    fn all_attributes(&self, alloc: Global, schema: &ValidatorSchema) -> M<Attributes>
        ensures { IfOk result (λ attrs.
            AreAttributesOf (schema_of schema.now).entity_types (stands_for self.now)
            (fields_of attrs)) };

    /// The attribute of this name among the type's, if there is one. Out of memory is the only
    /// refusal.
    fn lookup_attribute_type(
        alloc: Global,
        schema: &ValidatorSchema,
        ty: &Self,
        name: &str,
    ) -> M<Option<AttributeType>>
        ensures { IfOk result (λ found.
            (known : Fields) × AreAttributesOf (schema_of schema.now).entity_types
            (stands_for ty.now) known
            × (option_map attribute_of found ≡ field_at name.now known)) };

    /// Whether values of the type may have the attribute: always for `Never` and for any entity;
    /// for a union where some member declares it, or is no type of actions and either not declared
    /// or open; for a record where it is listed or the record is open; else not.
    fn may_have_attr(schema: &ValidatorSchema, ty: &Self, name: &str) -> bool
        ensures { IsTrue result ↔ MayHaveAttribute (schema_of schema.now).entity_types
            (stands_for ty.now) name.now };

    /// Whether values of the type may have tags: for a union where some member is declared with
    /// tags; else always.
    fn may_have_tags(schema: &ValidatorSchema, ty: &Self) -> bool
        ensures { IsTrue result ↔ MayHaveTags (schema_of schema.now).entity_types
            (stands_for ty.now) };

    /// Whether the members of a union are all declared; always so for every other type.
    fn has_declared_entity_types(schema: &ValidatorSchema, ty: &Self) -> bool
        ensures { IsTrue result ↔ AreDeclaredTypes (schema_of schema.now).entity_types
            (stands_for ty.now) };
}

impl SchemaLookup for Type {
    ghost stands_for = { ty_of };

    fn euid_literal(alloc: Global, uid: &EntityUID, schema: &ValidatorSchema) -> M<Option<Self>> {
        let content = schema.content();
        if !cedar_queries::is_known_uid(
            &content.tables.entity_types,
            &content.tables.actions,
            uid,
        ) {
            return Ok(None);
        }
        let ty = Type::named_entity_reference(alloc, uid.entity_type().clone()?)?;
        Ok(Some(ty))
    }

    fn all_attributes(&self, alloc: Global, schema: &ValidatorSchema) -> M<Attributes> {
        cedar_queries::all_attributes(alloc, &schema.content().tables.entity_types, self)
    }

    fn lookup_attribute_type(
        alloc: Global,
        schema: &ValidatorSchema,
        ty: &Type,
        name: &str,
    ) -> M<Option<AttributeType>> {
        cedar_queries::lookup_attribute_type(alloc, &schema.content().tables.entity_types, ty, name)
    }

    fn may_have_attr(schema: &ValidatorSchema, ty: &Type, name: &str) -> bool {
        cedar_queries::may_have_attr(&schema.content().tables.entity_types, ty, name)
    }

    fn may_have_tags(schema: &ValidatorSchema, ty: &Type) -> bool {
        cedar_queries::may_have_tags(&schema.content().tables.entity_types, ty)
    }

    fn has_declared_entity_types(schema: &ValidatorSchema, ty: &Type) -> bool {
        cedar_queries::has_declared_entity_types(&schema.content().tables.entity_types, ty)
    }
}

/// What a schema knows of the attributes of entities.
///
/// Contracts speak of the plain type that a kind stands for.
pub trait KnownAttrs {
    ghost stands_for: { Self → Ty };

    /// The attributes that are known of entities of the kind: of one entity type those that it
    /// declares; of a union of more those that its members have in common, joined in permissive
    /// mode and without locations; of entities of any type none. An entity type that the schema
    /// lacks counts as one without attributes. Out of memory is the only refusal.
    fn all_known_attrs(&self, alloc: Global, schema: &ValidatorSchema) -> M<Attributes>
        ensures { IfOk result (λ attrs.
            AreAttributesOf (schema_of schema.now).entity_types (stands_for self.now)
            (fields_of attrs)) };
}

impl KnownAttrs for EntityKind {
    ghost stands_for = { kind_ty };

    fn all_known_attrs(&self, alloc: Global, schema: &ValidatorSchema) -> M<Attributes> {
        cedar_queries::known_attributes(alloc, &schema.content().tables.entity_types, self)
    }
}

/// The attributes of the entity of a literal uid: those of its type, if the uid is known. Out of
/// memory is the only refusal.
pub fn literal_attributes<T: SchemaLookup + Drop>(
    alloc: Global,
    uid: &EntityUID,
    schema: &ValidatorSchema,
) -> M<Option<Attributes>>
    ensures known { IfOk result (λ found. IsSome found
        ↔ IsKnownUid (schema_of schema.now).entity_types (schema_of schema.now).actions
        (uid_of uid.now)) }
    ensures attributes { IfOk result (λ found. IfSome found (λ attrs.
        AreAttributesOf (schema_of schema.now).entity_types (union_of ((uid_of uid.now).ty ∷ []))
        (fields_of attrs))) }
{
    match T::euid_literal(alloc, uid, schema)? {
        Some(ty) => Ok(Some(ty.all_attributes(alloc, schema)?)),
        None => Ok(None),
    }
}

/// The attribute of this name that is known of entities of a kind, if there is one. Out of memory
/// is the only refusal.
pub fn known_attribute<K: KnownAttrs>(
    alloc: Global,
    schema: &ValidatorSchema,
    kind: &K,
    name: &str,
) -> M<Option<AttributeType>>
    ensures { IfOk result (λ found.
        (known : Fields) × AreAttributesOf (schema_of schema.now).entity_types
        (K.stands_for kind.now) known
        × (option_map attribute_of found ≡ field_at name.now known)) }
{
    let attrs = kind.all_known_attrs(alloc, schema)?;
    match attrs.get_attr(name) {
        Some(attribute) => Ok(Some(attribute.clone()?)),
        None => Ok(None),
    }
}
