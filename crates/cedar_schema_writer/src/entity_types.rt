//! Entity types, converted back as declarations.

ghost use Rattle.std.specs.Prelude.{◌≡◌, ◌↔◌, Contains, IfErr, IfOk, OnOk, Option, map, ◌≢◌, [], Some, false};
ghost use Rattle.std.specs.Option.{option_copied, option_map};
ghost use Rattle.cedar_schema_writer.specs.Words.{AreProper, ArePut, AreTagsWritten, IsKindWritten, IsSoundEntityType, IsSoundKind, IsSoundType, IsTypeDeclaration, IsAncestor, ListsDescendant, PlainName, Refuses, SchemaEntityType, Ty, definitions_bag, eid_text, entity_type_of, enumerated, external, items_of, kind_body, kind_fields, kind_openness, kind_tags, known_names, known_schema, plain_namespace, raw_entity_body, raw_expr, raw_name, raw_reference, record_of, standard_kind, ty_of, type_name, type_written};
ghost use Rattle.cedar_ast.specs.declared.entity_type.EntityType.{EntityType as TypeKey};
ghost use Rattle.cedar_schema_ast.specs.declared.json_schema.entity_type.EntityTypeKind.TheVariants as written_kind;
ghost use Rattle.cedar_schema_ast.specs.declared.json_schema.reference_type.ReferenceType.TheVariants as reference;

use crate::definitions::{Definitions, put_entity_type};
use crate::known::Known;
use crate::names::{base_id, namespace_of};
use crate::parents::{check_descendants, write_parents};
use crate::types::{plain, to_json_type, write_record};
use crate::write_back_fault::WriteBackFault;
use cedar_ast::{Eid, EntityType as Key, Name, NonEmpty};
use cedar_schema_ast::json_schema::{
    self, AttributesOrContext, EntityType, EntityTypeKind, RawName, RecordType, StandardEntityType,
    TypeVariant,
};
use cedar_schema_elements::{Ancestors, ValidatorEntityType, ValidatorEntityTypeKind};
use cedar_types::{OpenTag, Type};
use std::collections::BTreeMap;

/// The record type of the attributes of an entity type, which has to be closed.
fn write_shape(
    known: &Known,
    namespace: &Option<Name>,
    ty: &ValidatorEntityType,
) -> Result<json_schema::Type<RawName>, WriteBackFault>
    ensures written { IfOk result (λ shape. type_written (plain_namespace namespace.now)
        (record_of (kind_fields (entity_type_of ty.now).kind)
        (kind_openness (entity_type_of ty.now).kind))
        ≡ Some (raw_expr (plain_namespace namespace.now) shape)) }
    ensures sound { OnOk result (IsSoundType (known_names known.now) (plain_namespace namespace.now)
        (record_of (kind_fields (entity_type_of ty.now).kind)
        (kind_openness (entity_type_of ty.now).kind))) }
    ensures refusal { IfErr result
        (Refuses (¬ IsSoundType (known_names known.now) (plain_namespace namespace.now)
        (record_of (kind_fields (entity_type_of ty.now).kind)
        (kind_openness (entity_type_of ty.now).kind)))) }
{
    match ty.open_attributes() {
        OpenTag::OpenAttributes => Err(WriteBackFault::Unwritable),
        OpenTag::ClosedAttributes => Ok(plain(write_record(known, namespace, ty.attributes())?)),
    }
}

/// The type of tags, if there is one.
fn write_tags(
    known: &Known,
    namespace: &Option<Name>,
    tags: Option<&Type>,
) -> Result<Option<json_schema::Type<RawName>>, WriteBackFault>
    ensures written { IfOk result (λ it.
        AreTagsWritten (plain_namespace namespace.now) (option_map ty_of (option_copied tags.entry))
        (option_map (raw_expr (plain_namespace namespace.now)) it)) }
    ensures sound { OnOk result ((ty : Ty) → option_map ty_of (option_copied tags.entry) ≡ Some ty
        → IsSoundType (known_names known.now) (plain_namespace namespace.now) ty) }
    ensures refusal { IfErr result
        (Refuses ((ty : Ty) × (option_map ty_of (option_copied tags.entry) ≡ Some ty)
        × ¬ IsSoundType (known_names known.now) (plain_namespace namespace.now) ty)) }
{
    match tags {
        Some(ty) => Ok(Some(plain(to_json_type(known, namespace, ty)?))),
        None => Ok(None),
    }
}

/// A standard entity type with these parents, as it is declared in the namespace.
fn write_standard(
    known: &Known,
    namespace: &Option<Name>,
    parents: Vec<RawName>,
    ty: &ValidatorEntityType,
) -> Result<StandardEntityType<RawName>, WriteBackFault>
    ensures written { IfOk result (λ it. IsKindWritten (plain_namespace namespace.now)
        (λ upper. Contains (map raw_name parents.items) upper)
        (standard_kind (kind_fields (entity_type_of ty.now).kind)
        (kind_openness (entity_type_of ty.now).kind)
        (kind_tags (entity_type_of ty.now).kind))
        (kind_body RawName (raw_reference (plain_namespace namespace.now))
        (written_kind.Standard it) false)) }
    ensures sound { OnOk result (IsSoundKind (known_names known.now) (plain_namespace namespace.now)
        (λ upper. Contains (map raw_name parents.items) upper)
        (standard_kind (kind_fields (entity_type_of ty.now).kind)
        (kind_openness (entity_type_of ty.now).kind)
        (kind_tags (entity_type_of ty.now).kind))) }
    ensures refusal { IfErr result
        (Refuses (¬ IsSoundKind (known_names known.now) (plain_namespace namespace.now)
        (λ upper. Contains (map raw_name parents.items) upper)
        (standard_kind (kind_fields (entity_type_of ty.now).kind)
        (kind_openness (entity_type_of ty.now).kind)
        (kind_tags (entity_type_of ty.now).kind)))) }
{
    let shape = write_shape(known, namespace, ty)?;
    let tags = write_tags(known, namespace, ty.tag_type())?;
    Ok(StandardEntityType {
        member_of_types: parents,
        shape: AttributesOrContext(shape),
        tags,
    })
}

/// An enumerated entity type, which has to be without parents.
fn write_enumerated(
    choices: &NonEmpty<Eid>,
    parents: Vec<RawName>,
) -> Result<EntityType<RawName>, WriteBackFault>
    ensures written { IfOk result (λ it. (namespace : Option PlainName)
        → raw_entity_body namespace it ≡ enumerated (map eid_text (items_of choices.now))) }
    ensures none { OnOk result (parents.items ≡ []) }
    ensures refusal { IfErr result (Refuses (parents.items ≢ [])) }
{
    if !parents.is_empty() {
        return Err(WriteBackFault::Unwritable);
    }
    let choices = choices.clone()?;
    Ok(EntityType {
        kind: EntityTypeKind::Enum { choices },
        external: false,
        loc: None,
    })
}

/// An external entity type with these parents.
fn external_type(parents: Vec<RawName>) -> EntityType<RawName>
    ensures { (namespace : Option PlainName)
        → raw_entity_body namespace result
        ≡ external (map (λ parent. raw_reference namespace reference.Entity parent) parents.items) }
{
    let attributes = BTreeMap::new(*parents.allocator());
    let shape = TypeVariant::Record(RecordType {
        attributes,
        additional_attributes: false,
    });
    EntityType {
        kind: EntityTypeKind::Standard(StandardEntityType {
            member_of_types: parents,
            shape: AttributesOrContext(plain(shape)),
            tags: None,
        }),
        external: true,
        loc: None,
    }
}

/// An entity type with these parents, as it is declared in the namespace.
fn write_entity_type(
    known: &Known,
    namespace: &Option<Name>,
    parents: Vec<RawName>,
    ty: &ValidatorEntityType,
) -> Result<EntityType<RawName>, WriteBackFault>
    ensures written { IfOk result (λ it. IsKindWritten (plain_namespace namespace.now)
        (λ upper. Contains (map raw_name parents.items) upper) (entity_type_of ty.now).kind
        (raw_entity_body (plain_namespace namespace.now) it)) }
    ensures sound { OnOk result (IsSoundKind (known_names known.now) (plain_namespace namespace.now)
        (λ upper. Contains (map raw_name parents.items) upper) (entity_type_of ty.now).kind) }
    ensures refusal { IfErr result
        (Refuses (¬ IsSoundKind (known_names known.now) (plain_namespace namespace.now)
        (λ upper. Contains (map raw_name parents.items) upper) (entity_type_of ty.now).kind)) }
{
    match &ty.kind {
        ValidatorEntityTypeKind::Standard(_) => {
            let standard = write_standard(known, namespace, parents, ty)?;
            Ok(EntityType {
                kind: EntityTypeKind::Standard(standard),
                external: false,
                loc: None,
            })
        }
        ValidatorEntityTypeKind::Enum(choices) => write_enumerated(choices, parents),
        ValidatorEntityTypeKind::External => Ok(external_type(parents)),
    }
}

/// Declares each entity type in its namespace.
pub(crate) fn write_entity_types(
    known: &Known,
    ancestors: &Ancestors<Key>,
    definitions: &mut Definitions,
) -> Result<(), WriteBackFault>
    requires ancestors { (key : TypeKey) (above : PlainName)
        → IsAncestor ⟦<Key as Ord>⟧.cmp type_name ancestors.now key above
        ↔ ListsDescendant (known_schema known.now) (type_name key) above }
    requires empty { definitions_bag definitions.old.entries ≡ [] }
    ensures put { OnOk result (ArePut (IsTypeDeclaration (known_schema known.now))
        (known_schema known.now).entity_types
        (definitions_bag definitions.old.entries) (definitions_bag definitions.new.entries)) }
    ensures proper { OnOk result (AreProper definitions.old.entries
        → AreProper definitions.new.entries) }
    ensures sound { OnOk result ((it : PlainName × SchemaEntityType)
        → Contains (known_schema known.now).entity_types it
        → IsSoundEntityType known.now it) }
    ensures refusal { IfErr result
        (Refuses ((it : PlainName × SchemaEntityType)
        × Contains (known_schema known.now).entity_types it
        × ¬ IsSoundEntityType known.now it)) }
{
    for (name, ty) in known.entity_types {
        check_descendants(known.entity_types, ty)?;
        let namespace = namespace_of(known.alloc, name.name())?;
        let id = base_id(known.alloc, name.name())?;
        let parents = write_parents(known, &namespace, ancestors, name)?;
        let declared = write_entity_type(known, &namespace, parents, ty)?;
        put_entity_type(known.alloc, definitions, namespace, id, declared)?;
    }
    Ok(())
}
