//! Declarations of entity types that are written.

ghost use Rattle.std.specs.Prelude.{◌≡◌, None, OnOk, codes, map, option_map};
ghost use Rattle.cedar_json_writer.specs.Words.{AddsField, AddsFields, Entity, IfThere, IsChecked, SoundBody, SoundType, WrittenEntity, body_flaws, body_members, entity_type_document, flaws_in, is_empty_record, parents_held, raw_expr, raw_reference, raw_variant, shape_held, type_document, type_flaws, written_entity, written_kind};
ghost use Rattle.cedar_schema_ast.specs.declared.json_schema.entity_type.EntityTypeKind.TheVariants as kind;

use crate::fault::WriteFault;
use crate::fields::{close_with_flag, write_ids, write_names_field};
use crate::types::write_type;
use crate::written::Written;
use cedar_schema_ast::json_schema::{
    EntityType, EntityTypeKind, RawName, StandardEntityType, Type, TypeVariant,
};
use json::{Pretty, Token};
use std::alloc::{AllocError, Global};

/// Whether a type variant is the closed record without attributes.
fn is_empty_variant(ty: &TypeVariant<RawName>) -> bool
    ensures { result ≡ is_empty_record (raw_variant None ty.now) }
{
    match ty {
        TypeVariant::Record(it) => it.attributes.is_empty() && !it.additional_attributes,
        TypeVariant::String => false,
        TypeVariant::Long => false,
        TypeVariant::Boolean => false,
        TypeVariant::Set { .. } => false,
        TypeVariant::Entity { .. } => false,
        TypeVariant::EntityOrCommon { .. } => false,
        TypeVariant::Extension { .. } => false,
    }
}

/// Whether a type is the closed record without attributes.
fn is_empty_record(ty: &Type<RawName>) -> bool
    ensures { result ≡ is_empty_record (raw_expr None ty.now) }
{
    match ty {
        Type::Plain { ty, .. } => is_empty_variant(ty),
        Type::CommonTypeRef { .. } => false,
    }
}

/// Writes a field for a shape or a context, where it isn't the closed record without attributes.
pub(crate) fn write_shape_field(
    alloc: Global,
    out: &mut Pretty,
    name: &str,
    ty: &Type<RawName>,
) -> Result<(), WriteFault>
    ensures written { OnOk result (AddsField out.old out.new name.now
        (shape_held (raw_expr None ty.now))) }
    ensures checked { IsChecked result (type_flaws (raw_expr None ty.now))
        (SoundType (raw_expr None ty.now)) }
{
    if is_empty_record(ty) {
        return Ok(());
    }
    out.token(Token::Key(name))?;
    write_type(alloc, out, ty)
}

/// Writes the field for parents, where there are some.
fn write_parents_field(
    alloc: Global,
    out: &mut Pretty,
    parents: &Vec<RawName>,
) -> Result<(), AllocError>
    ensures { OnOk result (AddsField out.old out.new (codes "memberOfTypes")
        (parents_held (map (raw_reference None Entity) parents.now.items))) }
{
    if parents.is_empty() {
        return Ok(());
    }
    write_names_field(alloc, out, "memberOfTypes", parents)
}

/// Writes the field for the type of the tags, where there is one.
fn write_tags_field(
    alloc: Global,
    out: &mut Pretty,
    tags: &Option<Type<RawName>>,
) -> Result<(), WriteFault>
    ensures written { OnOk result (AddsField out.old out.new (codes "tags")
        (option_map type_document (option_map (raw_expr None) tags.now))) }
    ensures checked { IsChecked result (flaws_in type_flaws (option_map (raw_expr None) tags.now))
        (IfThere SoundType (option_map (raw_expr None) tags.now)) }
{
    let Some(ty) = tags else {
        return Ok(());
    };
    out.token(Token::Key("tags"))?;
    write_type(alloc, out, ty)
}

/// Writes the fields of an entity type that lists no ids.
fn write_standard(
    alloc: Global,
    out: &mut Pretty,
    it: &StandardEntityType<RawName>,
) -> Result<(), WriteFault>
    ensures written { OnOk result (AddsFields out.old out.new
        (body_members (written_kind (kind.Standard it.now)))) }
    ensures checked { IsChecked result (body_flaws (written_kind (kind.Standard it.now)))
        (SoundBody (written_kind (kind.Standard it.now))) }
{
    write_parents_field(alloc, out, &it.member_of_types)?;
    write_shape_field(alloc, out, "shape", &it.shape.0)?;
    write_tags_field(alloc, out, &it.tags)
}

/// Writes the fields of an entity type but for `external`.
fn write_kind(
    alloc: Global,
    out: &mut Pretty,
    kind: &EntityTypeKind<RawName>,
) -> Result<(), WriteFault>
    ensures written { OnOk result (AddsFields out.old out.new
        (body_members (written_kind kind.now))) }
    ensures checked { IsChecked result (body_flaws (written_kind kind.now))
        (SoundBody (written_kind kind.now)) }
{
    match kind {
        EntityTypeKind::Standard(it) => write_standard(alloc, out, it),
        EntityTypeKind::Enum { choices } => {
            out.token(Token::Key("enum"))?;
            write_ids(out, choices)?;
            Ok(())
        }
    }
}

impl Written for EntityType<RawName> {
    ghost Plain = { WrittenEntity };

    ghost document = { entity_type_document };

    ghost flaws = { λ it. body_flaws it.body };

    ghost Sound = { λ it. SoundBody it.body };

    ghost shown = { written_entity };

    /// Writes the object of an entity type.
    fn write(&self, alloc: Global, out: &mut Pretty) -> Result<(), WriteFault> {
        out.token(Token::BeginObject)?;
        write_kind(alloc, out, &self.kind)?;
        close_with_flag(out, "external", false, self.external)
    }
}
