//! Types, converted back as expressions of a fragment.

ghost use Rattle.std.specs.Prelude.{◌≡◌, IfErr, IfOk, OnOk, Option, Some, string_bytes};
ghost use Rattle.std.specs.BTreeMap.{insert_entry};
ghost use Rattle.std.specs.String.{string_cmp};
ghost use Rattle.std.specs.declared.string.String.{String as Text};
ghost use Rattle.cedar_schema_writer.specs.Words.{IsSoundType, PlainName, Refuses, Ty, extension_of, fields_of, kind_ty, known_names, plain_name, plain_namespace, raw_attribute, raw_expr, raw_variant, record_of, set_of, ty_of, type_written};
ghost use Rattle.cedar_type_rules.specs.declared.open_tag.OpenTag.TheVariants as openness;

use crate::known::Known;
use crate::names::base_id;
use crate::write_back_fault::WriteBackFault;
use cedar_ast::{M, Name};
use cedar_schema_ast::json_schema::{self, RawName, RecordType, TypeOfAttribute, TypeVariant};
use cedar_types::{Attributes, BoolType, EntityKind, OpenTag, Type};
use std::alloc::Global;
use std::collections::BTreeMap;

/// A type variant as a type, without a location.
pub(crate) fn plain(ty: TypeVariant<RawName>) -> json_schema::Type<RawName>
    ensures { (namespace : Option PlainName)
        → raw_expr namespace result ≡ raw_variant namespace ty }
{
    json_schema::Type::Plain { ty, loc: None }
}

/// An attribute of a type, as it is written.
fn flag_and_expr(ty: TypeVariant<RawName>, required: bool) -> TypeOfAttribute<RawName>
    ensures { (namespace : Option PlainName)
        → raw_attribute namespace result ≡ (required, raw_variant namespace ty) }
{
    TypeOfAttribute {
        ty: plain(ty),
        required,
        loc: None,
    }
}

/// Puts an attribute under a copy of a name.
fn put_attribute(
    attributes: &mut BTreeMap<String, TypeOfAttribute<RawName>>,
    name: &String,
    attribute: TypeOfAttribute<RawName>,
) -> M<()>
    ensures { OnOk result ((key : Text Global) × (string_bytes key ≡ string_bytes name.now)
        × (attributes.new.entries ≡ insert_entry string_cmp attributes.old.entries key attribute)) }
{
    let _old = attributes.insert(name.clone()?, attribute)?;
    Ok(())
}

/// The type of sets whose elements have a type, whichever that is the expression of.
fn write_set(alloc: Global, element: TypeVariant<RawName>) -> M<TypeVariant<RawName>>
    ensures { IfOk result (λ set. (namespace : Option PlainName) (ty : Ty)
        → type_written namespace ty ≡ Some (raw_variant namespace element)
        → type_written namespace (set_of ty) ≡ Some (raw_variant namespace set)) }
{
    Ok(TypeVariant::Set {
        element: Box::new(alloc, plain(element))?,
    })
}

/// The type of the entities of a kind, which is that of one entity type.
fn write_kind(
    known: &Known,
    namespace: &Option<Name>,
    kind: &EntityKind,
) -> Result<TypeVariant<RawName>, WriteBackFault>
    ensures written { IfOk result (λ variant.
        type_written (plain_namespace namespace.now) (kind_ty kind.now)
        ≡ Some (raw_variant (plain_namespace namespace.now) variant)) }
    ensures sound { OnOk result (IsSoundType (known_names known.now) (plain_namespace namespace.now)
        (kind_ty kind.now)) }
    ensures refusal { IfErr result
        (Refuses (¬ IsSoundType (known_names known.now) (plain_namespace namespace.now)
        (kind_ty kind.now))) }
{
    let EntityKind::Entity(union) = kind else {
        return Err(WriteBackFault::Unwritable);
    };
    match union.get_single_entity() {
        Some(ty) => Ok(TypeVariant::Entity {
            name: known.write_name(namespace, ty)?,
        }),
        None => Err(WriteBackFault::Unwritable),
    }
}

/// An extension type, whose name has no path.
fn write_extension(alloc: Global, name: &Name) -> Result<TypeVariant<RawName>, WriteBackFault>
    ensures written { IfOk result (λ variant. (namespace : Option PlainName)
        → type_written namespace (extension_of (plain_name name.now))
        ≡ Some (raw_variant namespace variant)) }
    ensures refusal { IfErr result (Refuses ((namespace : Option PlainName)
        → type_written namespace (extension_of (plain_name name.now)) ≡ None)) }
{
    if !name.is_unqualified() {
        return Err(WriteBackFault::Unwritable);
    }
    Ok(TypeVariant::Extension {
        name: base_id(alloc, name)?,
    })
}

/// A type, as it is written in the namespace.
#[cycle(written)]
pub(crate) fn to_json_type(
    known: &Known,
    namespace: &Option<Name>,
    ty: &Type,
) -> Result<TypeVariant<RawName>, WriteBackFault>
    ensures written { IfOk result (λ variant.
        type_written (plain_namespace namespace.now) (ty_of ty.now)
        ≡ Some (raw_variant (plain_namespace namespace.now) variant)) }
    ensures sound { OnOk result (IsSoundType (known_names known.now) (plain_namespace namespace.now)
        (ty_of ty.now)) }
    ensures refusal { IfErr result
        (Refuses (¬ IsSoundType (known_names known.now) (plain_namespace namespace.now)
        (ty_of ty.now))) }
{
    match ty {
        Type::Bool(BoolType::AnyBool) => Ok(TypeVariant::Boolean),
        Type::Long => Ok(TypeVariant::Long),
        Type::String => Ok(TypeVariant::String),
        Type::Entity(kind) => write_kind(known, namespace, kind),
        Type::Set {
            element_type: Some(element),
        } => Ok(write_set(known.alloc, to_json_type(known, namespace, element)?)?),
        Type::Record {
            attrs,
            open_attributes: OpenTag::ClosedAttributes,
        } => write_record(known, namespace, attrs),
        Type::ExtensionType { name } => write_extension(known.alloc, name),
        _ => Err(WriteBackFault::Unwritable),
    }
}

/// The closed record type of some attributes, as it is written in the namespace.
#[cycle(written)]
pub(crate) fn write_record(
    known: &Known,
    namespace: &Option<Name>,
    attrs: &Attributes,
) -> Result<TypeVariant<RawName>, WriteBackFault>
    ensures written { IfOk result (λ variant.
        type_written (plain_namespace namespace.now)
        (record_of (fields_of attrs.now) openness.ClosedAttributes)
        ≡ Some (raw_variant (plain_namespace namespace.now) variant)) }
    ensures sound { OnOk result (IsSoundType (known_names known.now) (plain_namespace namespace.now)
        (record_of (fields_of attrs.now) openness.ClosedAttributes)) }
    ensures refusal { IfErr result
        (Refuses (¬ IsSoundType (known_names known.now) (plain_namespace namespace.now)
        (record_of (fields_of attrs.now) openness.ClosedAttributes))) }
{
    let mut attributes = BTreeMap::new(known.alloc);
    for (name, attribute) in attrs.iter() {
        let ty = to_json_type(known, namespace, &attribute.attr_type)?;
        let written = flag_and_expr(ty, attribute.is_required);
        put_attribute(&mut attributes, name, written)?;
    }
    Ok(TypeVariant::Record(RecordType {
        attributes,
        additional_attributes: false,
    }))
}
