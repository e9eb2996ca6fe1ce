//! How types are printed.

ghost use Rattle.std.specs.Prelude.{◌≡◌, ◌++◌, Some, codes, map, string_bytes};
ghost use Rattle.std.specs.Fmt.{WritesOnOk};
ghost use Rattle.std.specs.List.{flat_map};
ghost use Rattle.cedar_types.specs.Words.{attribute_of, kind_ty, lub_names, mark_text, name_text, names_text, tag_text, ty_of, ty_text, type_name, union_text};

use crate::attributes::AttributeType;
use crate::entity_kind::EntityKind;
use crate::entity_lub::EntityLUB;
use crate::types::Type;
use cedar_ast::EntityType;
use cedar_type_rules::OpenTag;
use std::fmt;
use std::fmt::Display;

/// Writes entity types, each with `, ` before it.
fn write_others<W: fmt::Write>(types: &[EntityType], f: &mut fmt::Formatter<W>) -> fmt::Result
    ensures { WritesOnOk W.write_str_gives f.old result
        (flat_map (λ name. codes ", " ++ name_text name) (map type_name types.now)) f.new }
{
    for ty in types {
        write!(f, ", {ty}")?;
    }
    Ok(())
}

/// Writes the members of a union with `, ` between them.
fn write_members<W: fmt::Write>(lub: &EntityLUB, f: &mut fmt::Formatter<W>) -> fmt::Result
    ensures { WritesOnOk W.write_str_gives f.old result (names_text (lub_names lub.now)) f.new }
{
    match lub.as_slice().split_first() {
        None => Ok(()),
        Some((first, others)) => {
            first.fmt(f)?;
            write_others(others, f)
        }
    }
}

impl fmt::Display for EntityLUB {
    ghost output = { λ lub. Some (union_text (lub_names lub)) };

    /// Writes a single entity type's name, or `__cedar::internal::Union<A, B>`.
    fn fmt<W: fmt::Write>(&self, f: &mut fmt::Formatter<W>) -> fmt::Result {
        if let Some(ty) = self.get_single_entity() {
            return ty.fmt(f);
        }
        f.write_str("__cedar::internal::Union<")?;
        write_members(self, f)?;
        f.write_str(">")
    }
}

impl fmt::Display for EntityKind {
    ghost output = { λ kind. Some (ty_text (kind_ty kind)) };

    fn fmt<W: fmt::Write>(&self, f: &mut fmt::Formatter<W>) -> fmt::Result {
        match self {
            EntityKind::AnyEntity => f.write_str("__cedar::internal::AnyEntity"),
            EntityKind::Entity(lub) => lub.fmt(f),
        }
    }
}

/// What stands before the attributes of a record.
fn tag_word(openness: OpenTag) -> &'static str
    ensures { result.now ≡ tag_text openness }
{
    match openness {
        OpenTag::OpenAttributes => "__cedar::internal::OpenRecord",
        OpenTag::ClosedAttributes => "",
    }
}

/// What stands between the name of an attribute and its type.
fn mark_word(required: bool) -> &'static str
    ensures { result.now ≡ mark_text required }
{
    if required { ": " } else { "?: " }
}

/// Writes an attribute, with a comma behind it.
#[cycle(show)]
pub(crate) fn write_attribute<W: fmt::Write>(
    name: &String,
    attribute: &AttributeType,
    f: &mut fmt::Formatter<W>,
) -> fmt::Result
    ensures { WritesOnOk W.write_str_gives f.old result (string_bytes name.now
        ++ mark_text (attribute_of attribute.now).0 ++ ty_text (attribute_of attribute.now).1
        ++ codes ",") f.new }
{
    f.write_str(name.as_str())?;
    f.write_str(mark_word(attribute.is_required))?;
    (*attribute.attr_type).fmt(f)?;
    f.write_str(",")
}

impl fmt::Display for Type {
    ghost output = { λ ty. Some (ty_text (ty_of ty)) };

    #[cycle(show)]
    fn fmt<W: fmt::Write>(&self, f: &mut fmt::Formatter<W>) -> fmt::Result {
        match self {
            Type::Never => f.write_str("__cedar::internal::Never"),
            Type::Bool(known) => known.fmt(f),
            Type::Long => f.write_str("Long"),
            Type::String => f.write_str("String"),
            Type::Entity(kind) => kind.fmt(f),
            Type::Set { element_type: None } => f.write_str("Set<__cedar::internal::Any>"),
            Type::Set {
                element_type: Some(element),
            } => {
                f.write_str("Set<")?;
                (**element).fmt(f)?;
                f.write_str(">")
            }
            Type::Record {
                attrs,
                open_attributes,
            } => {
                f.write_str(tag_word(*open_attributes))?;
                attrs.fmt(f)
            }
            Type::ExtensionType { name } => name.fmt(f),
        }
    }
}
