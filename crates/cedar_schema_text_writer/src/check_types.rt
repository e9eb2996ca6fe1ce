//! Whether types can be written.

ghost use Rattle.std.specs.Prelude.{◌≡◌, Option};
ghost use Rattle.cedar_ast.specs.Words.{PlainName, name_of, unreserved_id_text};
ghost use Rattle.cedar_schema_ast.specs.Words.{raw_attribute, raw_expr, raw_name, raw_record, raw_variant, possible_names};
ghost use Rattle.cedar_schema_text_writer.specs.Flaws.{Checks, common_flaw, context_flaw, context_name_flaw, entity_flaw, extension_flaw, form_flaw, is_record, shape_flaw, type_flaw};
ghost use Rattle.cedar_schema_text_writer.specs.Names.{built_in_words, is_among, may_be_built_in, primitive_words};
ghost use Rattle.cedar_schema_text_writer.specs.Scope.{first_in, namespace_in};

use crate::fault::{Part, Unwritable};
use crate::scope::{Scope, Standing};
use crate::stop::{Stop, refused};
use cedar_ast::{InternalName, UnreservedId};
use cedar_schema_ast::json_schema::{RawName, RecordType, Type, TypeOfAttribute, TypeVariant};

/// How many sets and records may stand in one another.
const MOST_LEVELS: u32 = 128;

/// Whether a text is the name of one of Cedar's primitive types.
fn is_primitive(text: &str) -> bool
    ensures { result ≡ is_among text.now primitive_words }
{
    matches!(text, "Bool" | "Long" | "String")
}

/// Whether a text is the name of one of Cedar's built-in types.
fn is_built_in(text: &str) -> bool
    ensures { result ≡ is_among text.now built_in_words }
{
    matches!(
        text,
        "Bool" | "Long" | "String" | "ipaddr" | "decimal" | "datetime" | "duration"
    )
}

/// Whether a name that isn't declared may name a built-in type.
fn may_be_built_in(name: &InternalName) -> bool
    ensures { result ≡ may_be_built_in (name_of name.now) }
{
    name.is_reserved() || (name.is_unqualified() && is_built_in(name.basename().as_str()))
}

/// Whether a reference to an entity type is one as it is written.
fn check_entity(scope: Scope<'_>, part: Part, name: &RawName) -> Result<(), Stop>
    ensures { Checks (entity_flaw part (raw_name name.now)
        (first_in scope.entry (possible_names (namespace_in scope.entry) (raw_name name.now))))
        result }
{
    match scope.first(name)? {
        Standing::Common => refused(Unwritable::EntityIsCommon, part),
        Standing::Entity => Ok(()),
        Standing::Undeclared => {
            if may_be_built_in(name.as_internal()) {
                refused(Unwritable::EntityIsBuiltIn, part)
            } else {
                Ok(())
            }
        }
    }
}

/// Whether a reference to a common type is one as it is written.
fn check_common(scope: Scope<'_>, part: Part, name: &RawName) -> Result<(), Stop>
    ensures { Checks (common_flaw part
        (first_in scope.entry (possible_names (namespace_in scope.entry) (raw_name name.now))))
        result }
{
    match scope.first(name)? {
        Standing::Entity => refused(Unwritable::CommonIsEntity, part),
        Standing::Common => Ok(()),
        Standing::Undeclared => Ok(()),
    }
}

/// Whether an extension type has a name that no primitive type has.
fn check_extension(part: Part, name: &UnreservedId) -> Result<(), Stop>
    ensures { Checks (extension_flaw part (unreserved_id_text name.now)) result }
{
    if is_primitive(name.as_str()) {
        refused(Unwritable::ExtensionOfOwnName, part)
    } else {
        Ok(())
    }
}

/// Whether a type can be written, but for how deep it is nested.
#[cycle(type_checking)]
fn check_form(scope: Scope<'_>, part: Part, ty: &Type<RawName>) -> Result<(), Stop>
    ensures { Checks (form_flaw (first_in scope.entry) part
        (raw_expr (namespace_in scope.entry) ty.now)) result }
{
    match ty {
        Type::Plain { ty, .. } => check_variant(scope, part, ty),
        Type::CommonTypeRef { type_name, .. } => check_common(scope, part, type_name),
    }
}

/// Whether a type variant can be written.
#[cycle(type_checking)]
fn check_variant(scope: Scope<'_>, part: Part, ty: &TypeVariant<RawName>) -> Result<(), Stop>
    ensures { Checks (form_flaw (first_in scope.entry) part
        (raw_variant (namespace_in scope.entry) ty.now)) result }
{
    match ty {
        TypeVariant::String => Ok(()),
        TypeVariant::Long => Ok(()),
        TypeVariant::Boolean => Ok(()),
        TypeVariant::Set { element } => check_form(scope, part, element),
        TypeVariant::Record(record_type) => check_record(scope, part, record_type),
        TypeVariant::Entity { name } => check_entity(scope, part, name),
        TypeVariant::EntityOrCommon { .. } => Ok(()),
        TypeVariant::Extension { name } => check_extension(part, name),
    }
}

/// Whether a record type is closed, and the types of its attributes can be written.
#[cycle(type_checking)]
fn check_record(scope: Scope<'_>, part: Part, record_type: &RecordType<RawName>) -> Result<(), Stop>
    ensures { Checks (form_flaw (first_in scope.entry) part
        (raw_record (namespace_in scope.entry) record_type.now)) result }
{
    if record_type.additional_attributes {
        return refused(Unwritable::OpenRecord, part);
    }
    for (_name, attribute) in &record_type.attributes {
        check_attribute(scope, part, attribute)?;
    }
    Ok(())
}

/// Whether the type of an attribute can be written.
#[cycle(type_checking)]
fn check_attribute(
    scope: Scope<'_>,
    part: Part,
    attribute: &TypeOfAttribute<RawName>,
) -> Result<(), Stop>
    ensures { Checks (form_flaw (first_in scope.entry) part
        (raw_attribute (namespace_in scope.entry) attribute.now).1) result }
{
    check_form(scope, part, &attribute.ty)
}

/// Whether a type can be written.
pub(crate) fn check_type(scope: Scope<'_>, part: Part, ty: &Type<RawName>) -> Result<(), Stop>
    ensures { Checks (type_flaw (first_in scope.entry) (namespace_in scope.entry) part ty.now)
        result }
{
    if ty.is_nested_at_most(MOST_LEVELS) {
        check_form(scope, part, ty)
    } else {
        refused(Unwritable::TooDeep, part)
    }
}

/// Whether a type variant is a record.
fn is_record_variant(ty: &TypeVariant<RawName>) -> bool
    ensures { (namespace : Option PlainName) → result ≡ is_record (raw_variant namespace ty.now) }
{
    match ty {
        TypeVariant::Record(_) => true,
        TypeVariant::String => false,
        TypeVariant::Long => false,
        TypeVariant::Boolean => false,
        TypeVariant::Set { .. } => false,
        TypeVariant::Entity { .. } => false,
        TypeVariant::EntityOrCommon { .. } => false,
        TypeVariant::Extension { .. } => false,
    }
}

/// Whether a type is a record.
fn is_record(ty: &Type<RawName>) -> bool
    ensures { (namespace : Option PlainName) → result ≡ is_record (raw_expr namespace ty.now) }
{
    match ty {
        Type::Plain { ty, .. } => is_record_variant(ty),
        Type::CommonTypeRef { .. } => false,
    }
}

/// Whether a shape is a record that can be written.
pub(crate) fn check_shape(scope: Scope<'_>, ty: &Type<RawName>) -> Result<(), Stop>
    ensures { Checks (shape_flaw (first_in scope.entry) (namespace_in scope.entry) ty.now) result }
{
    if is_record(ty) {
        check_type(scope, Part::Shape, ty)
    } else {
        refused(Unwritable::ShapeIsNoRecord, Part::Shape)
    }
}

/// Whether a type variant that is no record is a context that can be written: the name of a common
/// type.
fn check_context_variant(scope: Scope<'_>, ty: &TypeVariant<RawName>) -> Result<(), Stop>
    ensures { Checks (context_name_flaw (first_in scope.entry)
        (raw_variant (namespace_in scope.entry) ty.now)) result }
{
    match ty {
        TypeVariant::EntityOrCommon { type_name } => check_common(scope, Part::Context, type_name),
        TypeVariant::String => refused(Unwritable::ContextIsNoRecord, Part::Context),
        TypeVariant::Long => refused(Unwritable::ContextIsNoRecord, Part::Context),
        TypeVariant::Boolean => refused(Unwritable::ContextIsNoRecord, Part::Context),
        TypeVariant::Set { .. } => refused(Unwritable::ContextIsNoRecord, Part::Context),
        TypeVariant::Record(_) => refused(Unwritable::ContextIsNoRecord, Part::Context),
        TypeVariant::Entity { .. } => refused(Unwritable::ContextIsNoRecord, Part::Context),
        TypeVariant::Extension { .. } => refused(Unwritable::ContextIsNoRecord, Part::Context),
    }
}

/// Whether a type that is no record is a context that can be written: the name of a common type.
fn check_context_name(scope: Scope<'_>, ty: &Type<RawName>) -> Result<(), Stop>
    ensures { Checks (context_name_flaw (first_in scope.entry)
        (raw_expr (namespace_in scope.entry) ty.now)) result }
{
    match ty {
        Type::Plain { ty, .. } => check_context_variant(scope, ty),
        Type::CommonTypeRef { .. } => Ok(()),
    }
}

/// Whether a context is a record that can be written, or a name of a common type.
pub(crate) fn check_context(scope: Scope<'_>, ty: &Type<RawName>) -> Result<(), Stop>
    ensures { Checks (context_flaw (first_in scope.entry) (namespace_in scope.entry) ty.now)
        result }
{
    if is_record(ty) {
        check_type(scope, Part::Context, ty)
    } else {
        check_context_name(scope, ty)
    }
}
