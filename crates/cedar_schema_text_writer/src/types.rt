//! Types that are written.

ghost use Rattle.std.specs.Prelude.{◌≡◌, ◌∷◌, ◌++◌, [], OnOk, Option, codes, cond};
ghost use Rattle.cedar_ast.specs.Words.{IsIdentifier};
ghost use Rattle.cedar_schema_ast.specs.Words.{PlainName, raw_attribute, raw_expr, raw_record, raw_variant, set_expr};
ghost use Rattle.cedar_schema_semantics.specs.Words.{alias_name, built_in_name};
ghost use Rattle.cedar_schema_text_writer.specs.Pieces.{Adds, blank, line, path_pieces, sign};
ghost use Rattle.cedar_schema_text_writer.specs.Scope.{first_in, namespace_in};
ghost use Rattle.cedar_schema_text_writer.specs.TypeLayout.{attribute_pieces, built_in_pieces, is_empty_record, presence_pieces, type_pieces};

use crate::names::{put_name, put_path};
use crate::pieces::{deeper, put_line};
use crate::scope::{Scope, Standing};
use cedar_ast::M;
use cedar_schema_ast::json_schema::{RawName, RecordType, Type, TypeOfAttribute, TypeVariant};

/// Writes a built-in type by its base name alone.
fn put_word(out: &mut String, word: &str) -> M<()>
    ensures { OnOk result (Adds out.old out.new (path_pieces (alias_name word.now))) }
{
    out.push_str(word)?;
    Ok(())
}

/// Writes a built-in type by its name in full.
fn put_in_full(out: &mut String, word: &str) -> M<()>
    ensures { OnOk result (Adds out.old out.new (path_pieces (built_in_name word.now))) }
{
    out.push_str("__cedar::")?;
    out.push_str(word)?;
    Ok(())
}

/// Writes a built-in type: by its base name alone, or in full where that would name something that
/// is declared.
fn put_built_in(scope: Scope<'_>, out: &mut String, word: &str) -> M<()>
    requires { IsIdentifier word.now }
    ensures { OnOk result (Adds out.old out.new
        (built_in_pieces (first_in scope.entry) (namespace_in scope.entry) word.now)) }
{
    match scope.first_of_word(word)? {
        Standing::Undeclared => put_word(out, word),
        Standing::Common => put_in_full(out, word),
        Standing::Entity => put_in_full(out, word),
    }
}

/// Writes a type.
#[cycle(type_writing)]
pub(crate) fn put_type(
    scope: Scope<'_>,
    out: &mut String,
    level: usize,
    ty: &Type<RawName>,
) -> M<()>
    ensures { OnOk result (Adds out.old out.new
        (type_pieces (first_in scope.entry) (namespace_in scope.entry) level
        (raw_expr (namespace_in scope.entry) ty.now))) }
{
    match ty {
        Type::Plain { ty, .. } => put_variant(scope, out, level, ty),
        Type::CommonTypeRef { type_name, .. } => put_path(out, type_name.as_internal()),
    }
}

/// Writes a type variant.
#[cycle(type_writing)]
fn put_variant(scope: Scope<'_>, out: &mut String, level: usize, ty: &TypeVariant<RawName>) -> M<()>
    ensures { OnOk result (Adds out.old out.new
        (type_pieces (first_in scope.entry) (namespace_in scope.entry) level
        (raw_variant (namespace_in scope.entry) ty.now))) }
{
    match ty {
        TypeVariant::String => put_built_in(scope, out, "String"),
        TypeVariant::Long => put_built_in(scope, out, "Long"),
        TypeVariant::Boolean => put_built_in(scope, out, "Bool"),
        TypeVariant::Set { element } => put_set(scope, out, level, element),
        TypeVariant::Record(record_type) => put_record(scope, out, level, record_type),
        TypeVariant::Entity { name } => put_path(out, name.as_internal()),
        TypeVariant::EntityOrCommon { type_name } => put_path(out, type_name.as_internal()),
        TypeVariant::Extension { name } => put_built_in(scope, out, name.as_id().as_str()),
    }
}

/// Writes a set type.
#[cycle(type_writing)]
fn put_set(scope: Scope<'_>, out: &mut String, level: usize, element: &Type<RawName>) -> M<()>
    ensures { OnOk result (Adds out.old out.new
        (type_pieces (first_in scope.entry) (namespace_in scope.entry) level
        (set_expr (raw_expr (namespace_in scope.entry) element.now)))) }
{
    out.push_str("Set<")?;
    put_type(scope, out, level, element)?;
    out.push_str(">")?;
    Ok(())
}

/// Writes a record type: its attributes a line each, one level further in.
#[cycle(type_writing)]
fn put_record(
    scope: Scope<'_>,
    out: &mut String,
    level: usize,
    record_type: &RecordType<RawName>,
) -> M<()>
    ensures { OnOk result (Adds out.old out.new
        (type_pieces (first_in scope.entry) (namespace_in scope.entry) level
        (raw_record (namespace_in scope.entry) record_type.now))) }
{
    out.push_str("{")?;
    let inner = deeper(level)?;
    for (name, attribute) in &record_type.attributes {
        put_line(out, inner)?;
        put_name(out, name.as_str())?;
        put_attribute(scope, out, inner, attribute)?;
    }
    close_record(out, level, record_type.attributes.is_empty())
}

/// Writes the bracket that closes a record: on a line of its own where there are attributes.
fn close_record(out: &mut String, level: usize, is_empty: bool) -> M<()>
    ensures { OnOk result (Adds out.old out.new
        (cond is_empty [] (line level ∷ []) ++ sign (codes "}") ∷ [])) }
{
    if !is_empty {
        put_line(out, level)?;
    }
    out.push_str("}")?;
    Ok(())
}

/// Writes the mark of an attribute that may be absent.
fn put_presence(out: &mut String, required: bool) -> M<()>
    ensures { OnOk result (Adds out.old out.new (presence_pieces required)) }
{
    if !required {
        out.push_str("?")?;
    }
    Ok(())
}

/// Writes an attribute, behind its name.
#[cycle(type_writing)]
fn put_attribute(
    scope: Scope<'_>,
    out: &mut String,
    level: usize,
    attribute: &TypeOfAttribute<RawName>,
) -> M<()>
    ensures { OnOk result (Adds out.old out.new
        (attribute_pieces (first_in scope.entry) (namespace_in scope.entry) level
        (raw_attribute (namespace_in scope.entry) attribute.now))) }
{
    put_presence(out, attribute.required)?;
    out.push_str(": ")?;
    put_type(scope, out, level, &attribute.ty)?;
    out.push_str(",")?;
    Ok(())
}

/// Whether a type variant is a record without attributes.
fn is_empty_variant(ty: &TypeVariant<RawName>) -> bool
    ensures { (namespace : Option PlainName)
        → result ≡ is_empty_record (raw_variant namespace ty.now) }
{
    match ty {
        TypeVariant::Record(it) => it.attributes.is_empty(),
        TypeVariant::String => false,
        TypeVariant::Long => false,
        TypeVariant::Boolean => false,
        TypeVariant::Set { .. } => false,
        TypeVariant::Entity { .. } => false,
        TypeVariant::EntityOrCommon { .. } => false,
        TypeVariant::Extension { .. } => false,
    }
}

/// Whether a type is a record without attributes.
pub(crate) fn is_empty_record(ty: &Type<RawName>) -> bool
    ensures { (namespace : Option PlainName)
        → result ≡ is_empty_record (raw_expr namespace ty.now) }
{
    match ty {
        Type::Plain { ty, .. } => is_empty_variant(ty),
        Type::CommonTypeRef { .. } => false,
    }
}
