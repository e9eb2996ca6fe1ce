//! Declarations of entity types that are written.

ghost use Rattle.std.specs.Prelude.{OnOk};
ghost use Rattle.cedar_schema_text_writer.specs.Layout.{external_pieces, kind_pieces, parents_pieces, shape_pieces, tags_pieces};
ghost use Rattle.cedar_schema_text_writer.specs.Pieces.{Adds};
ghost use Rattle.cedar_schema_text_writer.specs.Scope.{first_in, namespace_in};
ghost use Rattle.cedar_schema_ast.specs.declared.json_schema.entity_type.EntityTypeKind.TheVariants as kind;

use crate::lists::{put_list, put_some};
use crate::scope::Scope;
use crate::types::{is_empty_record, put_type};
use cedar_ast::M;
use cedar_schema_ast::json_schema::{EntityTypeKind, RawName, StandardEntityType, Type};

/// Writes the word before a declaration of what is defined elsewhere.
pub(crate) fn put_external(out: &mut String, external: bool) -> M<()>
    ensures { OnOk result (Adds out.old out.new (external_pieces external)) }
{
    if external {
        out.push_str("external ")?;
    }
    Ok(())
}

/// Writes the parents of an entity type, where there are some.
fn put_parents(out: &mut String, parents: &[RawName]) -> M<()>
    ensures { OnOk result (Adds out.old out.new (parents_pieces parents.now)) }
{
    if !parents.is_empty() {
        out.push_str(" in ")?;
        put_list(out, parents)?;
    }
    Ok(())
}

/// Writes the shape of an entity type, where it has attributes.
fn put_shape(scope: Scope<'_>, out: &mut String, level: usize, ty: &Type<RawName>) -> M<()>
    ensures { OnOk result (Adds out.old out.new
        (shape_pieces (first_in scope.entry) (namespace_in scope.entry) level ty.now)) }
{
    if is_empty_record(ty) {
        return Ok(());
    }
    out.push_str(" = ")?;
    put_type(scope, out, level, ty)?;
    Ok(())
}

/// Writes the type of the tags, where there is one.
fn put_tags(scope: Scope<'_>, out: &mut String, level: usize, tags: &Option<Type<RawName>>) -> M<()>
    ensures { OnOk result (Adds out.old out.new
        (tags_pieces (first_in scope.entry) (namespace_in scope.entry) level tags.now)) }
{
    if let Some(ty) = tags {
        out.push_str(" tags ")?;
        put_type(scope, out, level, ty)?;
    }
    Ok(())
}

/// Writes what is declared of an entity type that lists no ids.
fn put_standard(
    scope: Scope<'_>,
    out: &mut String,
    level: usize,
    it: &StandardEntityType<RawName>,
) -> M<()>
    ensures { OnOk result (Adds out.old out.new
        (kind_pieces (first_in scope.entry) (namespace_in scope.entry) level
        (kind.Standard it.now))) }
{
    put_parents(out, it.member_of_types.as_slice())?;
    put_shape(scope, out, level, &it.shape.0)?;
    put_tags(scope, out, level, &it.tags)
}

/// Writes what is declared of an entity type.
pub(crate) fn put_kind(
    scope: Scope<'_>,
    out: &mut String,
    level: usize,
    kind: &EntityTypeKind<RawName>,
) -> M<()>
    ensures { OnOk result (Adds out.old out.new
        (kind_pieces (first_in scope.entry) (namespace_in scope.entry) level kind.now)) }
{
    match kind {
        EntityTypeKind::Standard(it) => put_standard(scope, out, level, it),
        EntityTypeKind::Enum { choices } => {
            out.push_str(" enum ")?;
            put_some(out, choices)
        }
    }
}
