//! Declarations of actions that are written.

ghost use Rattle.std.specs.Prelude.{OnOk};
ghost use Rattle.cedar_schema_text_writer.specs.Layout.{applies_to_pieces, context_pieces, member_of_pieces, parts_pieces, types_pieces};
ghost use Rattle.cedar_schema_text_writer.specs.Pieces.{Adds};
ghost use Rattle.cedar_schema_text_writer.specs.Scope.{first_in, namespace_in};

use crate::lists::put_list;
use crate::pieces::{deeper, put_line};
use crate::scope::Scope;
use crate::types::{is_empty_record, put_type};
use cedar_ast::M;
use cedar_schema_ast::json_schema::{ActionEntityUID, ApplySpec, RawName, Type};

/// Writes the parents of an action, where they are listed.
pub(crate) fn put_member_of(
    out: &mut String,
    member_of: &Option<Vec<ActionEntityUID<RawName>>>,
) -> M<()>
    ensures { OnOk result (Adds out.old out.new (member_of_pieces member_of.now)) }
{
    if let Some(parents) = member_of {
        out.push_str(" in ")?;
        put_list(out, parents.as_slice())?;
    }
    Ok(())
}

/// Writes a part that lists types.
fn put_types(out: &mut String, level: usize, word: &str, types: &[RawName]) -> M<()>
    ensures { OnOk result (Adds out.old out.new (types_pieces level word.now types.now)) }
{
    put_line(out, level)?;
    out.push_str(word)?;
    out.push_str(": ")?;
    put_list(out, types)?;
    out.push_str(",")?;
    Ok(())
}

/// Writes the context, where it isn't a record without attributes.
fn put_context(scope: Scope<'_>, out: &mut String, level: usize, ty: &Type<RawName>) -> M<()>
    ensures { OnOk result (Adds out.old out.new
        (context_pieces (first_in scope.entry) (namespace_in scope.entry) level ty.now)) }
{
    if is_empty_record(ty) {
        return Ok(());
    }
    put_line(out, level)?;
    out.push_str("context: ")?;
    put_type(scope, out, level, ty)?;
    out.push_str(",")?;
    Ok(())
}

/// Writes the parts of the requests that an action is for.
fn put_parts(scope: Scope<'_>, out: &mut String, level: usize, it: &ApplySpec<RawName>) -> M<()>
    ensures { OnOk result (Adds out.old out.new
        (parts_pieces (first_in scope.entry) (namespace_in scope.entry) level it.now)) }
{
    put_types(out, level, "principal", it.principal_types.as_slice())?;
    put_types(out, level, "resource", it.resource_types.as_slice())?;
    put_context(scope, out, level, &it.context.0)
}

/// Writes the requests that an action is for, where they are declared.
pub(crate) fn put_applies_to(
    scope: Scope<'_>,
    out: &mut String,
    level: usize,
    applies_to: &Option<ApplySpec<RawName>>,
) -> M<()>
    ensures { OnOk result (Adds out.old out.new
        (applies_to_pieces (first_in scope.entry) (namespace_in scope.entry) level
        applies_to.now)) }
{
    if let Some(it) = applies_to {
        out.push_str(" appliesTo {")?;
        put_parts(scope, out, deeper(level)?, it)?;
        put_line(out, level)?;
        out.push_str("}")?;
    }
    Ok(())
}
