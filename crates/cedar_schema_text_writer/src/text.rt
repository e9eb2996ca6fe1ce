//! Fragments, written as texts.

ghost use Rattle.std.specs.Prelude.{◌≡◌, IfErr, IfOk, OnOk, Some, string_bytes};
ghost use Rattle.cedar_ast.specs.Words.{plain_name};
ghost use Rattle.cedar_name_resolution.specs.Words.{held_names};
ghost use Rattle.cedar_schema_text_writer.specs.Flaws.{IsFaultOf, IsWritable, Judges, fragment_flaw};
ghost use Rattle.cedar_schema_text_writer.specs.Layout.{begun_after, block_pieces, fragment_pieces, gap_pieces, namespace_pieces};
ghost use Rattle.cedar_schema_text_writer.specs.Names.{first_beside, first_standing};
ghost use Rattle.cedar_schema_text_writer.specs.Pieces.{Adds, text_of};
ghost use Rattle.cedar_schema_text_writer.specs.Scope.{first_in, namespace_in};

use crate::check_declarations::check_definition;
use crate::declarations::put_definition;
use crate::fault::TextWriteFault;
use crate::known::declared_names;
use crate::names::put_path;
use crate::pieces::put_line;
use crate::scope::Scope;
use cedar_ast::{M, Name};
use cedar_name_resolution::defs::AllDefs;
use cedar_schema_ast::json_schema::{Fragment, NamespaceDefinition, RawName};
use std::alloc::Global;

/// Whether a fragment can be written.
fn check_fragment(
    alloc: Global,
    known: &AllDefs,
    fragment: &Fragment<RawName>,
) -> Result<(), TextWriteFault>
    ensures { Judges (fragment_flaw (first_standing (held_names known.now)) fragment.now) result }
{
    for (namespace, it) in &fragment.0 {
        let scope = Scope {
            alloc,
            known,
            namespace,
        };
        check_definition(scope, it)?;
    }
    Ok(())
}

/// Writes an empty line, where something has been written.
fn put_gap(out: &mut String, begun: bool) -> M<()>
    ensures { OnOk result (Adds out.old out.new (gap_pieces begun)) }
{
    if begun {
        put_line(out, 0)?;
        put_line(out, 0)?;
    }
    Ok(())
}

/// Writes the block of the namespace that names are written in, which has a name.
fn put_block(
    scope: Scope<'_>,
    out: &mut String,
    name: &Name,
    it: &NamespaceDefinition<RawName>,
) -> M<()>
    requires { namespace_in scope ≡ Some (plain_name name.now) }
    ensures { OnOk result (Adds out.old out.new
        (block_pieces (first_in scope.entry) (plain_name name.now) it.now)) }
{
    out.push_str("namespace ")?;
    put_path(out, name.as_internal())?;
    out.push_str(" {")?;
    put_definition(scope, out, 1, true, it)?;
    put_line(out, 0)?;
    out.push_str("}")?;
    Ok(())
}

/// Writes the declarations of a namespace: in a block, but those of the empty namespace outside of
/// any. It says whether something has been written now.
fn put_namespace(
    scope: Scope<'_>,
    out: &mut String,
    begun: bool,
    it: &NamespaceDefinition<RawName>,
) -> M<bool>
    ensures written { OnOk result (Adds out.old out.new
        (namespace_pieces (first_in scope.entry) begun (namespace_in scope.entry) it.now)) }
    ensures begun { IfOk result (λ behind.
        behind ≡ begun_after begun (namespace_in scope.entry) it.now) }
{
    match scope.namespace {
        None => put_definition(scope, out, 0, begun, it),
        Some(name) => {
            put_gap(out, begun)?;
            put_block(scope, out, name, it)?;
            Ok(true)
        }
    }
}

/// The text of a fragment that can be written.
fn written(alloc: Global, known: &AllDefs, fragment: &Fragment<RawName>) -> M<String>
    ensures { IfOk result (λ text. string_bytes text
        ≡ text_of (fragment_pieces (first_standing (held_names known.now)) fragment.now)) }
{
    let mut out = String::new(alloc);
    let mut begun = false;
    for (namespace, it) in &fragment.0 {
        let scope = Scope {
            alloc,
            known,
            namespace,
        };
        begun = put_namespace(scope, &mut out, begun, it)?;
    }
    Ok(out)
}

/// The text of a fragment in Cedar's schema format (Cedar reference, schema format), beside the
/// other fragments of its schema. Declarations stand a line each, in the order of namespaces and
/// names; those of the empty namespace first, the others in blocks. There is no line end at the
/// end.
///
/// A fragment is refused as `Unwritable` exactly where the format can't say it, with what of it and
/// where. Memory may run out.
pub fn fragment_to_text(
    alloc: Global,
    fragment: &Fragment<RawName>,
    beside: &[Fragment<RawName>],
) -> Result<String, TextWriteFault>
    ensures text { IfOk result (λ text. string_bytes text
        ≡ text_of (fragment_pieces (first_beside fragment.now beside.now) fragment.now)) }
    ensures writable { IfOk result (λ _.
        IsWritable (first_beside fragment.now beside.now) fragment.now) }
    ensures refused { IfErr result (IsFaultOf
        (fragment_flaw (first_beside fragment.now beside.now) fragment.now)) }
{
    let known = declared_names(alloc, fragment, beside)?;
    check_fragment(alloc, &known, fragment)?;
    Ok(written(alloc, &known, fragment)?)
}
