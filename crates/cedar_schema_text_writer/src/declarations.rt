//! Declarations that are written, a line each.

ghost use Rattle.std.specs.Prelude.{◌≡◌, ◌∷◌, [], ℕ, List, IfOk, OnOk, Option, cond};
ghost use Rattle.cedar_ast.specs.Words.{PlainName};
ghost use Rattle.cedar_schema_text_writer.specs.Layout.{begun_behind, begun_by, definition_pieces, lines_pieces};
ghost use Rattle.cedar_schema_text_writer.specs.Names.{First};
ghost use Rattle.cedar_schema_text_writer.specs.Pieces.{Adds, Piece, line};
ghost use Rattle.cedar_schema_text_writer.specs.Scope.{first_in, namespace_in};

use crate::actions::{put_applies_to, put_member_of};
use crate::entity_types::{put_external, put_kind};
use crate::names::put_name;
use crate::pieces::put_line;
use crate::scope::Scope;
use crate::types::put_type;
use cedar_ast::{M, UnreservedId};
use cedar_schema_ast::json_schema::{
    ActionType, CommonType, CommonTypeId, EntityType, NamespaceDefinition, RawName,
};
use std::collections::BTreeMap;

/// What is declared under an id.
///
/// The ghost member is what its pieces are.
pub(crate) trait Declaration<K> {
    ghost pieces: { First → Option PlainName → ℕ → K → Self → List Piece };

    /// Writes the declaration.
    fn put(&self, scope: Scope<'_>, out: &mut String, level: usize, id: &K) -> M<()>
        ensures { OnOk result (Adds out.old out.new
            (pieces (first_in scope.entry) (namespace_in scope.entry) level id.now self.now)) };
}

impl Declaration<CommonTypeId> for CommonType<RawName> {
    ghost use Rattle.cedar_schema_text_writer.specs.Layout.{common_pieces};

    ghost pieces = { common_pieces };

    fn put(&self, scope: Scope<'_>, out: &mut String, level: usize, id: &CommonTypeId) -> M<()> {
        out.push_str("type ")?;
        out.push_str(id.as_str())?;
        out.push_str(" = ")?;
        put_type(scope, out, level, &self.ty)?;
        out.push_str(";")?;
        Ok(())
    }
}

impl Declaration<UnreservedId> for EntityType<RawName> {
    ghost use Rattle.cedar_schema_text_writer.specs.Layout.{entity_pieces};

    ghost pieces = { entity_pieces };

    fn put(&self, scope: Scope<'_>, out: &mut String, level: usize, id: &UnreservedId) -> M<()> {
        put_external(out, self.external)?;
        out.push_str("entity ")?;
        out.push_str(id.as_str())?;
        put_kind(scope, out, level, &self.kind)?;
        out.push_str(";")?;
        Ok(())
    }
}

impl Declaration<String> for ActionType<RawName> {
    ghost use Rattle.cedar_schema_text_writer.specs.Layout.{action_pieces};

    ghost pieces = { action_pieces };

    fn put(&self, scope: Scope<'_>, out: &mut String, level: usize, id: &String) -> M<()> {
        put_external(out, self.external)?;
        out.push_str("action ")?;
        put_name(out, id.as_str())?;
        put_member_of(out, &self.member_of)?;
        put_applies_to(scope, out, level, &self.applies_to)?;
        out.push_str(";")?;
        Ok(())
    }
}

/// Begins a line, where something has been written.
fn begin_line(out: &mut String, level: usize, begun: bool) -> M<()>
    ensures { OnOk result (Adds out.old out.new (cond begun (line level ∷ []) [])) }
{
    if begun {
        put_line(out, level)?;
    }
    Ok(())
}

/// Writes declarations of one kind, each on a line of its own, of which the first is there where
/// nothing has been written yet. It says whether something has been now.
fn put_all<K: Ord, T: Declaration<K>>(
    scope: Scope<'_>,
    out: &mut String,
    level: usize,
    begun: bool,
    all: &BTreeMap<K, T>,
) -> M<bool>
    ensures written { OnOk result (Adds out.old out.new
        (lines_pieces (T.pieces (first_in scope.entry) (namespace_in scope.entry) level)
        level begun all.now.entries)) }
    ensures begun { IfOk result (λ it. it ≡ begun_by begun all.now.entries) }
{
    let mut is_begun = begun;
    for (id, it) in all {
        begin_line(out, level, is_begun)?;
        is_begun = true;
        it.put(scope, out, level, id)?;
    }
    Ok(is_begun)
}

/// Writes the declarations of a definition: common types, entity types and actions.
pub(crate) fn put_definition(
    scope: Scope<'_>,
    out: &mut String,
    level: usize,
    begun: bool,
    it: &NamespaceDefinition<RawName>,
) -> M<bool>
    ensures written { OnOk result (Adds out.old out.new
        (definition_pieces (first_in scope.entry) (namespace_in scope.entry) level begun it.now)) }
    ensures begun { IfOk result (λ behind. behind ≡ begun_behind begun it.now) }
{
    let begun = put_all(scope, out, level, begun, &it.common_types)?;
    let begun = put_all(scope, out, level, begun, &it.entity_types)?;
    put_all(scope, out, level, begun, &it.actions)
}
