//! What stands behind the names of actions.

ghost use Rattle.std.specs.Option.{option_map};
ghost use Rattle.std.specs.Prelude.{◌≡◌, map};
ghost use Rattle.cedar_schema_tokens.specs.declared.token.Symbol.TheVariants as sign;
ghost use Rattle.cedar_schema_grammar.specs.Reading as spec;
ghost use Rattle.cedar_schema_grammar.specs.Cursor.{Reads};
ghost use Rattle.cedar_schema_grammar.specs.Plain.{applies_of, name_of, parent_of, part_of, path_of, type_of};

use crate::cursor::{Cursor, between, first_loc, span};
use crate::fault::Stop;
use crate::reading::entities::read_paths;
use crate::reading::types::read_context;
use crate::tree::{Applies, Name, Parent, Part, Path, Says, Type};
use cedar_schema_tokens::Symbol;
use std::alloc::Global;

/// The type of a parent, behind its first id and `::`, up to the parent's text.
#[tactic(auto, unfolding(crate::specs::Reading::qualifier_from))]
fn read_qualifier(alloc: Global, tokens: &mut Cursor<'_, '_>, first: Name) -> Result<Path, Stop>
    ensures { Reads path_of (spec.qualifier (name_of first) tokens.old) result tokens.new }
{
    let from = first.loc;
    let mut last = from;
    let mut ids = Vec::with_capacity(alloc, 1)?;
    ids.push(first.text)?;
    for _turn in 0..tokens.left() {
        if tokens.sees_text() {
            let loc = span(from, last);
            return Ok(Path { ids, loc });
        }
        let next = tokens.id(alloc)?;
        last = next.loc;
        ids.push(next.text)?;
        tokens.expect(Symbol::PathSeparator)?;
    }
    Err(tokens.unexpected())
}

/// A parent with a type, behind its first id and `::`.
#[tactic(auto, unfolding(crate::specs::Reading::qualified))]
fn read_qualified(alloc: Global, tokens: &mut Cursor<'_, '_>, first: Name) -> Result<Parent, Stop>
    ensures { Reads parent_of (spec.qualified (name_of first) tokens.old) result tokens.new }
{
    let from = first.loc;
    let ty = read_qualifier(alloc, tokens, first)?;
    let id = tokens.quoted(alloc)?;
    let loc = span(from, id.loc);
    Ok(Parent {
        ty: Some(ty),
        id,
        loc,
    })
}

/// A parent without a written type.
fn plain_parent(id: Name) -> Parent
    ensures { parent_of result ≡ spec.plain_parent (name_of id) }
{
    let loc = id.loc;
    Parent { ty: None, id, loc }
}

/// A parent of an action.
#[tactic(auto, unfolding(crate::specs::Reading::parent))]
fn read_parent(alloc: Global, tokens: &mut Cursor<'_, '_>) -> Result<Parent, Stop>
    ensures { Reads parent_of (spec.parent tokens.old) result tokens.new }
{
    if tokens.sees_text() {
        let id = tokens.quoted(alloc)?;
        return Ok(plain_parent(id));
    }
    let first = tokens.id(alloc)?;
    if tokens.eat(Symbol::PathSeparator) {
        read_qualified(alloc, tokens, first)
    } else {
        Ok(plain_parent(first))
    }
}

/// Parents, up to a closing bracket.
#[tactic(auto, unfolding(crate::specs::Reading::until_from))]
fn read_listed_parents(alloc: Global, tokens: &mut Cursor<'_, '_>) -> Result<Vec<Parent>, Stop>
    ensures { Reads (λ all. map parent_of all.items)
        (spec.until spec.parent sign.CloseBracket tokens.old) result tokens.new }
{
    let mut found = Vec::with_capacity(alloc, 1)?;
    for _turn in 0..tokens.left() {
        if tokens.eat(Symbol::CloseBracket) {
            return Ok(found);
        }
        found.push(read_parent(alloc, tokens)?)?;
        if !tokens.eat(Symbol::Comma) {
            tokens.expect(Symbol::CloseBracket)?;
            return Ok(found);
        }
    }
    Err(tokens.unexpected())
}

/// A parent, or any in brackets.
#[tactic(auto, unfolding(crate::specs::Reading::parents))]
fn read_parents(alloc: Global, tokens: &mut Cursor<'_, '_>) -> Result<Vec<Parent>, Stop>
    ensures { Reads (λ all. map parent_of all.items) (spec.parents tokens.old) result tokens.new }
{
    if tokens.eat(Symbol::OpenBracket) {
        return read_listed_parents(alloc, tokens);
    }
    let parent = read_parent(alloc, tokens)?;
    let mut found = Vec::with_capacity(alloc, 1)?;
    found.push(parent)?;
    Ok(found)
}

/// The parents of an action, where `in` is written.
#[tactic(auto, unfolding(crate::specs::Reading::inside))]
pub(crate) fn read_inside(
    alloc: Global,
    tokens: &mut Cursor<'_, '_>,
) -> Result<Option<Vec<Parent>>, Stop>
    ensures { Reads (option_map (λ all. map parent_of all.items)) (spec.inside tokens.old)
        result tokens.new }
{
    if tokens.eat_word("in") {
        let parents = read_parents(alloc, tokens)?;
        Ok(Some(parents))
    } else {
        Ok(None)
    }
}

/// A colon and paths.
#[tactic(auto, unfolding(crate::specs::Reading::said_paths))]
fn read_said_paths(alloc: Global, tokens: &mut Cursor<'_, '_>) -> Result<Vec<Path>, Stop>
    ensures { Reads (λ all. map path_of all.items) (spec.said_paths tokens.old) result tokens.new }
{
    tokens.expect(Symbol::Colon)?;
    read_paths(alloc, tokens)
}

/// A colon and the type of a context.
#[tactic(auto, unfolding(crate::specs::Reading::said_context))]
fn read_said_context(alloc: Global, tokens: &mut Cursor<'_, '_>, limit: usize) -> Result<Type, Stop>
    ensures { Reads type_of (spec.said_context limit tokens.old) result tokens.new }
{
    tokens.expect(Symbol::Colon)?;
    read_context(alloc, tokens, limit)
}

/// A part of an `appliesTo`.
#[tactic(auto, unfolding(crate::specs::Reading::part))]
fn read_part(alloc: Global, tokens: &mut Cursor<'_, '_>, limit: usize) -> Result<Part, Stop>
    ensures { Reads part_of (spec.part limit tokens.old) result tokens.new }
{
    let loc = first_loc(tokens.here());
    let says = if tokens.eat_word("context") {
        Says::Context(read_said_context(alloc, tokens, limit)?)
    } else if tokens.eat_word("principal") {
        Says::Principals(read_said_paths(alloc, tokens)?)
    } else {
        tokens.expect_word("resource")?;
        Says::Resources(read_said_paths(alloc, tokens)?)
    };
    Ok(Part { says, loc })
}

/// Parts of an `appliesTo`, up to the closing brace.
#[tactic(auto, unfolding(crate::specs::Reading::until_from))]
fn read_parts(alloc: Global, tokens: &mut Cursor<'_, '_>, limit: usize) -> Result<Vec<Part>, Stop>
    ensures { Reads (λ all. map part_of all.items)
        (spec.until (spec.part limit) sign.CloseBrace tokens.old) result tokens.new }
{
    let mut found = Vec::with_capacity(alloc, 3)?;
    for _turn in 0..tokens.left() {
        if tokens.eat(Symbol::CloseBrace) {
            return Ok(found);
        }
        found.push(read_part(alloc, tokens, limit)?)?;
        if !tokens.eat(Symbol::Comma) {
            tokens.expect(Symbol::CloseBrace)?;
            return Ok(found);
        }
    }
    Err(tokens.unexpected())
}

/// At least one part of an `appliesTo`, up to the closing brace.
fn read_some_parts(
    alloc: Global,
    tokens: &mut Cursor<'_, '_>,
    limit: usize,
) -> Result<Vec<Part>, Stop>
    ensures { Reads (λ all. map part_of all.items)
        (spec.some_until (spec.part limit) sign.CloseBrace tokens.old) result tokens.new }
{
    if tokens.sees(Symbol::CloseBrace) {
        return Err(tokens.unexpected());
    }
    read_parts(alloc, tokens, limit)
}

/// The `appliesTo` of an action, where one is written.
#[tactic(auto, unfolding(crate::specs::Reading::applies))]
pub(crate) fn read_applies(
    alloc: Global,
    tokens: &mut Cursor<'_, '_>,
    limit: usize,
) -> Result<Option<Applies>, Stop>
    ensures { Reads (option_map applies_of) (spec.applies limit tokens.old) result tokens.new }
{
    let start = tokens.here();
    if !tokens.eat_word("appliesTo") {
        return Ok(None);
    }
    tokens.expect(Symbol::OpenBrace)?;
    let parts = read_some_parts(alloc, tokens, limit)?;
    let loc = between(start, tokens.here());
    Ok(Some(Applies { parts, loc }))
}

/// The empty `attributes` of an action, where they are written.
#[tactic(auto, unfolding(crate::specs::Reading::no_values))]
pub(crate) fn read_no_values(tokens: &mut Cursor<'_, '_>) -> Result<(), Stop>
    ensures { Reads (λ _. tt) (spec.no_values tokens.old) result tokens.new }
{
    if tokens.eat_word("attributes") {
        tokens.expect(Symbol::OpenBrace)?;
        tokens.expect(Symbol::CloseBrace)?;
    }
    Ok(())
}
