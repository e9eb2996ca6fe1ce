//! Bodies of entity types.

ghost use Rattle.std.specs.Option.{option_map};
ghost use Rattle.std.specs.Prelude.{◌≡◌, map};
ghost use Rattle.cedar_schema_tokens.specs.declared.token.Symbol.TheVariants as sign;
ghost use Rattle.cedar_schema_grammar.specs.Reading as spec;
ghost use Rattle.cedar_schema_grammar.specs.Cursor.{Reads};
ghost use Rattle.cedar_schema_grammar.specs.Plain.{body_of, name_of, path_of, type_of};

use crate::cursor::Cursor;
use crate::fault::Stop;
use crate::reading::names::read_path;
use crate::reading::types::{read_record, read_type};
use crate::tree::{Body, Name, Path, Type};
use cedar_schema_tokens::Symbol;
use std::alloc::Global;

/// Paths, up to a closing bracket.
#[tactic(auto, unfolding(crate::specs::Reading::until_from))]
fn read_listed_paths(alloc: Global, tokens: &mut Cursor<'_, '_>) -> Result<Vec<Path>, Stop>
    ensures { Reads (λ all. map path_of all.items)
        (spec.until spec.path sign.CloseBracket tokens.old) result tokens.new }
{
    let mut found = Vec::with_capacity(alloc, 1)?;
    for _turn in 0..tokens.left() {
        if tokens.eat(Symbol::CloseBracket) {
            return Ok(found);
        }
        found.push(read_path(alloc, tokens)?)?;
        if !tokens.eat(Symbol::Comma) {
            tokens.expect(Symbol::CloseBracket)?;
            return Ok(found);
        }
    }
    Err(tokens.unexpected())
}

/// A path, or any in brackets.
#[tactic(auto, unfolding(crate::specs::Reading::paths))]
pub(crate) fn read_paths(alloc: Global, tokens: &mut Cursor<'_, '_>) -> Result<Vec<Path>, Stop>
    ensures { Reads (λ all. map path_of all.items) (spec.paths tokens.old) result tokens.new }
{
    if tokens.eat(Symbol::OpenBracket) {
        return read_listed_paths(alloc, tokens);
    }
    let path = read_path(alloc, tokens)?;
    let mut found = Vec::with_capacity(alloc, 1)?;
    found.push(path)?;
    Ok(found)
}

/// The parents of an entity type, none where there is no `in`.
#[tactic(auto, unfolding(crate::specs::Reading::below))]
fn read_below(alloc: Global, tokens: &mut Cursor<'_, '_>) -> Result<Vec<Path>, Stop>
    ensures { Reads (λ all. map path_of all.items) (spec.below tokens.old) result tokens.new }
{
    if tokens.eat_word("in") {
        read_paths(alloc, tokens)
    } else {
        Ok(Vec::new(alloc))
    }
}

/// The shape of an entity type, where one is written.
#[tactic(auto, unfolding(crate::specs::Reading::shape))]
fn read_shape(
    alloc: Global,
    tokens: &mut Cursor<'_, '_>,
    limit: usize,
) -> Result<Option<Type>, Stop>
    ensures { Reads (option_map type_of) (spec.shape limit tokens.old) result tokens.new }
{
    if tokens.eat(Symbol::Equals) || tokens.sees(Symbol::OpenBrace) {
        let shape = read_record(alloc, tokens, limit)?;
        Ok(Some(shape))
    } else {
        Ok(None)
    }
}

/// The type of an entity type's tags, where one is written.
#[tactic(auto, unfolding(crate::specs::Reading::tags))]
fn read_tags(alloc: Global, tokens: &mut Cursor<'_, '_>, limit: usize) -> Result<Option<Type>, Stop>
    ensures { Reads (option_map type_of) (spec.tags limit tokens.old) result tokens.new }
{
    if tokens.eat_word("tags") {
        let tags = read_type(alloc, tokens, limit)?;
        Ok(Some(tags))
    } else {
        Ok(None)
    }
}

/// Quoted texts, up to a closing bracket.
#[tactic(auto, unfolding(crate::specs::Reading::until_from))]
fn read_texts(alloc: Global, tokens: &mut Cursor<'_, '_>) -> Result<Vec<Name>, Stop>
    ensures { Reads (λ all. map name_of all.items)
        (spec.until spec.quoted sign.CloseBracket tokens.old) result tokens.new }
{
    let mut found = Vec::new(alloc);
    for _turn in 0..tokens.left() {
        if tokens.eat(Symbol::CloseBracket) {
            return Ok(found);
        }
        found.push(tokens.quoted(alloc)?)?;
        if !tokens.eat(Symbol::Comma) {
            tokens.expect(Symbol::CloseBracket)?;
            return Ok(found);
        }
    }
    Err(tokens.unexpected())
}

/// At least one quoted text, up to a closing bracket.
fn read_choices(alloc: Global, tokens: &mut Cursor<'_, '_>) -> Result<Vec<Name>, Stop>
    ensures { Reads (λ all. map name_of all.items)
        (spec.some_until spec.quoted sign.CloseBracket tokens.old) result tokens.new }
{
    if tokens.sees(Symbol::CloseBracket) {
        return Err(tokens.unexpected());
    }
    read_texts(alloc, tokens)
}

/// The body of an entity type.
#[tactic(auto, unfolding(crate::specs::Reading::body))]
pub(crate) fn read_body(
    alloc: Global,
    tokens: &mut Cursor<'_, '_>,
    limit: usize,
) -> Result<Body, Stop>
    ensures { Reads body_of (spec.body limit tokens.old) result tokens.new }
{
    if tokens.eat_word("enum") {
        tokens.expect(Symbol::OpenBracket)?;
        let names = read_choices(alloc, tokens)?;
        return Ok(Body::Choices(names));
    }
    let parents = read_below(alloc, tokens)?;
    let shape = read_shape(alloc, tokens, limit)?;
    let tags = read_tags(alloc, tokens, limit)?;
    Ok(Body::Standard {
        parents,
        shape,
        tags,
    })
}
