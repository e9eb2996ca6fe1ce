//! Names, paths and annotations.

ghost use Rattle.std.specs.Prelude.{◌≡◌, map, string_bytes};
ghost use Rattle.cedar_schema_tokens.specs.declared.token.Symbol.TheVariants as sign;
ghost use Rattle.cedar_schema_grammar.specs.Reading as spec;
ghost use Rattle.cedar_schema_grammar.specs.Cursor.{Reads};
ghost use Rattle.cedar_schema_grammar.specs.Plain.{name_of, path_of};

use crate::cursor::{Cursor, between};
use crate::fault::Stop;
use crate::tree::{Name, Path};
use cedar_schema_tokens::Symbol;
use std::alloc::Global;

/// Ids with `::` between them.
#[tactic(auto, unfolding(crate::specs::Reading::separated_from))]
fn read_ids(alloc: Global, tokens: &mut Cursor<'_, '_>) -> Result<Vec<String>, Stop>
    ensures { Reads (λ ids. map string_bytes ids.items)
        (spec.separated spec.id_text sign.PathSeparator tokens.old) result tokens.new }
{
    let mut found = Vec::with_capacity(alloc, 1)?;
    for _turn in 0..tokens.left() {
        found.push(tokens.id_text(alloc)?)?;
        if !tokens.eat(Symbol::PathSeparator) {
            return Ok(found);
        }
    }
    Err(tokens.unexpected())
}

/// A path.
#[tactic(auto, unfolding(crate::specs::Reading::path))]
pub(crate) fn read_path(alloc: Global, tokens: &mut Cursor<'_, '_>) -> Result<Path, Stop>
    ensures { Reads path_of (spec.path tokens.old) result tokens.new }
{
    let start = tokens.here();
    let ids = read_ids(alloc, tokens)?;
    let loc = between(start, tokens.here());
    Ok(Path { ids, loc })
}

/// Ids with commas between them.
#[tactic(auto, unfolding(crate::specs::Reading::separated_from))]
pub(crate) fn read_id_list(alloc: Global, tokens: &mut Cursor<'_, '_>) -> Result<Vec<Name>, Stop>
    ensures { Reads (λ names. map name_of names.items)
        (spec.separated spec.id sign.Comma tokens.old) result tokens.new }
{
    let mut found = Vec::with_capacity(alloc, 1)?;
    for _turn in 0..tokens.left() {
        found.push(tokens.id(alloc)?)?;
        if !tokens.eat(Symbol::Comma) {
            return Ok(found);
        }
    }
    Err(tokens.unexpected())
}

/// Ids and texts with commas between them.
#[tactic(auto, unfolding(crate::specs::Reading::separated_from))]
pub(crate) fn read_name_list(alloc: Global, tokens: &mut Cursor<'_, '_>) -> Result<Vec<Name>, Stop>
    ensures { Reads (λ names. map name_of names.items)
        (spec.separated spec.name sign.Comma tokens.old) result tokens.new }
{
    let mut found = Vec::with_capacity(alloc, 1)?;
    for _turn in 0..tokens.left() {
        found.push(tokens.name(alloc)?)?;
        if !tokens.eat(Symbol::Comma) {
            return Ok(found);
        }
    }
    Err(tokens.unexpected())
}

/// An annotation, of which the name is kept.
#[tactic(auto, unfolding(crate::specs::Reading::annotation))]
fn read_annotation(alloc: Global, tokens: &mut Cursor<'_, '_>) -> Result<Name, Stop>
    ensures { Reads name_of (spec.annotation tokens.old) result tokens.new }
{
    tokens.expect(Symbol::At)?;
    let name = tokens.id(alloc)?;
    if tokens.eat(Symbol::OpenParenthesis) {
        tokens.quoted(alloc)?;
        tokens.expect(Symbol::CloseParenthesis)?;
    }
    Ok(name)
}

/// Annotations, of which the names are kept.
#[tactic(auto, unfolding(crate::specs::Reading::while_from))]
pub(crate) fn read_annotations(
    alloc: Global,
    tokens: &mut Cursor<'_, '_>,
) -> Result<Vec<Name>, Stop>
    ensures { Reads (λ names. map name_of names.items) (spec.annotations tokens.old)
        result tokens.new }
{
    let mut found = Vec::new(alloc);
    for _turn in 0..tokens.left() {
        if !tokens.sees(Symbol::At) {
            return Ok(found);
        }
        found.push(read_annotation(alloc, tokens)?)?;
    }
    Ok(found)
}
