//! Types.

ghost use Rattle.std.specs.Prelude.{◌≡◌, map};
ghost use Rattle.cedar_schema_tokens.specs.declared.token.Symbol.TheVariants as sign;
ghost use Rattle.cedar_schema_grammar.specs.Reading as spec;
ghost use Rattle.cedar_schema_grammar.specs.Cursor.{Reads};
ghost use Rattle.cedar_schema_grammar.specs.Plain.{attribute_of, type_of};

use crate::cursor::{Cursor, between};
use crate::fault::Stop;
use crate::reading::names::{read_annotations, read_path};
use crate::tree::{Attribute, Type};
use cedar_schema_tokens::Symbol;
use std::alloc::Global;

/// A type in which sets and records nest no deeper than the limit.
#[cycle(types)]
#[tactic(auto, unfolding(crate::specs::Reading::type_at, crate::specs::Reading::set_with, crate::specs::Reading::record_with))]
pub(crate) fn read_type(
    alloc: Global,
    tokens: &mut Cursor<'_, '_>,
    limit: usize,
) -> Result<Type, Stop>
    ensures { Reads type_of (spec.type_at limit tokens.old) result tokens.new }
{
    if tokens.sees(Symbol::OpenBrace) {
        if limit == 0 {
            return Err(Stop::TooDeep(tokens.left()));
        }
        let start = tokens.here();
        tokens.skip(1);
        let attributes = read_attributes(alloc, tokens, limit - 1)?;
        let loc = between(start, tokens.here());
        return Ok(Type::Record(attributes, loc));
    }
    if tokens.begins_set() {
        if limit == 0 {
            return Err(Stop::TooDeep(tokens.left()));
        }
        tokens.skip(2);
        let element = read_type(alloc, tokens, limit - 1)?;
        tokens.expect(Symbol::Greater)?;
        return Ok(Type::Set(Box::new(alloc, element)?));
    }
    let path = read_path(alloc, tokens)?;
    Ok(Type::Path(path))
}

/// The attributes of a record, up to its closing brace.
#[cycle(types)]
#[tactic(auto, unfolding(crate::specs::Reading::until_from))]
fn read_attributes(
    alloc: Global,
    tokens: &mut Cursor<'_, '_>,
    limit: usize,
) -> Result<Vec<Attribute<Type>>, Stop>
    ensures { Reads (λ all. map attribute_of all.items) (spec.until
        (spec.attribute_with (spec.type_at limit)) sign.CloseBrace tokens.old) result tokens.new }
{
    let mut found = Vec::with_capacity(alloc, 1)?;
    for _turn in 0..tokens.left() {
        if tokens.eat(Symbol::CloseBrace) {
            return Ok(found);
        }
        found.push(read_attribute(alloc, tokens, limit)?)?;
        if !tokens.eat(Symbol::Comma) {
            tokens.expect(Symbol::CloseBrace)?;
            return Ok(found);
        }
    }
    Err(tokens.unexpected())
}

/// One attribute.
#[cycle(types)]
#[tactic(auto, unfolding(crate::specs::Reading::attribute_with))]
fn read_attribute(
    alloc: Global,
    tokens: &mut Cursor<'_, '_>,
    limit: usize,
) -> Result<Attribute<Type>, Stop>
    ensures { Reads attribute_of (spec.attribute_with (spec.type_at limit) tokens.old)
        result tokens.new }
{
    let annotations = read_annotations(alloc, tokens)?;
    let name = tokens.name(alloc)?;
    let is_required = !tokens.eat(Symbol::Question);
    tokens.expect(Symbol::Colon)?;
    let of = read_type(alloc, tokens, limit)?;
    Ok(Attribute {
        annotations,
        name,
        is_required,
        of,
    })
}

/// A record type.
pub(crate) fn read_record(
    alloc: Global,
    tokens: &mut Cursor<'_, '_>,
    limit: usize,
) -> Result<Type, Stop>
    ensures { Reads type_of (spec.record_type limit tokens.old) result tokens.new }
{
    if tokens.sees(Symbol::OpenBrace) {
        read_type(alloc, tokens, limit)
    } else {
        Err(tokens.unexpected())
    }
}

/// The type of a context: a record type or a path.
pub(crate) fn read_context(
    alloc: Global,
    tokens: &mut Cursor<'_, '_>,
    limit: usize,
) -> Result<Type, Stop>
    ensures { Reads type_of (spec.context_type limit tokens.old) result tokens.new }
{
    if tokens.sees(Symbol::OpenBrace) {
        return read_type(alloc, tokens, limit);
    }
    let path = read_path(alloc, tokens)?;
    Ok(Type::Path(path))
}
