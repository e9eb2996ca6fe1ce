//! Declarations, and all of a schema.

ghost use Rattle.std.specs.Prelude.{◌≡◌, ◌≤◌, List, map, IfOk, IfErr};
ghost use Rattle.cedar_schema_tokens.specs.Token.{Token as PlainToken, token_of};
ghost use Rattle.cedar_schema_tokens.specs.declared.token.Symbol.TheVariants as sign;
ghost use Rattle.cedar_schema_grammar.specs.Tree.{Member as Plain, highest, level_of_member};
ghost use Rattle.cedar_schema_grammar.specs.Exact.{Refuses, located};
ghost use Rattle.cedar_schema_grammar.specs.Grammar.{IsSchema};
ghost use Rattle.cedar_schema_grammar.specs.Reading as spec;
ghost use Rattle.cedar_schema_grammar.specs.Cursor.{Reads};
ghost use Rattle.cedar_schema_grammar.specs.Plain.{declaration_of, item_of, member_of, name_of};

use crate::cursor::{Cursor, between, loc_at};
use crate::fault::{GrammarFault, Stop};
use crate::reading::actions::{read_applies, read_inside, read_no_values};
use crate::reading::entities::read_body;
use crate::reading::names::{read_annotations, read_id_list, read_name_list, read_path};
use crate::reading::types::read_type;
use crate::tree::{Declaration, Item, Member, Name};
use cedar_ast::Loc;
use cedar_schema_tokens::{Symbol, Token};
use std::alloc::Global;

/// Entity types, behind `entity`.
#[tactic(auto, unfolding(crate::specs::Reading::entity_item))]
fn read_entity(
    alloc: Global,
    tokens: &mut Cursor<'_, '_>,
    limit: usize,
    external: bool,
) -> Result<Item, Stop>
    ensures { Reads item_of (spec.entity_item limit external tokens.old) result tokens.new }
{
    let names = read_id_list(alloc, tokens)?;
    let body = read_body(alloc, tokens, limit)?;
    Ok(Item::Entity {
        external,
        names,
        body,
    })
}

/// Actions, behind `action`.
#[tactic(auto, unfolding(crate::specs::Reading::action_item))]
fn read_action(
    alloc: Global,
    tokens: &mut Cursor<'_, '_>,
    limit: usize,
    external: bool,
) -> Result<Item, Stop>
    ensures { Reads item_of (spec.action_item limit external tokens.old) result tokens.new }
{
    let names = read_name_list(alloc, tokens)?;
    let parents = read_inside(alloc, tokens)?;
    let applies = read_applies(alloc, tokens, limit)?;
    read_no_values(tokens)?;
    Ok(Item::Action {
        external,
        names,
        parents,
        applies,
    })
}

/// A common type, behind `type`.
#[tactic(auto, unfolding(crate::specs::Reading::common_item))]
fn read_common(alloc: Global, tokens: &mut Cursor<'_, '_>, limit: usize) -> Result<Item, Stop>
    ensures { Reads item_of (spec.common_item limit tokens.old) result tokens.new }
{
    let name = tokens.id(alloc)?;
    tokens.expect(Symbol::Equals)?;
    let of = read_type(alloc, tokens, limit)?;
    Ok(Item::Common { name, of })
}

/// Entity types or actions.
#[tactic(auto, unfolding(crate::specs::Reading::declared))]
fn read_declared(
    alloc: Global,
    tokens: &mut Cursor<'_, '_>,
    limit: usize,
    external: bool,
) -> Result<Item, Stop>
    ensures { Reads item_of (spec.declared limit external tokens.old) result tokens.new }
{
    if tokens.eat_word("entity") {
        return read_entity(alloc, tokens, limit, external);
    }
    tokens.expect_word("action")?;
    read_action(alloc, tokens, limit, external)
}

/// What is declared.
#[tactic(auto, unfolding(crate::specs::Reading::item))]
fn read_item(alloc: Global, tokens: &mut Cursor<'_, '_>, limit: usize) -> Result<Item, Stop>
    ensures { Reads item_of (spec.item limit tokens.old) result tokens.new }
{
    if tokens.eat_word("type") {
        return read_common(alloc, tokens, limit);
    }
    let external = tokens.eat_word("external");
    read_declared(alloc, tokens, limit, external)
}

/// A declaration, behind its annotations.
#[tactic(auto, unfolding(crate::specs::Reading::annotated))]
fn read_annotated(
    alloc: Global,
    tokens: &mut Cursor<'_, '_>,
    limit: usize,
    annotations: Vec<Name>,
) -> Result<Declaration, Stop>
    ensures { Reads declaration_of (spec.annotated limit (map name_of annotations.items) tokens.old)
        result tokens.new }
{
    let start = tokens.here();
    let item = read_item(alloc, tokens, limit)?;
    tokens.expect(Symbol::Semicolon)?;
    let loc = between(start, tokens.here());
    Ok(Declaration {
        annotations,
        item,
        loc,
    })
}

/// A declaration with its annotations.
#[tactic(auto, unfolding(crate::specs::Reading::declaration))]
fn read_declaration(
    alloc: Global,
    tokens: &mut Cursor<'_, '_>,
    limit: usize,
) -> Result<Declaration, Stop>
    ensures { Reads declaration_of (spec.declaration limit tokens.old) result tokens.new }
{
    let annotations = read_annotations(alloc, tokens)?;
    read_annotated(alloc, tokens, limit, annotations)
}

/// Declarations, up to a closing brace.
#[tactic(auto, unfolding(crate::specs::Reading::while_from))]
fn read_declarations(
    alloc: Global,
    tokens: &mut Cursor<'_, '_>,
    limit: usize,
) -> Result<Vec<Declaration>, Stop>
    ensures { Reads (λ all. map declaration_of all.items)
        (spec.while (spec.declaration limit) spec.before_close tokens.old) result tokens.new }
{
    let mut found = Vec::new(alloc);
    for _turn in 0..tokens.left() {
        if tokens.sees(Symbol::CloseBrace) {
            return Ok(found);
        }
        found.push(read_declaration(alloc, tokens, limit)?)?;
    }
    Ok(found)
}

/// A namespace, behind its annotations and `namespace`.
#[tactic(auto, unfolding(crate::specs::Reading::block))]
fn read_block(
    alloc: Global,
    tokens: &mut Cursor<'_, '_>,
    limit: usize,
    annotations: Vec<Name>,
) -> Result<Member, Stop>
    ensures { Reads member_of (spec.block limit (map name_of annotations.items) tokens.old)
        result tokens.new }
{
    let path = read_path(alloc, tokens)?;
    let start = tokens.here();
    tokens.expect(Symbol::OpenBrace)?;
    let declarations = read_declarations(alloc, tokens, limit)?;
    tokens.expect(Symbol::CloseBrace)?;
    let loc = between(start, tokens.here());
    Ok(Member::Namespace {
        annotations,
        path,
        declarations,
        loc,
    })
}

/// A member of a schema.
#[tactic(auto, unfolding(crate::specs::Reading::member))]
fn read_member(alloc: Global, tokens: &mut Cursor<'_, '_>, limit: usize) -> Result<Member, Stop>
    ensures { Reads member_of (spec.member limit tokens.old) result tokens.new }
{
    let annotations = read_annotations(alloc, tokens)?;
    if tokens.eat_word("namespace") {
        return read_block(alloc, tokens, limit, annotations);
    }
    let declaration = read_annotated(alloc, tokens, limit, annotations)?;
    Ok(Member::Alone(declaration))
}

/// All members.
#[tactic(auto, unfolding(crate::specs::Reading::members, crate::specs::Reading::while_from))]
fn read_members(
    alloc: Global,
    tokens: &mut Cursor<'_, '_>,
    limit: usize,
) -> Result<Vec<Member>, Stop>
    ensures { Reads (λ all. map member_of all.items) (spec.members limit tokens.old)
        result tokens.new }
{
    let mut found = Vec::new(alloc);
    for _turn in 0..tokens.left() {
        if tokens.left() == 0 {
            return Ok(found);
        }
        found.push(read_member(alloc, tokens, limit)?)?;
    }
    Ok(found)
}

/// Why reading stopped, with its place.
fn located(stop: Stop, tokens: &[Token<'_>], end: Loc) -> GrammarFault
    ensures { result ≡ located end (map token_of tokens.now) stop }
{
    match stop {
        Stop::Memory => GrammarFault::Memory,
        Stop::Unexpected(left) => GrammarFault::Unexpected(loc_at(tokens, left, end)),
        Stop::TooDeep(left) => GrammarFault::TooDeep(loc_at(tokens, left, end)),
    }
}

/// The schema that the tokens are, all of them, with types that are at most at a level.
///
/// Where a token is refused as unexpected, no schema's tokens begin with those up to it, levels
/// aside. Types are too deep where a set or a record begins beyond the level: each schema that
/// begins with the tokens up to it has such types. The place behind the last token, where the text
/// ends too early, is `end`.
///
/// Source: Cedar reference, "Schema format".
pub fn read(
    alloc: Global,
    tokens: &[Token<'_>],
    limit: usize,
    end: Loc,
) -> Result<Vec<Member>, GrammarFault>
    // What is read is written so.
    ensures found { IfOk result (λ all. IsSchema (map member_of all.items)
        (map token_of tokens.now)) }
    // Its types are at most at the limit.
    ensures nests { IfOk result (λ all. highest level_of_member (map member_of all.items)
        ≤ limit) }
    // What is refused goes on as no schema does, or is none within the limit.
    ensures refused { IfErr result (Refuses limit end (map token_of tokens.now)) }
{
    match read_members(alloc, &mut Cursor::new(tokens), limit) {
        Ok(members) => Ok(members),
        Err(stop) => Err(located(stop, tokens, end)),
    }
}

/// Tokens are read one way at most, whatever the limit.
pub fn one_reading()
    ensures { (ms ns : List Plain) (ts : List PlainToken)
        → IsSchema ms ts → IsSchema ns ts → ms ≡ ns }
{}
