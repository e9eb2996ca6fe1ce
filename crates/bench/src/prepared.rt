//! What pieces of work are done on, made ready before the clock runs.

ghost use Rattle.cedar_ast.specs.Words.{TypeNamesFit, extension_types};

use crate::by_hand::{actions, growing_types, standard_types, uid};
use crate::declared::{Declared, FIRST, fragments_of, whole_fragment};
use crate::graphs::{Graph, Shape, graph};
use crate::names::{Letters, entity_type, lettered, numbered};
use crate::piece::{OfOne, OfSchema, OfText, OfTwo, Piece};
use crate::stop::Stop;
use crate::types::{
    attributes, closed_record, entities, record, record_value, record_with_text, union,
};
use cedar_json_writer::fragment_to_json;
use cedar_schema::below::{EntityType, EntityUID, Extensions, ValidationMode, Value};
use cedar_schema::json_schema::{Fragment, RawName};
use cedar_schema::{
    Attributes, OpenTag, Type, ValidatorActionId, ValidatorEntityType, ValidatorSchema,
};
use cedar_schema_text_writer::fragment_to_text;
use std::alloc::Global;
use std::collections::{BTreeMap, HashMap};

/// What is borrowed by the work, which may be done on it again.
#[derive(Drop)]
pub(crate) enum Borrowed {
    /// A type, of which something is asked.
    One(OfOne, Type),
    /// Two types, of which something is asked.
    Two(OfTwo, Type, Type),
    /// Attributes, of which the one of a name is looked up.
    LookUp(Attributes, String),
    /// A type and a value that may have it.
    Membership(Type, Value),
    /// Types that are joined, one after another.
    Joins(Vec<Type>),
    /// A schema, of which something is asked.
    Schema(OfSchema, ValidatorSchema),
    /// Two versions of a schema, which are compared.
    Versions(ValidatorSchema, ValidatorSchema),
    /// A schema, in which an entity type and an action are looked up.
    Declared(ValidatorSchema, EntityType, EntityUID),
    /// Hash maps of names and of uids, in which one of each is looked up.
    Hashed(HashMap<EntityType, usize>, HashMap<EntityUID, usize>, EntityType, EntityUID),
    /// A schema, and a type of which it may know attributes.
    KnownAttributes(ValidatorSchema, Type),
    /// A text of which something is asked.
    Text(OfText, String),
    /// A fragment that is written as JSON.
    Fragment(Fragment<RawName>),
}

/// What is given to the work, and used up by it.
#[derive(Drop)]
pub(crate) enum Given {
    /// Fragments that a schema is built from.
    Build(Vec<Fragment<RawName>>),
    /// A graph that is closed, cycles allowed.
    Close(Graph),
    /// A schema that is validated.
    Validate(ValidatorSchema),
}

/// What a piece of work is done on.
#[derive(Drop)]
pub(crate) enum Prepared {
    /// Lent to it.
    Borrowed(Borrowed),
    /// Given to it.
    Given(Given),
}

/// No extension types and functions.
pub(crate) fn no_extensions(alloc: Global) -> Extensions
    ensures { TypeNamesFit (extension_types result) }
{
    Extensions::new(Vec::new(alloc), BTreeMap::new(alloc))
}

/// What is borrowed by a piece of work.
fn on_borrowed(borrowed: Borrowed) -> Result<Prepared, Stop> {
    Ok(Prepared::Borrowed(borrowed))
}

/// A record, of which something is asked.
fn record_alone(alloc: Global, question: OfOne, count: usize) -> Result<Prepared, Stop> {
    on_borrowed(Borrowed::One(question, closed_record(alloc, 0..count)?))
}

/// Two equal records, of which something is asked that is resolved at their last attributes.
fn equal_records(
    alloc: Global,
    question: OfTwo,
    count: usize,
    openness: OpenTag,
) -> Result<Prepared, Stop> {
    let one = record(alloc, 0..count, Type::primitive_long(), openness)?;
    let other = record(alloc, 0..count, Type::primitive_long(), openness)?;
    on_borrowed(Borrowed::Two(question, one, other))
}

/// Look-up of the last attribute of as many.
fn look_up(alloc: Global, count: usize) -> Result<Prepared, Stop> {
    let name = numbered(alloc, "attribute", count.saturating_sub(1))?;
    on_borrowed(Borrowed::LookUp(attributes(alloc, 0..count)?, name))
}

/// Membership of a value with all attributes.
fn membership(alloc: Global, count: usize) -> Result<Prepared, Stop> {
    let ty = closed_record(alloc, 0..count)?;
    on_borrowed(Borrowed::Membership(ty, record_value(alloc, 0..count)?))
}

/// Two unions, of which something is asked, from some number on in the second.
fn unions(alloc: Global, question: OfTwo, count: usize, from: usize) -> Result<Prepared, Stop> {
    let one = union(alloc, 0..count)?;
    let other = union(alloc, from..count.saturating_add(from))?;
    on_borrowed(Borrowed::Two(question, one, other))
}

/// The join of some entity types, one after another.
fn joins(alloc: Global, count: usize) -> Result<Prepared, Stop> {
    on_borrowed(Borrowed::Joins(entities(alloc, 0..count)?))
}

/// The join of two closed records of unlike attributes, from some number on in the second.
fn join(alloc: Global, count: usize, from: usize, mode: ValidationMode) -> Result<Prepared, Stop> {
    let closed = OpenTag::ClosedAttributes;
    let numbers = from..count.saturating_add(from);
    let one = record(alloc, 0..count, Type::singleton_boolean(true), closed)?;
    let other = record(alloc, numbers, Type::singleton_boolean(false), closed)?;
    on_borrowed(Borrowed::Two(OfTwo::Join(mode), one, other))
}

/// A value of one record that isn't one of another, whose last attributes are unlike.
fn separation(alloc: Global, count: usize) -> Result<Prepared, Stop> {
    let one = closed_record(alloc, 0..count)?;
    on_borrowed(Borrowed::Two(OfTwo::Separation, one, record_with_text(alloc, count)?))
}

/// The schema that is built from fragments.
pub(crate) fn built(
    alloc: Global,
    fragments: Vec<Fragment<RawName>>,
) -> Result<ValidatorSchema, Stop> {
    Ok(ValidatorSchema::from_raw_fragments(alloc, fragments, &no_extensions(alloc))?)
}

/// The schema of what is declared.
fn schema_of(alloc: Global, declared: Declared, count: usize) -> Result<ValidatorSchema, Stop> {
    built(alloc, fragments_of(alloc, declared, count)?)
}

/// The schema that is put together by hand from entity types and actions.
fn put_together(
    alloc: Global,
    types: Vec<ValidatorEntityType>,
    actions: Vec<ValidatorActionId>,
) -> Result<ValidatorSchema, Stop> {
    Ok(ValidatorSchema::new(alloc, types, actions)?)
}

/// The environments of an action that applies to each pair of as many entity types.
fn environments(alloc: Global, count: usize) -> Result<Prepared, Stop> {
    let schema = schema_of(alloc, Declared::ApplyingToAll, count)?;
    on_borrowed(Borrowed::Schema(OfSchema::Environments, schema))
}

/// A schema of as many entity types and actions, of which something is asked.
fn schema_alone(alloc: Global, question: OfSchema, count: usize) -> Result<Prepared, Stop> {
    let schema = schema_of(alloc, Declared::Whole, count)?;
    on_borrowed(Borrowed::Schema(question, schema))
}

/// A schema of as many entity types and actions, to be compared with another version.
fn versions(alloc: Global, new: Declared, count: usize) -> Result<Prepared, Stop> {
    let new = schema_of(alloc, new, count)?;
    let old = schema_of(alloc, Declared::Whole, count)?;
    on_borrowed(Borrowed::Versions(old, new))
}

/// The entity type and the action of a number, to be looked up among as many of each.
fn schema_look_up(alloc: Global, count: usize, number: usize) -> Result<Prepared, Stop> {
    let (ty, action) = (entity_type(alloc, number)?, uid(alloc, number)?);
    let schema = schema_of(alloc, Declared::Whole, count)?;
    on_borrowed(Borrowed::Declared(schema, ty, action))
}

/// The entity type and the action of a number, to be looked up in hash maps of as many of each,
/// under the names that a schema has, which are shared with it.
fn hashed_look_up(alloc: Global, count: usize, number: usize) -> Result<Prepared, Stop> {
    let schema = schema_of(alloc, Declared::Whole, count)?;
    let mut types = HashMap::new(alloc);
    for ty in schema.entity_types() {
        types.insert(ty.name().clone()?, count)?;
    }
    let mut actions = HashMap::new(alloc);
    for action in schema.action_ids() {
        actions.insert(action.name().clone()?, count)?;
    }
    let (ty, action) = (entity_type(alloc, number)?, uid(alloc, number)?);
    on_borrowed(Borrowed::Hashed(types, actions, ty, action))
}

/// The last entity type of those of some letters and a number of eight digits, to be looked up, and
/// an action where there are none.
fn lettered_look_up(alloc: Global, letters: Letters, count: usize) -> Result<Prepared, Stop> {
    let last = FIRST.saturating_add(count.saturating_sub(1));
    let (ty, action) = (lettered(alloc, letters.text(), last)?, uid(alloc, last)?);
    let schema = schema_of(alloc, Declared::EightDigits(letters), count)?;
    on_borrowed(Borrowed::Declared(schema, ty, action))
}

/// A union of as many entity types, each of which has one attribute more than the one before it.
fn known_attributes(alloc: Global, count: usize) -> Result<Prepared, Stop> {
    let ty = union(alloc, 0..count)?;
    let schema = put_together(alloc, growing_types(alloc, count)?, Vec::new(alloc))?;
    on_borrowed(Borrowed::KnownAttributes(schema, ty))
}

/// Fragments that are built.
fn build(alloc: Global, declared: Declared, count: usize) -> Result<Prepared, Stop> {
    Ok(Prepared::Given(Given::Build(fragments_of(alloc, declared, count)?)))
}

/// A graph of a shape.
fn close(alloc: Global, shape: Shape, count: usize) -> Result<Prepared, Stop> {
    Ok(Prepared::Given(Given::Close(graph(alloc, shape, count)?)))
}

/// A schema that is put together by hand.
fn validate(alloc: Global, count: usize) -> Result<Prepared, Stop> {
    let types = standard_types(alloc, count)?;
    let schema = put_together(alloc, types, actions(alloc, count)?)?;
    Ok(Prepared::Given(Given::Validate(schema)))
}

/// A fragment of as many entity types and actions, to be written as JSON.
fn written(alloc: Global, count: usize) -> Result<Prepared, Stop> {
    on_borrowed(Borrowed::Fragment(whole_fragment(alloc, count)?))
}

/// A fragment of as many entity types and actions in a format of which something is asked.
fn text(alloc: Global, question: OfText, count: usize) -> Result<Prepared, Stop> {
    let fragment = whole_fragment(alloc, count)?;
    let text = match question {
        OfText::Parse | OfText::Read => fragment_to_json(alloc, &fragment)?,
        OfText::ReadSyntax => fragment_to_text(alloc, &fragment, &[])?,
    };
    on_borrowed(Borrowed::Text(question, text))
}

/// What a piece of work is done on, at a size.
pub(crate) fn prepare(alloc: Global, piece: Piece, count: usize) -> Result<Prepared, Stop> {
    let (strict, permissive) = (ValidationMode::Strict, ValidationMode::Permissive);
    match piece {
        Piece::EqualRecords(question, openness) => {
            equal_records(alloc, question, count, openness)
        }
        Piece::LookUp => look_up(alloc, count),
        Piece::Membership => membership(alloc, count),
        Piece::Record(question) => record_alone(alloc, question, count),
        Piece::UnionInclusion => unions(alloc, OfTwo::Subtype(permissive), count, 0),
        Piece::UnionDisjointness => unions(alloc, OfTwo::Disjointness, count, count),
        Piece::UnionJoins => joins(alloc, count),
        Piece::JoinStrict => join(alloc, count, 0, strict),
        Piece::JoinPermissive => join(alloc, count, count / 2, permissive),
        Piece::Separation => separation(alloc, count),
        Piece::Build(declared) => build(alloc, declared, count),
        Piece::Close(shape) => close(alloc, shape, count),
        Piece::SchemaLookUp => schema_look_up(alloc, count, count.saturating_sub(1)),
        Piece::LookUpLacking => schema_look_up(alloc, count, count),
        Piece::LookUpHashed => hashed_look_up(alloc, count, count.saturating_sub(1)),
        Piece::LookUpLettered(letters) => lettered_look_up(alloc, letters, count),
        Piece::Environments => environments(alloc, count),
        Piece::KnownAttributes => known_attributes(alloc, count),
        Piece::Validate => validate(alloc, count),
        Piece::Schema(question) => schema_alone(alloc, question, count),
        Piece::Compare(new) => versions(alloc, new, count),
        Piece::Text(question) => text(alloc, question, count),
        Piece::WriteJson => written(alloc, count),
    }
}
