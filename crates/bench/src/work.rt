//! The work of each piece, done once.
//!
//! What takes long is kept apart (`inline(never)`) from the function that finds out which piece is
//! asked for: a function makes room for all its variables at each call, and that would be measured
//! with the pieces that take some nanoseconds.

use crate::graphs::Graph;
use crate::piece::{OfOne, OfSchema, OfText, OfTwo};
use crate::prepared::{Borrowed, Given, built, no_extensions};
use crate::stop::Stop;
use cedar_compare::{Comparison, compare};
use cedar_json::fragment_from_json;
use cedar_json_writer::fragment_to_json;
use cedar_schema::below::{EntityType, EntityUID, ValidationMode, Value};
use cedar_schema::json_schema::{Fragment, RawName};
use cedar_schema::lookup::SchemaLookup;
use cedar_schema::member::separating_value;
use cedar_schema::{EntityLUB, Type, ValidatorSchema, compute_tc_counted};
use cedar_schema_text::fragment_from_text;
use json::Scratch;
use std::alloc::Global;

/// How many attributes or entity types a type lists.
fn listed(ty: &Type) -> usize {
    match ty {
        Type::Record { attrs, .. } => attrs.keys().count(),
        _ => ty.as_entity_lub().map_or(0, members),
    }
}

/// How many entity types a union has.
fn members(union: &EntityLUB) -> usize {
    union.iter().count()
}

/// How many attributes and descendants the entity types of a schema have, all together.
fn entries_of(schema: &ValidatorSchema) -> usize {
    let mut count = 0usize;
    for ty in schema.entity_types() {
        count = count.saturating_add(ty.attributes().keys().count());
        count = count.saturating_add(ty.descendants.len());
    }
    count
}

/// How many lists of targets are gone through to close a graph.
fn lists_gone_through(alloc: Global, mut graph: Graph) -> Result<usize, Stop> {
    let joined = compute_tc_counted(alloc, &mut graph, false)?;
    Ok(joined.min(usize::MAX as u128) as usize)
}

/// How many environments of requests have unlike principals and resources.
fn environments(schema: &ValidatorSchema) -> usize {
    let mut count = 0usize;
    for environment in schema.unlinked_request_envs(ValidationMode::Strict) {
        if environment.principal != environment.resource {
            count = count.saturating_add(1);
        }
    }
    count
}

/// 1 or 0 for whether a value has a type.
fn has_type(alloc: Global, ty: &Type, value: &Value) -> usize {
    let answer = ty.typecheck_value(value, &no_extensions(alloc));
    usize::from(matches!(answer, Ok(true)))
}

/// 1 or 0 for whether some value has the one type and not the other, which have to be stated.
#[inline(never)]
fn separated(alloc: Global, one: &Type, other: &Type) -> Result<usize, Stop> {
    let extensions = no_extensions(alloc);
    if !(one.is_stated(&extensions, &[]) && other.is_stated(&extensions, &[])) {
        return Err(Stop::Refused);
    }
    let found = separating_value(alloc, one, other, &extensions, &[])?;
    Ok(usize::from(found.is_some()))
}

/// How many differences there are between two versions of a schema, lost and gained together.
#[inline(never)]
fn differences(alloc: Global, old: &ValidatorSchema, new: &ValidatorSchema) -> Result<usize, Stop> {
    let Comparison { lost, gained } = compare(alloc, old, new, &no_extensions(alloc), &[])?;
    Ok(lost.len().saturating_add(gained.len()))
}

/// How many of an entity type and an action a schema has.
fn found(schema: &ValidatorSchema, ty: &EntityType, uid: &EntityUID) -> usize {
    let types = usize::from(schema.get_entity_type(ty).is_some());
    let actions = usize::from(schema.get_action_id(uid).is_some());
    types + actions
}

/// How many declarations of entity types and actions a fragment has.
fn declarations(fragment: &Fragment<RawName>) -> usize {
    let mut count = 0usize;
    for definition in fragment.0.values() {
        count = count.saturating_add(definition.entity_types.len());
        count = count.saturating_add(definition.actions.len());
    }
    count
}

/// How many attributes or entity types the join of some types lists.
#[inline(never)]
fn joined(alloc: Global, types: &[Type]) -> Result<usize, Stop> {
    let ty = Type::reduce_to_least_upper_bound(alloc, types, ValidationMode::Permissive)?;
    Ok(listed(&ty))
}

/// How many attributes or entity types the join of two types lists.
#[inline(never)]
fn join(alloc: Global, one: &Type, other: &Type, mode: ValidationMode) -> Result<usize, Stop> {
    Ok(listed(&Type::least_upper_bound(alloc, one, other, mode)?))
}

/// How many attributes a schema knows of a type.
#[inline(never)]
fn known(alloc: Global, schema: &ValidatorSchema, ty: &Type) -> Result<usize, Stop> {
    Ok(ty.all_attributes(alloc, schema)?.keys().count())
}

/// The length of the text of a fragment.
#[inline(never)]
fn written(alloc: Global, fragment: &Fragment<RawName>) -> Result<usize, Stop> {
    Ok(fragment_to_json(alloc, fragment)?.len())
}

/// 1 or 0 for whether a text is JSON in which no key comes twice in an object.
fn is_parsed(alloc: Global, text: &str) -> usize {
    let mut scratch = Scratch::new(alloc);
    usize::from(json::Value::parse_strict(alloc, text, &mut scratch).is_ok())
}

impl OfText {
    /// 1 or 0 for whether the text is JSON, or how many declarations its fragment has.
    #[inline(never)]
    fn work(self, alloc: Global, text: &str) -> Result<usize, Stop> {
        match self {
            OfText::Parse => Ok(is_parsed(alloc, text)),
            OfText::Read => Ok(declarations(&fragment_from_json(alloc, text, 0)?)),
            OfText::ReadSyntax => Ok(declarations(&fragment_from_text(alloc, text, 0)?)),
        }
    }
}

impl OfOne {
    /// The length of the text of a type, or how many attributes or entity types its copy lists.
    fn work(self, alloc: Global, ty: &Type) -> Result<usize, Stop> {
        match self {
            OfOne::Print => Ok(ty.to_string(alloc)?.len()),
            OfOne::Copy => Ok(listed(&ty.clone()?)),
        }
    }
}

impl OfTwo {
    /// 1 or 0 for yes or no, or how many attributes or entity types a join lists.
    fn work(self, alloc: Global, one: &Type, other: &Type) -> Result<usize, Stop> {
        match self {
            OfTwo::Subtype(mode) => Ok(usize::from(Type::is_subtype(one, other, mode))),
            OfTwo::Equality => Ok(usize::from(one == other)),
            OfTwo::Disjointness => Ok(usize::from(Type::are_types_disjoint(one, other))),
            OfTwo::Join(mode) => join(alloc, one, other, mode),
            OfTwo::Separation => separated(alloc, one, other),
        }
    }
}

impl OfSchema {
    /// How many environments or declarations there are, or how many attributes and descendants the
    /// entity types of a copy have.
    #[inline(never)]
    fn work(self, alloc: Global, schema: &ValidatorSchema) -> Result<usize, Stop> {
        match self {
            OfSchema::Environments => Ok(environments(schema)),
            OfSchema::Copy => Ok(entries_of(&schema.clone()?)),
            OfSchema::ConvertBack => Ok(declarations(&schema.to_json_schema(alloc)?)),
        }
    }
}

impl Borrowed {
    /// Does the work once, and answers what it computed: 1 or 0 for yes or no, the length of a
    /// text, or how many names were compared, attributes or members are listed, or environments,
    /// declarations or differences there are.
    pub(crate) fn work(&self, alloc: Global) -> Result<usize, Stop> {
        match self {
            Borrowed::One(question, ty) => question.work(alloc, ty),
            Borrowed::Two(question, one, other) => question.work(alloc, one, other),
            Borrowed::LookUp(attributes, name) => Ok(attributes.get_attr_counted(name).1 as usize),
            Borrowed::Membership(ty, value) => Ok(has_type(alloc, ty, value)),
            Borrowed::Joins(types) => joined(alloc, types),
            Borrowed::Schema(question, schema) => question.work(alloc, schema),
            Borrowed::Versions(old, new) => differences(alloc, old, new),
            Borrowed::Declared(schema, ty, uid) => Ok(found(schema, ty, uid)),
            Borrowed::Hashed(types, actions, ty, uid) => {
                Ok(usize::from(types.contains_key(ty)) + usize::from(actions.contains_key(uid)))
            }
            Borrowed::KnownAttributes(schema, ty) => known(alloc, schema, ty),
            Borrowed::Text(question, text) => question.work(alloc, text),
            Borrowed::Fragment(fragment) => written(alloc, fragment),
        }
    }
}

impl Given {
    /// Does the work, and answers how many attributes and descendants entity types have, or how
    /// many lists were gone through.
    pub(crate) fn work(self, alloc: Global) -> Result<usize, Stop> {
        match self {
            Given::Build(fragments) => Ok(entries_of(&built(alloc, fragments)?)),
            Given::Close(graph) => lists_gone_through(alloc, graph),
            Given::Validate(schema) => {
                let schema = schema.try_validate(alloc, &no_extensions(alloc))?;
                Ok(entries_of(&schema))
            }
        }
    }
}
