//! What types are joined and reduced to.

use crate::asked::{Question, Rows, check};
use crate::types::test_values::{kind, made, union};
use cedar_ast::ValidationMode;
use cedar_types::{EntityKind, EntityLUB, JoinError, JoinOrder, Type, reduce};
use std::alloc::Global;
use std::fmt::Display;
use std::test::Fail;

/// The text of a join, or the word of the help.
pub(crate) fn printed<T: Display + Drop>(
    alloc: Global,
    answer: Result<T, JoinError>,
) -> Result<String, Fail> {
    match answer {
        Ok(join) => Ok(format!(in alloc; "{join}")?),
        Err(JoinError::Help(help)) => Ok(format!(in alloc; "{help}")?),
        Err(JoinError::Memory) => Ok(String::from_str(alloc, "out of memory")?),
    }
}

/// Whether a type is below another in strict mode and in permissive mode, and whether they are
/// disjoint.
pub(crate) fn compared(alloc: Global, a: &Type, b: &Type) -> Result<String, Fail> {
    let strict = Type::is_subtype(a, b, ValidationMode::Strict);
    let permissive = Type::is_subtype(a, b, ValidationMode::Permissive);
    let disjoint = Type::are_types_disjoint(a, b);
    Ok(format!(in alloc; "{strict} {permissive} {disjoint}")?)
}

/// What a value is joined to with another one, by the call of the trait.
fn by_trait<T: JoinOrder + Display + Drop>(
    alloc: Global,
    value: &T,
    other: &T,
    mode: ValidationMode,
) -> Result<String, Fail> {
    printed(alloc, value.join(alloc, other, mode))
}

/// What the unions of two types of entities are joined to.
pub(crate) fn unions_joined(
    alloc: Global,
    a: &Type,
    b: &Type,
    mode: ValidationMode,
) -> Result<String, Fail> {
    match (a.as_entity_lub(), b.as_entity_lub()) {
        (Some(a), Some(b)) => by_trait::<EntityLUB>(alloc, a, b, mode),
        _ => Err(Fail::from("no unions")),
    }
}

/// What the kinds of two types of entities are joined to by the call of the trait.
pub(crate) fn kinds_joined(
    alloc: Global,
    a: &Type,
    b: &Type,
    mode: ValidationMode,
) -> Result<String, Fail> {
    match (a, b) {
        (Type::Entity(a), Type::Entity(b)) => by_trait::<EntityKind>(alloc, a, b, mode),
        _ => Err(Fail::from("no kinds")),
    }
}

/// The same by their own call.
pub(crate) fn kinds_alone(
    alloc: Global,
    a: &Type,
    b: &Type,
    mode: ValidationMode,
) -> Result<String, Fail> {
    match (a, b) {
        (Type::Entity(a), Type::Entity(b)) => {
            printed(alloc, EntityKind::least_upper_bound(a, b, mode))
        }
        _ => Err(Fail::from("no kinds")),
    }
}

/// What is asked about the types of several words.
#[derive(Clone, Copy)]
enum Asked {
    /// What they are reduced to in a mode.
    Types(ValidationMode),
    /// What the first is reduced to with `Bar`, as unions.
    Unions(ValidationMode),
    /// The same as kinds.
    Kinds(ValidationMode),
}

/// What the types of some words are reduced to in a mode.
fn reduced(alloc: Global, words: &str, mode: ValidationMode) -> Result<String, Fail> {
    let mut types = Vec::new(alloc);
    for word in words.split_whitespace() {
        types.push(made(alloc, word)?)?;
    }
    printed(
        alloc,
        Type::reduce_to_least_upper_bound(alloc, &types, mode),
    )
}

/// What the union of a word is reduced to with `Bar`.
fn reduced_unions(alloc: Global, word: &str, mode: ValidationMode) -> Result<String, Fail> {
    let others = [union(alloc, "Bar")?];
    printed(alloc, reduce(alloc, union(alloc, word)?, &others, mode))
}

/// What the kind of a word is reduced to with `Bar`.
fn reduced_kinds(alloc: Global, word: &str, mode: ValidationMode) -> Result<String, Fail> {
    let others = [kind(alloc, "Bar")?];
    printed(alloc, reduce(alloc, kind(alloc, word)?, &others, mode))
}

impl Question for Asked {
    fn answer(self, alloc: Global, text: &str) -> Result<String, Fail> {
        match self {
            Asked::Types(mode) => reduced(alloc, text, mode),
            Asked::Unions(mode) => reduced_unions(alloc, text, mode),
            Asked::Kinds(mode) => reduced_kinds(alloc, text, mode),
        }
    }
}

/// Types, each list with what it is reduced to in permissive mode.
const PERMISSIVE: Rows = &[
    ("", "__cedar::internal::Never"),
    ("set-bool any-set set-long", "Set<__cedar::internal::Any>"),
    ("set-long any-set set-bool", "Set<__cedar::internal::Any>"),
    ("any-set set-bool set-long", "Set<__cedar::internal::Any>"),
    ("any-set set-long set-bool", "Set<__cedar::internal::Any>"),
    ("set-bool set-long any-set", "None"),
    ("set-long set-bool any-set", "None"),
    ("set-true set-false set-bool", "Set<Bool>"),
    ("set-true set-bool set-false", "Set<Bool>"),
    ("set-false set-true set-bool", "Set<Bool>"),
    ("set-false set-bool set-true", "Set<Bool>"),
    ("set-bool set-true set-false", "Set<Bool>"),
    ("set-bool set-false set-true", "Set<Bool>"),
];

/// The same in strict mode.
const STRICT: Rows = &[
    ("a-long a-text", "None"),
    ("a-long never a-text", "None"),
    ("r1 r2 r3", "None"),
    ("r3 r2", "RecordWidth"),
    ("a-long a-long unit", "RecordWidth"),
    ("a-long a-long-optional", "AttributeQualifier"),
    ("a-long never a-long", "{a: Long,}"),
];

/// An entity type, and what it is reduced to with another one in strict mode.
const STRICT_ENTITIES: Rows = &[("Foo", "EntityType"), ("Bar", "Bar")];

/// The same in permissive mode.
const PERMISSIVE_ENTITIES: Rows = &[
    ("Foo", "__cedar::internal::Union<Bar, Foo>"),
    ("Bar", "Bar"),
];

/// All rows.
const ROWS: &[(Asked, Rows)] = &[
    (Asked::Types(ValidationMode::Permissive), PERMISSIVE),
    (Asked::Types(ValidationMode::Strict), STRICT),
    (Asked::Unions(ValidationMode::Strict), STRICT_ENTITIES),
    (
        Asked::Unions(ValidationMode::Permissive),
        PERMISSIVE_ENTITIES,
    ),
    (Asked::Kinds(ValidationMode::Strict), STRICT_ENTITIES),
    (
        Asked::Kinds(ValidationMode::Permissive),
        PERMISSIVE_ENTITIES,
    ),
];

#[test]
fn types_are_reduced_in_turn(rt: HostRuntime) -> Result<(), Fail> {
    check(rt.alloc(), ROWS)
}
