//! Types and values that the tests share, by their words.

use cedar_ast::{Loc, RestrictedExpr};
use cedar_types::{AttributeType, EntityKind, EntityLUB, OpenTag, Type};
use checked::names::{entity_type, name, uid};
use std::alloc::Global;
use std::collections::BTreeMap;
use std::rc::Rc;
use std::test::Fail;

/// Where something of the tests was declared.
pub(crate) const PLACE: Loc = Loc {
    source: 1,
    start: 2,
    stop: 5,
};

pub(crate) fn text(alloc: Global, text: &str) -> Result<String, Fail> {
    Ok(String::from_str(alloc, text)?)
}

/// The union of one entity type.
fn single(alloc: Global, word: &str) -> Result<EntityLUB, Fail> {
    Ok(EntityLUB::single_entity(alloc, entity_type(alloc, word)?)?)
}

/// The union of the entity types whose names stand between `|` in a word.
pub(crate) fn union(alloc: Global, word: &str) -> Result<EntityLUB, Fail> {
    match word.split_once("|") {
        Some((first, second)) => Ok(single(alloc, first)?.least_upper_bound(&single(
            alloc, second,
        )?)?),
        None => single(alloc, word),
    }
}

/// The kind of the entities of the types whose names stand between `|` in a word.
pub(crate) fn kind(alloc: Global, word: &str) -> Result<EntityKind, Fail> {
    Ok(EntityKind::Entity(union(alloc, word)?))
}

/// The type of a word, of those that are neither sets nor records.
fn leaf(alloc: Global, word: &str) -> Result<Type, Fail> {
    match word {
        "never" => Ok(Type::Never),
        "true" => Ok(Type::singleton_boolean(true)),
        "false" => Ok(Type::singleton_boolean(false)),
        "bool" => Ok(Type::primitive_boolean()),
        "long" => Ok(Type::primitive_long()),
        "string" => Ok(Type::primitive_string()),
        "any-set" => Ok(Type::any_set()),
        "any-entity" => Ok(Type::any_entity_reference()),
        "ipaddr" | "decimal" => Ok(Type::extension(name(alloc, word)?)),
        _ => Ok(Type::Entity(kind(alloc, word)?)),
    }
}

/// The type of a word, of those that are no records.
fn simple(alloc: Global, word: &str) -> Result<Type, Fail> {
    match word.strip_prefix("set-") {
        Some(element) => Ok(Type::set(Rc::new(alloc, leaf(alloc, element)?)?)),
        None => leaf(alloc, word),
    }
}

/// The record type of some attributes: of each its name, whether it is required, and its type's
/// word.
fn record(
    alloc: Global,
    openness: OpenTag,
    attributes: &[(&str, bool, &str)],
) -> Result<Type, Fail> {
    let mut items = Vec::new(alloc);
    for (name, is_required, word) in attributes {
        let ty = Rc::new(alloc, simple(alloc, word)?)?;
        items.push((text(alloc, name)?, AttributeType::new(ty, *is_required)))?;
    }
    Ok(Type::record_with_attributes(alloc, items, openness)?)
}

/// Records that admit further attributes.
const OPEN: OpenTag = OpenTag::OpenAttributes;

/// Records that admit none.
const CLOSED: OpenTag = OpenTag::ClosedAttributes;

/// A record type: its word, whether it is open, and of each attribute its name, whether it is
/// required, and its type's word.
type Record = (
    &'static str,
    OpenTag,
    &'static [(&'static str, bool, &'static str)],
);

/// The record types of all tests.
const RECORDS: &[Record] = &[
    ("unit", CLOSED, &[]),
    ("any-record", OPEN, &[]),
    ("a-long", CLOSED, &[("a", true, "long")]),
    ("a-text", CLOSED, &[("a", true, "string")]),
    ("a b-long", CLOSED, &[("a b", true, "long")]),
    ("a-long-open", OPEN, &[("a", true, "long")]),
    ("a-long-optional", CLOSED, &[("a", false, "long")]),
    ("any-optional", OPEN, &[("a", false, "long")]),
    ("a-true", CLOSED, &[("a", true, "true")]),
    ("a-bool", CLOSED, &[("a", true, "bool")]),
    ("a-never", CLOSED, &[("a", true, "never")]),
    ("ip", CLOSED, &[("ip", true, "ipaddr")]),
    ("ip-long", CLOSED, &[("ip", true, "long")]),
    (
        "roles",
        CLOSED,
        &[("name", true, "string"), ("role", true, "set-Role")],
    ),
    (
        "r1",
        CLOSED,
        &[("bar", true, "long"), ("foo", true, "false")],
    ),
    (
        "r2",
        CLOSED,
        &[("bar", true, "long"), ("foo", true, "string")],
    ),
    ("r3", CLOSED, &[("bar", true, "long")]),
    (
        "both-optional",
        CLOSED,
        &[("bar", false, "long"), ("foo", false, "long")],
    ),
    (
        "one-optional",
        CLOSED,
        &[("bar", false, "long"), ("foo", true, "long")],
    ),
    ("foo-false-open", OPEN, &[("foo", true, "false")]),
    ("foo-true", CLOSED, &[("foo", true, "true")]),
    (
        "any-set-and-long",
        CLOSED,
        &[("s", true, "any-set"), ("t", true, "long")],
    ),
    (
        "two-longs",
        CLOSED,
        &[("s", true, "long"), ("t", true, "long")],
    ),
    (
        "repeated",
        CLOSED,
        &[
            ("b", true, "long"),
            ("a", true, "long"),
            ("b", true, "string"),
        ],
    ),
    (
        "any-texts",
        CLOSED,
        &[
            ("é", true, "long"),
            ("ab", true, "long"),
            ("b", true, "long"),
            ("", true, "long"),
            ("日", true, "long"),
            ("a", true, "long"),
            ("Z", true, "long"),
            ("a b", true, "long"),
        ],
    ),
    (
        "mixed",
        OPEN,
        &[("b", false, "set-Foo"), ("a", true, "long")],
    ),
    (
        "ipaddr-and-long",
        CLOSED,
        &[("a", true, "ipaddr"), ("b", true, "long")],
    ),
    (
        "mixed-closed",
        CLOSED,
        &[("b", false, "set-Foo"), ("a", true, "long")],
    ),
    (
        "ace",
        CLOSED,
        &[
            ("a", true, "long"),
            ("c", true, "long"),
            ("e", true, "long"),
        ],
    ),
    (
        "bcd",
        CLOSED,
        &[
            ("b", true, "long"),
            ("c", true, "long"),
            ("d", true, "long"),
        ],
    ),
];

/// The type of a word that has no `user-` and no `deep-` before it.
fn sample(alloc: Global, word: &str) -> Result<Type, Fail> {
    for &(named, openness, attributes) in RECORDS {
        if named == word {
            return record(alloc, openness, attributes);
        }
    }
    simple(alloc, word)
}

/// The closed record of one required attribute.
fn one(alloc: Global, name: &str, ty: Type) -> Result<Type, Fail> {
    let items = vec![in alloc; (text(alloc, name)?, Rc::new(alloc, ty)?)]?;
    Ok(Type::record_with_required_attributes(alloc, items, CLOSED)?)
}

/// The closed record of sets of closed records of an attribute of a type.
fn deep(alloc: Global, word: &str) -> Result<Type, Fail> {
    let inner = one(alloc, "y", sample(alloc, word)?)?;
    one(alloc, "x", Type::set(Rc::new(alloc, inner)?))
}

/// The closed record of an address, the closed record of a city of a type.
fn user(alloc: Global, word: &str) -> Result<Type, Fail> {
    let address = one(alloc, "city", sample(alloc, word)?)?;
    one(alloc, "address", address)
}

/// The type of a word.
pub(crate) fn made(alloc: Global, word: &str) -> Result<Type, Fail> {
    if let Some(city) = word.strip_prefix("user-") {
        return user(alloc, city);
    }
    match word.strip_prefix("deep-") {
        Some(inner) => deep(alloc, inner),
        None => sample(alloc, word),
    }
}

/// The value of a word: a number, `true`, the entity `Foo::"blue"`, a call without arguments such
/// as `ip()`, or else a text.
fn simple_value(alloc: Global, word: &str) -> Result<RestrictedExpr, Fail> {
    if let Some(function) = word.strip_suffix("()") {
        return Ok(RestrictedExpr::ExtensionCall {
            function: name(alloc, function)?,
            args: Vec::new(alloc),
        });
    }
    if let Ok(number) = word.parse::<i64>() {
        return Ok(RestrictedExpr::Long(number));
    }
    match word {
        "true" => Ok(RestrictedExpr::Bool(true)),
        "blue" => Ok(RestrictedExpr::EntityUid(uid(alloc, "Foo::blue")?)),
        _ => Ok(RestrictedExpr::String(text(alloc, word)?)),
    }
}

/// The values of the words of a text that `&` stands between, of which there may be none.
fn arguments(alloc: Global, text: &str) -> Result<Vec<RestrictedExpr>, Fail> {
    let mut values = Vec::new(alloc);
    if !text.is_empty() {
        for word in text.split('&') {
            values.push(simple_value(alloc, word)?)?;
        }
    }
    Ok(values)
}

/// The value of a word: a call with arguments, such as `ip=x&1`, or one that is simple.
fn element(alloc: Global, word: &str) -> Result<RestrictedExpr, Fail> {
    match word.split_once('=') {
        Some((function, args)) => Ok(RestrictedExpr::ExtensionCall {
            function: name(alloc, function)?,
            args: arguments(alloc, args)?,
        }),
        None => simple_value(alloc, word),
    }
}

/// The set of the elements that `;` stands between, of which there may be none.
fn set(alloc: Global, text: &str) -> Result<RestrictedExpr, Fail> {
    let mut elements = Vec::new(alloc);
    if !text.is_empty() {
        for word in text.split(';') {
            elements.push(element(alloc, word)?)?;
        }
    }
    Ok(RestrictedExpr::Set(elements))
}

/// The record of the entries of a text that `,` stands between, each a name, `:` and a value that
/// may be an element. There may be none.
fn record_value(alloc: Global, text: &str) -> Result<RestrictedExpr, Fail> {
    let mut values = BTreeMap::new(alloc);
    for entry in text.split(',') {
        if let Some((name, word)) = entry.split_once(':') {
            values.insert(self::text(alloc, name)?, element(alloc, word)?)?;
        }
    }
    Ok(RestrictedExpr::Record(values))
}

/// The value of a word: a record such as `{a:1,b:x}`, a set such as `[ip=x;1`, or one that may be
/// an element.
pub(crate) fn value(alloc: Global, word: &str) -> Result<RestrictedExpr, Fail> {
    if let Some(entries) = word.strip_prefix('{') {
        return record_value(alloc, entries.trim_end_matches('}'));
    }
    match word.strip_prefix('[') {
        Some(elements) => set(alloc, elements),
        None => element(alloc, word),
    }
}
