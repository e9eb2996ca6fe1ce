//! Questions about two types: how they compare, what they are joined to, and where they part.

use crate::asked::{Question, Rows, check};
use crate::types::divergence::{divergence_of, parted_attributes};
use crate::types::joins::{compared, kinds_alone, kinds_joined, printed, unions_joined};
use crate::types::separate::{Known, outside, separated, what_is_known};
use crate::types::test_values::made;
use cedar_ast::ValidationMode;
use cedar_types::{JoinOrder, Type};
use std::alloc::Global;
use std::test::Fail;

/// Strict mode.
const STRICT_MODE: ValidationMode = ValidationMode::Strict;

/// Permissive mode.
const PERMISSIVE_MODE: ValidationMode = ValidationMode::Permissive;

/// What is asked about two types.
#[derive(Clone, Copy)]
enum Asked {
    /// Whether the first is below the second in strict mode and in permissive mode, and whether
    /// they are disjoint.
    Compared,
    /// What they are joined to in a mode.
    Joined(ValidationMode),
    /// The same by the call of the trait.
    JoinedByTrait(ValidationMode),
    /// What their unions of entity types are joined to.
    Unions(ValidationMode),
    /// What their kinds of entities are joined to by the call of the trait.
    Kinds(ValidationMode),
    /// The same by their own call.
    KindsAlone(ValidationMode),
    /// Whether a value separates the first from the second, if both are stated.
    Separated,
    /// Whether a value of the first is outside the second, if the first is sampled.
    Outside,
    /// The steps to where they part, if the first is sampled.
    Steps,
    /// The same of the attributes of record types, with the names of the values that are found.
    Attributes,
}

impl Asked {
    /// What is answered about two types.
    fn of(self, alloc: Global, known: &Known, a: &Type, b: &Type) -> Result<String, Fail> {
        match self {
            Asked::Compared => compared(alloc, a, b),
            Asked::Joined(mode) => printed(alloc, Type::least_upper_bound(alloc, a, b, mode)),
            Asked::JoinedByTrait(mode) => printed(alloc, Type::join(a, alloc, b, mode)),
            Asked::Unions(mode) => unions_joined(alloc, a, b, mode),
            Asked::Kinds(mode) => kinds_joined(alloc, a, b, mode),
            Asked::KindsAlone(mode) => kinds_alone(alloc, a, b, mode),
            Asked::Separated => separated(alloc, known, a, b),
            Asked::Outside => outside(alloc, known, a, b),
            Asked::Steps => divergence_of(alloc, known, a, b),
            Asked::Attributes => parted_attributes(alloc, known, a, b),
        }
    }
}

impl Question for Asked {
    /// What is answered about the types of two words.
    fn answer(self, alloc: Global, text: &str) -> Result<String, Fail> {
        let (first, second) = text.split_once(' ').ok_or("one type")?;
        let known = what_is_known(alloc)?;
        let a = made(alloc, first)?;
        let b = made(alloc, second)?;
        self.of(alloc, &known, &a, &b)
    }
}

/// Types, each two with how they compare.
const COMPARED: Rows = &[
    ("unit a-long-optional", "false false false"),
    ("a-true a-bool", "true true false"),
    ("a-bool a-true", "false false false"),
    ("a-long-open any-record", "false true false"),
    ("a-long a-long-optional", "false true false"),
    ("a-long-optional a-long", "false false false"),
    ("any-record unit", "false false false"),
    ("unit any-record", "true true false"),
    ("a-long unit", "false false false"),
    ("never a-long", "true true false"),
    ("set-never set-long", "true true false"),
    ("set-long set-never", "false false false"),
    ("set-long any-set", "true true false"),
    ("any-set set-long", "false false false"),
    ("Foo any-entity", "false true false"),
    ("any-entity Foo", "false false false"),
    ("Foo Foo", "true true false"),
    ("Foo Bar", "false false true"),
    ("Foo Foo|Bar", "false true false"),
    ("Foo|Bar Foo", "false false false"),
    ("true bool", "true true false"),
    ("long string", "false false false"),
    ("ipaddr string", "false false false"),
];

/// Types, each two with what they are joined to in strict mode.
const STRICT: Rows = &[
    ("true false", "Bool"),
    ("long string", "None"),
    ("set-bool set-long", "None"),
    ("r1 r2", "None"),
    ("r3 r2", "RecordWidth"),
    ("both-optional one-optional", "AttributeQualifier"),
    (
        "foo-false-open foo-true",
        "__cedar::internal::OpenRecord{foo: Bool,}",
    ),
    ("ace bcd", "RecordWidth"),
    ("any-entity any-record", "EntityRecord"),
    ("Foo r3", "EntityRecord"),
    ("r3 Foo", "EntityRecord"),
    ("Foo string", "None"),
    ("set-Foo Foo", "None"),
    ("r3 string", "None"),
    ("r3 set-long", "None"),
    ("ipaddr ipaddr", "ipaddr"),
    ("ipaddr decimal", "None"),
    ("ipaddr string", "None"),
    ("long long", "Long"),
    ("set-long set-long", "Set<Long>"),
    ("r3 r3", "{bar: Long,}"),
    ("Foo Bar", "EntityType"),
    ("Foo any-entity", "EntityType"),
    ("any-set set-long", "Set<__cedar::internal::Any>"),
    ("any-set-and-long two-longs", "None"),
];

/// The same in permissive mode.
const PERMISSIVE: Rows = &[
    ("true false", "Bool"),
    ("long string", "None"),
    ("set-bool set-long", "None"),
    ("r1 r2", "__cedar::internal::OpenRecord{bar: Long,}"),
    ("r3 r2", "__cedar::internal::OpenRecord{bar: Long,}"),
    ("both-optional one-optional", "{bar?: Long,foo?: Long,}"),
    (
        "foo-false-open foo-true",
        "__cedar::internal::OpenRecord{foo: Bool,}",
    ),
    ("ace bcd", "__cedar::internal::OpenRecord{c: Long,}"),
    ("any-entity any-record", "EntityRecord"),
    ("Foo r3", "EntityRecord"),
    ("r3 Foo", "EntityRecord"),
    ("Foo string", "None"),
    ("set-Foo Foo", "None"),
    ("r3 string", "None"),
    ("r3 set-long", "None"),
    ("ipaddr ipaddr", "ipaddr"),
    ("ipaddr decimal", "None"),
    ("ipaddr string", "None"),
    ("long long", "Long"),
    ("set-long set-long", "Set<Long>"),
    ("r3 r3", "{bar: Long,}"),
    ("Foo Bar", "__cedar::internal::Union<Bar, Foo>"),
    ("Foo any-entity", "__cedar::internal::AnyEntity"),
    ("any-set set-long", "Set<__cedar::internal::Any>"),
    (
        "any-set-and-long two-longs",
        "__cedar::internal::OpenRecord{t: Long,}",
    ),
];

/// Types of entities, each two with what they are joined to in strict mode.
const STRICT_ENTITIES: Rows = &[
    ("Foo Foo", "Foo"),
    ("Foo Bar", "EntityType"),
    ("Foo|Bar Foo", "EntityType"),
    ("Foo|Bar Bar|Foo", "__cedar::internal::Union<Bar, Foo>"),
];

/// The same in permissive mode.
const PERMISSIVE_ENTITIES: Rows = &[
    ("Foo Foo", "Foo"),
    ("Foo Bar", "__cedar::internal::Union<Bar, Foo>"),
    ("Foo|Bar Foo", "__cedar::internal::Union<Bar, Foo>"),
    ("Foo|Bar Bar|Foo", "__cedar::internal::Union<Bar, Foo>"),
];

/// Types, each two with whether a value separates the first from the second.
const SEPARATED: Rows = &[
    ("ip ip-long", "a value"),
    ("ip-long ip", "a value"),
    ("ip ip", "no value"),
    ("set-ipaddr set-ipaddr", "no value"),
    ("set-ipaddr set-long", "a value"),
    ("ipaddr string", "a value"),
    ("a-long-open a-long", "a value"),
    ("a-long a-long-open", "no value"),
    ("a-long unit", "a value"),
    ("unit a-long", "a value"),
    ("Foo|Bar Foo", "a value"),
    ("Foo Foo|Bar", "no value"),
    ("any-entity Foo|Bar", "a value"),
    ("deep-bool deep-true", "a value"),
    ("deep-true deep-bool", "no value"),
    ("deep-any-record deep-unit", "a value"),
    ("deep-unit deep-any-record", "no value"),
    ("set-never set-long", "not stated"),
    ("long a-long-optional", "not stated"),
];

/// Types, each two with whether a value of the first is outside the second.
const OUTSIDE: Rows = &[
    ("unit a-long-optional", "no value"),
    ("a-long a-long-optional", "no value"),
    ("a-long-optional a-long", "a value"),
    ("a-long-optional unit", "a value"),
    ("a-long-optional any-record", "no value"),
    ("any-record a-long-optional", "a value"),
    ("any-record unit", "a value"),
    ("any-record any-optional", "a value"),
    ("unit any-optional", "no value"),
    ("any-optional any-record", "no value"),
    ("both-optional one-optional", "a value"),
    ("one-optional both-optional", "no value"),
    ("one-optional r3", "a value"),
    ("one-optional r1", "a value"),
    ("mixed mixed-closed", "a value"),
    ("mixed-closed mixed", "no value"),
    ("any-set set-long", "a value"),
    ("set-long any-set", "no value"),
    ("any-entity Foo|Bar", "a value"),
    ("a-long a-never", "a value"),
    ("long never", "a value"),
    ("ip ip-long", "a value"),
    ("ip ip", "no value"),
    ("deep-unit deep-a-long-optional", "no value"),
    ("deep-a-long-optional deep-unit", "a value"),
    ("a-never a-long", "not sampled"),
    ("set-never any-set", "not sampled"),
    ("decimal long", "not sampled"),
];

/// Types, each two with the steps to where they part.
const STEPS: Rows = &[
    ("long long", "within"),
    ("long string", "parts at"),
    ("Foo|Bar Foo", "parts at"),
    ("any-set set-long", "parts at"),
    ("set-long set-Foo", "parts at *"),
    ("user-long user-string", "parts at address.city"),
    ("user-long user-long", "within"),
    ("user-set-long user-set-Foo", "parts at address.city.*"),
    ("deep-bool deep-true", "parts at x.*.y"),
    ("deep-any-record deep-unit", "parts at x.*.y"),
    ("deep-a-long-optional deep-unit", "parts at x.*.y.a"),
    ("deep-unit deep-a-long-optional", "within"),
    ("a-long-optional a-long", "parts at a"),
    ("unit a-long", "parts at a"),
    ("a-long unit", "parts at a"),
    ("a-long-optional unit", "parts at a"),
    ("any-record any-optional", "parts at a"),
    ("any-record unit", "parts at"),
    ("any-optional a-long-optional", "parts at"),
    ("mixed mixed-closed", "parts at"),
    ("one-optional r3", "parts at bar"),
    ("both-optional one-optional", "parts at foo"),
    ("a-long a-text", "parts at a"),
    ("ip ip-long", "parts at ip"),
];

/// Record types, each two with the steps to where they part and the names of the values found.
const ATTRIBUTES: Rows = &[
    ("unit a-long-optional", "within"),
    ("a-long-optional unit", "parts at a has a"),
    ("a-long-optional a-long", "parts at a has"),
    ("r1 r2", "parts at foo has bar foo"),
    ("r1 r3", "parts at foo has bar foo"),
    ("any-record any-optional", "parts at a has a"),
    ("any-record unit", "parts at has _"),
    ("mixed mixed-closed", "parts at has __ a"),
    ("ip ip-long", "parts at ip has ip"),
];

/// All rows.
const ROWS: &[(Asked, Rows)] = &[
    (Asked::Compared, COMPARED),
    (Asked::Joined(STRICT_MODE), STRICT),
    (Asked::Joined(PERMISSIVE_MODE), PERMISSIVE),
    (Asked::JoinedByTrait(STRICT_MODE), STRICT_ENTITIES),
    (Asked::JoinedByTrait(PERMISSIVE_MODE), PERMISSIVE_ENTITIES),
    (Asked::Unions(STRICT_MODE), STRICT_ENTITIES),
    (Asked::Unions(PERMISSIVE_MODE), PERMISSIVE_ENTITIES),
    (Asked::Kinds(STRICT_MODE), STRICT_ENTITIES),
    (Asked::Kinds(PERMISSIVE_MODE), PERMISSIVE_ENTITIES),
    (Asked::KindsAlone(STRICT_MODE), STRICT_ENTITIES),
    (Asked::KindsAlone(PERMISSIVE_MODE), PERMISSIVE_ENTITIES),
    (Asked::Separated, SEPARATED),
    (Asked::Outside, OUTSIDE),
    (Asked::Steps, STEPS),
    (Asked::Attributes, ATTRIBUTES),
];

#[test]
fn types_compare_join_and_part_by_their_rules(rt: HostRuntime) -> Result<(), Fail> {
    check(rt.alloc(), ROWS)
}
