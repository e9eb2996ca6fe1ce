//! Questions about one type: what it prints as, its core type, and its samples.

use crate::asked::{Question, Rows, check, told};
use crate::types::core_types::core_text;
use crate::types::divergence::{sample_names, sampled};
use crate::types::separate::what_is_known;
use crate::types::test_values::made;
use cedar_ast::Memory;
use cedar_types::{JoinError, JoinOrder, LubHelp, Type, core_type_of};
use checked::same;
use std::alloc::Global;
use std::test::Fail;

/// What is asked about the type of a word.
#[derive(Clone, Copy)]
enum Asked {
    /// What its copy prints as.
    Text,
    /// Whether the any-set stands nowhere in it.
    Clean,
    /// Whether the word is the name of a primitive type.
    Primitive,
    /// The kind of its core type, or why it has none.
    Core,
    /// Whether its sample is of it.
    Sample,
    /// The names of the samples of its attributes.
    SampleNames,
}

/// The kind of a core type, or why there is none.
fn core_of(alloc: Global, ty: Type) -> Result<String, Fail> {
    match core_type_of(alloc, ty) {
        Ok(core) => Ok(core_text(alloc, &core)?),
        Err(fault) => Ok(format!(in alloc; "{fault:?}")?),
    }
}

/// Whether the sample of a type is of it.
fn sample_of(alloc: Global, ty: &Type) -> Result<String, Fail> {
    let known = what_is_known(alloc)?;
    Ok(String::from_str(alloc, sampled(alloc, &known, ty)?)?)
}

/// The names of the samples of the attributes of a type.
fn sample_names_of(alloc: Global, ty: &Type) -> Result<String, Fail> {
    sample_names(alloc, &what_is_known(alloc)?, ty)
}

impl Question for Asked {
    fn answer(self, alloc: Global, text: &str) -> Result<String, Fail> {
        let ty = made(alloc, text)?;
        match self {
            Asked::Text => told(alloc, ty.clone()),
            Asked::Clean => Ok(format!(in alloc; "{}", ty.is_clean())?),
            Asked::Primitive => Ok(format!(in alloc; "{}", Type::is_primitive(text))?),
            Asked::Core => core_of(alloc, ty),
            Asked::Sample => sample_of(alloc, &ty),
            Asked::SampleNames => sample_names_of(alloc, &ty),
        }
    }
}

/// Types, each with its text.
const TEXTS: Rows = &[
    ("never", "__cedar::internal::Never"),
    ("true", "__cedar::internal::True"),
    ("false", "__cedar::internal::False"),
    ("bool", "Bool"),
    ("long", "Long"),
    ("string", "String"),
    ("any-set", "Set<__cedar::internal::Any>"),
    ("set-long", "Set<Long>"),
    ("any-entity", "__cedar::internal::AnyEntity"),
    ("Foo", "Foo"),
    ("Foo|Foo", "Foo"),
    ("Foo|Bar", "__cedar::internal::Union<Bar, Foo>"),
    ("Bar|Foo", "__cedar::internal::Union<Bar, Foo>"),
    ("ipaddr", "ipaddr"),
    ("unit", "{}"),
    ("any-record", "__cedar::internal::OpenRecord{}"),
    ("a-long-optional", "{a?: Long,}"),
    (
        "mixed",
        "__cedar::internal::OpenRecord{a: Long,b?: Set<Foo>,}",
    ),
    ("mixed-closed", "{a: Long,b?: Set<Foo>,}"),
    ("repeated", "{a: Long,b: String,}"),
    ("a b-long", "{a b: Long,}"),
    (
        "any-texts",
        "{: Long,Z: Long,a: Long,a b: Long,ab: Long,b: Long,é: Long,日: Long,}",
    ),
];

/// Types, each with whether it is clean.
const CLEAN: Rows = &[
    ("long", "true"),
    ("set-long", "true"),
    ("mixed", "true"),
    ("Foo|Bar", "true"),
    ("any-set", "false"),
    ("any-set-and-long", "false"),
];

/// Words, each with whether it is the name of a primitive type.
const PRIMITIVES: Rows = &[
    ("Bool", "true"),
    ("Long", "true"),
    ("String", "true"),
    ("Set", "false"),
];

/// Types, each with the kind of its core type, or why it has none.
const CORES: Rows = &[
    ("true", "Bool"),
    ("bool", "Bool"),
    ("long", "Long"),
    ("string", "String"),
    ("any-set", "EmptySet"),
    ("set-Foo", "Set"),
    ("Foo", "Entity Foo"),
    ("mixed", "Record"),
    ("ipaddr", "Extension ipaddr"),
    ("never", "NeverType"),
    ("set-never", "NeverType"),
    ("a-never", "NeverType"),
    ("any-entity", "AnyEntityType"),
    ("Foo|Bar", "UnionType"),
];

/// Types, and whether their samples are of them, if they have some.
const SAMPLED: Rows = &[
    ("long", "a sample of it"),
    ("false", "a sample of it"),
    ("string", "a sample of it"),
    ("Foo|Bar", "a sample of it"),
    ("any-entity", "a sample of it"),
    ("any-set", "a sample of it"),
    ("set-ipaddr", "a sample of it"),
    ("ipaddr", "a sample of it"),
    ("deep-bool", "a sample of it"),
    ("mixed", "a sample of it"),
    ("ipaddr-and-long", "a sample of it"),
    ("a-never", "not sampled"),
    ("decimal", "not sampled"),
];

/// Record types, and the names of the samples of their attributes, if they have some.
const SAMPLE_NAMES: Rows = &[
    ("unit", "has"),
    ("any-optional", "has"),
    ("one-optional", "has foo"),
    ("mixed", "has a"),
    ("ace", "has a c e"),
    ("ipaddr-and-long", "has a b"),
    ("a-never", "not sampled"),
];

/// All rows.
const ROWS: &[(Asked, Rows)] = &[
    (Asked::Text, TEXTS),
    (Asked::Clean, CLEAN),
    (Asked::Primitive, PRIMITIVES),
    (Asked::Core, CORES),
    (Asked::Sample, SAMPLED),
    (Asked::SampleNames, SAMPLE_NAMES),
];

#[test]
fn types_print_and_have_samples(rt: HostRuntime) -> Result<(), Fail> {
    check(rt.alloc(), ROWS)
}

/// What is said of types that have no join.
const REFUSED: &str = "the types have no least upper bound (help: RecordWidth)";

#[test]
fn errors_print_their_cause(rt: HostRuntime) -> Result<(), Fail> {
    let refused: Result<Type, JoinError> = Err(JoinError::Help(LubHelp::RecordWidth));
    same("no join", told(rt.alloc(), refused)?.as_str(), REFUSED)?;
    let refused: Result<Type, JoinError> = Err(JoinError::from(Memory));
    same(
        "memory",
        told(rt.alloc(), refused)?.as_str(),
        "out of memory",
    )
}
