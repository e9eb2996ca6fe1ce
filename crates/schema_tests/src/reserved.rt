//! Declarations in reserved namespaces, which no file and no fragment of plain data can hold.

use crate::schemas::answer_text;
use cedar_schema::json_schema::ConditionalName;
use cedar_schema::namespace::{ValidatorNamespaceDef, ValidatorSchemaFragment};
use cedar_schema::{SchemaError, ValidatorSchema};
use checked::names::internal_namespace;
use checked::{fragment_of, one_of, sample_extensions};
use std::alloc::Global;
use std::test::Fail;

/// Namespaces, each with what is declared in it.
type Definitions = &'static [(&'static str, &'static str)];

/// A fragment over conditional names.
type Conditional = ValidatorSchemaFragment<ConditionalName, ConditionalName>;

/// The fragment of one definition, of what a text declares outside namespaces, or a refusal.
fn conditional(
    alloc: Global,
    namespace: &str,
    text: &str,
) -> Result<Result<Conditional, SchemaError>, Fail> {
    let namespace = internal_namespace(alloc, namespace)?;
    let mut written = fragment_of(alloc, text, 0)?;
    let definition = written.0.remove(&None).ok_or("no declaration")?;
    match ValidatorNamespaceDef::from_namespace_definition(alloc, namespace, definition) {
        Ok(one) => Ok(Ok(ValidatorSchemaFragment::from_namespaces(alloc, [one])?)),
        Err(refused) => Ok(Err(refused)),
    }
}

/// What is answered of definitions.
fn answer(alloc: Global, definitions: Definitions) -> Result<String, Fail> {
    let mut fragments = Vec::new(alloc);
    for (namespace, text) in definitions {
        match conditional(alloc, namespace, text)? {
            Ok(fragment) => fragments.push(fragment)?,
            Err(refused) => return Ok(answer_text(alloc, Err(refused))?),
        }
    }
    let extensions = sample_extensions(alloc)?;
    let built = ValidatorSchema::from_schema_fragments(alloc, fragments, &extensions);
    Ok(answer_text(alloc, built)?)
}

/// Definitions, and the answers that are allowed, with ` or else ` between them.
const ROWS: &[(Definitions, &str)] = &[
    (
        &[("__cedar", "entity X;")],
        "ReservedName(the name __cedar::X is reserved)",
    ),
    (
        &[("__cedar", "external entity X;")],
        "ReservedName(the name __cedar::X is reserved)",
    ),
    (
        &[("__cedar", "entity X enum [\"red\"];")],
        "ReservedName(the name __cedar::X is reserved)",
    ),
    (
        &[("N::__cedar", "action a;")],
        "ReservedName(the name N::__cedar::Action is reserved)",
    ),
    (
        &[("__cedar::N", "external action a;")],
        "ReservedName(the name __cedar::N::Action is reserved)",
    ),
    (
        &[("__cedar", "entity Action;")],
        "ActionEntityTypeDeclared(the entity type __cedar::Action has the name of an action \
         type) or else ReservedName(the name __cedar::Action is reserved)",
    ),
    (&[("__cedar", "type Foo = Long;")], ""),
    (
        &[("__cedar", "type ipaddr = Long;")],
        "DuplicateCommonType(the common type __cedar::ipaddr is declared twice)",
    ),
    (&[("N::__cedar", "type ipaddr = Long;")], ""),
    (
        &[
            ("__cedar", "type Foo = Long;"),
            ("N", "entity U { a: __cedar::Foo };"),
        ],
        "attr N::U a: Long; entity N::U standard",
    ),
    (
        &[
            ("__cedar", "type Foo = Long;"),
            ("", "entity U { a: Foo };"),
        ],
        "TypeNotDefined(no type is declared as Foo)",
    ),
    (
        &[
            ("__cedar", "type Foo = Long;"),
            ("", "entity Foo;"),
            ("N", "entity U in Foo;"),
        ],
        "descendant Foo N::U; entity Foo standard; entity N::U standard",
    ),
    (
        &[
            ("__cedar", "type Foo = Bar;"),
            ("__cedar", "type Bar = Foo;"),
            ("", "type Foo = Long;"),
        ],
        "CycleInCommonTypeReferences(the definition of the common type __cedar::Foo leads back \
         to it) or else CycleInCommonTypeReferences(the definition of the common type \
         __cedar::Bar leads back to it)",
    ),
    (&[("N", "entity X;")], "entity N::X standard"),
];

#[test]
fn reserved_namespaces_hold_common_types_alone(rt: HostRuntime) -> Result<(), Fail> {
    for (definitions, allowed) in ROWS {
        one_of(allowed, answer(rt.alloc(), definitions)?.as_str(), allowed)?;
    }
    Ok(())
}
