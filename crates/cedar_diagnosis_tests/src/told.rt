//! What is told of texts: the faults of each kind, and of several kinds in one text and in two.

use cedar_ast::{M, Memory};
use cedar_diagnosis::faults;
use cedar_json::{cedar_extensions, fragment_from_json};
use cedar_schema_ast::json_schema::{Fragment, RawName};
use cedar_schema_semantics::SchemaError;
use checked::{fragments_of, same};
use std::alloc::Global;
use std::test::Fail;

/// Texts, with what is told of them.
type Row = (&'static [&'static str], &'static str);

/// Faults of one kind in one text each.
const KINDS: &[Row] = &[
    (&[""], ""),
    (
        &["entity A; action a appliesTo { principal: A, resource: A };"],
        "",
    ),
    (&["type T = S;"], "no type is declared as S\n"),
    (
        &["entity A in [B, C] { d: D }; entity E { d: D };"],
        "no entity type is declared as B\nno entity type is declared as C\n\
        no type is declared as D\n",
    ),
    (
        &["namespace N { entity A { a: Set<{ b: B }> } tags N::C; }"],
        "no type is declared as N::B or B\nno type is declared as N::C\n",
    ),
    (
        &["action a in [b, c]; action d in [N::Action::\"e\"];"],
        "no action is declared as \"b\" of type Action\n\
        no action is declared as \"c\" of type Action\n\
        no action is declared as \"e\" of type N::Action\n",
    ),
    (&["action a; action b in [a];"], ""),
    (
        &["action a appliesTo { principal: [Action], resource: [] };"],
        "no entity type is declared as Action\n",
    ),
    (
        &["entity Action;"],
        "the entity type Action has the name of an action type\n",
    ),
    (
        &[
            "entity T; type U = Long;",
            "namespace N { type T = Long; entity U, V; }",
        ],
        "the type N::T would shadow the type T\nthe type N::U would shadow the type U\n",
    ),
    (
        &["action a; action b;", "namespace N { action a; action c; }"],
        "the action N::Action::\"a\" would shadow the action Action::\"a\"\n",
    ),
    (
        &[
            "entity T, U;",
            "entity T; type V = Long;",
            "type V = Long; entity U;",
        ],
        "the common type V is declared twice\nthe entity type T is declared twice\n\
        the entity type U is declared twice\n",
    ),
    (
        &["action a, b;", "action b;"],
        "the action Action::\"b\" is declared twice\n",
    ),
    (&["type decimal = Long; entity A { d: decimal };"], ""),
    (
        &[
            "entity E enum [\"x\"]; entity F in [E]; entity A, B;",
            "external entity E in [A, B];",
        ],
        "the enumerated type E is below the type A\n\
        the enumerated type E is below the type B\n",
    ),
    (
        &["type A = Set<B>; type B = { c: C }; type C = A; type D = A; type E = Long; type F = F;"],
        "the definition of the common type A leads back to it\n\
        the definition of the common type B leads back to it\n\
        the definition of the common type C leads back to it\n\
        the definition of the common type F leads back to it\n",
    ),
    (
        &[
            "action a in [b]; action b in [c]; action c in [a, d]; action d;",
            "namespace N { action e in [f]; action f in [e]; action g in [Action::\"a\"]; }",
        ],
        "the action Action::\"a\" is its own ancestor\n\
        the action Action::\"b\" is its own ancestor\n\
        the action Action::\"c\" is its own ancestor\n\
        the action N::Action::\"e\" is its own ancestor\n\
        the action N::Action::\"f\" is its own ancestor\n",
    ),
];

/// Faults of several kinds at once.
const SEVERAL: &[Row] = &[
    (
        &["entity A in [Gone] { x: Missing };\naction a appliesTo { principal: A, resource: B };"],
        "no entity type is declared as B\nno entity type is declared as Gone\n\
        no type is declared as Missing\n",
    ),
    (
        &[
            "entity A in [Gone];",
            "entity A { x: Missing };\naction a in [b];",
        ],
        "the entity type A is declared twice\nno entity type is declared as Gone\n\
        no type is declared as Missing\nno action is declared as \"b\" of type Action\n",
    ),
];

/// The faults of a text in the JSON format that has some which Cedar's syntax can't say.
const JSON: &str = r#"{"": {"entityTypes": {"A": {"shape": {"type": "Record", "attributes": {
    "x": {"type": "Extension", "name": "ip"}, "y": {"type": "Extension", "name": "decimal"},
    "z": {"type": "Record", "attributes": {}, "additionalAttributes": true}}}}},
  "actions": {"a": {"attributes": {}}, "b": {}, "c": {"attributes": {}}}}}"#;

/// What is told of it.
const TOLD_OF_JSON: &str = "attributes of actions are not supported: \"a\"\n\
    attributes of actions are not supported: \"c\"\n\
    records that admit more than their listed attributes are not supported\n\
    the extension type ip is not known\n";

/// A fault, as a line.
fn line(alloc: Global, fault: &SchemaError) -> M<String> {
    format!(in alloc; "{fault}\n").or(Err(Memory))
}

/// Faults, a line each.
fn lines(alloc: Global, told: &[SchemaError]) -> M<String> {
    let mut text = String::new(alloc);
    for fault in told {
        text.push_str(line(alloc, fault)?.as_str())?;
    }
    Ok(text)
}

/// What is told of fragments.
fn told(alloc: Global, fragments: &[Fragment<RawName>]) -> M<String> {
    let extensions = cedar_extensions(alloc)?;
    let told = faults(alloc, fragments, &extensions)?;
    lines(alloc, &told)
}

/// Fails, with the row, unless just what it says is told of its texts.
fn tells(alloc: Global, row: Row) -> Result<(), Fail> {
    let (texts, expected) = row;
    let fragments = fragments_of(alloc, texts)?;
    let name = texts.first().ok_or("no text")?;
    same(*name, told(alloc, &fragments)?.as_str(), expected)
}

#[test]
fn each_kind_is_told(rt: HostRuntime) -> Result<(), Fail> {
    for row in KINDS {
        tells(rt.alloc(), *row)?;
    }
    Ok(())
}

#[test]
fn several_kinds_are_told_at_once(rt: HostRuntime) -> Result<(), Fail> {
    for row in SEVERAL {
        tells(rt.alloc(), *row)?;
    }
    Ok(())
}

#[test]
fn what_only_json_says_is_told(rt: HostRuntime) -> Result<(), Fail> {
    let alloc = rt.alloc();
    let mut fragments = Vec::new(alloc);
    fragments.push(fragment_from_json(alloc, JSON, 0)?)?;
    same("json", told(alloc, &fragments)?.as_str(), TOLD_OF_JSON)
}
