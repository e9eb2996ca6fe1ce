//! Rows of the format: what is written, and what can't be.

use crate::asked::{Question, Rows, check};
use crate::fragments::nested::sets;
use crate::types::test_values::value;
use cedar_ast::{Entity, Value};
use cedar_json::fragment_from_json;
use cedar_json_writer::{
    WriteFault, entity_to_json, fragment_to_json, request_to_json, value_to_json,
};
use cedar_schema_ast::json_schema::{
    CommonType, CommonTypeId, Fragment, NamespaceDefinition, RawName, Type,
};
use checked::names::{raw, uid, uids};
use checked::same;
use std::alloc::Global;
use std::collections::{BTreeMap, BTreeSet};
use std::test::Fail;

/// What is asked about a text.
#[derive(Clone, Copy)]
enum Asked {
    /// What is written of the fragment that it describes, on one line.
    Fragment,
    /// The same, as it is laid out.
    Layout,
    /// What is written of a fragment whose one common type refers to a common type of this name.
    Reference,
    /// What is written of a fragment whose one common type has as many sets in one another.
    Sets,
    /// What is written of the value of a word.
    Value,
    /// What is written of an entity: its attributes, tags and ancestors between bars.
    Entity,
    /// What is written of a request over its context.
    Request,
}

/// A text without its line ends and the blanks behind them.
fn on_one_line(alloc: Global, text: &str) -> Result<String, Fail> {
    let mut line = String::new(alloc);
    for piece in text.split('\n') {
        line.push_str(piece.trim_start())?;
    }
    Ok(line)
}

/// What is written, or why it isn't.
fn answer(alloc: Global, written: Result<String, WriteFault>) -> Result<String, Fail> {
    match written {
        Ok(text) => Ok(text),
        Err(fault) => Ok(format!(in alloc; "{fault:?}")?),
    }
}

/// The same on one line.
fn short_answer(alloc: Global, written: Result<String, WriteFault>) -> Result<String, Fail> {
    on_one_line(alloc, answer(alloc, written)?.as_str())
}

/// What is written of the fragment that a text describes.
fn rewritten(alloc: Global, text: &str) -> Result<String, Fail> {
    match fragment_from_json(alloc, text, 0) {
        Ok(fragment) => answer(alloc, fragment_to_json(alloc, &fragment)),
        Err(_) => Err(Fail::new(format_args!("not read: {text}"))),
    }
}

/// The same on one line, of which has to be written what it is itself.
fn rewritten_again(alloc: Global, text: &str) -> Result<String, Fail> {
    let written = rewritten(alloc, text)?;
    let again = rewritten(alloc, written.as_str())?;
    same(text, again.as_str(), written.as_str())?;
    on_one_line(alloc, written.as_str())
}

/// A fragment with a common type.
fn of_type(alloc: Global, ty: Type<RawName>) -> Result<Fragment<RawName>, Fail> {
    let mut common_types = BTreeMap::new(alloc);
    common_types.insert(
        CommonTypeId::from_str(alloc, "T")?,
        CommonType { ty, loc: None },
    )?;
    let definition = NamespaceDefinition {
        common_types,
        entity_types: BTreeMap::new(alloc),
        actions: BTreeMap::new(alloc),
        loc: None,
    };
    let mut namespaces = BTreeMap::new(alloc);
    namespaces.insert(None, definition)?;
    Ok(Fragment(namespaces))
}

/// What is written of a fragment with a common type, or `written` where that is long.
fn of_type_text(alloc: Global, ty: Type<RawName>) -> Result<String, Fail> {
    let fragment = of_type(alloc, ty)?;
    match fragment_to_json(alloc, &fragment) {
        Ok(_) => Ok(String::from_str(alloc, "written")?),
        Err(fault) => Ok(format!(in alloc; "{fault:?}")?),
    }
}

/// The type that refers to a common type of a name.
fn reference(alloc: Global, name: &str) -> Result<Type<RawName>, Fail> {
    Ok(Type::CommonTypeRef {
        type_name: raw(alloc, name)?,
        loc: None,
    })
}

/// The values of a text, each a name, `:` and a value, with `,` between them.
fn values(alloc: Global, text: &str) -> Result<BTreeMap<String, Value>, Fail> {
    let mut values = BTreeMap::new(alloc);
    for entry in text.split(',') {
        if let Some((name, word)) = entry.split_once(':') {
            let value = Value::new(value(alloc, word)?);
            values.insert(String::from_str(alloc, name)?, value)?;
        }
    }
    Ok(values)
}

/// The entity `A::E::"a\"b"` with the attributes, tags and ancestors that stand between bars.
fn entity(alloc: Global, text: &str) -> Result<Entity, Fail> {
    let (attrs, rest) = text.split_once('|').ok_or("no tags")?;
    let (tags, above) = rest.split_once('|').ok_or("no ancestors")?;
    let ancestors = BTreeSet::from_iter(alloc, uids(alloc, above)?)?;
    let (attrs, tags) = (values(alloc, attrs)?, values(alloc, tags)?);
    Ok(Entity::new(uid(alloc, "A::E::a\"b")?, attrs, tags, ancestors))
}

/// What is written of an entity.
fn entity_text(alloc: Global, text: &str) -> Result<String, Fail> {
    short_answer(alloc, entity_to_json(alloc, &entity(alloc, text)?))
}

/// What is written of a request over its context.
fn request_text(alloc: Global, context: &str) -> Result<String, Fail> {
    let context = values(alloc, context)?;
    let (principal, action) = (uid(alloc, "A::E::a\"b")?, uid(alloc, "Action::view")?);
    let resource = uid(alloc, "R::")?;
    let written = request_to_json(alloc, &principal, &action, &resource, &context);
    short_answer(alloc, written)
}

/// What is written of a value.
fn value_text(alloc: Global, word: &str) -> Result<String, Fail> {
    let value = Value::new(value(alloc, word)?);
    short_answer(alloc, value_to_json(alloc, &value))
}

impl Question for Asked {
    fn answer(self, alloc: Global, text: &str) -> Result<String, Fail> {
        match self {
            Asked::Fragment => rewritten_again(alloc, text),
            Asked::Layout => rewritten(alloc, text),
            Asked::Reference => of_type_text(alloc, reference(alloc, text)?),
            Asked::Sets => of_type_text(alloc, sets(alloc, text.parse::<u32>()?)?),
            Asked::Value => value_text(alloc, text),
            Asked::Entity => entity_text(alloc, text),
            Asked::Request => request_text(alloc, text),
        }
    }
}

/// Fragments that are written as they stand here, but for the layout.
const SAME: Rows = &[
    ("{}", "{}"),
    (
        "{\"\": {\"entityTypes\": {},\"actions\": {}}}",
        "{\"\": {\"entityTypes\": {},\"actions\": {}}}",
    ),
    (
        "{\"A\": {\"entityTypes\": {\"E\": {}},\"actions\": {\"a\": {}}},\"A::B\": \
         {\"entityTypes\": {},\"actions\": {}}}",
        "{\"A\": {\"entityTypes\": {\"E\": {}},\"actions\": {\"a\": {}}},\"A::B\": \
         {\"entityTypes\": {},\"actions\": {}}}",
    ),
    (
        "{\"\": {\"entityTypes\": {\"E\": {\"memberOfTypes\": [\"A::B\",\"C\"],\"shape\": \
         {\"type\": \"T\"},\"tags\": {\"type\": \"Long\"},\"external\": true},\"F\": \
         {\"enum\": [\"b\",\"a\"]}},\"actions\": {}}}",
        "{\"\": {\"entityTypes\": {\"E\": {\"memberOfTypes\": [\"A::B\",\"C\"],\"shape\": \
         {\"type\": \"T\"},\"tags\": {\"type\": \"Long\"},\"external\": true},\"F\": \
         {\"enum\": [\"b\",\"a\"]}},\"actions\": {}}}",
    ),
    (
        "{\"\": {\"entityTypes\": {},\"actions\": {\"a\": {\"appliesTo\": \
         {\"principalTypes\": [\"E\"],\"resourceTypes\": [],\"context\": {\"type\": \
         \"T\"}},\"memberOf\": [{\"id\": \"g\"},{\"id\": \"h\",\"type\": \
         \"A::Action\"}],\"external\": true},\"b\": {\"memberOf\": [],\"attributes\": {}}}}}",
        "{\"\": {\"entityTypes\": {},\"actions\": {\"a\": {\"appliesTo\": \
         {\"principalTypes\": [\"E\"],\"resourceTypes\": [],\"context\": {\"type\": \
         \"T\"}},\"memberOf\": [{\"id\": \"g\"},{\"id\": \"h\",\"type\": \
         \"A::Action\"}],\"external\": true},\"b\": {\"memberOf\": [],\"attributes\": {}}}}}",
    ),
    (
        "{\"\": {\"entityTypes\": {},\"actions\": {\"a\": {\"attributes\": {\"k\": \
         [true,-9223372036854775808,\"x\",{\"l\": {\"__entity\": {\"type\": \"A\",\"id\": \
         \"b\"}}},{\"__extn\": {\"fn\": \"ip\",\"arg\": \"y\"}},{\"__extn\": 1,\"m\": \
         2}]}}}}}",
        "{\"\": {\"entityTypes\": {},\"actions\": {\"a\": {\"attributes\": {\"k\": \
         [true,-9223372036854775808,\"x\",{\"l\": {\"__entity\": {\"type\": \"A\",\"id\": \
         \"b\"}}},{\"__extn\": {\"fn\": \"ip\",\"arg\": \"y\"}},{\"__extn\": 1,\"m\": \
         2}]}}}}}",
    ),
    (
        "{\"\": {\"entityTypes\": {},\"actions\": {\"\\\"\\\\\\n\\u0001\\u001f\u{7f}é𝄞\": \
         {}}}}",
        "{\"\": {\"entityTypes\": {},\"actions\": {\"\\\"\\\\\\n\\u0001\\u001f\u{7f}é𝄞\": \
         {}}}}",
    ),
    (
        "{\"\": {\"entityTypes\": {},\"actions\": {},\"commonTypes\": {\"A\": {\"type\": \
         \"Set\",\"element\": {\"type\": \"Boolean\"}},\"B\": {\"type\": \
         \"Record\",\"attributes\": {\"a\": {\"type\": \"String\",\"required\": \
         false},\"b\": {\"type\": \"Entity\",\"name\": \
         \"__cedar::E\"}},\"additionalAttributes\": true},\"C\": {\"type\": \
         \"EntityOrCommon\",\"name\": \"String\"},\"D\": {\"type\": \"Extension\",\"name\": \
         \"ipaddr\"},\"E\": {\"type\": \"N::String\"},\"F\": {\"type\": \"Bool\"},\"G\": \
         {\"type\": \"Record\",\"attributes\": {}}}}}",
        "{\"\": {\"entityTypes\": {},\"actions\": {},\"commonTypes\": {\"A\": {\"type\": \
         \"Set\",\"element\": {\"type\": \"Boolean\"}},\"B\": {\"type\": \
         \"Record\",\"attributes\": {\"a\": {\"type\": \"String\",\"required\": \
         false},\"b\": {\"type\": \"Entity\",\"name\": \
         \"__cedar::E\"}},\"additionalAttributes\": true},\"C\": {\"type\": \
         \"EntityOrCommon\",\"name\": \"String\"},\"D\": {\"type\": \"Extension\",\"name\": \
         \"ipaddr\"},\"E\": {\"type\": \"N::String\"},\"F\": {\"type\": \"Bool\"},\"G\": \
         {\"type\": \"Record\",\"attributes\": {}}}}}",
    ),
    (
        "{\"\": {\"entityTypes\": {},\"actions\": {\"a\": {\"attributes\": {\"\\u0000𝄞\": \
         [false,\"\\r\\t\\\"\"],\"k\": {\"__extn\": {\"fn\": \"A::decimal\",\"arg\": \
         {\"__extn\": {\"fn\": \"ip\",\"arg\": {\"__entity\": {},\"__extn\": []}}}}}}}}}}",
        "{\"\": {\"entityTypes\": {},\"actions\": {\"a\": {\"attributes\": {\"\\u0000𝄞\": \
         [false,\"\\r\\t\\\"\"],\"k\": {\"__extn\": {\"fn\": \"A::decimal\",\"arg\": \
         {\"__extn\": {\"fn\": \"ip\",\"arg\": {\"__entity\": {},\"__extn\": []}}}}}}}}}}",
    ),
    (
        "{\"A::Set\": {\"entityTypes\": {\"Action\": {\"shape\": {\"type\": \
         \"Record\",\"attributes\": {},\"additionalAttributes\": true},\"tags\": {\"type\": \
         \"Set\",\"element\": {\"type\": \"Set\",\"element\": {\"type\": \
         \"Entity\",\"name\": \"__cedar::Long\"}}}}},\"actions\": {},\"commonTypes\": \
         {\"EntityOrCommon\": {\"type\": \"N::EntityOrCommon\"},\"in\": {\"type\": \
         \"string\"}}}}",
        "{\"A::Set\": {\"entityTypes\": {\"Action\": {\"shape\": {\"type\": \
         \"Record\",\"attributes\": {},\"additionalAttributes\": true},\"tags\": {\"type\": \
         \"Set\",\"element\": {\"type\": \"Set\",\"element\": {\"type\": \
         \"Entity\",\"name\": \"__cedar::Long\"}}}}},\"actions\": {},\"commonTypes\": \
         {\"EntityOrCommon\": {\"type\": \"N::EntityOrCommon\"},\"in\": {\"type\": \
         \"string\"}}}}",
    ),
    (
        "{\"in\": {\"entityTypes\": {\"_1\": {\"enum\": [\"\",\"\\\\\"],\"external\": \
         true}},\"actions\": {\"/\": {\"appliesTo\": {\"principalTypes\": \
         [],\"resourceTypes\": [\"in\",\"A::B::_c9\"],\"context\": {\"type\": \
         \"Record\",\"attributes\": {\"~\": {\"type\": \"EntityOrCommon\",\"name\": \
         \"N::Set\",\"required\": false}}}}}}}}",
        "{\"in\": {\"entityTypes\": {\"_1\": {\"enum\": [\"\",\"\\\\\"],\"external\": \
         true}},\"actions\": {\"/\": {\"appliesTo\": {\"principalTypes\": \
         [],\"resourceTypes\": [\"in\",\"A::B::_c9\"],\"context\": {\"type\": \
         \"Record\",\"attributes\": {\"~\": {\"type\": \"EntityOrCommon\",\"name\": \
         \"N::Set\",\"required\": false}}}}}}}}",
    ),
    (
        "{\"\": {\"entityTypes\": {},\"actions\": {},\"commonTypes\": {\"T\": {\"type\": \
         \"Record\",\"attributes\": {\"a\": {\"type\": \"Record\",\"attributes\": {\"b\": \
         {\"type\": \"Set\",\"element\": {\"type\": \"Long\"}}},\"required\": false}}}}}}",
        "{\"\": {\"entityTypes\": {},\"actions\": {},\"commonTypes\": {\"T\": {\"type\": \
         \"Record\",\"attributes\": {\"a\": {\"type\": \"Record\",\"attributes\": {\"b\": \
         {\"type\": \"Set\",\"element\": {\"type\": \"Long\"}}},\"required\": false}}}}}}",
    ),
    (
        "{\"\": {\"entityTypes\": {},\"actions\": {},\"commonTypes\": {\"T\": {\"type\": \
         \"Record\",\"attributes\": {\"a\": {\"type\": \"Long\"},\"b\": {\"type\": \
         \"A::B\",\"required\": false}}}}}}",
        "{\"\": {\"entityTypes\": {},\"actions\": {},\"commonTypes\": {\"T\": {\"type\": \
         \"Record\",\"attributes\": {\"a\": {\"type\": \"Long\"},\"b\": {\"type\": \
         \"A::B\",\"required\": false}}}}}}",
    ),
    (
        "{\"N\": {\"entityTypes\": {\"C\": {\"enum\": [\"x\",\"y\"]},\"U\": \
         {\"memberOfTypes\": [\"A\"],\"shape\": {\"type\": \"Record\",\"attributes\": \
         {\"a\": {\"type\": \"Set\",\"element\": {\"type\": \"Entity\",\"name\": \
         \"V\"}}}},\"tags\": {\"type\": \"Extension\",\"name\": \"ip\"},\"external\": \
         true}},\"actions\": {}}}",
        "{\"N\": {\"entityTypes\": {\"C\": {\"enum\": [\"x\",\"y\"]},\"U\": \
         {\"memberOfTypes\": [\"A\"],\"shape\": {\"type\": \"Record\",\"attributes\": \
         {\"a\": {\"type\": \"Set\",\"element\": {\"type\": \"Entity\",\"name\": \
         \"V\"}}}},\"tags\": {\"type\": \"Extension\",\"name\": \"ip\"},\"external\": \
         true}},\"actions\": {}}}",
    ),
    (
        "{\"\": {\"entityTypes\": {},\"actions\": {\"a\": {\"external\": true},\"v\": \
         {\"appliesTo\": {\"principalTypes\": [\"A\",\"B\"],\"resourceTypes\": \
         [],\"context\": {\"type\": \"Record\",\"attributes\": {},\"additionalAttributes\": \
         true}},\"memberOf\": [{\"id\": \"a\"},{\"id\": \"b\",\"type\": \"N::Action\"}]}}}}",
        "{\"\": {\"entityTypes\": {},\"actions\": {\"a\": {\"external\": true},\"v\": \
         {\"appliesTo\": {\"principalTypes\": [\"A\",\"B\"],\"resourceTypes\": \
         [],\"context\": {\"type\": \"Record\",\"attributes\": {},\"additionalAttributes\": \
         true}},\"memberOf\": [{\"id\": \"a\"},{\"id\": \"b\",\"type\": \"N::Action\"}]}}}}",
    ),
    (
        "{\"\": {\"entityTypes\": {},\"actions\": {},\"commonTypes\": {\"T\": {\"type\": \
         \"Record\",\"attributes\": {\"a\": {\"type\": \"N::Long\"},\"b\": {\"type\": \
         \"N::Boolean\"},\"c\": {\"type\": \"N::Set\"},\"d\": {\"type\": \
         \"N::Record\"},\"e\": {\"type\": \"N::Entity\"},\"f\": {\"type\": \"N::Extensio\
         n\"}}}}}}",
        "{\"\": {\"entityTypes\": {},\"actions\": {},\"commonTypes\": {\"T\": {\"type\": \
         \"Record\",\"attributes\": {\"a\": {\"type\": \"N::Long\"},\"b\": {\"type\": \
         \"N::Boolean\"},\"c\": {\"type\": \"N::Set\"},\"d\": {\"type\": \
         \"N::Record\"},\"e\": {\"type\": \"N::Entity\"},\"f\": {\"type\": \"N::Extensio\
         n\"}}}}}}",
    ),
];

/// Fragments of which something is left out, and what is written of them.
const LEFT_OUT: Rows = &[
    (
        "{\"\": {\"actions\": {}, \"entityTypes\": {\"E\": {\"memberOfTypes\": [], \
         \"external\": false, \"shape\": {\"attributes\": {}, \"type\": \"Record\"}}}, \
         \"commonTypes\": {}}}",
        "{\"\": {\"entityTypes\": {\"E\": {}},\"actions\": {}}}",
    ),
    (
        "{\"\": {\"actions\": {\"a\": {\"memberOf\": null, \"appliesTo\": \
         {\"principalTypes\": [], \"resourceTypes\": [], \"context\": {\"type\": \"Record\", \
         \"attributes\": {}}}}}, \"entityTypes\": {}}}",
        "{\"\": {\"entityTypes\": {},\"actions\": {\"a\": {\"appliesTo\": \
         {\"principalTypes\": [],\"resourceTypes\": []}}}}}",
    ),
    (
        "{\"B\": {\"actions\": {}, \"entityTypes\": {}}, \"\": {\"actions\": {}, \
         \"entityTypes\": {}, \"annotations\": {\"a\": null}}}",
        "{\"\": {\"entityTypes\": {},\"actions\": {}},\"B\": {\"entityTypes\": \
         {},\"actions\": {}}}",
    ),
];

/// A fragment, laid out.
const LAYOUT: Rows = &[(
    "{\"\": {\"entityTypes\": {\"E\": {\"memberOfTypes\": [\"F\"]}}, \"actions\": {}}}",
    "{\n  \"\": {\n    \"entityTypes\": {\n      \"E\": {\n        \
     \"memberOfTypes\": [\n          \"F\"\n        ]\n      }\n    },\n    \
     \"actions\": {}\n  }\n}",
)];

/// Names of common types that are words for types in the format, and some that aren't.
const REFERENCES: Rows = &[
    ("String", "Unwritable(TypeWord(\"String\"))"),
    ("Long", "Unwritable(TypeWord(\"Long\"))"),
    ("Boolean", "Unwritable(TypeWord(\"Boolean\"))"),
    ("Set", "Unwritable(TypeWord(\"Set\"))"),
    ("Record", "Unwritable(TypeWord(\"Record\"))"),
    ("Entity", "Unwritable(TypeWord(\"Entity\"))"),
    ("EntityOrCommon", "Unwritable(TypeWord(\"EntityOrCommon\"))"),
    ("Extension", "Unwritable(TypeWord(\"Extension\"))"),
    ("N::String", "written"),
    ("Bool", "written"),
];

/// Numbers of sets in one another.
const SETS: Rows = &[("124", "written"), ("125", "Unwritable(TooDeep)")];

/// Values, and what is written of them.
const VALUES: Rows = &[
    ("-5", "-5"),
    ("true", "true"),
    ("[a\"b", "[\"a\\\"b\"]"),
    ("{a:1,b:Foo}", "{\"a\": 1,\"b\": \"Foo\"}"),
    ("ip()", "Unwritable(Arguments(0))"),
    ("ip=x&1", "Unwritable(Arguments(2))"),
    ("{__entity:1}", "Unwritable(LoneKey(\"__entity\"))"),
    ("{__extn:1}", "Unwritable(LoneKey(\"__extn\"))"),
];

/// Attributes, tags and ancestors, and what is written of the entity.
const ENTITIES: Rows = &[
    (
        "||-",
        "{\"uid\": {\"type\": \"A::E\",\"id\": \"a\\\"b\"},\"attrs\": {},\"parents\": []}",
    ),
    (
        "l:1,k:1|t:1|A::E::y,F::x,E::x,A::E::a\nb",
        "{\"uid\": {\"type\": \"A::E\",\"id\": \"a\\\"b\"},\"attrs\": {\"k\": 1,\"l\": \
         1},\"parents\": [{\"type\": \"E\",\"id\": \"x\"},{\"type\": \"A::E\",\"id\": \
         \"a\\nb\"},{\"type\": \"A::E\",\"id\": \"y\"},{\"type\": \"F\",\"id\": \
         \"x\"}],\"tags\": {\"t\": 1}}",
    ),
    ("k:{__extn:true}||-", "Unwritable(LoneKey(\"__extn\"))"),
    ("|k:{__extn:true}|-", "Unwritable(LoneKey(\"__extn\"))"),
];

/// Contexts, and what is written of the request.
const REQUESTS: Rows = &[
    (
        "k:1",
        "{\"principal\": \"A::E::\\\"a\\\\\\\"b\\\"\",\"action\": \
         \"Action::\\\"view\\\"\",\"resource\": \"R::\\\"\\\"\",\"context\": {\"k\": 1}}",
    ),
    ("k:{__extn:true}", "Unwritable(LoneKey(\"__extn\"))"),
];

#[test]
fn fragments_are_written_as_they_were(rt: HostRuntime) -> Result<(), Fail> {
    let table = &[
        (Asked::Fragment, SAME),
        (Asked::Fragment, LEFT_OUT),
        (Asked::Layout, LAYOUT),
        (Asked::Reference, REFERENCES),
        (Asked::Sets, SETS),
        (Asked::Value, VALUES),
        (Asked::Entity, ENTITIES),
        (Asked::Request, REQUESTS),
    ];
    check(rt.alloc(), table)
}
