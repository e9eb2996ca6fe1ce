//! What schemas answer to questions, but for what `tests/questions.rows` asks of the program.

use crate::questions::answer;
use crate::schemas::{Texts, schema_of, validated_copy};
use cedar_schema::below::Loc;
use cedar_schema::{LocatedCommonType, LocatedType, Type, ValidatorSchema};
use checked::names::internal_name;
use checked::{holds, same};
use std::alloc::Global;
use std::test::Fail;

/// Questions, each with its answer.
type Questions = &'static [(&'static str, &'static str)];

/// Schemas with questions of what is found in them by name, and of their names.
const FOUND: &[(Texts, Questions)] = &[
    (
        &["namespace N { entity U; action view; } entity V; action all;"],
        &[
            ("types: is_found N::U", "true"),
            ("types: is_found V", "true"),
            ("types: is_found V@4", "true"),
            ("types: is_found U", "false"),
            ("types: is_found N::V", "false"),
            ("types: is_found N::Action", "false"),
            ("types: is_found Action", "false"),
            ("uids: is_found N::Action::view", "true"),
            ("uids: is_found N::Action@4::view", "true"),
            ("uids: is_found Action::all", "true"),
            ("uids: is_found Action::view", "false"),
            ("uids: is_found N::Action::all", "false"),
            ("uids: is_found N::U::view", "false"),
        ],
    ),
    (
        &[
            "namespace N { entity U; entity E enum [\"red\"]; action c; } external entity X; \
             external action a; action b;",
        ],
        &[
            ("uids: exists N::E::red", "true"),
            ("uids: exists N::E::blue", "false"),
            ("uids: exists E::blue", "true"),
            ("uids: exists N::U::blue", "true"),
            ("uids: exists X::blue", "true"),
            ("uids: exists Action::a", "true"),
            ("uids: exists Action::b", "true"),
            ("uids: exists Action::c", "false"),
            ("uids: exists N::Action::c", "true"),
            ("uids: exists N::Action::b", "false"),
        ],
    ),
    (
        &["namespace N { entity T; action c; } entity V, A, U; action b, a;"],
        &[
            ("all: names", "A N::T U V"),
            ("all: uids", "Action::\"a\" Action::\"b\" N::Action::\"c\""),
        ],
    ),
    (
        &[
            "entity U { a: Long, b?: String } tags Long; entity E enum [\"red\", \"green\"]; \
           external entity X; action v appliesTo { principal: U, resource: U };",
        ],
        &[(
            "all: copy",
            "action Action::\"v\" defined; attr U a: Long; attr U b?: String; choice E green; \
             choice E red; \
             context Action::\"v\" {}; entity E enum; entity U standard; entity X external; \
             env U Action::\"v\" U; tags U: Long",
        )],
    ),
    (
        &[],
        &[
            ("all: names", ""),
            ("all: uids", ""),
            ("all: strict", ""),
            ("all: copy", ""),
            ("types: is_found U", "false"),
            ("uids: is_found Action::view", "false"),
        ],
    ),
    (
        &[
            "namespace A { entity U; } namespace B { entity U; } namespace A::B { entity U; } \
           namespace B::A { entity U; } namespace A::A { entity U; } entity B;",
        ],
        &[
            ("all: names", "B A::U A::A::U A::B::U B::U B::A::U"),
            ("types: is_found U", "false"),
            ("types: is_found A::U", "true"),
            ("types: is_found A::B::U", "true"),
            ("types: is_found B::A::U", "true"),
            ("types: is_found B::B::U", "false"),
            ("types: is_found A::B", "false"),
            ("types: is_found C::U", "false"),
        ],
    ),
];

/// Schemas with questions of what is in one another, and of what is elsewhere.
const WITHIN: &[(Texts, Questions)] = &[
    (
        &[
            "entity C in B; entity B in A; entity A; entity S in S; entity P in Q; entity Q in P; \
           namespace N { action view; }",
        ],
        &[
            ("types: ancestors C", "A B"),
            ("types: ancestors A", ""),
            ("types: ancestors S", "S"),
            ("types: ancestors Z", "None"),
            ("types: types_in A", "A B C"),
            ("types: types_in C", "C"),
            ("types: types_in S", "S S"),
            ("types: types_in P", "P P Q"),
            ("types: types_in Z", "Z"),
            ("types: last_in A", "A"),
            ("types: last_in P", "P"),
            ("types: is_below C,A", "true"),
            ("types: is_below A,C", "false"),
            ("types: is_below A,A", "true"),
            ("types: is_below C", "false"),
            ("types: is_below Z,S,Z", "true"),
            ("types: are_below A", "false"),
            ("types: are_below Z,C,S,A", "true"),
            ("types: are_below Z,A,S,C", "false"),
            ("types: is_type A", "true"),
            ("types: is_type N::Action", "true"),
            ("types: is_type M::Action", "true"),
            ("types: is_type Z", "false"),
            ("all: check", "complete"),
            ("all: is_complete", "true"),
            ("all: lacks", ""),
        ],
    ),
    (
        &["action read; namespace N { action view in read; }"],
        &[
            (
                "uids: actions_in Action::read,N::Action::view",
                "N::Action::\"view\" Action::\"read\" N::Action::\"view\"",
            ),
            ("uids: actions_in Action::read,Action::gone", "None"),
            ("uids: actions_in -", ""),
            ("types: is_below N::Action,Action", "true"),
            ("types: is_below Action,N::Action", "false"),
            ("all: groups", "Action::\"read\""),
            (
                "all: entities",
                "Action::\"read\" in; N::Action::\"view\" in Action::\"read\"",
            ),
            ("uids: is_action N::Action::view", "true"),
            ("uids: is_action Action::view", "false"),
        ],
    ),
    (
        &["external entity X in Y; entity Y; namespace N { external entity A; }"],
        &[
            (
                "all: check",
                "the schema is incomplete; the entity type N::A is external; the entity type X \
                 is external",
            ),
            ("all: lacks", "N::A X"),
            ("types: ancestors X", "Y"),
        ],
    ),
    (
        &["external action read; external action all; action view in all;"],
        &[
            (
                "all: check",
                "the schema is incomplete; the action Action::\"all\" is external; the action \
                 Action::\"read\" is external",
            ),
            ("all: is_complete", "false"),
            ("all: lacks", "Action::\"all\" Action::\"read\""),
            ("all: entities", "Action::\"view\" in Action::\"all\""),
            ("all: groups", "Action::\"all\""),
            ("uids: principals Action::all", ""),
            ("uids: resources Action::all", ""),
            ("uids: context Action::all", "None"),
            ("uids: context Action::view", "{}"),
            ("uids: is_action Action::all", "true"),
        ],
    ),
];

/// Schemas with questions of requests, and of the leaves of their types.
const REQUESTS: &[(Texts, Questions)] = &[
    (
        &[
            "entity U; entity Group; entity Photo; action all; \
           action view appliesTo { principal: [U, Group], resource: Photo }; \
           action edit appliesTo { principal: U, resource: Photo, context: { a: Long } };",
        ],
        &[
            ("all: principals", "Group U U"),
            ("all: resources", "Photo Photo"),
            ("uids: principals Action::view", "Group U"),
            ("uids: resources Action::view", "Photo"),
            ("uids: principals Action::all", ""),
            ("uids: principals Action::gone", "None"),
            ("uids: resources Action::gone", "None"),
            ("uids: context Action::edit", "{a: Long,}"),
            ("uids: context Action::gone", "None"),
            (
                "types: actions_for U,Photo",
                "Action::\"edit\" Action::\"view\"",
            ),
            ("types: actions_for Group,Photo", "Action::\"view\""),
            ("types: actions_for Photo,U", ""),
            ("all: groups", ""),
            (
                "all: strict",
                "Group Action::\"view\" Photo {}; U Action::\"edit\" Photo {a: Long,}; \
                 U Action::\"view\" Photo {}",
            ),
            (
                "all: permissive",
                "Group Action::\"view\" Photo {}; U Action::\"edit\" Photo {a: Long,}; \
                 U Action::\"view\" Photo {}",
            ),
        ],
    ),
    (
        &[
            "entity User { age: Long, home: { city: String }, nick?: String, roles: Set<String> }; \
           entity Team { lead: User };",
        ],
        &[("all: leaves", "Long String String String User")],
    ),
    (
        &["entity U { r?: { b?: Bool }, i: ipaddr, s: Set<ipaddr>, n: {} };"],
        &[("all: leaves", "Bool ipaddr ipaddr")],
    ),
    (
        &[
            "entity U tags Set<Long>; action v appliesTo { principal: U, resource: U, \
           context: { a: Long, b: U, d: Set<Long> } };",
        ],
        &[("all: leaves", "Long Long Long U")],
    ),
    (
        &["type T = { l: Long, r: Long }; entity U { t: T, u: T };"],
        &[("all: leaves", "Long Long Long Long")],
    ),
    (
        &["external entity U; entity V enum [\"red\"]; external action a; action b;"],
        &[("all: leaves", "")],
    ),
];

/// Schemas with questions of what is known of types.
const KNOWN: &[(Texts, Questions)] = &[
    (
        &[
            "entity baz { a: Long, b: String, c: foo }; \
           entity buz { a: Long, b: Long, c: bar, d?: Long }; \
           entity foo tags Long; entity bar { d: Long }; external entity out; \
           action view appliesTo { principal: foo, resource: foo, context: { e: bar } };",
        ],
        &[
            ("known: known baz", "{a: Long,b: String,c: foo,}"),
            (
                "known: known baz,buz",
                "{a: Long,c: __cedar::internal::Union<bar, foo>,}",
            ),
            ("known: known buz,bar", "{d?: Long,}"),
            ("known: known baz,bar", "{}"),
            ("known: known baz,Ghost", "{}"),
            ("known: known baz,Action", "{}"),
            ("known: known out", "{}"),
            ("known: known baz b", "String"),
            ("known: known buz,bar d", "?Long"),
            ("known: known baz,buz b", "None"),
            ("known: look_up baz b", "String"),
            ("known: look_up baz,buz a", "Long"),
            ("known: look_up baz,buz b", "None"),
            ("known: look_up buz,bar d", "?Long"),
            ("known: look_up Ghost a", "None"),
            ("known: listed buz,bar", "{d?: Long,}"),
            ("known: listed {*}", "{}"),
            ("known: listed Long", "{}"),
            ("known: may_have baz,buz b", "true"),
            ("known: may_have baz,buz z", "false"),
            ("known: may_have baz,Ghost z", "true"),
            ("known: may_have baz,Action a", "true"),
            ("known: may_have baz,Action z", "false"),
            ("known: may_have out,foo a", "false"),
            ("known: may_have any z", "true"),
            ("known: may_have_tags baz,buz", "false"),
            ("known: may_have_tags baz,Ghost", "false"),
            ("known: may_have_tags out,foo", "true"),
            ("known: are_declared baz,buz", "true"),
            ("known: are_declared baz,Ghost", "false"),
            ("known: are_declared baz,Action", "false"),
            ("known: are_declared out,foo", "true"),
            ("known: literal bar::x", "bar {d: Long,}"),
            ("known: literal baz::x", "baz {a: Long,b: String,c: foo,}"),
            ("known: literal Ghost::x", "None"),
            ("known: literal Action::view", "Action {}"),
            ("known: literal Action::x", "None"),
        ],
    ),
    (
        &["entity biz { c: biz }; entity fiz { c: fiz };"],
        &[(
            "known: known biz,fiz",
            "{c: __cedar::internal::Union<biz, fiz>,}",
        )],
    ),
    (
        &[
            "entity U { e: V, o?: Bool, r: { b?: Bool }, t: Bool }; \
           entity V { e: U, r: { b: Bool }, t: Bool };",
        ],
        &[
            ("known: look_up U e", "entity V"),
            ("known: look_up U o", "?Bool"),
            (
                "known: look_up U,V e",
                "entity __cedar::internal::Union<U, V>",
            ),
            ("known: look_up U,V o", "None"),
            ("known: look_up U,V r", "{b?: Bool,}"),
            ("known: look_up U,V t", "Bool"),
        ],
    ),
    (
        &["entity String; entity U { a: String, b: __cedar::String, u: U };"],
        &[
            ("known: look_up U a", "entity String"),
            ("known: look_up U u", "entity U"),
            ("known: look_up U b", "String"),
            ("known: known U a", "entity String"),
        ],
    ),
    (
        &["entity U { a: Long };", "entity V { a: Long };"],
        &[
            ("known: look_up U a", "Long"),
            ("known: look_up V a", "Long@1"),
            ("known: known V a", "Long@1"),
            ("known: look_up U,V a", "Long"),
        ],
    ),
];

/// Schemas with questions of names, which are as their definitions are located.
const LOCATED: &[(Texts, Questions)] = &[
    (
        &[
            "external entity U; external action view;",
            "entity U; entity V in U; action view appliesTo { principal: V, resource: U }; \
             action edit in view;",
        ],
        &[
            ("all: names", "U@1 V@1"),
            ("all: uids", "Action::\"edit\"@1 Action::\"view\"@1"),
            ("types: ancestors V", "U@1"),
            ("all: groups", "Action::\"view\"@1"),
            ("all: lacks", ""),
            (
                "all: entities",
                "Action::\"edit\"@1 in Action::\"view\"; Action::\"view\"@1 in",
            ),
            ("all: strict", "V Action::\"view\"@1 U {}"),
        ],
    ),
    (
        &[
            "entity U; action view appliesTo { principal: V, resource: U };",
            "external entity U; external action view; entity V in U; action edit in view;",
        ],
        &[
            ("all: names", "U V@1"),
            ("all: uids", "Action::\"edit\"@1 Action::\"view\""),
            ("types: ancestors V", "U"),
            ("all: groups", "Action::\"view\""),
        ],
    ),
    (
        &[
            "",
            "external entity U; external action view; external action edit in view;",
        ],
        &[
            ("all: names", "U@1"),
            ("all: uids", "Action::\"edit\"@1 Action::\"view\"@1"),
            ("all: lacks", "U@1 Action::\"edit\"@1 Action::\"view\"@1"),
            ("all: groups", "Action::\"view\"@1"),
            (
                "all: check",
                "the schema is incomplete; the entity type U is external; the action \
                 Action::\"edit\" is external; the action Action::\"view\" is external@1",
            ),
        ],
    ),
];

/// Compares the answers to questions of a schema with the wanted ones.
fn check_schema(alloc: Global, schema: &ValidatorSchema, rows: Questions) -> Result<(), Fail> {
    for (question, wanted) in rows {
        same(question, answer(alloc, schema, question)?.as_str(), wanted)?;
    }
    Ok(())
}

/// Compares the answers of the schema of texts with the wanted ones, and so those of what validation
/// gives of its copy.
fn check_kept(alloc: Global, texts: Texts, rows: Questions) -> Result<(), Fail> {
    let schema = schema_of(alloc, texts)?;
    check_schema(alloc, &schema, rows)?;
    check_schema(alloc, &validated_copy(alloc, &schema)?, rows)
}

/// The same of each row's texts.
fn check_rows(alloc: Global, table: &[(Texts, Questions)]) -> Result<(), Fail> {
    for (texts, rows) in table {
        check_kept(alloc, texts, rows)?;
    }
    Ok(())
}

#[test]
fn schemas_answer_questions(rt: HostRuntime) -> Result<(), Fail> {
    for table in [FOUND, WITHIN, REQUESTS, KNOWN, LOCATED] {
        check_rows(rt.alloc(), table)?;
    }
    Ok(())
}

#[test]
fn nothing_declared_gives_the_empty_schema(rt: HostRuntime) -> Result<(), Fail> {
    let empty = ValidatorSchema::empty(rt.alloc());
    holds(schema_of(rt.alloc(), &[])? == empty, "no fragments")?;
    holds(empty.namespaces().next().is_none(), "no namespaces")?;
    check_schema(rt.alloc(), &empty, &[("all: copy", ""), ("all: names", "")])
}

/// A location in the text of a number.
fn location(source: u32) -> Option<Loc> {
    let (start, stop) = (2, 5);
    Some(Loc {
        source,
        start,
        stop,
    })
}

#[test]
fn located_types_compare_their_locations(_rt: HostRuntime) -> Result<(), Fail> {
    let here = LocatedType::new_with_loc(Type::Long, location(1));
    let there = LocatedType::new(Type::Long).with_loc(location(2));
    holds(here != there && here.clone()? == here, "a copy")?;
    holds(there.with_loc(location(1)) == here, "the same place")
}

#[test]
fn located_common_types_have_their_base_name(rt: HostRuntime) -> Result<(), Fail> {
    let name = internal_name(rt.alloc(), "N::T")?;
    let here = LocatedType::new_with_loc(Type::Long, location(1));
    let common = LocatedCommonType::new(rt.alloc(), &name, here)?;
    let is_named = common.full_name == name && common.name.as_str() == "T";
    let is_located = common.type_loc == location(1) && common.name_loc.is_none();
    holds(is_named && is_located && common.clone()? == common, "N::T")
}

#[test]
fn namespaces_are_copied(rt: HostRuntime) -> Result<(), Fail> {
    let schema = schema_of(rt.alloc(), &[])?;
    let namespace = schema.namespaces().next().ok_or("no namespace")?;
    holds(namespace.clone()? == *namespace, "a copy")
}
