//! Declarations whose schemas are equal, and such whose schemas aren't, though their lines may be. A
//! text that begins with `{` is JSON, where a reference says what kind of thing it names.

use crate::schemas::schema_of;
use cedar_json::fragment_from_json;
use cedar_schema::ValidatorSchema;
use checked::{holds, sample_extensions};
use std::alloc::Global;
use std::test::Fail;

/// Declarations of equal schemas.
const EQUAL: &[(&str, &str, &str)] = &[
    (
        "an entity type takes the place of a built-in name",
        "entity String; entity U { a: String, b: __cedar::String };",
        r#"{"": {"actions": {}, "entityTypes": {"String": {}, "U": {"shape": {"type": "Record",
          "attributes": {"a": {"type": "Entity", "name": "String"}, "b": {"type": "String"}}}}}}}"#,
    ),
    (
        "an entity type takes the place of a built-in name in each namespace",
        "entity Long; namespace N { entity U { a: Long }; }",
        r#"{"": {"actions": {}, "entityTypes": {"Long": {}}},
          "N": {"actions": {}, "entityTypes": {"U": {"shape": {"type": "Record",
          "attributes": {"a": {"type": "Entity", "name": "Long"}}}}}}}"#,
    ),
    (
        "a built-in name is the built-in type",
        "entity U { a: Long, b: Bool, c: String, d: ipaddr, e: __cedar::ipaddr };",
        r#"{"": {"actions": {}, "entityTypes": {"U": {"shape": {"type": "Record",
          "attributes": {"a": {"type": "Long"}, "b": {"type": "Boolean"}, "c": {"type": "String"},
          "d": {"type": "Extension", "name": "ipaddr"}, "e": {"type": "ipaddr"}}}}}}}"#,
    ),
    (
        "an entity type takes the place of an extension type's name",
        "entity ipaddr; entity U { a: ipaddr, b: __cedar::ipaddr };",
        r#"{"": {"actions": {}, "entityTypes": {"ipaddr": {}, "U": {"shape": {"type": "Record",
          "attributes": {"a": {"type": "Entity", "name": "ipaddr"},
          "b": {"type": "Extension", "name": "ipaddr"}}}}}}}"#,
    ),
    (
        "the built-in name of a namespace that declares it stays outside",
        "namespace N { type ipaddr = Long; entity V { a: ipaddr }; } entity U { a: ipaddr };",
        "entity U { a: __cedar::ipaddr }; namespace N { entity V { a: Long }; }",
    ),
    (
        "a common type of no use makes no difference",
        "type T = { a: U }; entity U;",
        "entity U;",
    ),
    (
        "tags and contexts may be common types",
        "type T = { a: Long }; entity U { a: Long } tags T; \
         action v appliesTo { principal: U, resource: U, context: T };",
        "entity U { a: Long } tags { a: Long }; \
         action v appliesTo { principal: U, resource: U, context: { a: Long } };",
    ),
    (
        "shapes may be common types",
        r#"{"": {"actions": {}, "commonTypes": {"T": {"type": "Record", "attributes":
          {"a": {"type": "Long"}}}}, "entityTypes": {"U": {"shape": {"type": "T"}}}}}"#,
        "entity U { a: Long };",
    ),
    (
        "absent requests are requests of nobody for nothing",
        "action view;",
        "action view appliesTo { principal: [], resource: [], context: {} };",
    ),
    (
        "parents, principals and resources are sets",
        "entity A; entity B; entity U in [A, B, A]; \
         action v appliesTo { principal: [A, B, A], resource: [U, U] };",
        "entity B; entity A; entity U in [B, A]; \
         action v appliesTo { principal: [B, A], resource: U };",
    ),
    (
        "an external entity type has no choices and no parents by them",
        "external entity U enum [\"red\"];",
        "external entity U;",
    ),
    (
        "places make no difference",
        "namespace N { entity U { a: Long } tags { b: Long }; action view; }",
        "namespace N {\n  action view;\n  entity U { a: Long } tags { b: Long };\n}",
    ),
    (
        "nothing that is in a schema",
        "namespace N {} namespace M { type T = ipaddr; }",
        "",
    ),
    (
        "descendants are all that counts of parents",
        "entity C in [B, A]; entity B in A; entity A; action c in [b, a]; action b in a; action a;",
        "entity C in B; entity B in A; entity A; action c in b; action b in a; action a;",
    ),
];

/// Declarations of unequal schemas.
const UNEQUAL: &[(&str, &str, &str)] = &[
    (
        "an entity type and the built-in type of its name",
        "entity String; entity U { a: String };",
        "entity String; entity U { a: __cedar::String };",
    ),
    (
        "an entity type and the extension type of its name",
        "entity ipaddr; entity U { a: ipaddr };",
        "entity ipaddr; entity U { a: __cedar::ipaddr };",
    ),
    (
        "a required attribute and another",
        "entity U { a: Long };",
        "entity U { a?: Long };",
    ),
    (
        "a definition and an external declaration",
        "entity U;",
        "external entity U;",
    ),
    ("an entity type and none", "entity U;", ""),
    ("an action and none", "action a;", ""),
    (
        "an action that is external",
        "action a;",
        "external action a;",
    ),
    ("tags and none", "entity U tags Long;", "entity U;"),
    (
        "a parent and none",
        "entity U in A; entity A;",
        "entity U; entity A;",
    ),
    (
        "a group and none",
        "action u in a; action a;",
        "action u; action a;",
    ),
    (
        "other choices",
        "entity U enum [\"red\"];",
        "entity U enum [\"green\"];",
    ),
    (
        "a context and none",
        "action a appliesTo { principal: [], resource: [], context: { a: Long } };",
        "action a;",
    ),
    (
        "a principal without a resource",
        "entity U; action a appliesTo { principal: U, resource: [] };",
        "entity U; action a;",
    ),
    (
        "principals and resources changed",
        "entity U; entity V; action a appliesTo { principal: U, resource: V };",
        "entity U; entity V; action a appliesTo { principal: V, resource: U };",
    ),
];

/// The schema of a text in either format.
fn schema_of_either(alloc: Global, text: &str) -> Result<ValidatorSchema, Fail> {
    if !text.starts_with('{') {
        return schema_of(alloc, &[text]);
    }
    let extensions = sample_extensions(alloc)?;
    let fragment = fragment_from_json(alloc, text, 0)?;
    Ok(ValidatorSchema::from_schema_frag(alloc, fragment, &extensions)?)
}

/// Whether the schemas of two texts are equal.
fn are_equal(alloc: Global, first: &str, second: &str) -> Result<bool, Fail> {
    let first = schema_of_either(alloc, first)?;
    Ok(first == schema_of_either(alloc, second)?)
}

#[test]
fn some_declarations_give_equal_schemas(rt: HostRuntime) -> Result<(), Fail> {
    for (row, first, second) in EQUAL {
        holds(are_equal(rt.alloc(), first, second)?, row)?;
    }
    Ok(())
}

#[test]
fn other_declarations_give_unequal_schemas(rt: HostRuntime) -> Result<(), Fail> {
    for (row, first, second) in UNEQUAL {
        holds(!are_equal(rt.alloc(), first, second)?, row)?;
    }
    Ok(())
}
