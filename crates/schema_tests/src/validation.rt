//! What validation answers of schemas that are put together of parts of others.

use crate::parts::{Parts, put_together, with_action};
use crate::schemas::{answer_text, schema_of, validated_copy};
use cedar_schema::below::Extensions;
use cedar_schema::{Type, ValidatorSchema};
use checked::names::uids;
use checked::{holds, one_of, same, sample_extensions};
use std::alloc::Global;
use std::collections::BTreeMap;
use std::test::Fail;

/// Schemas, and their lines once they are validated.
const VALID: &[(Parts, &str)] = &[
    (
        &[
            ("entity Group; entity Mid in Group;", &["Group"], &[]),
            ("entity Mid; entity Leaf in Mid;", &["Mid", "Leaf"], &[]),
        ],
        "descendant Group Leaf; descendant Group Mid; descendant Mid Leaf; \
         entity Group standard; entity Leaf standard; entity Mid standard",
    ),
    (
        &[
            ("entity U;", &["U"], &[]),
            ("entity U { a: Action }; action v;", &["U"], &["Action::v"]),
        ],
        "action Action::\"v\" defined; attr U a: Action; context Action::\"v\" {}; \
         entity U standard",
    ),
    (
        &[
            (
                "entity Color enum [\"red\"]; action w in [v]; \
                 action v appliesTo { principal: Color, resource: [], context: { a: ipaddr } };",
                &["Color"],
                &["Action::v"],
            ),
            ("", &[], &["Action::w"]),
        ],
        "action Action::\"v\" defined; action Action::\"w\" external; choice Color red; \
         context Action::\"v\" {a: ipaddr,}; entity Color enum; \
         member Action::\"v\" Action::\"w\"",
    ),
];

/// Parts of a schema, how they are refused, with ` or else ` between answers that are allowed, and
/// the nearest schema that is valid.
type Refused = &'static [(Parts, &'static str, Parts)];

/// Schemas whose hierarchies of entity types aren't valid.
const HIERARCHIES: Refused = &[
    (
        &[
            ("entity Group; entity Mid in Group;", &["Group"], &[]),
            ("entity Mid; entity Leaf in Mid;", &["Mid"], &[]),
            ("entity Leaf enum [\"red\"];", &["Leaf"], &[]),
        ],
        "EnumEntityInHierarchy(the enumerated type Leaf is below the type Mid) or else \
         EnumEntityInHierarchy(the enumerated type Leaf is below the type Group)",
        &[
            ("entity Group; entity Mid in Group;", &["Group"], &[]),
            ("entity Mid; entity Leaf in Mid;", &["Mid"], &[]),
            ("", &["Leaf"], &[]),
        ],
    ),
    (
        &[
            (
                "entity Color enum [\"red\"]; entity Shade in Color;",
                &["Color"],
                &[],
            ),
            ("entity Shade; entity Tint in Shade;", &["Shade"], &[]),
            ("", &["Tint"], &[]),
        ],
        "ExternalWithEnumAncestor(the external type Tint is below the enumerated type Color)",
        &[
            (
                "entity Color enum [\"red\"]; entity Shade in Color;",
                &["Color"],
                &[],
            ),
            (
                "entity Shade; entity Tint in Shade;",
                &["Shade", "Tint"],
                &[],
            ),
        ],
    ),
    (
        &[
            ("entity Group; entity Color in Group;", &["Group"], &[]),
            ("entity Color enum [\"red\"];", &["Color"], &[]),
        ],
        "EnumEntityInHierarchy(the enumerated type Color is below the type Group)",
        &[(
            "entity Color enum [\"red\"]; entity Group in Color;",
            &["Color", "Group"],
            &[],
        )],
    ),
    (
        &[("entity U; entity Ghost in U;", &["U"], &[])],
        "UndeclaredEntityTypes(no entity type is declared as Ghost)",
        &[("entity U; entity Ghost in U;", &["U", "Ghost"], &[])],
    ),
    (
        &[
            ("entity T;", &["T"], &[]),
            ("namespace N { entity T; }", &["N::T"], &[]),
        ],
        "TypeShadowing(the type N::T would shadow the type T)",
        &[
            ("namespace M { entity T; }", &["M::T"], &[]),
            ("namespace N { entity T; }", &["N::T"], &[]),
        ],
    ),
    (
        &[("", &["N::Action"], &[])],
        "ActionEntityTypeDeclared(the entity type N::Action has the name of an action type)",
        &[("", &["Action::N"], &[])],
    ),
];

/// Schemas in which something names an entity type that isn't declared.
const UNDECLARED: Refused = &[
    (
        &[("entity U { a: Ghost }; entity Ghost;", &["U"], &[])],
        "UndeclaredEntityTypes(no entity type is declared as Ghost)",
        &[("entity U { a: U };", &["U"], &[])],
    ),
    (
        &[("entity U tags Ghost; entity Ghost;", &["U"], &[])],
        "UndeclaredEntityTypes(no entity type is declared as Ghost)",
        &[
            ("entity U tags Ghost; entity Ghost;", &["U"], &[]),
            ("", &["Ghost"], &[]),
        ],
    ),
    (
        &[(
            "entity Ghost; action v appliesTo { principal: [], resource: [], context: { a: Ghost } };",
            &[],
            &["Action::v"],
        )],
        "UndeclaredEntityTypes(no entity type is declared as Ghost)",
        &[(
            "entity Ghost; action v appliesTo { principal: [], resource: [], context: { a: Ghost } };",
            &["Ghost"],
            &["Action::v"],
        )],
    ),
    (
        &[(
            "entity Ghost; action v appliesTo { principal: Ghost, resource: [] };",
            &[],
            &["Action::v"],
        )],
        "UndeclaredEntityTypes(no entity type is declared as Ghost)",
        &[
            (
                "entity Ghost; action v appliesTo { principal: Ghost, resource: [] };",
                &[],
                &["Action::v"],
            ),
            ("entity Ghost enum [\"red\"];", &["Ghost"], &[]),
        ],
    ),
    (
        &[("entity U { a: Action }; action v;", &["U"], &[])],
        "UndeclaredEntityTypes(no entity type is declared as Action)",
        &[("entity U { a: Action }; action v;", &["U"], &["Action::v"])],
    ),
    (
        &[(
            "entity U { a: N::Action }; action v; namespace N { action w; }",
            &["U"],
            &["Action::v"],
        )],
        "UndeclaredEntityTypes(no entity type is declared as N::Action)",
        &[(
            "entity U { a: N::Action }; namespace N { action w; }",
            &["U"],
            &["N::Action::w"],
        )],
    ),
    (
        &[(
            "entity U tags Action; action v; namespace N { action w; }",
            &["U"],
            &["N::Action::w"],
        )],
        "UndeclaredEntityTypes(no entity type is declared as Action)",
        &[("entity U tags Action; action v;", &["U"], &["Action::v"])],
    ),
    (
        &[(
            "entity U tags N::Action; action v; namespace N { action w; }",
            &["U"],
            &["Action::v"],
        )],
        "UndeclaredEntityTypes(no entity type is declared as N::Action)",
        &[
            (
                "entity U tags N::Action; namespace N { action w; }",
                &["U"],
                &[],
            ),
            ("", &[], &["N::Action::w"]),
        ],
    ),
    (
        &[(
            "type C = { a: Action }; action w; \
             namespace N { action v appliesTo { principal: [], resource: [], context: C }; }",
            &[],
            &["N::Action::v"],
        )],
        "UndeclaredEntityTypes(no entity type is declared as Action)",
        &[(
            "type C = { a: Action }; action w; \
             namespace N { action v appliesTo { principal: [], resource: [], context: C }; }",
            &[],
            &["N::Action::v", "Action::w"],
        )],
    ),
    (
        &[(
            "namespace N { action w; } \
             action v appliesTo { principal: [], resource: [], context: { a: N::Action } };",
            &[],
            &["Action::v"],
        )],
        "UndeclaredEntityTypes(no entity type is declared as N::Action)",
        &[(
            "namespace N { action w; } \
             action v appliesTo { principal: [], resource: [], context: { a: N::Action } };",
            &[],
            &["Action::v", "N::Action::w"],
        )],
    ),
];

/// Schemas whose actions aren't valid.
const ACTIONS: Refused = &[
    (
        &[("", &[], &["User::x"])],
        "InvalidActionType(the action User::\"x\" has no action type)",
        &[("", &[], &["User::Action::x"])],
    ),
    (
        &[("", &[], &["N::User::x"])],
        "InvalidActionType(the action N::User::\"x\" has no action type)",
        &[("", &[], &["N::Action::x"])],
    ),
    (
        &[(
            "action gone in N::Action::\"read\"; namespace N { action read; }",
            &[],
            &["N::Action::read"],
        )],
        "UndeclaredActionsDescendant(the action Action::\"gone\" is a descendant, but not \
         declared)",
        &[(
            "action gone in N::Action::\"read\"; namespace N { action read; }",
            &[],
            &["N::Action::read", "Action::gone"],
        )],
    ),
    (
        &[("action read; action gone in read;", &[], &["Action::read"])],
        "UndeclaredActionsDescendant(the action Action::\"gone\" is a descendant, but not \
         declared)",
        &[
            ("action read; action gone in read;", &[], &["Action::read"]),
            ("", &[], &["Action::gone"]),
        ],
    ),
    (
        &[
            ("action a; action b in a;", &[], &["Action::a"]),
            ("action b; action a in b;", &[], &["Action::b"]),
        ],
        "CycleInActionHierarchy(the action Action::\"a\" is its own ancestor) or else \
         CycleInActionHierarchy(the action Action::\"b\" is its own ancestor)",
        &[(
            "action a; action b in a; entity A in A;",
            &["A"],
            &["Action::a", "Action::b"],
        )],
    ),
    (
        &[
            ("action a;", &[], &["Action::a"]),
            ("namespace N { action a; }", &[], &["N::Action::a"]),
        ],
        "ActionShadowing(the action N::Action::\"a\" would shadow the action Action::\"a\")",
        &[
            ("action a;", &[], &["Action::a"]),
            ("namespace N { action b; }", &[], &["N::Action::b"]),
        ],
    ),
];

/// What validation answers of a schema.
fn answered(alloc: Global, schema: ValidatorSchema) -> Result<String, Fail> {
    let extensions = sample_extensions(alloc)?;
    Ok(answer_text(alloc, schema.try_validate(alloc, &extensions))?)
}

/// What it answers of the schema of parts.
fn validated(alloc: Global, parts: Parts) -> Result<String, Fail> {
    answered(alloc, put_together(alloc, parts)?)
}

/// Whether what validation gives of the schema of parts comes back equal when its copy is validated
/// again. A schema that is refused fails.
fn is_resolved(alloc: Global, parts: Parts) -> Result<bool, Fail> {
    let extensions = sample_extensions(alloc)?;
    let first = put_together(alloc, parts)?.try_validate(alloc, &extensions)?;
    Ok(validated_copy(alloc, &first)? == first)
}

#[test]
fn valid_schemas_are_closed_once(rt: HostRuntime) -> Result<(), Fail> {
    let alloc = rt.alloc();
    for (parts, lines) in VALID {
        same(lines, validated(alloc, parts)?.as_str(), lines)?;
        holds(is_resolved(alloc, parts)?, lines)?;
    }
    Ok(())
}

/// Compares what validation answers of each row with what is allowed, and validates the nearest.
fn check_refused(alloc: Global, rows: Refused) -> Result<(), Fail> {
    for (parts, allowed, nearest) in rows {
        one_of(allowed, validated(alloc, parts)?.as_str(), allowed)?;
        holds(is_resolved(alloc, nearest)?, allowed)?;
    }
    Ok(())
}

#[test]
fn schemas_are_refused_and_the_nearest_are_valid(rt: HostRuntime) -> Result<(), Fail> {
    check_refused(rt.alloc(), HIERARCHIES)?;
    check_refused(rt.alloc(), UNDECLARED)?;
    check_refused(rt.alloc(), ACTIONS)
}

#[test]
fn extension_types_have_to_be_handed_in(rt: HostRuntime) -> Result<(), Fail> {
    let alloc = rt.alloc();
    let none = Extensions::new(Vec::new(alloc), BTreeMap::new(alloc));
    let built = schema_of(alloc, &["entity U { a: ipaddr };"])?.try_validate(alloc, &none);
    let expected = "UnknownExtensionType(the extension type ipaddr is not known)";
    same(
        "no extensions",
        answer_text(alloc, built)?.as_str(),
        expected,
    )
}

/// What stands below an action whose context is no record, and what validation answers of it.
const OF_ANY_CONTEXT: &[(&str, &str)] = &[
    (
        "-",
        "action Action::\"v\" defined; context Action::\"v\" Long",
    ),
    (
        "Action::v",
        "CycleInActionHierarchy(the action Action::\"v\" is its own ancestor)",
    ),
];

#[test]
fn contexts_may_be_no_records_but_no_action_is_below_itself(rt: HostRuntime) -> Result<(), Fail> {
    let alloc = rt.alloc();
    for (below, expected) in OF_ANY_CONTEXT {
        let schema = with_action(alloc, uids(alloc, below)?, Type::Long)?;
        same(below, answered(alloc, schema)?.as_str(), expected)?;
    }
    Ok(())
}
