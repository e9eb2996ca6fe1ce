//! Schemas that are converted back as fragments, and built again.

use crate::comparisons::tagged;
use crate::parts::{Parts, put_together, with_action, with_type};
use crate::schemas::schema_of;
use cedar_schema::below::Memory;
use cedar_schema::json_schema::{Fragment, RawName};
use cedar_schema::{AttributeType, Attributes, OpenTag, Type, ValidatorSchema, WriteBackFault};
use cedar_schema_text_laws::round_trip::through_text;
use checked::{holds, same, sample_extensions};
use std::alloc::Global;
use std::rc::Rc;
use std::test::Fail;

/// Whether what is built of a fragment is equal to a schema.
fn is_built_again(
    alloc: Global,
    fragment: Fragment<RawName>,
    schema: &ValidatorSchema,
) -> Result<bool, Fail> {
    let extensions = sample_extensions(alloc)?;
    Ok(ValidatorSchema::from_schema_frag(alloc, fragment, &extensions)? == *schema)
}

/// How what is built again of a schema, once it is converted back, compares with it.
fn outcome(alloc: Global, schema: &ValidatorSchema) -> Result<&'static str, Fail> {
    match schema.to_json_schema(alloc) {
        Ok(fragment) => {
            let is_equal = is_built_again(alloc, fragment, schema)?;
            Ok(if is_equal { "equal" } else { "unequal" })
        }
        Err(WriteBackFault::Unwritable) => Ok("unwritten"),
        Err(WriteBackFault::Memory) => Err(Fail::from(Memory)),
    }
}

/// Schemas that are built, all of which are converted back.
const BUILT: &[&str] = &[
    "",
    "entity C enum [\"red\", \"green\"]; entity B in A; external entity A; \
     entity U in [B, C] { a: Long, b?: Set<String>, c: { d?: U } } tags ipaddr;",
    "namespace N { entity U; action a in b; \
     action b appliesTo { principal: U, resource: M::V, context: { a?: Bool } }; } \
     namespace M { entity V { u: N::U }; } external action c in N::Action::\"b\";",
];

#[test]
fn built_schemas_are_converted_back(rt: HostRuntime) -> Result<(), Fail> {
    for text in BUILT {
        let schema = schema_of(rt.alloc(), &[*text])?;
        same(text, outcome(rt.alloc(), &schema)?, "equal")?;
    }
    Ok(())
}

/// Whether a schema that is written as text and read again is built again.
fn comes_back_through_text(alloc: Global, schema: &ValidatorSchema) -> Result<bool, Fail> {
    let fragment = schema.to_json_schema(alloc)?;
    match through_text(alloc, &fragment, &[], 0) {
        Ok(read) => is_built_again(alloc, read, schema),
        Err(lost) => Err(Fail::new(format_args!("{lost:?}"))),
    }
}

#[test]
fn built_schemas_come_back_through_text(rt: HostRuntime) -> Result<(), Fail> {
    for text in BUILT {
        let schema = schema_of(rt.alloc(), &[*text])?;
        holds(comes_back_through_text(rt.alloc(), &schema)?, text)?;
    }
    Ok(())
}

/// Schemas that are put together of parts: those that no fragment declares, and those that one does.
const PUT_TOGETHER: &[(Parts, &str)] = &[
    (
        &[("entity U; entity Ghost in U;", &["U"], &[])],
        "unwritten",
    ),
    (
        &[
            ("entity U; entity Color in U;", &["U"], &[]),
            ("entity Color enum [\"red\"];", &["Color"], &[]),
        ],
        "unwritten",
    ),
    (&[("", &[], &["User::v"])], "unwritten"),
    (
        &[("action v; action gone in v;", &[], &["Action::v"])],
        "unwritten",
    ),
    (&[("entity U { a: Long };", &["U"], &[])], "equal"),
    (
        &[
            ("entity U; entity V in U;", &["U", "V"], &[]),
            ("", &["W"], &[]),
        ],
        "equal",
    ),
    (
        &[(
            "entity Color enum [\"red\"]; entity U in Color;",
            &["Color", "U"],
            &[],
        )],
        "equal",
    ),
    (
        &[
            ("action v; action w in v;", &[], &["Action::v"]),
            ("", &[], &["Action::w"]),
        ],
        "equal",
    ),
    (
        &[(
            "entity U { a: ipaddr }; namespace N { entity V tags U; action v; }",
            &["U", "N::V"],
            &["N::Action::v"],
        )],
        "equal",
    ),
];

#[test]
fn what_no_fragment_declares_is_not_written(rt: HostRuntime) -> Result<(), Fail> {
    let alloc = rt.alloc();
    for (parts, wanted) in PUT_TOGETHER {
        let schema = put_together(alloc, parts)?;
        same("parts", outcome(alloc, &schema)?, wanted)?;
    }
    Ok(())
}

/// The attribute `a` of the type `True`.
fn attribute(alloc: Global) -> Result<Attributes, Fail> {
    let name = String::from_str(alloc, "a")?;
    let ty = Rc::new(alloc, Type::singleton_boolean(true))?;
    let attribute = (name, AttributeType::required_attribute(ty));
    Ok(Attributes::with_attributes(alloc, [attribute])?)
}

/// Fails where a schema is written.
fn check_unwritten(alloc: Global, row: &str, schema: ValidatorSchema) -> Result<(), Fail> {
    same(row, outcome(alloc, &schema)?, "unwritten")
}

#[test]
fn the_type_true_is_not_written(rt: HostRuntime) -> Result<(), Fail> {
    let (alloc, closed) = (rt.alloc(), OpenTag::ClosedAttributes);
    let schema = with_type(alloc, attribute(alloc)?, closed, None)?;
    check_unwritten(alloc, "attribute", schema)?;
    let schema = tagged(alloc, closed, Type::singleton_boolean(true))?;
    check_unwritten(alloc, "tags", schema)?;
    let schema = with_action(alloc, Vec::new(alloc), Type::singleton_boolean(true))?;
    check_unwritten(alloc, "context", schema)
}

#[test]
fn an_empty_schema_has_no_definitions(rt: HostRuntime) -> Result<(), Fail> {
    let fragment = ValidatorSchema::empty(rt.alloc()).to_json_schema(rt.alloc());
    holds(fragment.is_ok_and(|it| it.0.is_empty()), "no definitions")
}
