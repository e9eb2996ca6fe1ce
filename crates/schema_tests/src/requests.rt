//! Requests that are held against a schema, each with what is at fault.

use crate::schemas::schema_of;
use cedar_conformance::{Request, RequestFault, ValueFaultKind, check_request};
use cedar_schema::ValidatorSchema;
use cedar_schema::below::{RestrictedExpr, Value};
use checked::names::{name, uid};
use checked::{same, sample_extensions};
use std::alloc::Global;
use std::collections::BTreeMap;
use std::rt::HostRuntime;
use std::test::Fail;

/// What is asked for: principal, action and resource.
type Asked = (&'static str, &'static str, &'static str);

/// The attributes of a context, each with the word for its value.
type Context = &'static [(&'static str, &'static str)];

/// What requests are held against.
const SCHEMA: &str = "namespace N { entity U; entity E enum [\"red\"]; \
    action v appliesTo { principal: U, resource: E, \
    context: { n: Long, e?: E, s?: Set<E>, i?: ipaddr } }; } \
    entity P; external action o;";

/// What the schema declares.
const VIEW: Asked = ("N::U::u", "N::Action::v", "N::E::red");

/// Requests, each with what is at fault, or `fits`.
const REQUESTS: &[(Asked, Context, &str)] = &[
    (VIEW, &[("n", "1")], "fits"),
    (
        VIEW,
        &[
            ("n", "1"),
            ("e", "N::E::red"),
            ("s", "[N::E::red"),
            ("i", "ip()"),
        ],
        "fits",
    ),
    (
        ("N::U::u", "N::Action::w", "N::E::red"),
        &[("n", "1")],
        "UnknownAction(N::Action::\"w\")",
    ),
    (
        ("N::U::u", "Action::o", "N::E::red"),
        &[],
        "External(Action::\"o\")",
    ),
    (
        ("P::u", "N::Action::v", "N::E::red"),
        &[("n", "1")],
        "PrincipalNotAllowed(P)",
    ),
    (
        ("N::U::u", "N::Action::v", "N::U::u"),
        &[("n", "1")],
        "ResourceNotAllowed(N::U)",
    ),
    (
        ("N::U::u", "N::Action::v", "N::E::blue"),
        &[("n", "1")],
        "NoSuchChoice(N::E::\"blue\")",
    ),
    (VIEW, &[("n", "one")], "[Attribute(\"n\")] WrongType(Long)"),
    (VIEW, &[], "[] MissingAttribute(n)"),
    (VIEW, &[("n", "1"), ("z", "1")], "[] UnexpectedAttribute(z)"),
    (
        VIEW,
        &[("n", "1"), ("i", "what()")],
        "[Attribute(\"i\")] UnknownFunction(what)",
    ),
    (
        VIEW,
        &[("n", "1"), ("e", "N::E::blue")],
        "[Attribute(\"e\")] NoSuchChoice(N::E::\"blue\")",
    ),
    (
        VIEW,
        &[("n", "1"), ("s", "[N::E::blue")],
        "[Attribute(\"s\"), Element(0)] NoSuchChoice(N::E::\"blue\")",
    ),
    (
        VIEW,
        &[("n", "1"), ("s", "[1")],
        "[Attribute(\"s\"), Element(0)] WrongType(N::E)",
    ),
];

/// The value of a word that doesn't open a set: a call, a number, a uid, or else a text.
fn single(alloc: Global, word: &str) -> Result<RestrictedExpr, Fail> {
    if let Some(function) = word.strip_suffix("()") {
        let function = name(alloc, function)?;
        let text = String::from_str(alloc, "10.0.0.1")?;
        let args = vec![in alloc; RestrictedExpr::String(text)]?;
        return Ok(RestrictedExpr::ExtensionCall { function, args });
    }
    if word == "1" {
        return Ok(RestrictedExpr::Long(1));
    }
    if word.contains("::") {
        return Ok(RestrictedExpr::EntityUid(uid(alloc, word)?));
    }
    Ok(RestrictedExpr::String(String::from_str(alloc, word)?))
}

/// The value of a word; behind `[` a set of one.
fn value(alloc: Global, word: &str) -> Result<RestrictedExpr, Fail> {
    match word.strip_prefix("[") {
        Some(element) => Ok(RestrictedExpr::Set(vec![in alloc; single(alloc, element)?]?)),
        None => single(alloc, word),
    }
}

/// A context of some attributes.
fn context(alloc: Global, attributes: Context) -> Result<Value, Fail> {
    let mut values = BTreeMap::new(alloc);
    for (name, word) in attributes {
        values.insert(String::from_str(alloc, name)?, value(alloc, word)?)?;
    }
    Ok(Value::new(RestrictedExpr::Record(values)))
}

/// What is wrong with a part of a context, as text.
fn kind_text(alloc: Global, kind: &ValueFaultKind) -> Result<String, Fail> {
    Ok(match kind {
        ValueFaultKind::WrongType(ty) => format!(in alloc; "WrongType({ty})")?,
        ValueFaultKind::MissingAttribute(name) => format!(in alloc; "MissingAttribute({name})")?,
        ValueFaultKind::UnexpectedAttribute(name) => {
            format!(in alloc; "UnexpectedAttribute({name})")?
        }
        ValueFaultKind::UnknownFunction(name) => format!(in alloc; "UnknownFunction({name})")?,
        ValueFaultKind::NoSuchChoice(uid) => format!(in alloc; "NoSuchChoice({uid})")?,
    })
}

/// A fault, as text: of a context the steps and what is wrong there.
fn fault_text(alloc: Global, fault: &RequestFault) -> Result<String, Fail> {
    Ok(match fault {
        RequestFault::UnknownAction(uid) => format!(in alloc; "UnknownAction({uid})")?,
        RequestFault::External(uid) => format!(in alloc; "External({uid})")?,
        RequestFault::PrincipalNotAllowed(ty) => format!(in alloc; "PrincipalNotAllowed({ty})")?,
        RequestFault::ResourceNotAllowed(ty) => format!(in alloc; "ResourceNotAllowed({ty})")?,
        RequestFault::NoSuchChoice(uid) => format!(in alloc; "NoSuchChoice({uid})")?,
        RequestFault::Context(fault) => {
            let kind = kind_text(alloc, &fault.kind)?;
            format!(in alloc; "{:?} {kind}", fault.steps)?
        }
        RequestFault::Memory(_) => String::from_str(alloc, "memory")?,
    })
}

/// What a schema says of a request.
fn answer(
    alloc: Global,
    schema: &ValidatorSchema,
    asked: Asked,
    attributes: Context,
) -> Result<String, Fail> {
    let (principal, action, resource) = asked;
    let request = Request {
        principal: &uid(alloc, principal)?,
        action: &uid(alloc, action)?,
        resource: &uid(alloc, resource)?,
        context: &context(alloc, attributes)?,
    };
    match check_request(alloc, schema, &request, &sample_extensions(alloc)?) {
        Ok(()) => Ok(String::from_str(alloc, "fits")?),
        Err(fault) => fault_text(alloc, &fault),
    }
}

#[test]
fn requests_are_held_against_a_schema(rt: HostRuntime) -> Result<(), Fail> {
    let alloc = rt.alloc();
    let schema = schema_of(alloc, &[SCHEMA])?;
    for (asked, attributes, expected) in REQUESTS {
        let answer = answer(alloc, &schema, *asked, attributes)?;
        same(expected, answer.as_str(), expected)?;
    }
    Ok(())
}
