//! Attributes: those of repeated names, and where those of joined types were declared.

use crate::asked::{Question, Rows, check};
use crate::types::test_values::{PLACE, made, text};
use cedar_ast::ValidationMode;
use cedar_types::{AttributeType, Attributes, OpenTag, Type};
use checked::same;
use std::alloc::Global;
use std::rc::Rc;
use std::test::Fail;

/// An attribute, declared at the place, and its name.
type Named = (String, AttributeType);

/// The attributes of a text, each a name, `:` and the word of a type, declared at the place.
fn attributes(alloc: Global, words: &str) -> Result<Vec<Named>, Fail> {
    let mut entries = Vec::new(alloc);
    for word in words.split(',') {
        let (name, word) = word.split_once(':').ok_or("no type")?;
        let name = text(alloc, name)?;
        let ty = Rc::new(alloc, made(alloc, word)?)?;
        entries.push((name, AttributeType::new_with_loc(ty, true, Some(PLACE))))?;
    }
    Ok(entries)
}

/// What is asked about a text.
#[derive(Clone, Copy)]
enum Asked {
    /// The attributes of a list in it.
    Listed,
    /// The attributes of a list without places in it, each of which has to be there.
    Required,
    /// The join of two record types in it, and whether `bar` and `foo` of the join were declared at
    /// the place.
    Joined,
}

/// The attributes of a list.
fn listed(alloc: Global, words: &str) -> Result<String, Fail> {
    let all = Attributes::from_entries(alloc, attributes(alloc, words)?)?;
    Ok(format!(in alloc; "{all}")?)
}

/// The attributes of a list, each of which has to be there.
fn required(alloc: Global, words: &str) -> Result<String, Fail> {
    let mut items = Vec::new(alloc);
    for (name, attribute) in attributes(alloc, words)? {
        items.push((name, attribute.attr_type))?;
    }
    let all = Attributes::with_required_attributes(alloc, items)?;
    Ok(format!(in alloc; "{} of {all}", all.keys().count())?)
}

/// The closed record type of a list.
fn record(alloc: Global, words: &str) -> Result<Type, Fail> {
    let items = attributes(alloc, words)?;
    Ok(Type::record_with_attributes(alloc, items, OpenTag::ClosedAttributes)?)
}

/// Whether an attribute of a record type was declared at the place.
fn is_located(ty: &Type, name: &str) -> bool {
    match ty {
        Type::Record { attrs, .. } => attrs.get_attr(name).is_some_and(|it| it.loc == Some(PLACE)),
        _ => false,
    }
}

/// The join of the record types of two lists, between which stands a blank.
fn joined(alloc: Global, words: &str) -> Result<String, Fail> {
    let (first, second) = words.split_once(' ').ok_or("one list")?;
    let a = record(alloc, first)?;
    let b = record(alloc, second)?;
    let join = Type::least_upper_bound(alloc, &a, &b, ValidationMode::Permissive)?;
    let (bar, foo) = (is_located(&join, "bar"), is_located(&join, "foo"));
    Ok(format!(in alloc; "{join} {bar} {foo}")?)
}

impl Question for Asked {
    fn answer(self, alloc: Global, text: &str) -> Result<String, Fail> {
        match self {
            Asked::Listed => listed(alloc, text),
            Asked::Required => required(alloc, text),
            Asked::Joined => joined(alloc, text),
        }
    }
}

/// A list of attributes, the last of a name of which wins.
const LISTED: Rows = &[("foo:long,bar:long,foo:string", "{bar: Long,foo: String,}")];

/// The same of such that have to be there.
const REQUIRED: Rows = &[("b:long,a:long,b:string", "2 of {a: Long,b: String,}")];

/// What is joined with itself keeps its locations, and what is joined with another type has none.
const JOINED: Rows = &[
    (
        "bar:long,foo:true bar:long,foo:false",
        "{bar: Long,foo: Bool,} false false",
    ),
    (
        "bar:long,foo:true bar:long,foo:true",
        "{bar: Long,foo: __cedar::internal::True,} true true",
    ),
    (
        "bar:long,foo:false bar:long,foo:string",
        "__cedar::internal::OpenRecord{bar: Long,} false false",
    ),
];

#[test]
fn attributes_are_listed_and_joined(rt: HostRuntime) -> Result<(), Fail> {
    let table = &[
        (Asked::Listed, LISTED),
        (Asked::Required, REQUIRED),
        (Asked::Joined, JOINED),
    ];
    check(rt.alloc(), table)
}

#[test]
fn no_attributes_are_shown_as_none(rt: HostRuntime) -> Result<(), Fail> {
    let none = Attributes::empty(rt.alloc())?;
    let shown = format!(in rt.alloc(); "{none}")?;
    same("no attributes", shown.as_str(), "{}")
}
