//! The walk down a value and its type to a part that isn't of the type there.

ghost use Rattle.std.specs.Prelude.{◌≡◌, Contains, IfOk, IfSome, None, OnErr, string_bytes};
ghost use Rattle.std.specs.Option.{option_copied, option_map};
ghost use Rattle.cedar_ast.specs.Words.{set_value};
ghost use Rattle.cedar_conformance.specs.Mismatch.{HaveParts, IsEntryAnswer, IsFieldsAnswer, IsNamesAnswer, IsTypeAnswer, key_texts};
ghost use Rattle.cedar_conformance.specs.Plain.{noted_fault};
ghost use Rattle.cedar_types.specs.Words.{Entries, Has, Included, NamesListed, is_open, attribute_of, entries_of, entry_names, field_names, fields_of, map_value, record_of, set_of, tree_of, trees_of, ty_of};

use crate::value_fault::{ValueFault, ValueFaultKind, ValueStep, here, under};
use cedar_ast::{Extensions, M, RestrictedExpr};
use cedar_types::{AttributeType, Attributes, OpenTag, Type};
use std::alloc::Global;
use std::collections::BTreeMap;

/// What the walk takes along.
#[derive(Drop)]
pub(crate) struct Search<'s> {
    pub(crate) alloc: Global,
    pub(crate) extensions: &'s Extensions,
}

/// The fault of a value that isn't gone into.
fn leaf_fault(search: &Search<'_>, expr: &RestrictedExpr, ty: &Type) -> M<Option<ValueFault>>
    ensures answer { IfOk result (λ found. ¬ HaveParts (tree_of expr.now) (ty_of ty.now)
        → IsTypeAnswer search.now.extensions.now (tree_of expr.now) (ty_of ty.now)
        (option_map noted_fault found)) }
    ensures memory { OnErr result
        (¬ Has search.now.extensions.now (tree_of expr.now) (ty_of ty.now)) }
{
    match ty.typecheck_restricted_expr(expr, search.extensions) {
        Ok(true) => Ok(None),
        Ok(false) => Ok(Some(here(search.alloc, ValueFaultKind::WrongType(ty.clone()?)))),
        Err(error) => Ok(Some(here(
            search.alloc,
            ValueFaultKind::UnknownFunction(error.name.clone()?),
        ))),
    }
}

/// The name of an attribute that isn't listed, if there is one.
pub(crate) fn unlisted<'v, V>(
    values: &'v BTreeMap<String, V>,
    attrs: &Attributes,
) -> Option<&'v String>
    ensures none { result ≡ None → Included (key_texts values.now) (field_names (fields_of attrs.now)) }
    ensures some { IfSome result (λ name. Contains (key_texts values.now) (string_bytes name.now)
        × ¬ Contains (field_names (fields_of attrs.now)) (string_bytes name.now)) }
{
    for name in values.keys() {
        if let None = attrs.get_attr(name) {
            return Some(name);
        }
    }
    None
}

/// The fault of a record that has an attribute too many, if it has one.
pub(crate) fn names_fault<V>(
    search: &Search<'_>,
    values: &BTreeMap<String, V>,
    attrs: &Attributes,
    openness: OpenTag,
) -> M<Option<ValueFault>>
    ensures answer { IfOk result (λ found. (entries : Entries)
        → entry_names entries ≡ key_texts values.now
        → IsNamesAnswer entries (fields_of attrs.now) openness (option_map noted_fault found)) }
    ensures memory { OnErr result (¬ NamesListed (is_open openness) (key_texts values.now)
        (field_names (fields_of attrs.now))) }
{
    let OpenTag::ClosedAttributes = openness else {
        return Ok(None);
    };
    match unlisted(values, attrs) {
        Some(name) => {
            let kind = ValueFaultKind::UnexpectedAttribute(name.clone()?);
            Ok(Some(here(search.alloc, kind)))
        }
        None => Ok(None),
    }
}

/// The fault of a record at one of its attributes, given the value that stands there.
#[cycle(mismatch)]
pub(crate) fn attribute_fault(
    search: &Search<'_>,
    found: Option<&RestrictedExpr>,
    name: &String,
    attribute: &AttributeType,
) -> M<Option<ValueFault>>
    ensures answer { IfOk result (λ fault. IsEntryAnswer search.now.extensions.now
        (string_bytes name.now) (attribute_of attribute.now)
        (option_map tree_of (option_copied found.entry)) (option_map noted_fault fault)) }
    ensures memory { OnErr result (¬ IsEntryAnswer search.now.extensions.now
        (string_bytes name.now) (attribute_of attribute.now)
        (option_map tree_of (option_copied found.entry)) None) }
{
    let Some(value) = found else {
        if !attribute.is_required {
            return Ok(None);
        }
        let kind = ValueFaultKind::MissingAttribute(name.clone()?);
        return Ok(Some(here(search.alloc, kind)));
    };
    match type_fault(search, value, &attribute.attr_type)? {
        Some(fault) => Ok(Some(under(ValueStep::Attribute(name.clone()?), fault)?)),
        None => Ok(None),
    }
}

/// The fault of a record at its listed attributes, if there is one.
#[cycle(mismatch)]
fn fields_fault(
    search: &Search<'_>,
    values: &BTreeMap<String, RestrictedExpr>,
    attrs: &Attributes,
) -> M<Option<ValueFault>>
    ensures answer { IfOk result (λ fault. IsFieldsAnswer search.now.extensions.now
        (entries_of values.now) (fields_of attrs.now) (option_map noted_fault fault)) }
    ensures memory { OnErr result (¬ IsFieldsAnswer search.now.extensions.now
        (entries_of values.now) (fields_of attrs.now) None) }
{
    for (name, attribute) in attrs.iter() {
        if let Some(fault) = attribute_fault(search, values.get(name), name, attribute)? {
            return Ok(Some(fault));
        }
    }
    Ok(None)
}

/// The fault of a record, if there is one.
#[cycle(mismatch)]
fn record_fault(
    search: &Search<'_>,
    values: &BTreeMap<String, RestrictedExpr>,
    attrs: &Attributes,
    openness: OpenTag,
) -> M<Option<ValueFault>>
    ensures answer { IfOk result (λ fault. IsTypeAnswer search.now.extensions.now
        (map_value (entries_of values.now)) (record_of (fields_of attrs.now) openness)
        (option_map noted_fault fault)) }
    ensures memory { OnErr result (¬ Has search.now.extensions.now
        (map_value (entries_of values.now)) (record_of (fields_of attrs.now) openness)) }
{
    if let Some(fault) = names_fault(search, values, attrs, openness)? {
        return Ok(Some(fault));
    }
    fields_fault(search, values, attrs)
}

/// The fault of a set at one of its elements, if there is one.
#[cycle(mismatch)]
fn element_fault(search: &Search<'_>, values: &[RestrictedExpr], ty: &Type) -> M<Option<ValueFault>>
    ensures answer { IfOk result (λ fault. IsTypeAnswer search.now.extensions.now
        (set_value (trees_of values.now)) (set_of (ty_of ty.now)) (option_map noted_fault fault)) }
    ensures memory { OnErr result (¬ Has search.now.extensions.now
        (set_value (trees_of values.now)) (set_of (ty_of ty.now))) }
{
    for (index, value) in values.iter().enumerate() {
        if let Some(fault) = type_fault(search, value, ty)? {
            return Ok(Some(under(ValueStep::Element(index), fault)?));
        }
    }
    Ok(None)
}

/// The fault of a value at a type, if it hasn't that type: the first part that isn't of the type
/// wanted there.
#[cycle(mismatch)]
pub(crate) fn type_fault(
    search: &Search<'_>,
    expr: &RestrictedExpr,
    ty: &Type,
) -> M<Option<ValueFault>>
    ensures answer { IfOk result (λ fault. IsTypeAnswer search.now.extensions.now
        (tree_of expr.now) (ty_of ty.now) (option_map noted_fault fault)) }
    ensures memory { OnErr result
        (¬ Has search.now.extensions.now (tree_of expr.now) (ty_of ty.now)) }
{
    match (ty, expr) {
        (Type::Set { element_type }, RestrictedExpr::Set(values)) => match element_type {
            Some(element) => element_fault(search, values, element),
            None => Ok(None),
        },
        (
            Type::Record {
                attrs,
                open_attributes,
            },
            RestrictedExpr::Record(values),
        ) => record_fault(search, values, attrs, *open_attributes),
        _ => leaf_fault(search, expr, ty),
    }
}
