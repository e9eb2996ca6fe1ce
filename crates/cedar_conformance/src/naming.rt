//! The walk down a value to a uid that doesn't exist.

ghost use Rattle.std.specs.Prelude.{IfOk, OnErr, None};
ghost use Rattle.std.specs.Option.{option_map};
ghost use Rattle.cedar_ast.specs.Words.{entries_of, map_value, set_value, tree_of, trees_of, uid_of, uid_value};
ghost use Rattle.cedar_conformance.specs.Naming.{IsNamingAnswer};
ghost use Rattle.cedar_conformance.specs.Plain.{noted_fault};
ghost use Rattle.cedar_schema.specs.Words.{schema_of};

use crate::value_fault::{ValueFault, ValueFaultKind, ValueStep, here, under};
use cedar_ast::{EntityUID, M, RestrictedExpr};
use cedar_schema::ValidatorSchema;
use std::alloc::Global;
use std::collections::BTreeMap;

/// What the walk takes along.
#[derive(Drop)]
pub(crate) struct Existing<'s> {
    pub(crate) alloc: Global,
    pub(crate) schema: &'s ValidatorSchema,
}

/// The fault of a uid that doesn't exist.
fn uid_fault(existing: &Existing<'_>, uid: &EntityUID) -> M<Option<ValueFault>>
    ensures answer { IfOk result (λ fault. IsNamingAnswer (schema_of existing.now.schema.now)
        (uid_value (uid_of uid.now)) (option_map noted_fault fault)) }
    ensures memory { OnErr result (¬ IsNamingAnswer (schema_of existing.now.schema.now)
        (uid_value (uid_of uid.now)) None) }
{
    if existing.schema.entity_exists(uid) {
        return Ok(None);
    }
    let kind = ValueFaultKind::NoSuchChoice(uid.clone()?);
    Ok(Some(here(existing.alloc, kind)))
}

/// The fault of a set with an element that names a uid which doesn't exist.
#[cycle(naming)]
fn element_naming(existing: &Existing<'_>, values: &[RestrictedExpr]) -> M<Option<ValueFault>>
    ensures answer { IfOk result (λ fault. IsNamingAnswer (schema_of existing.now.schema.now)
        (set_value (trees_of values.now)) (option_map noted_fault fault)) }
    ensures memory { OnErr result (¬ IsNamingAnswer (schema_of existing.now.schema.now)
        (set_value (trees_of values.now)) None) }
{
    for (index, value) in values.iter().enumerate() {
        if let Some(fault) = naming_fault(existing, value)? {
            return Ok(Some(under(ValueStep::Element(index), fault)?));
        }
    }
    Ok(None)
}

/// The fault of a record with a value that names a uid which doesn't exist.
#[cycle(naming)]
fn entry_naming(
    existing: &Existing<'_>,
    values: &BTreeMap<String, RestrictedExpr>,
) -> M<Option<ValueFault>>
    ensures answer { IfOk result (λ fault. IsNamingAnswer (schema_of existing.now.schema.now)
        (map_value (entries_of values.now)) (option_map noted_fault fault)) }
    ensures memory { OnErr result (¬ IsNamingAnswer (schema_of existing.now.schema.now)
        (map_value (entries_of values.now)) None) }
{
    for (name, value) in values {
        if let Some(fault) = naming_fault(existing, value)? {
            return Ok(Some(under(ValueStep::Attribute(name.clone()?), fault)?));
        }
    }
    Ok(None)
}

/// The fault of a value that names a uid which doesn't exist: the first such.
#[cycle(naming)]
pub(crate) fn naming_fault(existing: &Existing<'_>, expr: &RestrictedExpr) -> M<Option<ValueFault>>
    ensures answer { IfOk result (λ fault. IsNamingAnswer (schema_of existing.now.schema.now)
        (tree_of expr.now) (option_map noted_fault fault)) }
    ensures memory { OnErr result (¬ IsNamingAnswer (schema_of existing.now.schema.now)
        (tree_of expr.now) None) }
{
    match expr {
        RestrictedExpr::EntityUid(uid) => uid_fault(existing, uid),
        RestrictedExpr::Set(values) => element_naming(existing, values),
        RestrictedExpr::Record(values) => entry_naming(existing, values),
        RestrictedExpr::Bool(_)
        | RestrictedExpr::Long(_)
        | RestrictedExpr::String(_)
        | RestrictedExpr::ExtensionCall { .. } => Ok(None),
    }
}
