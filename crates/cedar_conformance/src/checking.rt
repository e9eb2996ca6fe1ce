//! Values that have to be of a type and to name what exists.

ghost use Rattle.std.specs.Prelude.{IfOk, OnErr, None};
ghost use Rattle.std.specs.Option.{option_map};
ghost use Rattle.cedar_ast.specs.Words.{tree_of};
ghost use Rattle.cedar_conformance.specs.Plain.{fault_of};
ghost use Rattle.cedar_conformance.specs.ValueFault.{IsValueAnswer};
ghost use Rattle.cedar_schema.specs.Words.{schema_of, ty_of};

use crate::mismatch::{Search, type_fault};
use crate::naming::{Existing, naming_fault};
use crate::value_fault::{ValueFault, turned};
use cedar_ast::{Extensions, M, RestrictedExpr};
use cedar_schema::ValidatorSchema;
use cedar_types::Type;
use std::alloc::Global;

/// What each check takes along.
#[derive(Drop)]
pub(crate) struct Checking<'c> {
    pub(crate) search: Search<'c>,
    pub(crate) existing: Existing<'c>,
}

/// The fault of a value that has to be of a type and to name what exists, if it has one.
pub(crate) fn value_fault(
    checking: &Checking<'_>,
    expr: &RestrictedExpr,
    ty: &Type,
) -> M<Option<ValueFault>>
    ensures answer { IfOk result (λ fault. IsValueAnswer checking.now.search.extensions.now
        (schema_of checking.now.existing.schema.now) (tree_of expr.now) (ty_of ty.now)
        (option_map fault_of fault)) }
    ensures memory { OnErr result (¬ IsValueAnswer checking.now.search.extensions.now
        (schema_of checking.now.existing.schema.now) (tree_of expr.now) (ty_of ty.now) None) }
{
    if let Some(fault) = type_fault(&checking.search, expr, ty)? {
        return Ok(Some(turned(fault)));
    }
    match naming_fault(&checking.existing, expr)? {
        Some(fault) => Ok(Some(turned(fault))),
        None => Ok(None),
    }
}
