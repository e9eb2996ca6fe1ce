//! Copies of values.

ghost use Rattle.std.specs.Prelude.{IfOk};
ghost use Rattle.cedar_ast.specs.Words.{AreCopies, AreEntryCopies, IsCopy, entries_of, tree_of, trees_of};

use crate::maps::put;
use crate::memory::M;
use crate::value::RestrictedExpr;
use std::alloc::Global;
use std::collections::BTreeMap;
use std::default::Emptied;

/// Copies of some values, in their order.
#[cycle(copying)]
fn copy_each(alloc: Global, values: &[RestrictedExpr]) -> M<Vec<RestrictedExpr>>
    ensures { IfOk result (λ copies. AreCopies (trees_of values.now) (trees_of copies.items)) }
{
    let mut copies = Vec::new(alloc);
    for value in values {
        copies.push(copy_of(value)?)?;
    }
    Ok(copies)
}

/// Copies of the values of a record, each under its name.
#[cycle(copying)]
fn copy_entries(values: &BTreeMap<String, RestrictedExpr>) -> M<BTreeMap<String, RestrictedExpr>>
    ensures { IfOk result (λ copies. AreEntryCopies (entries_of values.now) (entries_of copies)) }
{
    let mut copies = BTreeMap::emptied(values)?;
    for (name, value) in values {
        let copy = copy_of(value)?;
        put(&mut copies, name.clone()?, copy)?;
    }
    Ok(copies)
}

/// An expression that stands for the same value.
#[cycle(copying)]
pub(crate) fn copy_of(expr: &RestrictedExpr) -> M<RestrictedExpr>
    ensures { IfOk result (λ copy. IsCopy (tree_of expr.now) (tree_of copy)) }
{
    match expr {
        RestrictedExpr::Bool(value) => Ok(RestrictedExpr::Bool(*value)),
        RestrictedExpr::Long(number) => Ok(RestrictedExpr::Long(*number)),
        RestrictedExpr::String(text) => Ok(RestrictedExpr::String(text.clone()?)),
        RestrictedExpr::EntityUid(uid) => Ok(RestrictedExpr::EntityUid(uid.clone()?)),
        RestrictedExpr::Set(values) => {
            let copies = copy_each(*values.allocator(), values)?;
            Ok(RestrictedExpr::Set(copies))
        }
        RestrictedExpr::Record(values) => Ok(RestrictedExpr::Record(copy_entries(values)?)),
        RestrictedExpr::ExtensionCall { function, args } => {
            let args = copy_each(*args.allocator(), args)?;
            let function = function.clone()?;
            Ok(RestrictedExpr::ExtensionCall { function, args })
        }
    }
}
