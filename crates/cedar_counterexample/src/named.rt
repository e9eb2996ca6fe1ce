//! The values of a record, by name.

ghost use Rattle.std.specs.Prelude.{◌≡◌, IfOk};
ghost use Rattle.cedar_counterexample.specs.Words.{entries_of, value_entries};

use cedar_ast::{M, RestrictedExpr, Value};
use std::alloc::Global;
use std::collections::BTreeMap;

/// The values that some expressions are for, each under its name.
pub(crate) fn named_values(
    alloc: Global,
    exprs: BTreeMap<String, RestrictedExpr>,
) -> M<BTreeMap<String, Value>>
    ensures { IfOk result (λ values. value_entries values ≡ entries_of exprs) }
{
    let mut values = BTreeMap::new(alloc);
    for (name, expr) in exprs {
        values.insert(name, Value::new(expr))?;
    }
    Ok(values)
}
