//! Values that are put into a record.

ghost use Rattle.std.specs.Prelude.{◌≡◌, OnOk, string_bytes, string_cmp};
ghost use Rattle.std.specs.BTreeMap.{insert_entry};
ghost use Rattle.cedar_counterexample.specs.Words.{IsPut, entries_of, tree_of};

use cedar_ast::{M, RestrictedExpr};
use std::collections::BTreeMap;

/// Puts a value under a name.
pub(crate) fn put(
    values: &mut BTreeMap<String, RestrictedExpr>,
    name: String,
    value: RestrictedExpr,
) -> M<()>
    ensures entries { OnOk result (values.new.entries
        ≡ insert_entry string_cmp values.old.entries name value) }
    ensures put { OnOk result (IsPut (string_bytes name) (tree_of value) (entries_of values.old)
        (entries_of values.new)) }
{
    let _old = values.insert(name, value)?;
    Ok(())
}
