//! Samples of types, and of the attributes of records.

ghost use Rattle.std.specs.Prelude.{IfOk};
ghost use Rattle.cedar_counterexample.specs.Words.{AreInhabitedWith, Has, IsInhabitedWith, IsValue, OpenTag, fields_of, map_value, record_of, ty_of, value_entries, value_tree, value_trees};

use crate::named::named_values;
use crate::samples::{fill, sample_of};
use crate::search::Search;
use cedar_ast::{Extensions, M, Value};
use cedar_types::{Attributes, Type};
use std::alloc::Global;
use std::collections::BTreeMap;

/// A value of a type that is inhabited by some samples (`Type::is_sampled`), with no part that it
/// doesn't need: of sets the empty one, of records one with the required attributes alone, and of
/// an extension type a copy of a sample. Out of memory is the only refusal.
pub fn sample_value(
    alloc: Global,
    ty: &Type,
    extensions: &Extensions,
    samples: &[Value],
) -> M<Value>
    requires { IsInhabitedWith extensions.now (value_trees samples.now) (ty_of ty.now) }
    ensures real { IfOk result (λ value. IsValue (value_tree value)) }
    ensures has { IfOk result (λ value. Has extensions.now (value_tree value) (ty_of ty.now)) }
{
    let search = Search {
        alloc,
        extensions,
        samples,
    };
    Ok(Value::new(sample_of(&search, ty)?))
}

/// The values of a record with some attributes whose types are inhabited by some samples, by name:
/// one for each required attribute, as `sample_value` gives it. Out of memory is the only refusal.
pub fn sample_attributes(
    alloc: Global,
    attrs: &Attributes,
    extensions: &Extensions,
    samples: &[Value],
) -> M<BTreeMap<String, Value>>
    requires { AreInhabitedWith extensions.now (value_trees samples.now) (fields_of attrs.now) }
    ensures real { IfOk result (λ values. IsValue (map_value (value_entries values))) }
    ensures has { IfOk result (λ values. (openness : OpenTag)
        → Has extensions.now (map_value (value_entries values))
        (record_of (fields_of attrs.now) openness)) }
{
    let search = Search {
        alloc,
        extensions,
        samples,
    };
    let values = fill(&search, BTreeMap::new(alloc), attrs)?;
    named_values(alloc, values)
}
