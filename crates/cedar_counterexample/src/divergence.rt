//! Values of one type that another hasn't.

ghost use Rattle.std.specs.Prelude.{◌≡◌, ◌↔◌, IfOk, IfSome, None};
ghost use Rattle.cedar_counterexample.specs.Words.{AreInhabitedWith, Below, Has, IsInhabitedWith, IsOutsideAt, IsStatedWith, IsValue, Permissive, ValuesIncluded, fields_of, map_value, shape_type, steps_of, ty_of, value_entries, value_tree, value_trees};

use crate::found::{AttributesOutside, Found, Outside, Start};
use crate::named::named_values;
use crate::record_shape::RecordShape;
use crate::search::Search;
use crate::separating::{separating_expr, separating_values};
use crate::steps::turned;
use cedar_ast::{Extensions, M, Value};
use cedar_types::Type;
use std::alloc::Global;

/// A value that the one type has and the other hasn't, with the steps down both types to where they
/// part, if there is one.
///
/// None is the answer exactly where each value of the first type is one of the second. The first
/// has to be inhabited by the samples (`Type::is_sampled`); attributes may be optional, records
/// open and unions of any size. This is wider than permissive subtyping: the closed record without
/// attributes has its value in a closed one with an optional attribute, though it isn't below it.
/// The value has no part that it doesn't need for being one of the first type, apart from what
/// tells it from those of the second.
///
/// The steps go as deep as they can: to a part of both types where the values of the one aren't all
/// values of the other, or to an attribute that only one of two records requires or has. They end
/// at two records where only the first is open and their attributes fit. Out of memory is the only
/// refusal.
pub fn outside(
    alloc: Global,
    a: &Type,
    b: &Type,
    extensions: &Extensions,
    samples: &[Value],
) -> M<Option<Outside>>
    requires { IsInhabitedWith extensions.now (value_trees samples.now) (ty_of a.now) }
    ensures none { IfOk result (λ found.
        (found ≡ None) ↔ ValuesIncluded extensions.now (ty_of a.now) (ty_of b.now)) }
    ensures real { IfOk result (λ found. IfSome found (λ it. IsValue (value_tree it.value))) }
    ensures has { IfOk result (λ found.
        IfSome found (λ it. Has extensions.now (value_tree it.value) (ty_of a.now))) }
    ensures lacks { IfOk result (λ found.
        IfSome found (λ it. ¬ Has extensions.now (value_tree it.value) (ty_of b.now))) }
    ensures steps { IfOk result (λ found. IfSome found (λ it.
        IsOutsideAt extensions.now (steps_of it.steps) (ty_of a.now) (ty_of b.now))) }
{
    let search = Search {
        alloc,
        extensions,
        samples,
    };
    match separating_expr(&search, a, b)? {
        Some(found) => {
            let Found { expr, steps } = found;
            let steps = turned(steps);
            let value = Value::new(expr);
            Ok(Some(Outside { value, steps }))
        }
        None => Ok(None),
    }
}

/// A value that the one type has and the other hasn't, if there is one.
///
/// It is that of `outside`, without the steps: none exactly where each value of the first type is
/// one of the second. The first has to be inhabited by the samples (`Type::is_sampled`). Out of
/// memory is the only refusal.
pub fn value_outside(
    alloc: Global,
    a: &Type,
    b: &Type,
    extensions: &Extensions,
    samples: &[Value],
) -> M<Option<Value>>
    requires { IsInhabitedWith extensions.now (value_trees samples.now) (ty_of a.now) }
    ensures none { IfOk result (λ found.
        (found ≡ None) ↔ ValuesIncluded extensions.now (ty_of a.now) (ty_of b.now)) }
    ensures real { IfOk result (λ found. IfSome found (λ value. IsValue (value_tree value))) }
    ensures has { IfOk result (λ found.
        IfSome found (λ value. Has extensions.now (value_tree value) (ty_of a.now))) }
    ensures lacks { IfOk result (λ found.
        IfSome found (λ value. ¬ Has extensions.now (value_tree value) (ty_of b.now))) }
{
    match outside(alloc, a, b, extensions, samples)? {
        Some(found) => Ok(Some(found.value)),
        None => Ok(None),
    }
}

/// The values of a record that the one record type has and the other hasn't, by name, with the
/// steps down both types to where they part, if there is one.
///
/// It answers what `outside` does of the record types of these shapes, and is for attributes that
/// aren't yet part of a type. The types of those of the first have to be inhabited by the samples.
/// Out of memory is the only refusal.
pub fn attributes_outside(
    alloc: Global,
    a: RecordShape<'_>,
    b: RecordShape<'_>,
    extensions: &Extensions,
    samples: &[Value],
) -> M<Option<AttributesOutside>>
    requires { AreInhabitedWith extensions.now (value_trees samples.now)
        (fields_of a.attributes.now) }
    ensures none { IfOk result (λ found. (found ≡ None)
        ↔ ValuesIncluded extensions.now (shape_type a.entry) (shape_type b.entry)) }
    ensures real { IfOk result (λ found.
        IfSome found (λ it. IsValue (map_value (value_entries it.attributes)))) }
    ensures has { IfOk result (λ found. IfSome found (λ it.
        Has extensions.now (map_value (value_entries it.attributes)) (shape_type a.entry))) }
    ensures lacks { IfOk result (λ found. IfSome found (λ it.
        ¬ Has extensions.now (map_value (value_entries it.attributes)) (shape_type b.entry))) }
    ensures steps { IfOk result (λ found. IfSome found (λ it.
        IsOutsideAt extensions.now (steps_of it.steps) (shape_type a.entry)
        (shape_type b.entry))) }
{
    let search = Search {
        alloc,
        extensions,
        samples,
    };
    match separating_values(&search, a.attributes, a.openness, b.attributes, b.openness)? {
        Some(start) => {
            let Start { values, steps } = start;
            let steps = turned(steps);
            let attributes = named_values(alloc, values)?;
            Ok(Some(AttributesOutside { attributes, steps }))
        }
        None => Ok(None),
    }
}

/// A value that separates two types: the one has it and the other hasn't, if there is one.
///
/// There is one exactly where the first type isn't below the second in permissive mode. Both types
/// have to be stated with the samples (`Type::is_stated`): then subtyping is inclusion of values.
/// The value is that of `value_outside`. Out of memory is the only refusal.
pub fn separating_value(
    alloc: Global,
    a: &Type,
    b: &Type,
    extensions: &Extensions,
    samples: &[Value],
) -> M<Option<Value>>
    requires first { IsStatedWith extensions.now (value_trees samples.now) (ty_of a.now) }
    requires second { IsStatedWith extensions.now (value_trees samples.now) (ty_of b.now) }
    ensures none { IfOk result (λ found.
        (found ≡ None) ↔ Below Permissive (ty_of a.now) (ty_of b.now)) }
    ensures real { IfOk result (λ found. IfSome found (λ value. IsValue (value_tree value))) }
    ensures has { IfOk result (λ found.
        IfSome found (λ value. Has extensions.now (value_tree value) (ty_of a.now))) }
    ensures lacks { IfOk result (λ found.
        IfSome found (λ value. ¬ Has extensions.now (value_tree value) (ty_of b.now))) }
{
    value_outside(alloc, a, b, extensions, samples)
}
