//! Common types in an order in which each comes after those that it refers to.

ghost use Rattle.std.specs.Prelude.{[], IfErr, IfOk, OnOk};
ghost use Rattle.cedar_elaboration.specs.Words.{AddsIndices, HasNoCycle, HoldsPairwise, IsElaborationOrder, IsOrderFault, PlainName, Refers, Twice, fault_of, held_names, indexed_names, item_names, written_common};

use crate::indices::{Indices, name_indices};
use crate::referring::{IndexScope, referred_indices};
use cedar_ast::M;
use cedar_graph::{Ordered, topo_sort};
use cedar_name_resolution::DeclaredCommonType;
use cedar_name_resolution::defs::{AllDefs, WrittenName};
use cedar_schema_semantics::SchemaError;
use std::alloc::Global;

/// For each common type the indices of those that it refers to.
pub fn all_targets<N: WrittenName>(
    alloc: Global,
    declared: &[DeclaredCommonType<N>],
    indices: &Indices,
    defs: &AllDefs,
) -> M<Vec<Vec<usize>>>
    ensures { IfOk result (λ targets.
        HoldsPairwise (λ it found. AddsIndices (held_names defs.now) (indexed_names indices.now)
        (Refers it.1) [] found.items)
        (written_common N N.refer declared.now) targets.items) }
{
    let mut targets = Vec::new(alloc);
    for item in declared {
        let scope = IndexScope {
            namespace: item.1.namespace(),
            indices,
            defs,
        };
        targets.push(referred_indices(alloc, &item.1.declared, &scope)?)?;
    }
    Ok(targets)
}

/// The indices of the common types, each after those of the common types that it refers to. A name
/// that stands twice is refused, and so is one that is on a cycle.
pub(crate) fn elaboration_order<N: WrittenName>(
    alloc: Global,
    declared: &[DeclaredCommonType<N>],
    defs: &AllDefs,
) -> Result<Vec<usize>, SchemaError>
    ensures order { IfOk result (λ order.
        IsElaborationOrder (held_names defs.now) (written_common N N.refer declared.now)
        order.items) }
    ensures once { OnOk result ((name : PlainName)
        → ¬ Twice (item_names (written_common N N.refer declared.now)) name) }
    ensures no_cycle { OnOk result (HasNoCycle (held_names defs.now)
        (written_common N N.refer declared.now)) }
    ensures fault { IfErr result (λ error.
        IsOrderFault (held_names defs.now) (written_common N N.refer declared.now)
        (fault_of error)) }
{
    let indices = name_indices(alloc, declared)?;
    let targets = all_targets(alloc, declared, &indices, defs)?;
    match topo_sort(alloc, &targets)? {
        Ordered::Order(order) => Ok(order),
        Ordered::Cycle(item_index) => {
            let name = declared[item_index].0.clone()?;
            Err(SchemaError::CycleInCommonTypeReferences(name))
        }
    }
}
