//! The indices of common types among those that are declared.

ghost use Rattle.std.specs.Prelude.{◌≡◌, ◌⊎◌, IfErr, IfOk, OnOk};
ghost use Rattle.cedar_elaboration.specs.Words.{AreIndices, PlainName, Twice, duplicate_common_type, fault_of, indexed_names, item_names, out_of_memory, written_common};

use cedar_ast::{InternalName, put};
use cedar_name_resolution::DeclaredCommonType;
use cedar_name_resolution::defs::WrittenName;
use cedar_schema_semantics::SchemaError;
use std::alloc::Global;
use std::collections::BTreeMap;

/// The indices of common types, each under the full name.
pub type Indices = BTreeMap<InternalName, usize>;

/// The index of each common type. A name that stands twice is refused.
pub fn name_indices<N: WrittenName>(
    alloc: Global,
    declared: &[DeclaredCommonType<N>],
) -> Result<Indices, SchemaError>
    ensures indices { IfOk result (λ indices.
        AreIndices (item_names (written_common N N.refer declared.now)) (indexed_names indices)) }
    ensures once { OnOk result ((name : PlainName)
        → ¬ Twice (item_names (written_common N N.refer declared.now)) name) }
    ensures fault { IfErr result (λ error. (fault_of error ≡ out_of_memory)
        ⊎ ((name : PlainName) × (fault_of error ≡ duplicate_common_type name)
        × Twice (item_names (written_common N N.refer declared.now)) name)) }
{
    let mut indices = BTreeMap::new(alloc);
    for (item_index, item) in declared.iter().enumerate() {
        if indices.contains_key(&item.0) {
            return Err(SchemaError::DuplicateCommonType(item.0.clone()?));
        }
        put(&mut indices, item.0.clone()?, item_index)?;
    }
    Ok(indices)
}
