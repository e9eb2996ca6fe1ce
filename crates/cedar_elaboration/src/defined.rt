//! The common types that are defined, each elaborated.

ghost use Rattle.std.specs.Prelude.{◌≡◌, ◌⊎◌, IfErr, IfOk, OnOk};
ghost use Rattle.cedar_elaboration.specs.Words.{AreElaborated, AreTypesOf, Bag, CommonTypesAreSound, IsFault, elaborated_types, fault_of, held_names, out_of_memory, written_common};

use crate::common::common_types;
use crate::shared_types::SharedTypes;
use cedar_ast::{Extensions, InternalName};
use cedar_name_resolution::DeclaredCommonType;
use cedar_name_resolution::defs::{AllDefs, WrittenName};
use cedar_schema_semantics::SchemaError;
use cedar_types::Type;
use std::alloc::Global;
use std::collections::BTreeMap;

/// The common types that are defined where these are declared and these are the built-in types
/// and their aliases, each elaborated under its full name. The names that are defined are given,
/// and the primitive types that attributes share.
///
/// It errs where a common type is declared twice or is built in, or is on a cycle of references;
/// where a record admits attributes that it doesn't list, a name names nothing, or an extension
/// type isn't known; or where memory runs out.
pub fn defined_common_types<N: WrittenName + Drop>(
    alloc: Global,
    declared: Vec<DeclaredCommonType<N>>,
    built_in: Vec<DeclaredCommonType<N>>,
    defs: &AllDefs,
    extensions: &Extensions,
    shared: &SharedTypes,
) -> Result<BTreeMap<InternalName, Type>, SchemaError>
    ensures elaborates { IfOk result (λ types. (bag : Bag)
        → AreTypesOf bag extensions.now (written_common N N.refer declared.items)
        (written_common N N.refer built_in.items) (held_names defs.now)
        → AreElaborated bag extensions.now (elaborated_types types)) }
    ensures sound { OnOk result ((bag : Bag)
        → AreTypesOf bag extensions.now (written_common N N.refer declared.items)
        (written_common N N.refer built_in.items) (held_names defs.now)
        → CommonTypesAreSound bag extensions.now) }
    ensures fault { IfErr result (λ error. (bag : Bag)
        → AreTypesOf bag extensions.now (written_common N N.refer declared.items)
        (written_common N N.refer built_in.items) (held_names defs.now)
        → (fault_of error ≡ out_of_memory) ⊎ IsFault bag extensions.now (fault_of error)) }
{
    let mut types = declared;
    let mut built_in = built_in;
    types.append(&mut built_in)?;
    common_types(alloc, &types, defs, extensions, shared)
}
