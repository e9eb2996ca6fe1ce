//! The names that fragments define.

ghost use Rattle.std.specs.Prelude.{◌≡◌, ◌⊎◌, ◌++◌, IfOk, IfErr, OnOk, map};
ghost use Rattle.cedar_name_resolution.specs.Words.{Bag, DeclaresJust, HasAlso, HoldsJust, IsFault, PlainName, PlainUid, action_shadowing, aliases, built_ins, defined_names, fault_of, held_names, name_of, out_of_memory, type_shadowing, written_common};

use crate::built_in::built_in_common_types;
use crate::defs::{AllDefs, WrittenName};
use crate::written::DeclaredCommonType;
use cedar_ast::{Extensions, M};
use cedar_schema_semantics::SchemaError;
use std::alloc::Global;

/// The same names, and among those of common types also those of some types.
fn with_common_types<N: WrittenName + Drop>(
    defs: AllDefs,
    types: &[DeclaredCommonType<N>],
) -> M<AllDefs>
    ensures common { IfOk result (λ after.
        HasAlso (held_names after).common (held_names defs).common
        (map (λ it. name_of it.0) types.now)) }
    ensures entities_stay { IfOk result (λ after.
        (held_names after).entities ≡ (held_names defs).entities) }
    ensures actions_stay { IfOk result (λ after.
        (held_names after).actions ≡ (held_names defs).actions) }
{
    let mut defs = defs;
    for it in types {
        defs.mark_as_defined_as_common_type(it.0.clone()?)?;
    }
    Ok(defs)
}

/// The names that fragments define over some extensions.
#[derive(Debug, Drop)]
pub struct DefinedNames<N> {
    /// The names: those that are declared, the built-in types and their aliases, and the types of
    /// actions.
    pub defs: AllDefs,
    /// The common types that no fragment declares: the built-in types under their full names, and
    /// after them their aliases, each under its base name alone unless a type of that name is
    /// declared (RFC 24).
    pub built_in: Vec<DeclaredCommonType<N>>,
}

/// All names that are defined over some extensions where just these are declared, and the common
/// types among them that no fragment declares.
///
/// They are refused with one of these kinds:
///
/// - `TypeShadowing`, `ActionShadowing`: a declared name would shadow another (RFC 70)
/// - `Memory`: memory ran out
pub fn defined_names<N: WrittenName + Drop>(
    alloc: Global,
    declared: AllDefs,
    extensions: &Extensions,
) -> Result<DefinedNames<N>, SchemaError>
    ensures names { IfOk result (λ defined. (bag : Bag) → DeclaresJust bag declared
        → HoldsJust (held_names defined.defs) (defined_names bag extensions.now)) }
    ensures built_in { IfOk result (λ defined. (bag : Bag) → DeclaresJust bag declared
        → written_common N N.refer defined.built_in.items
        ≡ built_ins extensions.now ++ aliases bag extensions.now) }
    ensures no_type_shadows { OnOk result ((bag : Bag) → DeclaresJust bag declared
        → (plain qualified : PlainName)
        → ¬ IsFault bag extensions.now (type_shadowing plain qualified)) }
    ensures no_action_shadows { OnOk result ((bag : Bag) → DeclaresJust bag declared
        → (plain qualified : PlainUid)
        → ¬ IsFault bag extensions.now (action_shadowing plain qualified)) }
    ensures fault { IfErr result (λ error. (bag : Bag) → DeclaresJust bag declared
        → (fault_of error ≡ out_of_memory) ⊎ IsFault bag extensions.now (fault_of error)) }
{
    declared.rfc_70_shadowing_checks()?;
    let built_in = built_in_common_types::<N>(alloc, &declared, extensions)?;
    let defined = with_common_types(declared, &built_in)?;
    let defs = defined.with_action_types()?;
    Ok(DefinedNames { defs, built_in })
}
