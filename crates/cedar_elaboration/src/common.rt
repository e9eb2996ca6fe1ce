//! Common types, each elaborated once.

ghost use Rattle.std.specs.Prelude.{Contains, IfErr, IfOk, OnOk, map};
ghost use Rattle.cedar_elaboration.specs.Words.{AreSound, Chain, ElaboratesTo, Expr, HoldsElaborated, Included, IsCommonFault, IsElaborationOrder, NamesItems, PlainName, RefersToCommon, SameItems, Twice, Ty, defined_over, elaborated_types, extension_types, fault_of, held_names, item_names, written_common};

use crate::elaborating::elaborate;
use crate::ordering::elaboration_order;
use crate::shared_types::SharedTypes;
use crate::type_scope::TypeScope;
use cedar_ast::{Extensions, InternalName, put};
use cedar_name_resolution::DeclaredCommonType;
use cedar_name_resolution::defs::{AllDefs, WrittenName};
use cedar_schema_semantics::SchemaError;
use cedar_types::Type;
use std::alloc::Global;
use std::collections::BTreeMap;

/// The common types elaborated in an order in which each comes after those that it refers to.
fn elaborate_in_order<N: WrittenName>(
    alloc: Global,
    declared: &[DeclaredCommonType<N>],
    order: &[usize],
    defs: &AllDefs,
    extensions: &Extensions,
    shared: &SharedTypes,
) -> Result<BTreeMap<InternalName, Type>, SchemaError>
    requires { IsElaborationOrder (held_names defs.now)
        (written_common N N.refer declared.now) order.now }
    ensures holds { IfOk result (λ types. NamesItems (held_names defs.now)
        (written_common N N.refer declared.now)
        → HoldsElaborated (defined_over (written_common N N.refer declared.now)
        (held_names defs.now)) (elaborated_types types)) }
    ensures each { IfOk result (λ types. NamesItems (held_names defs.now)
        (written_common N N.refer declared.now)
        → Included (item_names (written_common N N.refer declared.now))
        (map (λ it. it.0) (elaborated_types types))) }
    ensures sound { OnOk result (NamesItems (held_names defs.now)
        (written_common N N.refer declared.now)
        → AreSound (defined_over (written_common N N.refer declared.now)
        (held_names defs.now)) (extension_types extensions.now)) }
    ensures fault { IfErr result (λ error. NamesItems (held_names defs.now)
        (written_common N N.refer declared.now)
        → IsCommonFault (defined_over (written_common N N.refer declared.now)
        (held_names defs.now)) (extension_types extensions.now) (fault_of error)) }
{
    let mut common = BTreeMap::new(alloc);
    for item_index in order {
        let item = &declared[*item_index];
        let scope = TypeScope {
            common: &common,
            defs,
            extensions,
            shared,
        };
        let ty = elaborate(alloc, &item.1.declared, item.1.namespace(), &scope)?;
        put(&mut common, item.0.clone()?, ty)?;
    }
    Ok(common)
}

/// The common types elaborated, each under its full name: a reference to another is what that one
/// was elaborated as. Attributes of primitive types share these.
///
/// It errs where a name stands twice, or is on a cycle of references, where a record admits
/// attributes that it doesn't list, a name is neither that of a common type nor that of an entity
/// type which its position permits, an extension type isn't known, an entity type's name is
/// reserved, or memory runs out.
pub fn common_types<N: WrittenName>(
    alloc: Global,
    declared: &[DeclaredCommonType<N>],
    defs: &AllDefs,
    extensions: &Extensions,
    shared: &SharedTypes,
) -> Result<BTreeMap<InternalName, Type>, SchemaError>
    ensures names { IfOk result (λ types. NamesItems (held_names defs.now)
        (written_common N N.refer declared.now)
        → SameItems (map (λ it. it.0) (elaborated_types types))
        (item_names (written_common N N.refer declared.now))) }
    ensures holds { IfOk result (λ types. NamesItems (held_names defs.now)
        (written_common N N.refer declared.now)
        → HoldsElaborated (defined_over (written_common N N.refer declared.now)
        (held_names defs.now)) (elaborated_types types)) }
    ensures elaborates { IfOk result (λ types. NamesItems (held_names defs.now)
        (written_common N N.refer declared.now)
        → (name : PlainName) (expr : Expr)
        → Contains (written_common N N.refer declared.now) (name, expr)
        → (ty : Ty) × Contains (elaborated_types types) (name, ty)
        × ElaboratesTo (defined_over (written_common N N.refer declared.now)
        (held_names defs.now)) expr ty) }
    ensures once { OnOk result ((name : PlainName)
        → ¬ Twice (item_names (written_common N N.refer declared.now)) name) }
    ensures no_cycle { OnOk result (NamesItems (held_names defs.now)
        (written_common N N.refer declared.now)
        → (name : PlainName) → ¬ Chain (RefersToCommon
        (defined_over (written_common N N.refer declared.now)
        (held_names defs.now))) name name) }
    ensures sound { OnOk result (NamesItems (held_names defs.now)
        (written_common N N.refer declared.now)
        → AreSound (defined_over (written_common N N.refer declared.now)
        (held_names defs.now)) (extension_types extensions.now)) }
    ensures fault { IfErr result (λ error. NamesItems (held_names defs.now)
        (written_common N N.refer declared.now)
        → IsCommonFault (defined_over (written_common N N.refer declared.now)
        (held_names defs.now)) (extension_types extensions.now) (fault_of error)) }
{
    let order = elaboration_order(alloc, declared, defs)?;
    elaborate_in_order(alloc, declared, &order, defs, extensions, shared)
}
