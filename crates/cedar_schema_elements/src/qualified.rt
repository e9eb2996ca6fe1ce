//! The requests of an action over conditional names become those over the entity types that they
//! name.

ghost use Rattle.std.specs.Prelude.{◌↔◌, Contains, IfErr, IfOk, OnOk, map};
ghost use Rattle.cedar_schema_elements.specs.Words.{IsNamedBy, IsReserved, IsUnresolvable, PlainName, Reference, ResolvesTo, conditional_reference, fault_of, held_names, type_name};

use crate::apply_spec::ValidatorApplySpec;
use cedar_ast::EntityType;
use cedar_name_resolution::defs::{AllDefs, ResolveName};
use cedar_schema_ast::json_schema::ConditionalName;
use cedar_schema_semantics::SchemaError;
use std::alloc::Global;
use std::collections::HashSet;

/// The entity types that some references to principals or resources resolve to, which must not be
/// reserved.
fn named_types(
    alloc: Global,
    references: HashSet<ConditionalName>,
    all_defs: &AllDefs,
) -> Result<HashSet<EntityType>, SchemaError>
    ensures types { IfOk result (λ types.
        (name : PlainName) → Contains (map type_name types.keys) name
        ↔ IsNamedBy (held_names all_defs.now) (map conditional_reference references.keys) name) }
    ensures resolved { OnOk result
        ((reference : Reference) → Contains (map conditional_reference references.keys) reference
        → (name : PlainName) × ResolvesTo (held_names all_defs.now) reference name
        × ¬ IsReserved name) }
    ensures fault { IfErr result (λ error. IsUnresolvable (held_names all_defs.now)
        (Contains (map conditional_reference references.keys)) (λ parent. ⊥)
        (Contains (map conditional_reference references.keys)) (fault_of error)) }
{
    let mut types = HashSet::new(alloc);
    for reference in references {
        let name = reference.resolve(all_defs)?;
        let ty = match EntityType::from_internal(name) {
            Ok(ty) => ty,
            Err(name) => return Err(SchemaError::ReservedName(name)),
        };
        types.insert(ty)?;
    }
    Ok(types)
}

impl ValidatorApplySpec<ConditionalName> {
    ghost use Rattle.std.specs.Prelude.{◌++◌};
    ghost use Rattle.cedar_schema_elements.specs.ValidatorApplySpec.{principal_names, principal_references, resource_names, resource_references};

    /// The same requests, where each reference is the entity type that it resolves to over the
    /// names that are held.
    ///
    /// They are refused with one of these kinds:
    ///
    /// - `TypeNotDefined`: a reference resolves to nothing
    /// - `ReservedName`: a reference resolves to a reserved name, which no entity type has
    /// - `Memory`: memory ran out
    pub fn fully_qualify_type_references(
        self,
        alloc: Global,
        all_defs: &AllDefs,
    ) -> Result<ValidatorApplySpec<EntityType>, SchemaError>
        ensures principals { IfOk result (λ it.
            (name : PlainName) → Contains (principal_names it) name
            ↔ IsNamedBy (held_names all_defs.now) (principal_references self) name) }
        ensures resources { IfOk result (λ it.
            (name : PlainName) → Contains (resource_names it) name
            ↔ IsNamedBy (held_names all_defs.now) (resource_references self) name) }
        ensures resolved { OnOk result ((reference : Reference)
            → Contains (principal_references self ++ resource_references self) reference
            → (name : PlainName) × ResolvesTo (held_names all_defs.now) reference name
            × ¬ IsReserved name) }
        ensures fault { IfErr result (λ error. IsUnresolvable (held_names all_defs.now)
            (Contains (principal_references self ++ resource_references self)) (λ parent. ⊥)
            (Contains (principal_references self ++ resource_references self)) (fault_of error)) }
    {
        Ok(ValidatorApplySpec {
            principals: named_types(alloc, self.principals, all_defs)?,
            resources: named_types(alloc, self.resources, all_defs)?,
        })
    }
}
