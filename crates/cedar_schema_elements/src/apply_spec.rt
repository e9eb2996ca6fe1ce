//! The requests that an action is for.

use crate::sets::copied;
use cedar_ast::{EntityType, M};
use cedar_schema_ast::json_schema::ConditionalName;
use std::collections::{HashSet, hash_set};
use std::hash::Hash;

/// The types of the principals and of the resources of the requests that an action is for: each of
/// these principals with each of these resources.
///
/// Equality is that of the two sets.
#[derive(Debug, Drop, PartialEq, Eq)]
pub struct ValidatorApplySpec<N: Eq + Hash> {
    pub(crate) principals: HashSet<N>,
    pub(crate) resources: HashSet<N>,
}

impl<N: Eq + Hash> ValidatorApplySpec<N> {
    ghost use Rattle.std.specs.Prelude.{◌≡◌};
    ghost use Rattle.cedar_schema_elements.specs.Words.{IsDistinct, principal_types, resource_types};

    /// The requests of these principals and these resources.
    pub fn new(principals: HashSet<N>, resources: HashSet<N>) -> Self
        ensures principals { principal_types result ≡ principals.keys }
        ensures resources { resource_types result ≡ resources.keys }
    {
        ValidatorApplySpec {
            principals,
            resources,
        }
    }

    /// The types of the principals, each once.
    pub fn applicable_principal_types(&self) -> hash_set::Iter<'_, N>
        ensures types { result ≡ principal_types self.now }
        ensures once { IsDistinct N.eq result }
    {
        self.principals.iter()
    }

    /// The types of the resources, each once.
    pub fn applicable_resource_types(&self) -> hash_set::Iter<'_, N>
        ensures types { result ≡ resource_types self.now }
        ensures once { IsDistinct N.eq result }
    {
        self.resources.iter()
    }
}

impl ValidatorApplySpec<EntityType> {
    ghost use Rattle.std.specs.Prelude.{◌↔◌, IsTrue, IfOk, Contains};
    ghost use Rattle.cedar_schema_elements.specs.Words.{SameItems, principal_names, resource_names, type_name};

    /// Whether the entity type is one of the principals.
    pub fn is_applicable_principal_type(&self, ty: &EntityType) -> bool
        ensures { IsTrue result ↔ Contains (principal_names self.now) (type_name ty.now) }
    {
        self.principals.contains(ty)
    }

    /// Whether the entity type is one of the resources.
    pub fn is_applicable_resource_type(&self, ty: &EntityType) -> bool
        ensures { IsTrue result ↔ Contains (resource_names self.now) (type_name ty.now) }
    {
        self.resources.contains(ty)
    }

    /// Equal sets. Out of memory is the only refusal.
    pub fn clone(&self) -> M<Self>
        ensures principals { IfOk result (λ copy.
            SameItems (principal_names copy) (principal_names self.now)) }
        ensures resources { IfOk result (λ copy.
            SameItems (resource_names copy) (resource_names self.now)) }
    {
        Ok(ValidatorApplySpec {
            principals: copied(&self.principals, EntityType::clone)?,
            resources: copied(&self.resources, EntityType::clone)?,
        })
    }
}

impl ValidatorApplySpec<ConditionalName> {
    ghost use Rattle.std.specs.Prelude.{IfOk};
    ghost use Rattle.cedar_schema_elements.specs.Words.{SameItems, principal_references, resource_references};

    /// Equal sets. Out of memory is the only refusal.
    pub fn clone(&self) -> M<Self>
        ensures principals { IfOk result (λ copy.
            SameItems (principal_references copy) (principal_references self.now)) }
        ensures resources { IfOk result (λ copy.
            SameItems (resource_references copy) (resource_references self.now)) }
    {
        Ok(ValidatorApplySpec {
            principals: copied(&self.principals, ConditionalName::clone)?,
            resources: copied(&self.resources, ConditionalName::clone)?,
        })
    }
}
