//! Sets of entity types: those of the principals, or of the resources, of an action's requests.

ghost use Rattle.std.specs.Prelude.{◌≡◌, ⊤, length};
ghost use Rattle.std.specs.Iterator.{at_most};
ghost use Rattle.std.specs.Map.Iter.{TakesFirst, deref};
ghost use Rattle.cedar_types.specs.TypesInOrder.{AreInOrder, AreInOrder-prop as one_order};

use cedar_ast::{EntityType, M};
use std::alloc::{AllocError, Global};
use std::iter::FusedIterator;
use std::marker::Model;
use std::slice;

/// Entity types in the order of their names, each once. Their names stand in one list, and to look
/// one up is to halve that list again and again, so names that hash alike cost no more than others.
///
/// Equality is that of sets.
#[derive(Debug, PartialEq, Eq)]
pub struct TypeSet {
    types: Vec<EntityType>,
    ghost sorted: { AreInOrder types.items } by { one_order types.items },
}

// Written out: proofs of what holds sets then see one call, and nothing of their parts.
impl Drop for TypeSet {
    fn drop(self) {
        let TypeSet { types: _types } = self;
    }
}

impl TypeSet {
    ghost use Rattle.std.specs.Prelude.{◌≡◌, ◌↔◌, ◌<◌, ◌∷◌, [], Contains, IfOk, IsTrue, Some, length, map};
    ghost use Rattle.std.specs.List.{slice_get};
    ghost use Rattle.std.specs.List.Sorted.{IsStrictlySortedBy};
    ghost use Rattle.cedar_schema_elements.specs.Words.{SameItems, name_cmp, set_name_at, set_names, set_types, type_name};

    /// The set of these entity types.
    pub fn of(types: Vec<EntityType>) -> Self
        ensures { SameItems (set_names result) (map type_name types.items) }
    {
        let mut types = types;
        types.sort_unstable();
        types.dedup();
        TypeSet { types }
    }

    /// The set of a single entity type. Out of memory is the only refusal.
    pub(crate) fn single(alloc: Global, ty: EntityType) -> M<Self>
        ensures { IfOk result (λ set. set_types set ≡ ty ∷ []) }
    {
        let mut types = Vec::with_capacity(alloc, 1)?;
        types.push(ty)?;
        Ok(TypeSet { types })
    }

    /// How many entity types the set has.
    pub(crate) fn len(&self) -> usize
        ensures { result ≡ length (set_names self.now) }
    {
        self.types.len()
    }

    /// The entity type at a place, counted from zero in the order of the names.
    pub(crate) fn at(&self, place: usize) -> &EntityType
        requires { place < length (set_names self.now) }
        ensures name { type_name result.now ≡ set_name_at self.now place }
        ensures item { slice_get (set_types self.now) place ≡ Some result.now }
    {
        &self.types[place]
    }

    /// The same entity types. Out of memory is the only refusal.
    pub(crate) fn clone(&self) -> M<Self>
        ensures { IfOk result (λ copy. set_names copy ≡ set_names self.now) }
    {
        let mut types = Vec::with_capacity(*self.types.allocator(), self.types.len())?;
        for ty in &self.types {
            types.push(ty.clone()?)?;
        }
        Ok(TypeSet { types })
    }

    /// The entity types, in the order of their names, each once.
    pub fn iter(&self) -> RequestTypes<'_>
        ensures types { result ≡ set_types self.now }
        ensures in_order { IsStrictlySortedBy name_cmp (map type_name (set_types self.now)) }
    {
        RequestTypes {
            rest: self.types.iter(),
        }
    }

    /// Whether an entity type is one of the set.
    pub fn contains(&self, ty: &EntityType) -> bool
        ensures { IsTrue result ↔ Contains (set_names self.now) (type_name ty.now) }
    {
        self.types.binary_search(ty).is_ok()
    }
}

/// The entity types that are left of those of the principals, or of the resources, of an action's
/// requests, in the order of their names.
#[derive(Drop)]
pub struct RequestTypes<'a> {
    rest: slice::Iter<'a, EntityType>,
}

impl<'a> Model for RequestTypes<'a> {
    ghost use Rattle.std.specs.Prelude.{List};
    ghost use Rattle.std.specs.Slice.Iter.{iter_rest};
    ghost use Rattle.cedar_ast.specs.declared.entity_type.EntityType.{EntityType};

    ghost Value = { List EntityType };

    ghost view = { λ a. iter_rest a.rest };
}

impl<'a> RequestTypes<'a> {
    ghost use Rattle.std.specs.Prelude.{◌≡◌, []};

    /// No entity types.
    pub(crate) fn none() -> Self
        ensures { result ≡ [] }
    {
        RequestTypes { rest: [].iter() }
    }
}

impl<'a> Clone for RequestTypes<'a> {
    ghost is_clone = { λ s r. r ≡ s };

    ghost is_infallible = { λ _. ⊤ };

    /// The same entity types that are left. It takes no memory.
    fn clone(&self) -> Result<RequestTypes<'a>, AllocError> {
        Ok(RequestTypes {
            rest: self.rest.clone()?,
        })
    }
}

impl<'a> Iterator for RequestTypes<'a> {
    type Item = &'a EntityType;

    ghost next_gives = { TakesFirst deref };

    ghost remaining = { λ s. at_most (length s) };

    fn next(&mut self) -> Option<&'a EntityType> {
        self.rest.next()
    }

    fn size_hint(&self) -> (usize, Option<usize>) {
        self.rest.size_hint()
    }
}

impl<'a> FusedIterator for RequestTypes<'a> {}

impl<'a> ExactSizeIterator for RequestTypes<'a> {
    fn len(&self) -> usize {
        self.rest.len()
    }
}
