//! Unions of entity types.

ghost use Rattle.std.specs.Prelude.{◌≡◌, ◌≢◌, ◌↔◌, ◌++◌, [], Contains, length, map, true, IfOk};
ghost use Rattle.std.specs.List.Sorted.{IsPermutation, IsSorted, IsStrictlySortedBy};
ghost use Rattle.cedar_ast.specs.Words.{PlainName, name_cmp, type_name};
ghost use Rattle.cedar_types.specs.TypesInOrder.{AreInOrder, AreInOrder-prop as one_order};

use crate::subtype::is_same;
use cedar_ast::{EntityType, M, MaybeShared};
use itertools::Itertools;
use std::alloc::Global;
use std::cmp::Ordering;
use std::slice;

/// A union of entity types: a nonempty set of them, in order and without repeats. Several are
/// shared, so that a copy of their union only counts one more owner.
#[derive(Debug, PartialEq, Eq, PartialOrd, Ord, Hash)]
pub struct EntityLUB {
    lub_elements: MaybeShared<Vec<EntityType>>,
    ghost nonempty: { lub_elements.value.items ≢ [] },
    ghost sorted: { AreInOrder lub_elements.value.items } by { one_order lub_elements.value.items },
    ghost single_owned: { lub_elements.is_shared ≡ true → length lub_elements.value.items ≢ 1 },
}

// Written out: proofs of what holds unions then see one call, and nothing of their parts.
impl Drop for EntityLUB {
    fn drop(self) {
        let EntityLUB {
            lub_elements: _lub_elements,
        } = self;
    }
}

/// Equal entity types in the same order.
fn clone_each(types: &Vec<EntityType>) -> M<Vec<EntityType>>
    ensures { IfOk result (λ copy. map type_name copy.items ≡ map type_name types.now.items) }
{
    let mut copy = Vec::new(*types.allocator());
    for ty in types {
        copy.push(ty.clone()?)?;
    }
    Ok(copy)
}

/// Entity types equal to those that are referred to, in the same order, each of them shared.
fn share_all(types: &Vec<&EntityType>) -> M<Vec<EntityType>>
    ensures { IfOk result (λ copy.
        map type_name copy.items ≡ map (λ ty. type_name ty.now) types.now.items) }
{
    let mut copy = Vec::with_capacity(*types.allocator(), types.len())?;
    for ty in types {
        copy.push((**ty).clone()?.into_shared()?)?;
    }
    Ok(copy)
}

/// References to the entity types of two lists.
fn both_types<'a>(types: &'a Vec<EntityType>, others: &'a Vec<EntityType>) -> M<Vec<&'a EntityType>>
    ensures { IfOk result (λ both.
        map (λ ty. ty.now) both.items ≡ types.now.items ++ others.now.items) }
{
    let both = types.iter().chain(others.iter());
    Ok(both.collect_vec(*types.allocator())?)
}

/// The same references in the order of their entity types.
fn in_order<'a>(types: Vec<&'a EntityType>) -> M<Vec<&'a EntityType>>
    ensures permutation { IfOk result (λ sorted. IsPermutation types.entry.items sorted.items) }
    ensures sorted { IfOk result (λ sorted.
        IsSorted (λ a b. ⟦<EntityType as Ord>⟧.cmp a.now b.now) sorted.items) }
{
    let alloc = *types.allocator();
    Ok(types.into_iter().sorted(alloc)?.collect_vec(alloc)?)
}

/// The same references in the order of their entity types, without repeats.
fn distinct<'a>(types: Vec<&'a EntityType>) -> M<Vec<&'a EntityType>>
    ensures sorted { IfOk result (λ distinct.
        IsStrictlySortedBy name_cmp (map (λ ty. type_name ty.now) distinct.items)) }
    ensures names { IfOk result (λ distinct. (name : PlainName)
        → Contains (map (λ ty. type_name ty.now) distinct.items) name
        ↔ Contains (map (λ ty. type_name ty.now) types.entry.items) name) }
{
    let mut distinct = in_order(types)?;
    distinct.dedup();
    Ok(distinct)
}

impl EntityLUB {
    ghost use Rattle.std.specs.Prelude.{◌≡◌, ◌≢◌, ◌↔◌, ◌<◌, ◌≤◌, ℕ, IsTrue, IfOk, [], ◌∷◌, map, length, get_or, Contains};
    ghost use Rattle.std.specs.List.{flat_map};
    ghost use Rattle.std.specs.List.Sorted.{IsStrictlySortedBy};
    ghost use Rattle.std.specs.Option.{option_copied, option_map};
    ghost use Rattle.std.specs.Slice.Iter.{iter_rest};
    ghost use Rattle.cedar_types.specs.Words.{AreDisjoint, EntityType, IsUnionOf, PlainName, lub_names, lub_types, name_cmp, only_name, only_type, type_name};
    ghost use Rattle.std.specs.declared.cmp.Ordering.TheVariants.{Less};

    /// The union of a single entity type. Out of memory is the only refusal.
    pub fn single_entity(alloc: Global, ty: EntityType) -> M<Self>
        ensures names { IfOk result (λ lub. lub_names lub ≡ type_name ty ∷ []) }
        ensures types { IfOk result (λ lub. lub_types lub ≡ ty ∷ []) }
    {
        let mut lub_elements = Vec::with_capacity(alloc, 1)?;
        lub_elements.push(ty)?;
        Ok(EntityLUB {
            lub_elements: MaybeShared::new(lub_elements),
        })
    }

    /// The union of some entity types, which are in order and without repeats.
    fn of_sorted(types: Vec<EntityType>) -> M<Self>
        requires nonempty { types.items ≢ [] }
        requires sorted { IsStrictlySortedBy name_cmp (map type_name types.items) }
        ensures { IfOk result (λ lub. lub_types lub ≡ types.items) }
    {
        let alloc = *types.allocator();
        let alone = types.len() == 1;
        let held = MaybeShared::new(types);
        Ok(EntityLUB {
            lub_elements: if alone {
                held
            } else {
                held.into_shared(alloc)?
            },
        })
    }

    /// The entity type of the union, where there is only one.
    pub fn get_single_entity(&self) -> Option<&EntityType>
        ensures name { option_map type_name (option_copied result)
            ≡ only_name (lub_names self.now) }
        ensures ty { option_copied result ≡ only_type (lub_types self.now) }
    {
        match self.as_slice() {
            [ty] => Some(ty),
            _ => None,
        }
    }

    /// The entity type of the union, where there is only one.
    pub fn into_single_entity(self) -> Option<EntityType>
        ensures name { option_map type_name result ≡ only_name (lub_names self) }
        ensures ty { result ≡ only_type (lub_types self) }
    {
        let EntityLUB { lub_elements } = self;
        let mut types = lub_elements.into_owned()?;
        if types.len() == 1 { types.pop() } else { None }
    }

    /// The entity types of the union, in order.
    pub fn iter(&self) -> slice::Iter<'_, EntityType>
        ensures names { map type_name (iter_rest result) ≡ lub_names self.now }
        ensures nonempty { lub_names self.now ≢ [] }
        ensures sorted_by_name { IsStrictlySortedBy name_cmp (lub_names self.now) }
    {
        self.as_slice().iter()
    }

    /// The entity types of the union, in order.
    pub(crate) fn as_slice(&self) -> &[EntityType]
        ensures { result.now ≡ lub_types self.now }
    {
        self.lub_elements.value().as_slice()
    }

    /// Whether an entity type is one of the union.
    pub fn contains(&self, ty: &EntityType) -> bool
        ensures { IsTrue result ↔ Contains (lub_names self.now) (type_name ty.now) }
    {
        self.as_slice().binary_search(ty).is_ok()
    }

    /// Whether an entity type is one of the union.
    pub fn contains_entity_type(&self, ty: &EntityType) -> bool
        ensures { IsTrue result ↔ Contains (lub_names self.now) (type_name ty.now) }
    {
        self.contains(ty)
    }

    /// The first place, from one on, whose entity type isn't below the given one, and whether the
    /// given one stands there.
    pub(crate) fn seek(&self, from: usize, ty: &EntityType) -> (usize, bool)
        ensures from { from ≤ result.0 }
        ensures passed { (i : ℕ) (d : EntityType) → from ≤ i → i < result.0
            → name_cmp (type_name (get_or (lub_types self.now) i d)) (type_name ty.now) ≡ Less }
        ensures stays { (d : EntityType) → result.0 < length (lub_types self.now)
            → name_cmp (type_name (get_or (lub_types self.now) result.0 d)) (type_name ty.now)
            ≢ Less }
        ensures stands { IsTrue result.1 ↔ ((result.0 < length (lub_types self.now))
            × ((d : EntityType) → type_name (get_or (lub_types self.now) result.0 d)
            ≡ type_name ty.now)) }
    {
        let types = self.as_slice();
        let mut at = from;
        while at < types.len() {
            match types[at].cmp(ty) {
                Ordering::Less => at += 1,
                Ordering::Equal => return (at, true),
                Ordering::Greater => return (at, false),
            }
        }
        (at, false)
    }

    /// Whether no entity type is one of both unions.
    ///
    /// It goes over both together, once.
    pub fn is_disjoint(&self, other: &EntityLUB) -> bool
        ensures { IsTrue result ↔ AreDisjoint (lub_names self.now) (lub_names other.now) }
    {
        let mut at = 0;
        for ty in self.as_slice() {
            let (place, is_there) = other.seek(at, ty);
            if is_there {
                return false;
            }
            at = place;
        }
        true
    }

    /// The union of the entity types of both unions. Out of memory is the only refusal.
    pub fn least_upper_bound(&self, other: &EntityLUB) -> M<EntityLUB>
        ensures { IfOk result (λ lub. IsUnionOf (lub_names self.now) (lub_names other.now)
            (lub_names lub)) }
    {
        let types = self.lub_elements.value();
        let both = distinct(both_types(types, other.lub_elements.value())?)?;
        EntityLUB::of_sorted(share_all(&both)?)
    }

    /// References to the entity types of some unions, one union after another. Those of a union
    /// that is the same as the one before it are left out.
    fn all_types<'a>(unions: &Vec<&'a EntityLUB>) -> M<Vec<&'a EntityType>>
        ensures { IfOk result (λ all. (name : PlainName)
            → Contains (map (λ ty. type_name ty.now) all.items) name
            ↔ Contains (flat_map (λ lub. lub_names lub.now) unions.now.items) name) }
    {
        let mut all = Vec::new(*unions.allocator());
        for (place, lub) in unions.iter().enumerate() {
            if place == 0 || !is_same(unions[place - 1], lub) {
                all.extend(lub.as_slice())?;
            }
        }
        Ok(all)
    }

    /// The union of the entity types of some unions; if that is one of them, it is shared. Out of
    /// memory is the only refusal.
    pub(crate) fn of_all(unions: &Vec<&EntityLUB>) -> M<EntityLUB>
        requires { unions.now.items ≢ [] }
        ensures { IfOk result (λ all. (name : PlainName) → Contains (lub_names all) name
            ↔ Contains (flat_map (λ lub. lub_names lub.now) unions.now.items) name) }
    {
        let types = distinct(EntityLUB::all_types(unions)?)?;
        for lub in unions {
            if lub.as_slice().len() == types.len() {
                return (**lub).clone();
            }
        }
        EntityLUB::of_sorted(share_all(&types)?)
    }

    /// An equal union. Out of memory is the only refusal.
    pub fn clone(&self) -> M<Self>
        ensures { IfOk result (λ copy. lub_names copy ≡ lub_names self.now) }
    {
        let lub_elements = match self.lub_elements.other_owner()? {
            Some(shared) => shared,
            None => MaybeShared::new(clone_each(self.lub_elements.value())?),
        };
        Ok(EntityLUB { lub_elements })
    }
}
