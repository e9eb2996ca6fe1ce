//! Lists that are not empty.

ghost use Rattle.std.specs.Prelude.{◌≡◌, IfOk, length, map, min};
ghost use Rattle.cedar_ast.specs.Words.{eid_text, items_of};

use crate::eid::Eid;
use crate::memory::M;
use crate::non_empty_iter::Iter;

/// A list with at least one item.
#[derive(Debug, Drop, PartialEq, Eq, Hash)]
pub struct NonEmpty<T> {
    /// The first item.
    pub head: T,
    /// The other items, in order.
    pub tail: Vec<T>,
}

impl<T> NonEmpty<T> {
    /// The items, in order.
    pub fn iter(&self) -> Iter<'_, T>
        ensures { result ≡ items_of self.now }
    {
        Iter::new(&self.head, self.tail.as_slice())
    }

    /// How many items there are, or `usize::MAX` where there are more.
    pub fn len(&self) -> usize
        ensures { result ≡ min (length (items_of self.now)) 18_446_744_073_709_551_615 }
    {
        self.tail.len().saturating_add(1)
    }
}

/// Equal ids in the same order.
fn clone_ids(ids: &Vec<Eid>) -> M<Vec<Eid>>
    ensures { IfOk result (λ copy. map eid_text copy.items ≡ map eid_text ids.now.items) }
{
    let mut copy = Vec::new(*ids.allocator());
    for id in ids {
        copy.push(id.clone()?)?;
    }
    Ok(copy)
}

impl NonEmpty<Eid> {
    /// Equal ids in the same order. Out of memory is the only refusal.
    pub fn clone(&self) -> M<Self>
        ensures { IfOk result (λ copy.
            map eid_text (items_of copy) ≡ map eid_text (items_of self.now)) }
    {
        Ok(NonEmpty {
            head: self.head.clone()?,
            tail: clone_ids(&self.tail)?,
        })
    }
}
