//! The iterators over what a schema declares and shows, each seen as the list of what it has left.

ghost use Rattle.std.specs.Prelude.{◌≡◌, length};
ghost use Rattle.std.specs.Iterator.{at_most};
ghost use Rattle.std.specs.Map.Iter.{TakesFirst, TakesLast, deref};

use crate::located_namespace::LocatedNamespace;
use cedar_ast::{EntityType, EntityUID, InternalName};
use cedar_schema_elements::{ValidatorActionId, ValidatorEntityType};
use cedar_table::{Keys, Values};
use std::collections::btree_map;
use std::iter::FusedIterator;
use std::marker::Model;

/// The entity types of a schema, in the order of their names.
pub type EntityTypes<'a> = Values<'a, ValidatorEntityType>;

/// The names of the entity types of a schema, in order.
pub type EntityTypeNames<'a> = Keys<'a, EntityType>;

/// The actions of a schema, in the order of their uids.
pub type ActionIds<'a> = Values<'a, ValidatorActionId>;

/// The uids of the actions of a schema, in order.
pub type Actions<'a> = Keys<'a, EntityUID>;

/// The namespaces that a schema shows, in the order of their names.
#[derive(Drop)]
pub struct Namespaces<'a> {
    rest: btree_map::Values<'a, InternalName, LocatedNamespace>,
}

impl<'a> Model for Namespaces<'a> {
    ghost use Rattle.std.specs.Prelude.{List};
    ghost use Rattle.cedar_schema.specs.declared.located_namespace.LocatedNamespace.{LocatedNamespace as Shown};

    ghost Value = { List Shown };

    ghost view = { λ a. a.rest };
}

impl<'a> Namespaces<'a> {
    /// The namespaces that are left of those of a map.
    pub(crate) fn new(rest: btree_map::Values<'a, InternalName, LocatedNamespace>) -> Self
        ensures { result ≡ rest.entry }
    {
        Namespaces { rest }
    }
}

impl<'a> Iterator for Namespaces<'a> {
    type Item = &'a LocatedNamespace;

    ghost next_gives = { TakesFirst deref };

    ghost remaining = { λ s. at_most (length s) };

    fn next(&mut self) -> Option<&'a LocatedNamespace> {
        self.rest.next()
    }

    fn size_hint(&self) -> (usize, Option<usize>) {
        let len = self.rest.len();
        (len, Some(len))
    }
}

impl<'a> FusedIterator for Namespaces<'a> {}

impl<'a> DoubleEndedIterator for Namespaces<'a> {
    ghost next_back_gives = { TakesLast deref };

    fn next_back(&mut self) -> Option<&'a LocatedNamespace> {
        self.rest.next_back()
    }
}

impl<'a> ExactSizeIterator for Namespaces<'a> {
    fn len(&self) -> usize {
        self.rest.len()
    }
}
