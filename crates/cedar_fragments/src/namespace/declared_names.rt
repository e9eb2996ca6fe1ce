//! The names that a definition itself declares. Each iterator is seen as the list of what it has
//! left.

ghost use Rattle.std.specs.Prelude.{◌≡◌, map, length};
ghost use Rattle.std.specs.Iterator.{at_most};
ghost use Rattle.std.specs.Map.Iter.{TakesFirst, deref};
ghost use Rattle.cedar_fragments.specs.Words.{definition_names, name_of, type_name, uid_of};

use crate::namespace::action_def::ActionDef;
use crate::namespace::common_types::CommonTypeDef;
use crate::namespace::definition::ValidatorNamespaceDef;
use crate::namespace::entity_type_def::EntityTypeDef;
use cedar_ast::{EntityType, EntityUID, InternalName};
use std::iter::FusedIterator;
use std::marker::Model;
use std::slice;

/// The full names of the common types that are left.
#[derive(Drop)]
pub struct CommonTypeNames<'a, N> {
    rest: slice::Iter<'a, CommonTypeDef<N>>,
}

impl<'a, N> Model for CommonTypeNames<'a, N> {
    ghost use Rattle.std.specs.Prelude.{List, map};
    ghost use Rattle.std.specs.Slice.Iter.{iter_rest};
    ghost use Rattle.cedar_ast.specs.declared.internal_name.InternalName.{InternalName};

    ghost Value = { List InternalName };

    ghost view = { λ a. map (λ def. def.name) (iter_rest a.rest) };
}

impl<'a, N> Iterator for CommonTypeNames<'a, N> {
    type Item = &'a InternalName;

    ghost next_gives = { TakesFirst deref };

    ghost remaining = { λ s. at_most (length s) };

    fn next(&mut self) -> Option<&'a InternalName> {
        let def = self.rest.next()?;
        Some(&def.name)
    }
}

impl<'a, N> FusedIterator for CommonTypeNames<'a, N> {}

/// The full names of the entity types that are left.
#[derive(Drop)]
pub struct EntityTypeNames<'a, N> {
    rest: slice::Iter<'a, EntityTypeDef<N>>,
}

impl<'a, N> Model for EntityTypeNames<'a, N> {
    ghost use Rattle.std.specs.Prelude.{List, map};
    ghost use Rattle.std.specs.Slice.Iter.{iter_rest};
    ghost use Rattle.cedar_ast.specs.declared.entity_type.EntityType.{EntityType};

    ghost Value = { List EntityType };

    ghost view = { λ a. map (λ def. def.name) (iter_rest a.rest) };
}

impl<'a, N> Iterator for EntityTypeNames<'a, N> {
    type Item = &'a EntityType;

    ghost next_gives = { TakesFirst deref };

    ghost remaining = { λ s. at_most (length s) };

    fn next(&mut self) -> Option<&'a EntityType> {
        let def = self.rest.next()?;
        Some(&def.name)
    }
}

impl<'a, N> FusedIterator for EntityTypeNames<'a, N> {}

/// The uids of the actions that are left.
#[derive(Drop)]
pub struct ActionNames<'a, N, A> {
    rest: slice::Iter<'a, ActionDef<N, A>>,
}

impl<'a, N, A> Model for ActionNames<'a, N, A> {
    ghost use Rattle.std.specs.Prelude.{List, map};
    ghost use Rattle.std.specs.Slice.Iter.{iter_rest};
    ghost use Rattle.cedar_ast.specs.declared.entity_uid.EntityUID.{EntityUID};

    ghost Value = { List EntityUID };

    ghost view = { λ a. map (λ def. def.uid) (iter_rest a.rest) };
}

impl<'a, N, A> Iterator for ActionNames<'a, N, A> {
    type Item = &'a EntityUID;

    ghost next_gives = { TakesFirst deref };

    ghost remaining = { λ s. at_most (length s) };

    fn next(&mut self) -> Option<&'a EntityUID> {
        let def = self.rest.next()?;
        Some(&def.uid)
    }
}

impl<'a, N, A> FusedIterator for ActionNames<'a, N, A> {}

impl<N, A> ValidatorNamespaceDef<N, A> {
    /// The full names of the common types that are declared.
    pub fn all_declared_common_type_names(&self) -> CommonTypeNames<'_, N>
        ensures { map name_of result ≡ (definition_names N A self.now).common }
    {
        CommonTypeNames {
            rest: self.common_types.defs.iter(),
        }
    }

    /// The full names of the entity types that are declared.
    pub fn all_declared_entity_type_names(&self) -> EntityTypeNames<'_, N>
        ensures { map type_name result ≡ (definition_names N A self.now).entities }
    {
        EntityTypeNames {
            rest: self.entity_types.defs.iter(),
        }
    }

    /// The uids of the actions that are declared.
    pub fn all_declared_action_names(&self) -> ActionNames<'_, N, A>
        ensures { map uid_of result ≡ (definition_names N A self.now).actions }
    {
        ActionNames {
            rest: self.actions.defs.iter(),
        }
    }
}
