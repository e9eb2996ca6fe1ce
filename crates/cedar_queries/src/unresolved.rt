//! The declarations of a schema that are made elsewhere.

ghost use Rattle.std.specs.Prelude.{◌≡◌, ◌↔◌, [], IsTrue};
ghost use Rattle.std.specs.Iterator.{YieldsFirstBy, item_count};
ghost use Rattle.cedar_queries.specs.Unresolved.{lent_declaration, unresolved, unresolved_left};

use crate::descent::{Actions, EntityTypes};
use crate::selected::SelectedEntries;
use crate::tests_of_values::IsExternal;
use cedar_ast::{EntityType, EntityUID};
use cedar_schema_elements::{ValidatorActionId, ValidatorEntityType};
use std::iter::FusedIterator;

/// An entity type or an action of a schema that is declared elsewhere (RFC 116).
#[derive(Debug, Clone, Copy)]
pub enum UnresolvedDeclaration<'a> {
    /// An external entity type.
    EntityType(&'a ValidatorEntityType),
    /// An external action.
    Action(&'a ValidatorActionId),
}

/// The external declarations that are left: the entity types in order, and then the actions in
/// order.
#[derive(Drop)]
pub struct UnresolvedDeclarations<'a> {
    types: SelectedEntries<'a, EntityType, ValidatorEntityType, IsExternal>,
    actions: SelectedEntries<'a, EntityUID, ValidatorActionId, IsExternal>,
}

impl<'a> Iterator for UnresolvedDeclarations<'a> {
    type Item = UnresolvedDeclaration<'a>;

    ghost next_gives = { YieldsFirstBy lent_declaration unresolved_left };

    ghost remaining = { item_count unresolved_left };

    fn next(&mut self) -> Option<UnresolvedDeclaration<'a>> {
        if let Some((_, ty)) = self.types.next() {
            return Some(UnresolvedDeclaration::EntityType(ty));
        }
        let (_, action) = self.actions.next()?;
        Some(UnresolvedDeclaration::Action(action))
    }
}

impl<'a> FusedIterator for UnresolvedDeclarations<'a> {}

/// What is declared elsewhere: the external entity types, and then the external actions, each as it
/// stands in its map.
pub fn unresolved_declarations<'a>(
    types: &'a EntityTypes,
    actions: &'a Actions,
) -> UnresolvedDeclarations<'a>
    ensures { unresolved_left result ≡ unresolved types.now.entries actions.now.entries }
{
    let types = SelectedEntries::new(types, IsExternal);
    let actions = SelectedEntries::new(actions, IsExternal);
    UnresolvedDeclarations { types, actions }
}

/// Whether nothing is declared elsewhere.
pub fn is_complete(types: &EntityTypes, actions: &Actions) -> bool
    ensures { IsTrue result ↔ (unresolved types.now.entries actions.now.entries ≡ []) }
{
    unresolved_declarations(types, actions).next().is_none()
}
