//! An entity type that a definition declares.

ghost use Rattle.cedar_ast.specs.Words.{IsActionType, type_name};

use crate::namespace::entity_types::EntityTypeFragment;
use cedar_ast::EntityType;

/// An entity type under its full name, whose location is that of the declaration. It is no type of
/// actions.
#[derive(Debug, Drop)]
pub struct EntityTypeDef<N> {
    /// The full name.
    pub name: EntityType,
    /// What is declared of the entity type.
    pub fragment: EntityTypeFragment<N>,
    pub ghost no_action: { ¬ IsActionType (type_name name) },
}
