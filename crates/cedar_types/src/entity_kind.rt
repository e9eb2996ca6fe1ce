//! Kinds of entities: any, or those of a union.

use crate::entity_lub::EntityLUB;
use cedar_ast::M;

/// What is known of an entity: nothing, or that its type is one of a union.
#[derive(Debug, Drop, PartialEq, Eq, PartialOrd, Ord, Hash)]
pub enum EntityKind {
    /// It is an entity of any type.
    AnyEntity,
    /// Its type is one of these.
    Entity(EntityLUB),
}

impl EntityKind {
    ghost use Rattle.std.specs.Prelude.{◌≡◌, IfOk};
    ghost use Rattle.std.specs.Option.{option_copied, option_map};
    ghost use Rattle.cedar_types.specs.Words.{kind_names, kind_ty, lub_names};

    /// The union that the entity's type is one of, if one is known.
    pub fn as_entity_lub(&self) -> Option<&EntityLUB>
        ensures { option_map lub_names (option_copied result) ≡ kind_names (kind_ty self.now) }
    {
        match self {
            EntityKind::AnyEntity => None,
            EntityKind::Entity(lub) => Some(lub),
        }
    }

    /// An equal kind. Out of memory is the only refusal.
    pub fn clone(&self) -> M<Self>
        ensures { IfOk result (λ copy. kind_ty copy ≡ kind_ty self.now) }
    {
        match self {
            EntityKind::AnyEntity => Ok(EntityKind::AnyEntity),
            EntityKind::Entity(lub) => Ok(EntityKind::Entity(lub.clone()?)),
        }
    }
}
