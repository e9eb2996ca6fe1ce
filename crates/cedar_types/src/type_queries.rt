//! What a type is, the unions in it, and whether two have none in common.

ghost use Rattle.std.specs.Prelude.{◌≡◌, ◌↔◌, IsTrue};
ghost use Rattle.std.specs.Option.{option_copied, option_map};
ghost use Rattle.cedar_types.specs.Words.{AreDisjointTypes, is_entity, kind_names, lub_names, set_or_kind_names, ty_of};

use crate::entity_lub::EntityLUB;
use crate::types::Type;

impl Type {
    /// Whether this is a type of entities: of any type, or of one in a union.
    pub fn is_entity_type(&self) -> bool
        ensures { result ≡ is_entity (ty_of self.now) }
    {
        matches!(self, Type::Entity(_))
    }

    /// The union that an entity's type is one of, if this is a type of entities that knows one.
    pub fn as_entity_lub(&self) -> Option<&EntityLUB>
        ensures { option_map lub_names (option_copied result) ≡ kind_names (ty_of self.now) }
    {
        match self {
            Type::Entity(kind) => kind.as_entity_lub(),
            _ => None,
        }
    }

    /// The union that an entity's type is one of, or that of a set's elements, if one is known.
    pub fn as_set_or_entity_lub(&self) -> Option<&EntityLUB>
        ensures { option_map lub_names (option_copied result) ≡ set_or_kind_names (ty_of self.now) }
    {
        match self {
            Type::Set {
                element_type: Some(element),
            } => element.as_entity_lub(),
            _ => self.as_entity_lub(),
        }
    }

    /// Whether the two types are unions of entity types that have none in common, so that no value
    /// has both.
    pub fn are_types_disjoint(a: &Type, b: &Type) -> bool
        ensures { IsTrue result ↔ AreDisjointTypes (ty_of a.now) (ty_of b.now) }
    {
        match (a.as_entity_lub(), b.as_entity_lub()) {
            (Some(lub), Some(other)) => lub.is_disjoint(other),
            _ => false,
        }
    }
}
