//! The tests by which entity types and actions are selected.

ghost use Rattle.std.specs.Prelude.{◌&&◌};
ghost use Rattle.cedar_queries.specs.Words.{action_of, descendant_names, has_name, is_nonempty, kind_principals, kind_resources, type_name};

use crate::selected::Test;
use cedar_ast::EntityType;
use cedar_schema_elements::{ValidatorActionId, ValidatorEntityType};

/// That an entity type is among the descendants.
#[derive(Drop)]
pub struct HasDescendant<'a> {
    pub(crate) descendant: &'a EntityType,
}

impl<'a> Test<ValidatorEntityType> for HasDescendant<'a> {
    ghost holds = { λ test it. has_name (descendant_names it) (type_name test.descendant.now) };

    fn passes(&self, ty: &ValidatorEntityType) -> bool {
        ty.has_descendant_entity_type(self.descendant)
    }
}

/// That an action has descendants.
#[derive(Drop)]
pub struct IsGroup;

impl Test<ValidatorActionId> for IsGroup {
    ghost holds = { λ test it. is_nonempty (action_of it).descendants };

    fn passes(&self, action: &ValidatorActionId) -> bool {
        action.descendants().next().is_some()
    }
}

/// That an action is for requests of a principal with a resource.
#[derive(Drop)]
pub struct ForRequest<'a> {
    pub(crate) principal: &'a EntityType,
    pub(crate) resource: &'a EntityType,
}

impl<'a> Test<ValidatorActionId> for ForRequest<'a> {
    ghost holds = { λ test it. has_name (kind_principals (action_of it).kind)
        (type_name test.principal.now)
        && has_name (kind_resources (action_of it).kind) (type_name test.resource.now) };

    fn passes(&self, action: &ValidatorActionId) -> bool {
        action.is_applicable_principal_type(self.principal)
            && action.is_applicable_resource_type(self.resource)
    }
}

/// That an entity type or an action is declared elsewhere.
#[derive(Drop)]
pub struct IsExternal;

impl Test<ValidatorEntityType> for IsExternal {
    ghost use Rattle.cedar_queries.specs.Words.{entity_type_of, is_external_type};

    ghost holds = { λ test it. is_external_type (entity_type_of it).kind };

    fn passes(&self, ty: &ValidatorEntityType) -> bool {
        ty.is_external()
    }
}

impl Test<ValidatorActionId> for IsExternal {
    ghost use Rattle.cedar_queries.specs.Unresolved.{is_external_kind};

    ghost holds = { λ test it. is_external_kind (action_of it).kind };

    fn passes(&self, action: &ValidatorActionId) -> bool {
        action.is_external()
    }
}
