//! The requests that the actions of a schema are for.

ghost use Rattle.std.specs.Prelude.{◌≡◌, ◌≢◌, ◌↔◌, AllPairs, Contains, IfSome, IsTrue, length, map};
ghost use Rattle.std.specs.Iterator.{at_most};
ghost use Rattle.std.specs.List.Sorted.{IsStrictlySortedBy};
ghost use Rattle.std.specs.Map.Iter.{TakesFirst};
ghost use Rattle.std.specs.Option.{option_copied, option_map};
ghost use Rattle.cedar_queries.specs.Words.{action_at, action_of, actions_for, all_principals, all_resources, context_at, kind_principals, kind_resources, name_cmp, plain_action_entry, ty_of, type_name, types_in_role, uid_of};

use crate::descent::Actions;
use crate::selected::Selected;
use crate::tests_of_values::ForRequest;
use cedar_ast::{EntityType, EntityUID};
use cedar_schema_elements::{RequestTypes, ValidatorActionId};
use cedar_table::Values;
use cedar_types::Type;
use std::iter::FusedIterator;
use std::marker::Model;

/// The uids of the actions for requests of a principal with a resource.
pub type ActionsFor<'a> = Selected<'a, EntityUID, ValidatorActionId, ForRequest<'a>>;

/// What an entity type is to a request.
#[derive(Clone, Copy)]
enum Role {
    Principal,
    Resource,
}

/// The entity types of the principals, or those of the resources, that are left of the requests of
/// actions: of each action in turn, each of its types once.
#[derive(Drop)]
pub struct ApplicableTypes<'a> {
    role: Role,
    current: Option<RequestTypes<'a>>,
    rest: Values<'a, ValidatorActionId>,
}

impl<'a> Model for ApplicableTypes<'a> {
    ghost use Rattle.std.specs.Prelude.{List, [], ◌++◌, map};
    ghost use Rattle.cedar_queries.specs.Words.{PlainName, action_of, type_name, types_in_role};
    ghost use Rattle.std.specs.List.{flat_map};
    ghost use Rattle.std.specs.Option.{unwrap_or};

    ghost Value = { List PlainName };

    ghost view = { λ a. map type_name (unwrap_or a.current [])
        ++ flat_map (λ it. types_in_role a.role (action_of it).kind) a.rest };
}

/// The types that an action has in a role, each once.
fn types_in(role: Role, action: &ValidatorActionId) -> RequestTypes<'_>
    ensures { map type_name result ≡ types_in_role role (action_of action.now).kind }
{
    match role {
        Role::Principal => action.principals(),
        Role::Resource => action.resources(),
    }
}

impl<'a> Iterator for ApplicableTypes<'a> {
    type Item = &'a EntityType;

    ghost next_gives = { TakesFirst (λ ty. type_name ty.now) };

    ghost remaining = { λ s. at_most (length s) };

    fn next(&mut self) -> Option<&'a EntityType> {
        loop {
            if let Some(current) = &mut self.current
                && let Some(ty) = current.next()
            {
                return Some(ty);
            }
            self.current = Some(types_in(self.role, self.rest.next()?));
        }
    }
}

impl<'a> FusedIterator for ApplicableTypes<'a> {}

/// The types of the principals of the requests of some actions: of each action in turn each once.
/// External actions have none.
pub fn principals(actions: &Actions) -> ApplicableTypes<'_>
    ensures { result ≡ all_principals (map plain_action_entry actions.now.entries) }
{
    ApplicableTypes {
        role: Role::Principal,
        current: None,
        rest: actions.values(),
    }
}

/// The types of the resources of the requests of some actions: of each action in turn each once.
/// External actions have none.
pub fn resources(actions: &Actions) -> ApplicableTypes<'_>
    ensures { result ≡ all_resources (map plain_action_entry actions.now.entries) }
{
    ApplicableTypes {
        role: Role::Resource,
        current: None,
        rest: actions.values(),
    }
}

/// The types of the principals of the requests of an action, in the order of their names, each
/// once; of an external one none. None where there is no action of this uid.
pub fn principals_for_action<'a>(actions: &'a Actions, uid: &EntityUID) -> Option<RequestTypes<'a>>
    ensures names { option_map (map type_name) result ≡ option_map (λ it. kind_principals it.kind)
        (action_at (uid_of uid.now) (map plain_action_entry actions.now.entries)) }
    ensures once { IfSome result (λ types. AllPairs (λ a b. a ≢ b) (map type_name types)) }
    ensures in_order { IfSome result (λ types. IsStrictlySortedBy name_cmp (map type_name types)) }
{
    Some(actions.get(uid)?.principals())
}

/// The types of the resources of the requests of an action, in the order of their names, each
/// once; of an external one none. None where there is no action of this uid.
pub fn resources_for_action<'a>(actions: &'a Actions, uid: &EntityUID) -> Option<RequestTypes<'a>>
    ensures names { option_map (map type_name) result ≡ option_map (λ it. kind_resources it.kind)
        (action_at (uid_of uid.now) (map plain_action_entry actions.now.entries)) }
    ensures once { IfSome result (λ types. AllPairs (λ a b. a ≢ b) (map type_name types)) }
    ensures in_order { IfSome result (λ types. IsStrictlySortedBy name_cmp (map type_name types)) }
{
    Some(actions.get(uid)?.resources())
}

/// The type of the context of an action's requests. None where there is no action of this uid, or
/// it is external.
pub fn context_type<'a>(actions: &'a Actions, uid: &EntityUID) -> Option<&'a Type>
    ensures { option_map ty_of (option_copied result)
        ≡ context_at (uid_of uid.now) (map plain_action_entry actions.now.entries) }
{
    actions.get(uid)?.context()
}

/// Whether there is an action of this uid.
pub fn is_known_action_id(actions: &Actions, uid: &EntityUID) -> bool
    ensures { IsTrue result ↔ Contains
        (map (λ it. it.0) (map plain_action_entry actions.now.entries)) (uid_of uid.now) }
{
    actions.contains_key(uid)
}

/// The uids of the actions that are for requests of this principal with this resource, in order.
pub fn actions_for_principal_and_resource<'a>(
    actions: &'a Actions,
    principal: &'a EntityType,
    resource: &'a EntityType,
) -> ActionsFor<'a>
    ensures { map uid_of result ≡ actions_for (type_name principal.now) (type_name resource.now)
        (map plain_action_entry actions.now.entries) }
{
    Selected::new(
        actions,
        ForRequest {
            principal,
            resource,
        },
    )
}
