//! The environments of the requests that the actions of a schema are for.

ghost use Rattle.std.specs.Prelude.{◌≡◌, ◌++◌, ◌<◌, IfOk, IfSome, IfNone, List, OnOk, length, map};
ghost use Rattle.cedar_schema_elements.specs.Words.{ActionEntity, AreEnvironmentsOf, PlainName, SchemaEntityType, action_of, external_action, kind_environments, kind_of_requests, owned_environment, requested_principals, requested_resources, schema_with, set_name_at, ty_of, uid_of, with_resources};

use crate::action_id::ValidatorActionId;
use crate::action_kind::{DefinedRequests, ValidatorActionKind};
use crate::request_env::UnlinkedRequestEnv;
use cedar_ast::{EntityUID, M};
use cedar_table::Table;
use std::alloc::Global;
use std::rc::Rc;

/// What the environments of an action share, under this uid. External actions have none.
fn requests_of(
    alloc: Global,
    uid: &EntityUID,
    action: &ValidatorActionId,
) -> M<Option<Rc<DefinedRequests>>>
    ensures action { IfOk result (λ found. IfSome found (λ requests.
        uid_of requests.value.action ≡ uid_of uid.now)) }
    ensures kind { IfOk result (λ found. IfSome found (λ requests.
        kind_of_requests requests.value ≡ (action_of action.now).kind)) }
    ensures external { IfOk result (λ found.
        IfNone found ((action_of action.now).kind ≡ external_action)) }
{
    match &action.parts.kind {
        ValidatorActionKind::Defined { requests } => {
            if requests.action == *uid {
                return Ok(Some(requests.clone()?));
            }
            Ok(Some(Rc::new(alloc, requests.under(uid)?)?))
        }
        ValidatorActionKind::External => Ok(None),
    }
}

/// Adds the environments of the principal at a place with each of the resources.
fn add_resources(
    environments: &mut Vec<UnlinkedRequestEnv>,
    requests: &Rc<DefinedRequests>,
    principal: usize,
) -> M<()>
    requires { principal < length (requested_principals requests.now.value) }
    ensures { OnOk result (map owned_environment environments.new.items
        ≡ map owned_environment environments.old.items
        ++ with_resources (uid_of requests.now.value.action) (ty_of requests.now.value.context)
        (set_name_at requests.now.value.principals principal)
        (requested_resources requests.now.value)) }
{
    for resource in 0..requests.resources.len() {
        environments.push(UnlinkedRequestEnv::at(requests, principal, resource)?)?;
    }
    Ok(())
}

/// Adds the environments of each of the principals with each of the resources.
fn add_principals(
    environments: &mut Vec<UnlinkedRequestEnv>,
    requests: &Rc<DefinedRequests>,
) -> M<()>
    ensures { OnOk result (map owned_environment environments.new.items
        ≡ map owned_environment environments.old.items
        ++ kind_environments (uid_of requests.now.value.action)
        (kind_of_requests requests.now.value)) }
{
    for principal in 0..requests.principals.len() {
        add_resources(environments, requests, principal)?;
    }
    Ok(())
}

/// The environments of the requests that the actions of a schema are for: for each action that is
/// defined, each of its principals with each of its resources, under the action's uid, with the
/// type of its context. Each once, and all of its parts are shared with others of the action. Out
/// of memory is the only refusal.
pub fn environments(
    alloc: Global,
    actions: &Table<EntityUID, ValidatorActionId>,
) -> M<Vec<UnlinkedRequestEnv>>
    ensures { IfOk result (λ environments.
        (types : List (PlainName × SchemaEntityType)) (entities : List ActionEntity)
        → AreEnvironmentsOf (schema_with types actions.now.entries entities)
        (map owned_environment environments.items)) }
{
    let mut environments = Vec::with_capacity(alloc, actions.len())?;
    for (uid, action) in actions {
        let found = requests_of(alloc, uid, action)?;
        if let Some(requests) = found {
            add_principals(&mut environments, &requests)?;
        }
    }
    Ok(environments)
}
