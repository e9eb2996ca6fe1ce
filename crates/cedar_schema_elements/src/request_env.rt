//! The types of requests.

ghost use Rattle.std.specs.Prelude.{◌<◌, length};
ghost use Rattle.cedar_schema_elements.specs.Requests.{requested_principals, requested_resources};

use crate::action_kind::DefinedRequests;
use crate::type_set::TypeSet;
use cedar_ast::{EntityType, EntityUID, M};
use cedar_types::Type;
use std::alloc::Global;
use std::fmt;
use std::rc::Rc;

/// The types of a request: those of its principal and of its resource, its action, and the type of
/// its context.
#[derive(Debug, Clone, Copy)]
pub struct RequestEnv<'a> {
    /// The entity type of the principal.
    pub principal: &'a EntityType,
    /// The action.
    pub action: &'a EntityUID,
    /// The entity type of the resource.
    pub resource: &'a EntityType,
    /// The type of the context.
    pub context: &'a Type,
}

/// The types of a request that are held apart from the schema which they came from. An action has
/// as many environments as pairs of a principal and a resource, so they share what the action is
/// for, and each knows the places of its principal and of its resource there.
pub struct UnlinkedRequestEnv {
    requests: Rc<DefinedRequests>,
    principal: usize,
    resource: usize,
    ghost principal_is_there: { principal < length (requested_principals requests.value) },
    ghost resource_is_there: { resource < length (requested_resources requests.value) },
}

// Written out: proofs of what holds environments then see one call, and nothing of their parts.
impl Drop for UnlinkedRequestEnv {
    fn drop(self) {
        let UnlinkedRequestEnv {
            requests: _requests,
            principal: _principal,
            resource: _resource,
        } = self;
    }
}

impl UnlinkedRequestEnv {
    ghost use Rattle.std.specs.Prelude.{◌≡◌, ◌<◌, IfOk, Some, length};
    ghost use Rattle.cedar_schema_elements.specs.Words.{environment_at, environment_of, lent_environment, located_environment, located_environment_at, owned_environment, requested_principals, requested_resources, ty_of, type_name, uid_of};

    /// The types of one request. Out of memory is the only refusal.
    pub fn new(
        alloc: Global,
        principal: EntityType,
        action: EntityUID,
        resource: EntityType,
        context: Type,
    ) -> M<Self>
        ensures principal { IfOk result (λ made.
            (owned_environment made).principal ≡ type_name principal) }
        ensures action { IfOk result (λ made. (owned_environment made).action ≡ uid_of action) }
        ensures resource { IfOk result (λ made.
            (owned_environment made).resource ≡ type_name resource) }
        ensures context { IfOk result (λ made. (owned_environment made).context ≡ ty_of context) }
        ensures located { IfOk result (λ made. located_environment made
            ≡ (record {
              principal = Some principal;
              action = action;
              resource = Some resource;
              context = context;
            })) }
    {
        let requests = DefinedRequests {
            action,
            principals: TypeSet::single(alloc, principal)?,
            resources: TypeSet::single(alloc, resource)?,
            context,
        };
        Ok(UnlinkedRequestEnv {
            requests: Rc::new(alloc, requests)?,
            principal: 0,
            resource: 0,
        })
    }

    /// The types of the request whose principal and resource stand at these places.
    pub(crate) fn at(requests: &Rc<DefinedRequests>, principal: usize, resource: usize) -> M<Self>
        requires principal { principal < length (requested_principals requests.now.value) }
        requires resource { resource < length (requested_resources requests.now.value) }
        ensures types { IfOk result (λ made. owned_environment made
            ≡ environment_at requests.now.value principal resource) }
        ensures located { IfOk result (λ made. located_environment made
            ≡ located_environment_at requests.now.value principal resource) }
    {
        Ok(UnlinkedRequestEnv {
            requests: requests.clone()?,
            principal,
            resource,
        })
    }

    /// The entity type of the principal.
    pub fn principal(&self) -> &EntityType
        ensures name { type_name result.now ≡ (owned_environment self.now).principal }
        ensures located { (located_environment self.now).principal ≡ Some result.now }
    {
        self.requests.principals.at(self.principal)
    }

    /// The action.
    pub fn action(&self) -> &EntityUID
        ensures uid { uid_of result.now ≡ (owned_environment self.now).action }
        ensures located { (located_environment self.now).action ≡ result.now }
    {
        &self.requests.action
    }

    /// The entity type of the resource.
    pub fn resource(&self) -> &EntityType
        ensures name { type_name result.now ≡ (owned_environment self.now).resource }
        ensures located { (located_environment self.now).resource ≡ Some result.now }
    {
        self.requests.resources.at(self.resource)
    }

    /// The type of the context.
    pub fn context(&self) -> &Type
        ensures ty { ty_of result.now ≡ (owned_environment self.now).context }
        ensures located { (located_environment self.now).context ≡ result.now }
    {
        &self.requests.context
    }

    /// The same types, borrowed.
    pub fn as_request_env(&self) -> RequestEnv<'_>
        ensures types { environment_of result ≡ owned_environment self.now }
        ensures located { lent_environment result ≡ located_environment self.now }
    {
        RequestEnv {
            principal: self.principal(),
            action: self.action(),
            resource: self.resource(),
            context: self.context(),
        }
    }

    /// The same types, shared. Out of memory is the only refusal.
    pub fn clone(&self) -> M<Self>
        ensures types { IfOk result (λ copy. owned_environment copy ≡ owned_environment self.now) }
        ensures located { IfOk result (λ copy.
            located_environment copy ≡ located_environment self.now) }
    {
        Self::at(&self.requests, self.principal, self.resource)
    }
}

impl fmt::Debug for UnlinkedRequestEnv {
    fn fmt<W: fmt::Write>(&self, f: &mut fmt::Formatter<W>) -> fmt::Result {
        f.debug_struct("UnlinkedRequestEnv")
            .field("principal", self.principal())
            .field("action", self.action())
            .field("resource", self.resource())
            .field("context", self.context())
            .finish()
    }
}
