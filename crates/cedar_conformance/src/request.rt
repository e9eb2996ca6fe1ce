//! Requests, held against a schema.

ghost use Rattle.std.specs.Prelude.{◌≡◌, Contains, IfErr, IfOk, None, OnErr, OnOk};
ghost use Rattle.std.specs.Option.{option_map};
ghost use Rattle.cedar_conformance.specs.RequestFault.{IsActionAnswer, IsIdsAnswer, IsRequestAnswer, IsRequestRefusal, plain_request, request_fault_of};
ghost use Rattle.cedar_entities.specs.Words.{IsRequestIn};
ghost use Rattle.cedar_schema.specs.Words.{action_of, schema_of};

use crate::checking::{Checking, value_fault};
use crate::mismatch::Search;
use crate::naming::Existing;
use crate::request_fault::RequestFault;
use cedar_ast::{EntityUID, Extensions, M, Value};
use cedar_schema::{ValidatorActionId, ValidatorSchema};
use std::alloc::Global;

/// A request: who wants to take which action on what, and its context.
#[derive(Drop)]
pub struct Request<'r> {
    /// Who wants to.
    pub principal: &'r EntityUID,
    /// Which action.
    pub action: &'r EntityUID,
    /// On what.
    pub resource: &'r EntityUID,
    /// The context: a record.
    pub context: &'r Value,
}

/// The fault of a request whose principal or resource can't have its id, if there is one.
fn ids_fault(schema: &ValidatorSchema, request: &Request<'_>) -> M<Option<RequestFault>>
    ensures answer { IfOk result (λ fault. IsIdsAnswer (schema_of schema.now)
        (plain_request request.now) (option_map request_fault_of fault)) }
    ensures memory { OnErr result
        (¬ IsIdsAnswer (schema_of schema.now) (plain_request request.now) None) }
{
    if !schema.may_have_id(request.principal) {
        return Ok(Some(RequestFault::NoSuchChoice(request.principal.clone()?)));
    }
    if !schema.may_have_id(request.resource) {
        return Ok(Some(RequestFault::NoSuchChoice(request.resource.clone()?)));
    }
    Ok(None)
}

/// The fault of a request that is held against its action, if there is one.
fn action_fault(
    checking: &Checking<'_>,
    request: &Request<'_>,
    action: &ValidatorActionId,
) -> M<Option<RequestFault>>
    ensures answer { IfOk result (λ fault. IsActionAnswer checking.now.search.extensions.now
        (schema_of checking.now.existing.schema.now) (plain_request request.now)
        (action_of action.now) (option_map request_fault_of fault)) }
    ensures memory { OnErr result (¬ IsActionAnswer checking.now.search.extensions.now
        (schema_of checking.now.existing.schema.now) (plain_request request.now)
        (action_of action.now) None) }
{
    let Some(context) = action.context() else {
        return Ok(Some(RequestFault::External(request.action.clone()?)));
    };
    let principal = request.principal.entity_type();
    if !action.is_applicable_principal_type(principal) {
        return Ok(Some(RequestFault::PrincipalNotAllowed(principal.clone()?)));
    }
    let resource = request.resource.entity_type();
    if !action.is_applicable_resource_type(resource) {
        return Ok(Some(RequestFault::ResourceNotAllowed(resource.clone()?)));
    }
    match value_fault(checking, request.context.expr(), context)? {
        Some(fault) => Ok(Some(RequestFault::Context(fault))),
        None => Ok(None),
    }
}

/// The fault of a request, if it isn't one of the schema.
fn request_fault(checking: &Checking<'_>, request: &Request<'_>) -> M<Option<RequestFault>>
    ensures answer { IfOk result (λ fault. IsRequestAnswer checking.now.search.extensions.now
        (schema_of checking.now.existing.schema.now) (plain_request request.now)
        (option_map request_fault_of fault)) }
    ensures memory { OnErr result (¬ IsRequestIn checking.now.search.extensions.now
        (schema_of checking.now.existing.schema.now) (plain_request request.now)) }
{
    let schema = checking.existing.schema;
    let Some(action) = schema.get_action_id(request.action) else {
        return Ok(Some(RequestFault::UnknownAction(request.action.clone()?)));
    };
    if let Some(fault) = ids_fault(schema, request)? {
        return Ok(Some(fault));
    }
    action_fault(checking, request, action)
}

/// That a request is one of a schema: its action is defined for the types of its principal and its
/// resource, which may have their ids, and its context is of the action's type and names what exists
/// (the Cedar reference on schemas, RFC 53). Of an external action the schema has no request.
///
/// Else the error says what is at fault. Memory is taken for a fault alone, so a request that
/// conforms is never refused.
pub fn check_request(
    alloc: Global,
    schema: &ValidatorSchema,
    request: &Request<'_>,
    extensions: &Extensions,
) -> Result<(), RequestFault>
    ensures conforms { OnOk result
        (IsRequestIn extensions.now (schema_of schema.now) (plain_request request.now)) }
    ensures differs { OnErr result
        (¬ IsRequestIn extensions.now (schema_of schema.now) (plain_request request.now)) }
    ensures fault { IfErr result (λ fault. IsRequestRefusal extensions.now (schema_of schema.now)
        (plain_request request.now) (request_fault_of fault)) }
{
    let checking = Checking {
        search: Search { alloc, extensions },
        existing: Existing { alloc, schema },
    };
    match request_fault(&checking, request)? {
        Some(fault) => Err(fault),
        None => Ok(()),
    }
}
