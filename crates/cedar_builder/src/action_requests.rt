//! Actions that are elaborated, each from one declaration.

ghost use Rattle.std.specs.Prelude.{◌≡◌, ◌⊎◌, ◌↔◌, IfErr, IfOk, IsTrue, OnOk, Some};
ghost use Rattle.cedar_builder.specs.Words.{AreSoundRequests, CoversExtensions, ElaboratesAs, HasOpenRecord, IsElaboratedAction, IsRecordType, IsRequestsFault, ResolvesEach, Ty, action_loc, context_not_record, fault_of, fragment_requests, namespace_name, names_in, out_of_memory, ty_of, type_expr, uid_of, written_action_body};
ghost use Rattle.cedar_elaboration.specs.Refusals.{IsElaborationFault};

use crate::request_types::declared_types;
use cedar_ast::{EntityType, EntityUID, InternalName, Loc};
use cedar_elaboration::{TypeScope, elaborate};
use cedar_fragments::namespace::{ActionFragment, ActionRequests};
use cedar_name_resolution::Written;
use cedar_name_resolution::defs::WrittenName;
use cedar_schema_ast::json_schema;
use cedar_schema_elements::{ValidatorActionId, ValidatorEntityType};
use cedar_schema_semantics::{ContextOrShape, SchemaError};
use cedar_table::Table;
use cedar_types::Type;
use std::alloc::Global;

/// What the declarations of actions are read over: the entity types of the schema, among which
/// principals and resources have to be, and what types may name.
#[derive(Drop)]
pub(crate) struct ActionScope<'a, 't> {
    pub(crate) entity_types: &'a Table<EntityType, ValidatorEntityType>,
    pub(crate) types: &'a TypeScope<'t>,
}

/// Whether the type is that of records.
fn is_record(ty: &Type) -> bool
    ensures { IsTrue result ↔ IsRecordType (ty_of ty.now) }
{
    matches!(ty, Type::Record { .. })
}

/// The type of the context of an action, which must be a record type.
fn context_type<N: WrittenName>(
    alloc: Global,
    uid: &EntityUID,
    context: &json_schema::Type<N>,
    namespace: Option<&InternalName>,
    scope: &TypeScope,
) -> Result<Type, SchemaError>
    ensures elaborates { IfOk result (λ elaborated.
        ElaboratesAs scope.now
        (type_expr N (N.refer (namespace_name namespace.entry)) context.now) (ty_of elaborated)) }
    ensures is_record { IfOk result (λ elaborated. IsRecordType (ty_of elaborated)) }
    ensures closed { OnOk result (¬ HasOpenRecord
        (type_expr N (N.refer (namespace_name namespace.entry)) context.now)) }
    ensures extensions { OnOk result (CoversExtensions scope.now
        (type_expr N (N.refer (namespace_name namespace.entry)) context.now)) }
    ensures resolved { OnOk result (ResolvesEach scope.now
        (type_expr N (N.refer (namespace_name namespace.entry)) context.now)) }
    ensures fault { IfErr result (λ error. (fault_of error ≡ out_of_memory)
        ⊎ (IsElaborationFault scope.now
        (type_expr N (N.refer (namespace_name namespace.entry)) context.now) (fault_of error)
        ⊎ ((fault_of error ≡ context_not_record (uid_of uid.now))
        × ((ty : Ty) × ElaboratesAs scope.now
        (type_expr N (N.refer (namespace_name namespace.entry)) context.now) ty
        × ¬ IsRecordType ty)))) }
{
    let elaborated = elaborate(alloc, context, namespace, scope)?;
    if is_record(&elaborated) {
        return Ok(elaborated);
    }
    Err(SchemaError::ContextOrShapeNotRecord(ContextOrShape::ActionContext(uid.clone()?)))
}

/// The action that a definition of the uid gives alone, as yet without descendants.
fn elaborated_definition<N: WrittenName>(
    alloc: Global,
    uid: EntityUID,
    requests: &ActionRequests<N>,
    namespace: Option<&InternalName>,
    loc: Option<Loc>,
    scope: &ActionScope<'_, '_>,
) -> Result<ValidatorActionId, SchemaError>
    ensures elaborates { IfOk result (λ action.
        IsElaboratedAction scope.now.types.now (uid_of uid)
        (fragment_requests N (N.refer (namespace_name namespace.entry)) (Some requests.now))
        action) }
    ensures loc { IfOk result (λ action. action_loc action ≡ loc) }
    ensures sound { OnOk result (AreSoundRequests scope.now.types.now
        (names_in scope.now.entity_types.now)
        (fragment_requests N (N.refer (namespace_name namespace.entry)) (Some requests.now))) }
    ensures fault { IfErr result (λ error.
        IsRequestsFault scope.now.types.now (names_in scope.now.entity_types.now) (uid_of uid)
        (fragment_requests N (N.refer (namespace_name namespace.entry)) (Some requests.now))
        (fault_of error)) }
{
    let context = context_type(alloc, &uid, &requests.context, namespace, scope.types)?;
    let entity_types = scope.entity_types;
    let defs = scope.types.defs;
    let principals = declared_types(alloc, &requests.principals, namespace, entity_types, defs)?;
    let resources = declared_types(alloc, &requests.resources, namespace, entity_types, defs)?;
    let below: Vec<EntityUID> = Vec::new(alloc);
    Ok(ValidatorActionId::for_requests(alloc, uid, principals, resources, below, context, loc)?)
}

/// The action that a declaration of the uid gives alone, as yet without descendants.
pub(crate) fn elaborated_action<N: WrittenName>(
    alloc: Global,
    uid: EntityUID,
    fragment: &Written<ActionFragment<N, N>>,
    scope: &ActionScope<'_, '_>,
) -> Result<ValidatorActionId, SchemaError>
    ensures elaborates { IfOk result (λ action.
        IsElaboratedAction scope.now.types.now (uid_of uid)
        (written_action_body N N.refer fragment.now).applies_to action) }
    ensures loc { IfOk result (λ action. action_loc action ≡ fragment.now.declared.loc) }
    ensures sound { OnOk result (AreSoundRequests scope.now.types.now
        (names_in scope.now.entity_types.now)
        (written_action_body N N.refer fragment.now).applies_to) }
    ensures fault { IfErr result (λ error.
        IsRequestsFault scope.now.types.now (names_in scope.now.entity_types.now) (uid_of uid)
        (written_action_body N N.refer fragment.now).applies_to (fault_of error)) }
{
    match &fragment.declared.requests {
        Some(requests) => {
            let namespace = fragment.namespace();
            let loc = fragment.declared.loc;
            elaborated_definition(alloc, uid, requests, namespace, loc, scope)
        }
        None => {
            let descendants: Vec<EntityUID> = Vec::new(alloc);
            Ok(ValidatorActionId::new_external(alloc, uid, descendants, fragment.declared.loc)?)
        }
    }
}
