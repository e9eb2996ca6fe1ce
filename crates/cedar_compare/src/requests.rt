//! What a new version keeps of the requests of an action.

ghost use Rattle.std.specs.Prelude.{◌≡◌, ◌↔◌, All, IfOk, IsTrue, None, Some, map};
ghost use Rattle.std.specs.List.{flat_map};
ghost use Rattle.std.specs.List.Sorted.{IsStrictlySortedBy};
ghost use Rattle.std.specs.Option.{option_map};
ghost use Rattle.cedar_compare.specs.Words.{AreActionAnswers, AreAnswers, AreRequestsOf, AreVersions, HasEnvironment, IsAnswer, IsAppliedBy, IsContextIn, IsEnvironmentLacking, IsEnvironmentOf, IsSampleRequest, IsUidOutside, environment_subject, environment_with, name_cmp, new_action, new_of, old_of, plain_difference, plain_request, steps_of, subjects_with, ty_of, type_name, uid_of};

use crate::difference::{Cause, Difference, Part, Request, part_cause};
use crate::existing::{some_uid, uid_outside};
use crate::looking_up::find_action;
use crate::versions::Versions;
use cedar_ast::{EntityType, EntityUID, M};
use cedar_counterexample::{OutsideBetween, Step, existing_value, outside_between};
use cedar_schema::{RequestTypes, ValidatorActionId};
use cedar_types::Type;
use itertools::Itertools;
use std::alloc::Global;

/// The requests of an action in two versions.
#[derive(Drop)]
pub(crate) struct ComparedRequests<'a> {
    /// The action's uid.
    pub(crate) uid: &'a EntityUID,
    /// The type of the context in the old version.
    pub(crate) context: &'a Type,
    /// The action in the new version.
    pub(crate) new: Option<&'a ValidatorActionId>,
    /// A value of the context that the new version's can't be, and why, if there is one.
    pub(crate) outside: Option<OutsideBetween>,
}

/// Equal steps.
fn copied_steps(alloc: Global, steps: &Vec<Step>) -> M<Vec<Step>>
    ensures { IfOk result (λ copy. steps_of copy ≡ steps_of steps.now) }
{
    let mut copy = Vec::new(alloc);
    for step in steps {
        match step {
            Step::Attribute(name) => copy.push(Step::Attribute(name.clone()?))?,
            Step::Element => copy.push(Step::Element)?,
        }
    }
    Ok(copy)
}

/// An equal uid, if there is one.
fn copied_uid(uid: &Option<EntityUID>) -> M<Option<EntityUID>>
    ensures { IfOk result (λ copy. option_map uid_of copy ≡ option_map uid_of uid.now) }
{
    match uid {
        Some(uid) => Ok(Some(uid.clone()?)),
        None => Ok(None),
    }
}

/// A uid of a type that the old version may have as principal or resource and the new may not, if
/// there is one.
fn lost_uid(versions: &Versions<'_>, name: &EntityType) -> M<Option<EntityUID>>
    ensures { IfOk result (λ found. IsUidOutside (old_of versions.now) (new_of versions.now)
        (type_name name.now) (option_map uid_of found)) }
{
    if name.is_action() {
        return uid_outside(versions.alloc, versions.old, versions.new, name);
    }
    match versions.lost.get(name) {
        Some(uid) => Ok(Some(uid.clone()?)),
        None => Ok(None),
    }
}

/// The request of a principal and a resource with a sample of the context, which names what exists
/// in the old version.
fn sample_request(
    versions: &Versions<'_>,
    requests: &ComparedRequests<'_>,
    principal: EntityUID,
    resource: EntityUID,
) -> M<Request>
    requires versions { AreVersions versions.now }
    requires context { IsContextIn (old_of versions.now) (ty_of requests.now.context.now) }
    ensures { IfOk result (λ request. IsSampleRequest versions.now.extensions.now
        (old_of versions.now) (uid_of principal) (uid_of requests.now.uid.now) (uid_of resource)
        (ty_of requests.now.context.now) (plain_request request)) }
{
    let context = existing_value(
        versions.alloc,
        versions,
        requests.context,
        versions.extensions,
        versions.samples,
    )?;
    Ok(Request {
        principal,
        action: requests.uid.clone()?,
        resource,
        context,
    })
}

/// The difference of an environment that the new version lacks.
fn removed(
    versions: &Versions<'_>,
    requests: &ComparedRequests<'_>,
    principal: &EntityType,
    resource: &EntityType,
) -> M<Difference>
    requires versions { AreVersions versions.now }
    requires asked { IsEnvironmentOf (old_of versions.now)
        (environment_with requests.now (type_name principal.now) (type_name resource.now)) }
    requires lacking { IsEnvironmentLacking (new_of versions.now) (type_name principal.now)
        (uid_of requests.now.uid.now) (type_name resource.now) }
    ensures { IfOk result (λ difference. IsAnswer versions.now.extensions.now
        (old_of versions.now) (new_of versions.now) (environment_subject (type_name principal.now)
        (uid_of requests.now.uid.now) (type_name resource.now))
        (Some (plain_difference difference))) }
{
    let principal = some_uid(versions.alloc, versions.old, principal)?;
    let resource = some_uid(versions.alloc, versions.old, resource)?;
    Ok(Difference::Environment {
        witness: sample_request(versions, requests, principal, resource)?,
        cause: Cause::Gone,
    })
}

/// The difference of an environment whose context the new version's can't be.
fn context_lost(
    versions: &Versions<'_>,
    requests: &ComparedRequests<'_>,
    found: &OutsideBetween,
    principal: &EntityType,
    resource: &EntityType,
) -> M<Difference>
    requires versions { AreVersions versions.now }
    requires requests { AreRequestsOf versions.now.extensions.now (old_of versions.now)
        (new_of versions.now) requests.now }
    requires found { requests.now.outside ≡ Some found.now }
    requires asked { IsEnvironmentOf (old_of versions.now)
        (environment_with requests.now (type_name principal.now) (type_name resource.now)) }
    requires still { HasEnvironment (new_of versions.now) (type_name principal.now)
        (uid_of requests.now.uid.now) (type_name resource.now) }
    ensures { IfOk result (λ difference. IsAnswer versions.now.extensions.now
        (old_of versions.now) (new_of versions.now) (environment_subject (type_name principal.now)
        (uid_of requests.now.uid.now) (type_name resource.now))
        (Some (plain_difference difference))) }
{
    let witness = Request {
        principal: some_uid(versions.alloc, versions.old, principal)?,
        action: requests.uid.clone()?,
        resource: some_uid(versions.alloc, versions.old, resource)?,
        context: found.value.clone()?,
    };
    let steps = copied_steps(versions.alloc, &found.steps)?;
    let lost = copied_uid(&found.lost)?;
    let cause = part_cause(Part::Context, steps, lost);
    Ok(Difference::Environment { witness, cause })
}

/// What is lost of an environment of both versions because of the ids of its principal or of its
/// resource, if something is.
fn ids_lost(
    versions: &Versions<'_>,
    requests: &ComparedRequests<'_>,
    principal: &EntityType,
    resource: &EntityType,
) -> M<Option<Difference>>
    requires versions { AreVersions versions.now }
    requires requests { AreRequestsOf versions.now.extensions.now (old_of versions.now)
        (new_of versions.now) requests.now }
    requires found { requests.now.outside ≡ None }
    requires asked { IsEnvironmentOf (old_of versions.now)
        (environment_with requests.now (type_name principal.now) (type_name resource.now)) }
    requires still { HasEnvironment (new_of versions.now) (type_name principal.now)
        (uid_of requests.now.uid.now) (type_name resource.now) }
    ensures { IfOk result (λ found. IsAnswer versions.now.extensions.now
        (old_of versions.now) (new_of versions.now) (environment_subject (type_name principal.now)
        (uid_of requests.now.uid.now) (type_name resource.now))
        (option_map plain_difference found)) }
{
    if let Some(uid) = lost_uid(versions, principal)? {
        let cause = Cause::Choice(uid.clone()?);
        let resource = some_uid(versions.alloc, versions.old, resource)?;
        let witness = sample_request(versions, requests, uid, resource)?;
        return Ok(Some(Difference::Environment { witness, cause }));
    }
    if let Some(uid) = lost_uid(versions, resource)? {
        let cause = Cause::Choice(uid.clone()?);
        let principal = some_uid(versions.alloc, versions.old, principal)?;
        let witness = sample_request(versions, requests, principal, uid)?;
        return Ok(Some(Difference::Environment { witness, cause }));
    }
    Ok(None)
}

/// Whether the new version has the environment of an action.
fn is_kept(requests: &ComparedRequests<'_>, principal: &EntityType, resource: &EntityType) -> bool
    ensures { IsTrue result ↔ IsAppliedBy (new_action requests.now) (type_name principal.now)
        (type_name resource.now) }
{
    match requests.new {
        Some(action) => {
            action.is_applicable_principal_type(principal)
                && action.is_applicable_resource_type(resource)
        }
        None => false,
    }
}

/// What is lost of an environment, if something is.
fn lost_request(
    versions: &Versions<'_>,
    requests: &ComparedRequests<'_>,
    principal: &EntityType,
    resource: &EntityType,
) -> M<Option<Difference>>
    requires versions { AreVersions versions.now }
    requires requests { AreRequestsOf versions.now.extensions.now (old_of versions.now)
        (new_of versions.now) requests.now }
    requires asked { IsEnvironmentOf (old_of versions.now)
        (environment_with requests.now (type_name principal.now) (type_name resource.now)) }
    ensures { IfOk result (λ found. IsAnswer versions.now.extensions.now
        (old_of versions.now) (new_of versions.now) (environment_subject (type_name principal.now)
        (uid_of requests.now.uid.now) (type_name resource.now))
        (option_map plain_difference found)) }
{
    if !is_kept(requests, principal, resource) {
        return Ok(Some(removed(versions, requests, principal, resource)?));
    }
    match &requests.outside {
        Some(found) => Ok(Some(context_lost(versions, requests, found, principal, resource)?)),
        None => ids_lost(versions, requests, principal, resource),
    }
}

/// Entity types in a list, as they come.
fn listed<'a>(alloc: Global, types: RequestTypes<'a>) -> M<Vec<&'a EntityType>>
    ensures { IfOk result (λ names.
        map (λ name. type_name name.now) names.items ≡ map type_name types.entry) }
{
    Ok(types.collect_vec(alloc)?)
}

/// What is lost of the requests of an action with one principal.
fn lost_with_principal(
    versions: &Versions<'_>,
    requests: &ComparedRequests<'_>,
    principal: &EntityType,
    resources: &[&EntityType],
) -> M<Vec<Difference>>
    requires versions { AreVersions versions.now }
    requires requests { AreRequestsOf versions.now.extensions.now (old_of versions.now)
        (new_of versions.now) requests.now }
    requires asked { All (λ resource. IsEnvironmentOf (old_of versions.now)
        (environment_with requests.now (type_name principal.now) (type_name resource.now)))
        resources.now }
    requires ordered { IsStrictlySortedBy name_cmp
        (map (λ resource. type_name resource.now) resources.now) }
    ensures { IfOk result (λ lost. AreAnswers versions.now.extensions.now (old_of versions.now)
        (new_of versions.now) (subjects_with (uid_of requests.now.uid.now)
        (type_name principal.now) (map (λ resource. type_name resource.now) resources.now))
        (map plain_difference lost.items)) }
{
    let mut lost = Vec::new(versions.alloc);
    for resource in resources {
        if let Some(difference) = lost_request(versions, requests, principal, resource)? {
            lost.push(difference)?;
        }
    }
    Ok(lost)
}

/// What is lost of the requests of an action with each of some principals.
fn lost_with_principals(
    versions: &Versions<'_>,
    requests: &ComparedRequests<'_>,
    principals: &[&EntityType],
    resources: &[&EntityType],
) -> M<Vec<Difference>>
    requires versions { AreVersions versions.now }
    requires requests { AreRequestsOf versions.now.extensions.now (old_of versions.now)
        (new_of versions.now) requests.now }
    requires asked { All (λ principal. All (λ resource. IsEnvironmentOf (old_of versions.now)
        (environment_with requests.now (type_name principal.now) (type_name resource.now)))
        resources.now) principals.now }
    requires ordered { IsStrictlySortedBy name_cmp
        (map (λ principal. type_name principal.now) principals.now) }
    requires resources_ordered { IsStrictlySortedBy name_cmp
        (map (λ resource. type_name resource.now) resources.now) }
    ensures { IfOk result (λ lost. AreAnswers versions.now.extensions.now (old_of versions.now)
        (new_of versions.now) (flat_map (λ principal. subjects_with (uid_of requests.now.uid.now)
        principal (map (λ resource. type_name resource.now) resources.now))
        (map (λ principal. type_name principal.now) principals.now))
        (map plain_difference lost.items)) }
{
    let mut lost = Vec::new(versions.alloc);
    for principal in principals {
        let mut more = lost_with_principal(versions, requests, principal, resources)?;
        lost.append(&mut more)?;
    }
    Ok(lost)
}

/// The requests of an action of the old version in both.
fn requests_of<'a>(
    versions: &Versions<'a>,
    uid: &'a EntityUID,
    context: &'a Type,
) -> M<ComparedRequests<'a>>
    requires versions { AreVersions versions.now }
    requires context { IsContextIn (old_of versions.now) (ty_of context.now) }
    ensures uid { IfOk result (λ requests. requests.uid.now ≡ uid.now) }
    ensures context { IfOk result (λ requests. requests.context.now ≡ context.now) }
    ensures requests { IfOk result (AreRequestsOf versions.now.extensions.now
        (old_of versions.now) (new_of versions.now)) }
{
    let new = find_action(versions.new, uid);
    let found = match new.and_then(|action| action.context()) {
        Some(other) => outside_between(
            versions.alloc,
            versions,
            context,
            other,
            versions.extensions,
            versions.samples,
        )?,
        None => None,
    };
    Ok(ComparedRequests {
        uid,
        context,
        new,
        outside: found,
    })
}

/// What is lost of the requests of an action of the old version.
pub(crate) fn lost_of_action<'a>(versions: &Versions<'a>, uid: &'a EntityUID) -> M<Vec<Difference>>
    requires { AreVersions versions.now }
    ensures { IfOk result (λ lost. AreActionAnswers versions.now.extensions.now
        (old_of versions.now) (new_of versions.now) (uid_of uid.now)
        (map plain_difference lost.items)) }
{
    let Some(old) = find_action(versions.old, uid) else {
        return Ok(Vec::new(versions.alloc));
    };
    let Some(context) = old.context() else {
        return Ok(Vec::new(versions.alloc));
    };
    let requests = requests_of(versions, uid, context)?;
    let principals = listed(versions.alloc, old.principals())?;
    let resources = listed(versions.alloc, old.resources())?;
    lost_with_principals(versions, &requests, &principals, &resources)
}
