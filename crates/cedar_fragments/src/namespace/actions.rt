//! The actions of a namespace.

ghost use Rattle.std.specs.Prelude.{◌≡◌, ◌⊎◌, IfOk, IfErr, OnOk, map, string_bytes, [], Option};
ghost use Rattle.cedar_fragments.specs.Words.{IsDefinitionFault, IsReserved, NamesAllWithAttributes, PlainName, Reference, ReferenceType, action_body, action_declarations, action_defs, action_fragment_body, action_fragment_declarations, action_word, applies_to, fault_of, fragment_parent, fragment_requests, id_text, name_of, name_within, namespace_name, out_of_memory, parent_action, parent_actions, raw_reference, reserved_name, text_cmp, uid_of, with_attributes};
ghost use Rattle.std.specs.List.{AllByRecursion};
ghost use Rattle.std.specs.Slice.Iter.{iter_rest};
ghost use Rattle.std.specs.List.Sorted.{IsStrictlySortedBy};
ghost use Rattle.cedar_schema_ast.specs.declared.json_schema.conditional_name.ConditionalName.{ConditionalName as Conditional};
ghost use Rattle.cedar_schema_ast.specs.declared.json_schema.raw_name.RawName.{RawName as Raw};

use crate::namespace::action_def::ActionDef;
use crate::namespace::taken_names::TakenOver;
use cedar_ast::{Eid, EntityType, EntityUID, Id, InternalName, Loc, M, identifier};
use cedar_name_resolution::full_name::full_name;
use cedar_schema_ast::json_schema::{
    ActionEntityUID, ActionType, ApplySpec, ConditionalName, RawName, RecordType, ReferenceType,
    Type, TypeVariant,
};
use cedar_schema_semantics::{SchemaError, UnsupportedFeature};
use std::alloc::Global;
use std::collections::BTreeMap;
use std::slice;

/// The actions that a definition declares, each under its uid.
#[derive(Debug, Drop)]
pub struct ActionsDef<N, A> {
    pub(crate) defs: Vec<ActionDef<N, A>>,
}

/// What is declared of an action.
#[derive(Debug, Drop)]
pub struct ActionFragment<N, A> {
    /// The requests that the action is for, or None where the action is defined elsewhere.
    pub requests: Option<ActionRequests<N>>,
    /// The actions that are direct parents of the action.
    pub parents: Vec<ActionParent<A>>,
    /// Where the name of the action was written, if that is known.
    pub loc: Option<Loc>,
}

/// The requests that an action is for: the entity types that their principal and their resource may
/// have, and the record type of their context.
#[derive(Debug, Drop)]
pub struct ActionRequests<N> {
    /// The entity types that the principal may have.
    pub principals: Vec<N>,
    /// The entity types that the resource may have.
    pub resources: Vec<N>,
    /// The record type of the context.
    pub context: Type<N>,
}

/// A parent of an action: its id, and the name of its type.
#[derive(Debug, Drop)]
pub struct ActionParent<A> {
    /// The id of the parent.
    pub id: String,
    /// The name of the parent's type.
    pub ty: A,
    /// Where the reference was written, if that is known.
    pub loc: Option<Loc>,
}

impl<N, A> ActionsDef<N, A> {
    /// No actions.
    pub fn new(alloc: Global) -> Self
        ensures { (refer : ReferenceType → N → Reference)
            (refer_action : ReferenceType → A → Reference)
            → action_fragment_declarations N refer A refer_action result ≡ [] }
    {
        ActionsDef {
            defs: Vec::new(alloc),
        }
    }

    /// The actions, in order.
    pub fn iter(&self) -> slice::Iter<'_, ActionDef<N, A>>
        ensures { iter_rest result ≡ action_defs N A self.now }
    {
        self.defs.iter()
    }
}

/// The base name of every action's type.
fn action_id(alloc: Global) -> M<Id>
    ensures { IfOk result (λ id. id_text id ≡ action_word) }
{
    identifier(alloc, "Action")
}

/// A parent of an action by the name that is written of its type; where none is, by the base name
/// of all types of actions.
fn written_parent(alloc: Global, written: ActionEntityUID<RawName>) -> M<ActionParent<RawName>>
    ensures { IfOk result (λ it. (namespace : Option PlainName)
        → fragment_parent Raw (raw_reference namespace) it
        ≡ parent_action Raw (raw_reference namespace) namespace written) }
{
    let ActionEntityUID { id, ty, loc } = written;
    let ty = match ty {
        Some(name) => name,
        None => RawName::new(InternalName::new(action_id(alloc)?, Vec::new(alloc), loc)),
    };
    Ok(ActionParent { id, ty, loc })
}

/// The parents of an action, by the names that are written; none where none are.
fn written_parents(
    alloc: Global,
    written: Option<Vec<ActionEntityUID<RawName>>>,
) -> M<Vec<ActionParent<RawName>>>
    ensures { IfOk result (λ it. (namespace : Option PlainName)
        → map (fragment_parent Raw (raw_reference namespace)) it.items
        ≡ parent_actions Raw (raw_reference namespace) namespace written) }
{
    let Some(written) = written else {
        return Ok(Vec::new(alloc));
    };
    let mut parents = Vec::with_capacity(alloc, written.len())?;
    for parent in written {
        parents.push(written_parent(alloc, parent)?)?;
    }
    Ok(parents)
}

/// No requests, with the closed record without attributes for a context.
fn no_requests(alloc: Global) -> ActionRequests<RawName>
    ensures { (namespace : Option PlainName)
        → fragment_requests Raw (raw_reference namespace) (Some result)
        ≡ applies_to Raw (raw_reference namespace) namespace None }
{
    let no_attributes = RecordType {
        attributes: BTreeMap::new(alloc),
        additional_attributes: false,
    };
    ActionRequests {
        principals: Vec::new(alloc),
        resources: Vec::new(alloc),
        context: Type::Plain {
            ty: TypeVariant::Record(no_attributes),
            loc: None,
        },
    }
}

/// The requests that are written of an action; where none are written it is for none, and its
/// context is the closed record without attributes.
fn written_requests(alloc: Global, written: Option<ApplySpec<RawName>>) -> ActionRequests<RawName>
    ensures { (namespace : Option PlainName)
        → fragment_requests Raw (raw_reference namespace) (Some result)
        ≡ applies_to Raw (raw_reference namespace) namespace written }
{
    match written {
        Some(written) => ActionRequests {
            principals: written.principal_types,
            resources: written.resource_types,
            context: written.context.0,
        },
        None => no_requests(alloc),
    }
}

impl ActionFragment<RawName, RawName> {
    /// What is declared of an action without attributes, by the names that are written.
    pub(crate) fn as_written(alloc: Global, written: ActionType<RawName>) -> M<Self>
        requires { written.attributes ≡ None }
        ensures { IfOk result (λ it. (namespace : Option PlainName)
            → action_fragment_body Raw (raw_reference namespace) Raw (raw_reference namespace) it
            ≡ action_body Raw (raw_reference namespace) namespace written) }
    {
        let ActionType {
            applies_to,
            member_of,
            external,
            loc,
            ..
        } = written;
        let parents = written_parents(alloc, member_of)?;
        let requests = if external {
            None
        } else {
            Some(written_requests(alloc, applies_to))
        };
        Ok(ActionFragment {
            requests,
            parents,
            loc,
        })
    }
}

/// The requests of an action, which are written in a namespace.
fn taken_requests<N: TakenOver>(
    alloc: Global,
    namespace: Option<&InternalName>,
    requests: ActionRequests<RawName>,
) -> M<ActionRequests<N>>
    ensures { IfOk result (λ it.
        fragment_requests N (N.refer (namespace_name namespace.entry)) (Some it)
        ≡ fragment_requests Raw (raw_reference (namespace_name namespace.entry)) (Some requests)) }
{
    let ActionRequests {
        principals,
        resources,
        context,
    } = requests;
    let principals = N::taken_names(alloc, namespace, principals)?;
    let resources = N::taken_names(alloc, namespace, resources)?;
    let context = N::taken_type(alloc, namespace, context)?;
    Ok(ActionRequests {
        principals,
        resources,
        context,
    })
}

impl<N: TakenOver> ActionFragment<N, N> {
    /// What is declared of an action without attributes that is written in a namespace.
    pub(crate) fn taken_over(
        alloc: Global,
        namespace: Option<&InternalName>,
        written: ActionType<RawName>,
    ) -> M<Self>
        requires { written.attributes ≡ None }
        ensures { IfOk result (λ it.
            action_fragment_body N (N.refer (namespace_name namespace.entry)) N
            (N.refer (namespace_name namespace.entry)) it
            ≡ action_body Raw (raw_reference (namespace_name namespace.entry))
            (namespace_name namespace.entry) written) }
    {
        let ActionFragment {
            requests,
            parents,
            loc,
        } = ActionFragment::as_written(alloc, written)?;
        let parents = N::taken_parents(alloc, namespace, parents)?;
        let requests = match requests {
            None => None,
            Some(requests) => Some(taken_requests::<N>(alloc, namespace, requests)?),
        };
        Ok(ActionFragment {
            requests,
            parents,
            loc,
        })
    }
}

/// The name of the type of the actions that are declared in a namespace. It is shared.
pub(crate) fn action_type_name(alloc: Global, namespace: Option<&InternalName>) -> M<InternalName>
    ensures { IfOk result (λ name.
        name_of name ≡ name_within (namespace_name namespace.entry) action_word) }
{
    full_name(alloc, namespace, action_id(alloc)?, None)
}

/// The uid of an action whose type has this name, which must not be reserved. It is shared, and so
/// is its type.
pub(crate) fn action_uid(
    ty: &InternalName,
    id: String,
    loc: Option<Loc>,
) -> Result<EntityUID, SchemaError>
    ensures ty { IfOk result (λ uid. (uid_of uid).ty ≡ name_of ty.now) }
    ensures eid { IfOk result (λ uid. (uid_of uid).eid ≡ string_bytes id) }
    ensures unreserved { OnOk result (¬ IsReserved (name_of ty.now)) }
    ensures fault { IfErr result (λ error. (fault_of error ≡ out_of_memory)
        ⊎ ((fault_of error ≡ reserved_name (name_of ty.now)) × IsReserved (name_of ty.now))) }
{
    match EntityType::from_internal(ty.clone()?.with_loc(loc)) {
        Ok(ty) => Ok(EntityUID::new(ty, Eid(id), loc).into_shared()?),
        Err(name) => Err(SchemaError::ReservedName(name)),
    }
}

/// The ids of the actions that are written with attributes, in order.
fn actions_with_attributes(
    alloc: Global,
    written: &BTreeMap<String, ActionType<RawName>>,
) -> M<Vec<String>>
    ensures listed { IfOk result (λ ids.
        map string_bytes ids.items ≡ with_attributes written.now.entries) }
    ensures in_order { IfOk result (λ ids.
        IsStrictlySortedBy text_cmp (map string_bytes ids.items)) }
{
    let mut ids = Vec::new(alloc);
    for (id, action) in written {
        if action.attributes.is_some() {
            ids.push(id.clone()?)?;
        }
    }
    Ok(ids)
}

/// Refuses actions that are written with attributes, with all of them.
pub(crate) fn refuse_attributes(
    alloc: Global,
    written: &BTreeMap<String, ActionType<RawName>>,
) -> Result<(), SchemaError>
    ensures none { OnOk result (with_attributes written.now.entries ≡ []) }
    ensures fault { IfErr result (λ error. (namespace : Option PlainName)
        → (fault_of error ≡ out_of_memory)
        ⊎ IsDefinitionFault (action_declarations Raw (raw_reference namespace) namespace
        written.now.entries) (fault_of error)) }
    ensures all_named { IfErr result (λ error. (namespace : Option PlainName)
        → NamesAllWithAttributes (action_declarations Raw (raw_reference namespace) namespace
        written.now.entries) namespace (fault_of error)) }
{
    let ids = actions_with_attributes(alloc, written)?;
    if !ids.is_empty() {
        let feature = UnsupportedFeature::ActionAttributes(ids);
        return Err(SchemaError::UnsupportedFeature(feature));
    }
    Ok(())
}
