//! Actions over names that aren't resolved yet become actions over full names.

ghost use Rattle.std.specs.Prelude.{◌≡◌, IfOk, IfErr, IfSome, OnOk, MatchOption, Some, map, Contains, string_bytes};
ghost use Rattle.std.specs.List.{flat_map};
ghost use Rattle.cedar_fragments.specs.Words.{HasToResolveFor, HoldsPairwise, IsFirst, IsPrincipalOrResource, IsRequested, IsRequestedIn, IsUnresolvable, IsUnresolvableBag, IsUnresolvableIn, NoneIsReserved, PlainName, ResolvesBag, ResolvesBody, ResolvesParent, ResolvesReference, ResolvesRequests, StandsWhere, action, action_fragment_body, action_fragment_declarations, action_fragment_locs, actions_locs, fault_of, fragment_parent, fragment_requests, held_names, name_of, names_of, namespace_name, no_locs, parent_locs, positional_reference, requests_locs, resolved_action_type, resolved_reference, uid_loc, uid_of};
ghost use Rattle.cedar_ast.specs.declared.entity_type.EntityType.{EntityType as ActionEntityType};
ghost use Rattle.cedar_ast.specs.declared.internal_name.InternalName.{InternalName as Full};
ghost use Rattle.cedar_schema_ast.specs.declared.json_schema.conditional_name.ConditionalName.{ConditionalName as Conditional};
ghost use Rattle.cedar_schema_ast.specs.declared.json_schema.reference_type.ReferenceType.TheVariants.{Entity as entity};

use crate::namespace::action_def::ActionDef;
use crate::namespace::actions::{ActionFragment, ActionParent, ActionRequests, ActionsDef};
use crate::namespace::qualify_types::{qualify_entity_types, qualify_type};
use cedar_ast::{Eid, EntityType, EntityUID, InternalName, Loc, M, Name, NonEmpty};
use cedar_name_resolution::defs::{AllDefs, WrittenName};
use cedar_schema_ast::json_schema::ConditionalName;
use cedar_schema_semantics::SchemaError;

/// The uid of the action that has the id and a type of the name, if there is one, at the location,
/// and its type at that of the name. What is shared of the declared uid is shared with it.
fn shared_uid(
    name: InternalName,
    id: &String,
    loc: Option<Loc>,
    all_defs: &AllDefs,
) -> M<Option<EntityUID>>
    ensures uid { IfOk result (StandsWhere uid_of
        (record { ty = name_of name; eid = string_bytes id.now })
        (Contains (held_names all_defs.now).actions
        (record { ty = name_of name; eid = string_bytes id.now }))) }
    ensures loc { IfOk result (λ found. IfSome found (λ uid. uid_loc uid ≡ loc)) }
{
    let type_loc = name.loc();
    let Some(name) = Name::new(name) else {
        return Ok(None);
    };
    let uid = EntityUID::new(EntityType::new(name), Eid(id.clone()?), None);
    match all_defs.declared_action(&uid) {
        None => Ok(None),
        Some(found) => Ok(Some(found.clone()?.with_locs(loc, type_loc))),
    }
}

/// The uid of the first action that has the id and a type of some names, if there is one, at the
/// location.
pub(crate) fn first_action(
    names: NonEmpty<InternalName>,
    id: &String,
    loc: Option<Loc>,
    all_defs: &AllDefs,
) -> M<Option<EntityUID>>
    ensures uid { IfOk result (λ found. MatchOption found
        ((name : PlainName) → Contains (names_of names) name
        → ¬ Contains (held_names all_defs.now).actions
        (record { ty = name; eid = string_bytes id.now }))
        (λ uid. IsFirst (λ name. Contains (held_names all_defs.now).actions
        (record { ty = name; eid = string_bytes id.now }))
        (names_of names) (uid_of uid).ty × ((uid_of uid).eid ≡ string_bytes id.now))) }
    ensures loc { IfOk result (λ found. IfSome found (λ uid. uid_loc uid ≡ loc)) }
{
    let NonEmpty { head, tail } = names;
    if let Some(uid) = shared_uid(head, id, loc, all_defs)? {
        return Ok(Some(uid));
    }
    for name in tail {
        if let Some(uid) = shared_uid(name, id, loc, all_defs)? {
            return Ok(Some(uid));
        }
    }
    Ok(None)
}

/// The same parent of an action, by the type of the action that it names, whose type is written in
/// the namespace.
fn qualify_parent<N: WrittenName + Drop>(
    parent: ActionParent<N>,
    namespace: Option<&InternalName>,
    all_defs: &AllDefs,
) -> Result<ActionParent<EntityType>, SchemaError>
    ensures resolved { IfOk result (λ it. ResolvesParent (held_names all_defs.now)
        (fragment_parent N (N.refer (namespace_name namespace.entry)) parent)
        (fragment_parent ActionEntityType resolved_action_type it)) }
    ensures locs { IfOk result (λ it.
        parent_locs ActionEntityType no_locs it ≡ parent_locs N no_locs parent) }
    ensures fault { IfErr result (λ error. IsUnresolvable (held_names all_defs.now)
        (λ reference. ⊥)
        (λ it. fragment_parent N (N.refer (namespace_name namespace.entry)) parent ≡ it)
        (λ reference. ⊥) (fault_of error)) }
{
    let uid = parent.named_within(namespace, all_defs)?;
    let ty = uid.entity_type().clone()?;
    let ActionParent { id, ty: _, loc } = parent;
    Ok(ActionParent { id, ty, loc })
}

/// The same parents of an action, by the types of the actions that they name.
fn qualify_parents<N: WrittenName + Drop>(
    parents: Vec<ActionParent<N>>,
    namespace: Option<&InternalName>,
    all_defs: &AllDefs,
) -> Result<Vec<ActionParent<EntityType>>, SchemaError>
    ensures resolved { IfOk result (λ it. HoldsPairwise (ResolvesParent (held_names all_defs.now))
        (map (fragment_parent N (N.refer (namespace_name namespace.entry))) parents.items)
        (map (fragment_parent ActionEntityType resolved_action_type) it.items)) }
    ensures locs { IfOk result (λ it. flat_map (parent_locs ActionEntityType no_locs) it.items
        ≡ flat_map (parent_locs N no_locs) parents.items) }
    ensures fault { IfErr result (λ error. IsUnresolvable (held_names all_defs.now)
        (λ reference. ⊥) (Contains (map
        (fragment_parent N (N.refer (namespace_name namespace.entry))) parents.items))
        (λ reference. ⊥) (fault_of error)) }
{
    let mut qualified = Vec::with_capacity(all_defs.alloc, parents.len())?;
    for parent in parents {
        qualified.push(qualify_parent(parent, namespace, all_defs)?)?;
    }
    Ok(qualified)
}

/// The names of the entity types that principals or resources resolve to, which must not be
/// reserved.
fn qualify_requested<N: WrittenName + Drop>(
    names: Vec<N>,
    namespace: Option<&InternalName>,
    all_defs: &AllDefs,
) -> Result<Vec<InternalName>, SchemaError>
    ensures resolved { IfOk result (λ it.
        HoldsPairwise (ResolvesReference (held_names all_defs.now))
        (map (N.refer (namespace_name namespace.entry) entity) names.items)
        (map (resolved_reference entity) it.items)) }
    ensures unreserved { OnOk result
        (NoneIsReserved (held_names all_defs.now)
        (Contains (map (N.refer (namespace_name namespace.entry) entity) names.items))) }
    ensures fault { IfErr result (λ error. IsUnresolvable (held_names all_defs.now)
        (Contains (map (N.refer (namespace_name namespace.entry) entity) names.items))
        (λ parent. ⊥)
        (Contains (map (N.refer (namespace_name namespace.entry) entity) names.items))
        (fault_of error)) }
{
    let qualified = qualify_entity_types(names, namespace, all_defs)?;
    for name in &qualified {
        if name.is_reserved() {
            return Err(SchemaError::ReservedName(name.clone()?));
        }
    }
    Ok(qualified)
}

/// The same requests of an action, where each name is that of what it resolves to.
fn qualify_requests<N: WrittenName + Drop>(
    requests: ActionRequests<N>,
    namespace: Option<&InternalName>,
    all_defs: &AllDefs,
) -> Result<ActionRequests<InternalName>, SchemaError>
    ensures resolved { IfOk result (λ it. ResolvesRequests (held_names all_defs.now)
        (fragment_requests N (N.refer (namespace_name namespace.entry)) (Some requests))
        (fragment_requests Full resolved_reference (Some it))) }
    ensures locs { IfOk result (λ it.
        requests_locs Full no_locs (Some it) ≡ requests_locs N no_locs (Some requests)) }
    ensures unreserved { OnOk result (NoneIsReserved (held_names all_defs.now)
        (IsPrincipalOrResource (fragment_requests N (N.refer (namespace_name namespace.entry))
        (Some requests)))) }
    ensures fault { IfErr result (λ error. IsUnresolvable (held_names all_defs.now)
        (HasToResolveFor (fragment_requests N (N.refer (namespace_name namespace.entry))
        (Some requests)))
        (λ parent. ⊥)
        (IsPrincipalOrResource (fragment_requests N (N.refer (namespace_name namespace.entry))
        (Some requests)))
        (fault_of error)) }
{
    let ActionRequests {
        principals,
        resources,
        context,
    } = requests;
    let principals = qualify_requested(principals, namespace, all_defs)?;
    let resources = qualify_requested(resources, namespace, all_defs)?;
    let context = qualify_type(context, namespace, all_defs)?;
    Ok(ActionRequests {
        principals,
        resources,
        context,
    })
}

impl<N: WrittenName + Drop> ActionFragment<N, N> {
    /// The same action, where each name that is written in the namespace is that of what it
    /// resolves to.
    pub(crate) fn qualify_within(
        self,
        namespace: Option<&InternalName>,
        all_defs: &AllDefs,
    ) -> Result<ActionFragment<InternalName, EntityType>, SchemaError>
        ensures resolved { IfOk result (λ it. ResolvesBody (held_names all_defs.now)
            (action (action_fragment_body N (N.refer (namespace_name namespace.entry)) N
            (N.refer (namespace_name namespace.entry)) self))
            (action (action_fragment_body Full resolved_reference ActionEntityType
            resolved_action_type it))) }
        ensures locs { IfOk result (λ it.
            action_fragment_locs Full no_locs ActionEntityType no_locs it
            ≡ action_fragment_locs N no_locs N no_locs self) }
        ensures unreserved { OnOk result (NoneIsReserved (held_names all_defs.now)
            (IsRequestedIn
            (action (action_fragment_body N (N.refer (namespace_name namespace.entry)) N
            (N.refer (namespace_name namespace.entry)) self)))) }
        ensures fault { IfErr result (λ error. IsUnresolvableIn (held_names all_defs.now)
            (action (action_fragment_body N (N.refer (namespace_name namespace.entry)) N
            (N.refer (namespace_name namespace.entry)) self)) (fault_of error)) }
    {
        let ActionFragment {
            requests,
            parents,
            loc,
        } = self;
        let parents = qualify_parents(parents, namespace, all_defs)?;
        let requests = match requests {
            None => None,
            Some(requests) => Some(qualify_requests(requests, namespace, all_defs)?),
        };
        Ok(ActionFragment {
            requests,
            parents,
            loc,
        })
    }
}

impl ActionFragment<ConditionalName, ConditionalName> {
    /// The same action, where each name is that of what it resolves to.
    ///
    /// It is refused with one of these kinds:
    ///
    /// - `ActionNotDefined`: a parent names no action
    /// - `TypeNotDefined`: another name resolves to nothing
    /// - `ReservedName`: a principal or a resource resolves to a reserved name
    /// - `Memory`: memory ran out
    pub fn fully_qualify_type_references(
        self,
        all_defs: &AllDefs,
    ) -> Result<ActionFragment<InternalName, EntityType>, SchemaError>
        ensures resolved { IfOk result (λ it. ResolvesBody (held_names all_defs.now)
            (action (action_fragment_body Conditional positional_reference Conditional
            positional_reference self))
            (action (action_fragment_body Full resolved_reference ActionEntityType
            resolved_action_type it))) }
        ensures locs { IfOk result (λ it.
            action_fragment_locs Full no_locs ActionEntityType no_locs it
            ≡ action_fragment_locs Conditional no_locs Conditional no_locs self) }
        ensures unreserved { OnOk result (NoneIsReserved (held_names all_defs.now)
            (IsRequestedIn
            (action (action_fragment_body Conditional positional_reference Conditional
            positional_reference self)))) }
        ensures fault { IfErr result (λ error. IsUnresolvableIn (held_names all_defs.now)
            (action (action_fragment_body Conditional positional_reference Conditional
            positional_reference self)) (fault_of error)) }
    {
        self.qualify_within(None, all_defs)
    }
}

impl<N: WrittenName + Drop> ActionsDef<N, N> {
    /// The same actions, where each name that is written in the namespace is that of what it
    /// resolves to.
    pub(crate) fn qualify_within(
        self,
        namespace: Option<&InternalName>,
        all_defs: &AllDefs,
    ) -> Result<ActionsDef<InternalName, EntityType>, SchemaError>
        ensures resolved { IfOk result (λ it. ResolvesBag (held_names all_defs.now)
            (action_fragment_declarations N (N.refer (namespace_name namespace.entry)) N
            (N.refer (namespace_name namespace.entry)) self)
            (action_fragment_declarations Full resolved_reference ActionEntityType
            resolved_action_type it)) }
        ensures locs { IfOk result (λ it. actions_locs Full no_locs ActionEntityType no_locs it
            ≡ actions_locs N no_locs N no_locs self) }
        ensures unreserved { OnOk result (NoneIsReserved (held_names all_defs.now)
            (IsRequested
            (action_fragment_declarations N (N.refer (namespace_name namespace.entry)) N
            (N.refer (namespace_name namespace.entry)) self))) }
        ensures fault { IfErr result (λ error. IsUnresolvableBag (held_names all_defs.now)
            (action_fragment_declarations N (N.refer (namespace_name namespace.entry)) N
            (N.refer (namespace_name namespace.entry)) self) (fault_of error)) }
    {
        let mut defs = Vec::with_capacity(all_defs.alloc, self.defs.len())?;
        for def in self.defs {
            let ActionDef { uid, fragment } = def;
            let fragment = fragment.qualify_within(namespace, all_defs)?;
            defs.push(ActionDef { uid, fragment })?;
        }
        Ok(ActionsDef { defs })
    }
}

impl ActionsDef<ConditionalName, ConditionalName> {
    /// The same actions, where each name is that of what it resolves to.
    ///
    /// They are refused with one of these kinds:
    ///
    /// - `ActionNotDefined`: a parent of one of them names no action
    /// - `TypeNotDefined`: another name resolves to nothing
    /// - `ReservedName`: a principal or a resource resolves to a reserved name
    /// - `Memory`: memory ran out
    pub fn fully_qualify_type_references(
        self,
        all_defs: &AllDefs,
    ) -> Result<ActionsDef<InternalName, EntityType>, SchemaError>
        ensures resolved { IfOk result (λ it. ResolvesBag (held_names all_defs.now)
            (action_fragment_declarations Conditional positional_reference Conditional
            positional_reference self)
            (action_fragment_declarations Full resolved_reference ActionEntityType
            resolved_action_type it)) }
        ensures locs { IfOk result (λ it. actions_locs Full no_locs ActionEntityType no_locs it
            ≡ actions_locs Conditional no_locs Conditional no_locs self) }
        ensures unreserved { OnOk result (NoneIsReserved (held_names all_defs.now)
            (IsRequested
            (action_fragment_declarations Conditional positional_reference Conditional
            positional_reference self))) }
        ensures fault { IfErr result (λ error. IsUnresolvableBag (held_names all_defs.now)
            (action_fragment_declarations Conditional positional_reference Conditional
            positional_reference self) (fault_of error)) }
    {
        self.qualify_within(None, all_defs)
    }
}
