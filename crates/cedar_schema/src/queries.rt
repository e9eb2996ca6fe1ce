//! What a schema answers. The answers themselves are those of `cedar_queries`.

use crate::iterators::{ActionIds, Actions, EntityTypeNames, EntityTypes};
use crate::schema::ValidatorSchema;
use cedar_ast::{Entities, EntityType, EntityUID, Extensions, M, ValidationMode};
use cedar_queries::{
    ActionGroups, ActionsFor, Ancestors, ApplicableTypes, CompleteError, RequestEnvs, TypeIterator,
    UnresolvedDeclarations,
};
use cedar_schema_elements::{
    RequestTypes, UnlinkedRequestEnv, ValidatorActionId, ValidatorEntityType, action_entities,
};
use cedar_types::Type;
use std::alloc::Global;

impl ValidatorSchema {
    ghost use Rattle.std.specs.Prelude.{◌≡◌, ◌≢◌, ◌↔◌, ◌++◌, ◌∷◌, [], All, AllPairs, Any, Contains, IfErr, IfOk, IfSome, IsSome, IsTrue, OnOk, map};
    ghost use Rattle.std.specs.List.{flat_map};
    ghost use Rattle.std.specs.List.Sorted.{IsPermutation, IsStrictlySortedBy};
    ghost use Rattle.std.specs.Option.{option_copied, option_map};
    ghost use Rattle.cedar_schema.specs.Words.{AreActionEntities, AreEnvironmentsOf, IsIncomplete, IsKnownType, MayBeIn, action_at, action_descendants, action_entries, action_of, action_of_uid, actions_for, all_principals, all_resources, context_at, descendants_of, entities_of, entity_type_named, entity_type_of, environments_left, groups, kind_principals, kind_resources, leaves_of, name_cmp, owned_environment, pending_types, plain_action_entity, schema_entries, schema_leaves, schema_of, schema_with, ty_of, type_loc, type_name, types_above, uid_cmp, uid_loc, uid_of, uid_type_loc, unresolved, unresolved_left};
    ghost use Rattle.cedar_schema_elements.specs.ValidatorActionId as action;
    ghost use Rattle.cedar_schema_elements.specs.ValidatorEntityType as types;

    /// The entity type of this name, if the schema declares one.
    pub fn get_entity_type(&self, name: &EntityType) -> Option<&ValidatorEntityType>
        ensures { option_copied result ≡ entity_type_named self.now (type_name name.now) }
    {
        self.content().tables.entity_types.get(name)
    }

    /// The entity types, in the order of their names, one for each.
    pub fn entity_types(&self) -> EntityTypes<'_>
        ensures types { result ≡ map (λ entry. entry.1) (schema_entries self.now) }
        ensures in_order { IsStrictlySortedBy name_cmp
            (map (λ it. (entity_type_of it).name) result) }
    {
        self.content().tables.entity_types.values()
    }

    /// The names of the entity types, in order, each once.
    pub fn entity_type_names(&self) -> EntityTypeNames<'_>
        ensures names { result ≡ map (λ entry. entry.0) (schema_entries self.now) }
        ensures located { map type_loc result
            ≡ map (λ entry. types.name_loc entry.1) (schema_entries self.now) }
        ensures in_order { IsStrictlySortedBy name_cmp (map type_name result) }
    {
        self.content().tables.entity_types.keys()
    }

    /// The action of this uid, if the schema declares one.
    pub fn get_action_id(&self, uid: &EntityUID) -> Option<&ValidatorActionId>
        ensures { option_copied result ≡ action_of_uid self.now (uid_of uid.now) }
    {
        self.content().tables.actions.get(uid)
    }

    /// The actions, external ones too, in the order of their uids, one for each.
    pub fn action_ids(&self) -> ActionIds<'_>
        ensures actions { result ≡ map (λ entry. entry.1) (action_entries self.now) }
        ensures in_order { IsStrictlySortedBy uid_cmp (map (λ it. (action_of it).uid) result) }
    {
        self.content().tables.actions.values()
    }

    /// The uids of the actions, external ones too, in order, each once.
    pub fn actions(&self) -> Actions<'_>
        ensures uids { result ≡ map (λ entry. entry.0) (action_entries self.now) }
        ensures located { map uid_loc result
            ≡ map (λ entry. action.name_loc entry.1) (action_entries self.now) }
        ensures types_located { map uid_type_loc result
            ≡ map (λ entry. action.name_type_loc entry.1) (action_entries self.now) }
        ensures in_order { IsStrictlySortedBy uid_cmp (map uid_of result) }
    {
        self.content().tables.actions.keys()
    }

    /// The environments of the requests that the actions are for: for each action that is defined,
    /// each of its principals with each of its resources, and its context. Each stands there once.
    pub fn unlinked_envs_owned(&self) -> &[UnlinkedRequestEnv]
        ensures { AreEnvironmentsOf (schema_of self.now) (map owned_environment result.now) }
    {
        &self.content().environments
    }

    /// The environments of the requests that the actions are for, borrowed: the same in either
    /// mode, each once.
    pub fn unlinked_request_envs(&self, _mode: ValidationMode) -> RequestEnvs<'_>
        ensures { AreEnvironmentsOf (schema_of self.now) (environments_left result) }
    {
        RequestEnvs::new(self.unlinked_envs_owned())
    }

    /// The types of the principals of requests: of each action in turn each once. External actions
    /// have none.
    pub fn principals(&self) -> ApplicableTypes<'_>
        ensures { result ≡ all_principals (schema_of self.now).actions }
    {
        cedar_queries::principals(&self.content().tables.actions)
    }

    /// The types of the resources of requests: of each action in turn each once. External actions
    /// have none.
    pub fn resources(&self) -> ApplicableTypes<'_>
        ensures { result ≡ all_resources (schema_of self.now).actions }
    {
        cedar_queries::resources(&self.content().tables.actions)
    }

    /// The types of the principals of an action's requests, in the order of their names, each once;
    /// of an external action none. None where the schema has no action of this uid.
    pub fn principals_for_action(&self, uid: &EntityUID) -> Option<RequestTypes<'_>>
        ensures names { option_map (map type_name) result
            ≡ option_map (λ it. kind_principals it.kind)
            (action_at (uid_of uid.now) (schema_of self.now).actions) }
        ensures once { IfSome result (λ types. AllPairs (λ a b. a ≢ b) (map type_name types)) }
        ensures in_order { IfSome result (λ types.
            IsStrictlySortedBy name_cmp (map type_name types)) }
    {
        cedar_queries::principals_for_action(&self.content().tables.actions, uid)
    }

    /// The types of the resources of an action's requests, in the order of their names, each once;
    /// of an external action none. None where the schema has no action of this uid.
    pub fn resources_for_action(&self, uid: &EntityUID) -> Option<RequestTypes<'_>>
        ensures names { option_map (map type_name) result
            ≡ option_map (λ it. kind_resources it.kind)
            (action_at (uid_of uid.now) (schema_of self.now).actions) }
        ensures once { IfSome result (λ types. AllPairs (λ a b. a ≢ b) (map type_name types)) }
        ensures in_order { IfSome result (λ types.
            IsStrictlySortedBy name_cmp (map type_name types)) }
    {
        cedar_queries::resources_for_action(&self.content().tables.actions, uid)
    }

    /// The uids of the actions that are for requests of this principal with this resource, in
    /// order, each once.
    pub fn actions_for_principal_and_resource<'a>(
        &'a self,
        principal: &'a EntityType,
        resource: &'a EntityType,
    ) -> ActionsFor<'a>
        ensures uids { map uid_of result
            ≡ actions_for (type_name principal.now) (type_name resource.now)
            (schema_of self.now).actions }
        ensures in_order { IsStrictlySortedBy uid_cmp (map uid_of result) }
    {
        cedar_queries::actions_for_principal_and_resource(
            &self.content().tables.actions,
            principal,
            resource,
        )
    }

    /// The uids of the actions that have descendants, in order, each once.
    pub fn action_groups(&self) -> ActionGroups<'_>
        ensures uids { map uid_of result ≡ groups (schema_of self.now).actions }
        ensures in_order { IsStrictlySortedBy uid_cmp (map uid_of result) }
    {
        cedar_queries::action_groups(&self.content().tables.actions)
    }

    /// The type of the context of an action's requests. None where the schema has no action of this
    /// uid, or has it as external.
    pub fn context_type(&self, uid: &EntityUID) -> Option<&Type>
        ensures { option_map ty_of (option_copied result)
            ≡ context_at (uid_of uid.now) (schema_of self.now).actions }
    {
        cedar_queries::context_type(&self.content().tables.actions, uid)
    }

    /// Whether the schema has an entity type of this name, or the name is one of actions' types.
    pub fn is_known_entity_type(&self, name: &EntityType) -> bool
        ensures { IsTrue result ↔ IsKnownType (schema_of self.now).entity_types
            (type_name name.now) }
    {
        cedar_queries::is_known_entity_type(&self.content().tables.entity_types, name)
    }

    /// Whether the schema has an action of this uid.
    pub fn is_known_action_id(&self, uid: &EntityUID) -> bool
        ensures { IsTrue result ↔ Contains (map (λ it. it.0) (schema_of self.now).actions)
            (uid_of uid.now) }
    {
        cedar_queries::is_known_action_id(&self.content().tables.actions, uid)
    }

    /// The names of the entity types that have this one among their descendants, in order, each
    /// once; None where the schema has no entity type of this name.
    pub fn ancestors<'a>(&'a self, ty: &'a EntityType) -> Option<Ancestors<'a>>
        ensures known { IsSome result ↔ Contains
            (map (λ it. it.0) (schema_of self.now).entity_types) (type_name ty.now) }
        ensures names { IfSome result (λ above.
            map type_name above ≡ types_above (type_name ty.now)
            (schema_of self.now).entity_types) }
        ensures in_order { IfSome result (λ above.
            IsStrictlySortedBy name_cmp (map type_name above)) }
    {
        cedar_queries::ancestors(&self.content().tables.entity_types, ty)
    }

    /// The names of the descendants of an entity type, in some order, each once, and then its own,
    /// which stands there twice where it is a descendant of itself. Of an entity type that the
    /// schema hasn't just its own name. Out of memory is the only refusal.
    pub fn get_entity_types_in<'a>(
        &'a self,
        alloc: Global,
        ty: &'a EntityType,
    ) -> M<Vec<&'a EntityType>>
        ensures names { IfOk result (λ names. map (λ name. type_name name.now) names.items
            ≡ descendants_of (type_name ty.now) (schema_of self.now).entity_types
            ++ type_name ty.now ∷ []) }
        ensures once { IfOk result (λ _.
            AllPairs (λ a b. a ≢ b) (descendants_of (type_name ty.now)
            (schema_of self.now).entity_types)) }
    {
        cedar_queries::entity_types_in(alloc, &self.content().tables.entity_types, ty)
    }

    /// For each of some uids in turn the uids of the descendants of its action, in some order, and
    /// then the uid itself, repeats among them; None where one of them is that of no action of the
    /// schema. Out of memory is the only refusal.
    pub fn get_actions_in_set<'a>(
        &'a self,
        alloc: Global,
        uids: &'a [EntityUID],
    ) -> M<Option<Vec<&'a EntityUID>>>
        ensures known { IfOk result (λ answer. IsSome answer
            ↔ All (λ uid. Contains (map (λ it. it.0) (schema_of self.now).actions)
            (uid_of uid)) uids.now) }
        ensures uids { IfOk result (λ answer.
            IfSome answer (λ all. map (λ it. uid_of it.now) all.items
            ≡ flat_map (λ uid. action_descendants (uid_of uid) (schema_of self.now).actions
            ++ uid_of uid ∷ []) uids.now)) }
    {
        cedar_queries::actions_in_set(alloc, &self.content().tables.actions, uids)
    }

    /// Whether entities of some of the one types may be among or below those of some of the others:
    /// one of the first is one of the second, or a descendant of it, or the type of a descendant of
    /// an action of it.
    pub fn any_descendent_of(&self, lowers: &[EntityType], ancestors: &[EntityType]) -> bool
        ensures { IsTrue result ↔ Any (λ lower.
            Any (λ upper. MayBeIn (schema_of self.now).entity_types
            (schema_of self.now).actions (type_name lower)
            (type_name upper)) ancestors.now) lowers.now }
    {
        let content = self.content();
        cedar_queries::any_descendent_of(
            &content.tables.entity_types,
            &content.tables.actions,
            lowers,
            ancestors,
        )
    }

    /// What is declared to be elsewhere (RFC 116): the external entity types in order, and then the
    /// external actions in order, each as the schema has it.
    pub fn unresolved_declarations(&self) -> UnresolvedDeclarations<'_>
        ensures { unresolved_left result
            ≡ unresolved (schema_entries self.now) (action_entries self.now) }
    {
        cedar_queries::unresolved_declarations(
            &self.content().tables.entity_types,
            &self.content().tables.actions,
        )
    }

    /// Whether nothing is declared to be elsewhere.
    pub fn is_complete(&self) -> bool
        ensures { IsTrue result ↔ (unresolved (schema_entries self.now) (action_entries self.now)
            ≡ []) }
    {
        cedar_queries::is_complete(
            &self.content().tables.entity_types,
            &self.content().tables.actions,
        )
    }

    /// That nothing is declared to be elsewhere; else the error carries what is, in order, with the
    /// location of the first. Or out of memory.
    pub fn check_complete(&self, alloc: Global) -> Result<(), CompleteError>
        ensures complete { OnOk result
            (unresolved (schema_entries self.now) (action_entries self.now) ≡ []) }
        ensures incomplete { IfErr result
            (IsIncomplete (schema_entries self.now) (action_entries self.now)) }
    {
        cedar_queries::check_complete(
            alloc,
            &self.content().tables.entity_types,
            &self.content().tables.actions,
        )
    }

    /// The leaves of the types of attributes, tags and contexts: whatever stands there that is
    /// neither a record nor a set of elements of a type, as often as it stands there, in any
    /// order. Out of memory is the only refusal.
    pub fn leaf_types(&self, alloc: Global) -> M<TypeIterator<'_>>
        ensures { IfOk result (λ leaves. IsPermutation
            (schema_leaves (schema_of self.now).entity_types (schema_of self.now).actions)
            (leaves_of (pending_types leaves))) }
    {
        cedar_queries::leaf_types(
            alloc,
            &self.content().tables.entity_types,
            &self.content().tables.actions,
        )
    }

    /// The entities of the actions that the schema defines, by uid: without attributes and tags,
    /// each just below the actions that list it among their descendants, external ones too. Out
    /// of memory is the only refusal.
    pub fn action_entities(&self, alloc: Global, _extensions: &Extensions) -> M<Entities>
        ensures { IfOk result (λ entities. AreActionEntities
            (schema_with (schema_of self.now).entity_types (action_entries self.now)
            (map plain_action_entity (entities_of entities)))) }
    {
        action_entities(alloc, &self.content().tables.actions)
    }
}
