//! Actions of a schema.

ghost use Rattle.cedar_schema_elements.specs.Ascending.{UidsAscend, UidsAscend-prop as one_order};

use crate::action_kind::{DefinedRequests, ValidatorActionKind};
use crate::sets::{copied_in_order, type_set, uid_set};
use crate::type_set::{RequestTypes, TypeSet};
use cedar_ast::{EntityType, EntityUID, Loc, M};
use cedar_types::Type;
use std::alloc::Global;
use std::collections::{BTreeSet, btree_set};
use std::rc::Rc;

/// An action of a schema: it is for some requests, or it is external.
///
/// Equality ignores the location.
#[derive(Debug, PartialEq, Eq)]
pub struct ValidatorActionId {
    // Behind a pointer, so that maps and tables of actions are short, and move no more than that.
    pub(crate) parts: Box<ActionParts>,
}

/// The parts of an action.
///
/// Equality ignores the location.
#[derive_where(Debug, PartialEq, Eq)]
pub(crate) struct ActionParts {
    pub(crate) name: EntityUID,
    pub(crate) kind: ValidatorActionKind,
    pub(crate) descendants: BTreeSet<EntityUID>,
    #[derive_where(skip(EqHashOrd))]
    pub(crate) loc: Option<Loc>,
    ghost in_order: { UidsAscend descendants.keys } by { one_order descendants.keys },
}

// Written out: proofs of what holds actions then see one call, and nothing of their parts.
impl Drop for ValidatorActionId {
    fn drop(self) {
        let ValidatorActionId { parts: _parts } = self;
    }
}

// Written out, as that of the action.
impl Drop for ActionParts {
    fn drop(self) {
        let ActionParts {
            name: _name,
            kind: _kind,
            descendants: _descendants,
            loc: _,
        } = self;
    }
}

impl ValidatorActionId {
    ghost use Rattle.std.specs.Prelude.{◌≡◌, ◌≢◌, ◌↔◌, map, IsTrue, IfOk, Some, Contains, AllPairs};
    ghost use Rattle.std.specs.List.Sorted.{IsStrictlySortedBy};
    ghost use Rattle.cedar_schema_elements.specs.Words.{HoldsOfAll, IsAction, IsFiniteIterable, SameActionKind, SameItems, action_loc, action_of, borrowed_context, context_of, defined_action, external_action, kind_context, kind_principals, kind_resources, name_cmp, name_type_loc, option_copied, option_map, set_names, ty_of, type_name, uid_loc, uid_of, uid_type_loc};
    ghost use Rattle.cedar_schema_elements.specs.ActionKind.{plain_kind};
    ghost use Rattle.cedar_schema_elements.specs.ValidatorActionId.{name_loc};

    /// An action of some kind. The descendants have to come to an end.
    fn with_kind<D: IntoIterator<Item = EntityUID>>(
        alloc: Global,
        name: EntityUID,
        descendants: D,
        kind: ValidatorActionKind,
        loc: Option<Loc>,
    ) -> M<Self>
        requires { IsFiniteIterable D.into_iter_gives D.IntoIter.can_next
            D.IntoIter.remaining descendants }
        ensures action { IfOk result (IsAction name loc) }
        ensures kind { IfOk result (λ action. (action_of action).kind ≡ plain_kind kind) }
        ensures borrowed { IfOk result (λ action. context_of action ≡ borrowed_context kind) }
        ensures descendants { IfOk result (λ action.
            HoldsOfAll D.into_iter_gives D.IntoIter.next_gives descendants
            (λ xs. SameItems (action_of action).descendants (map uid_of xs))) }
    {
        let parts = ActionParts {
            name,
            kind,
            descendants: uid_set(alloc, descendants)?,
            loc,
        };
        Ok(ValidatorActionId {
            parts: Box::new(alloc, parts)?,
        })
    }

    /// An action that is for the requests of these principals and resources, whose context is of
    /// this type. The principals, the resources and the descendants have to come to an end. Out
    /// of memory is the only refusal.
    pub fn new_defined<
        P: IntoIterator<Item = EntityType>,
        R: IntoIterator<Item = EntityType> + Drop,
        D: IntoIterator<Item = EntityUID> + Drop,
    >(
        alloc: Global,
        name: EntityUID,
        principals: P,
        resources: R,
        descendants: D,
        context: Type,
        loc: Option<Loc>,
    ) -> M<Self>
        requires principals { IsFiniteIterable P.into_iter_gives P.IntoIter.can_next
            P.IntoIter.remaining principals }
        requires resources { IsFiniteIterable R.into_iter_gives R.IntoIter.can_next
            R.IntoIter.remaining resources }
        requires descendants { IsFiniteIterable D.into_iter_gives D.IntoIter.can_next
            D.IntoIter.remaining descendants }
        ensures action { IfOk result (IsAction name loc) }
        ensures principals { IfOk result (λ action.
            HoldsOfAll P.into_iter_gives P.IntoIter.next_gives principals
            (λ xs. SameItems (kind_principals (action_of action).kind) (map type_name xs))) }
        ensures resources { IfOk result (λ action.
            HoldsOfAll R.into_iter_gives R.IntoIter.next_gives resources
            (λ xs. SameItems (kind_resources (action_of action).kind) (map type_name xs))) }
        ensures context { IfOk result (λ action.
            kind_context (action_of action).kind ≡ Some (ty_of context)) }
        ensures borrowed { IfOk result (λ action. context_of action ≡ Some context) }
        ensures descendants { IfOk result (λ action.
            HoldsOfAll D.into_iter_gives D.IntoIter.next_gives descendants
            (λ xs. SameItems (action_of action).descendants (map uid_of xs))) }
    {
        let principals = type_set(alloc, principals)?;
        let resources = type_set(alloc, resources)?;
        Self::for_requests(
            alloc,
            name,
            principals,
            resources,
            descendants,
            context,
            loc,
        )
    }

    /// An action that is for the requests of each of these principals with each of these resources,
    /// whose context is of this type. The descendants have to come to an end. Out of memory is the
    /// only refusal.
    pub fn for_requests<D: IntoIterator<Item = EntityUID> + Drop>(
        alloc: Global,
        name: EntityUID,
        principals: TypeSet,
        resources: TypeSet,
        descendants: D,
        context: Type,
        loc: Option<Loc>,
    ) -> M<Self>
        requires { IsFiniteIterable D.into_iter_gives D.IntoIter.can_next
            D.IntoIter.remaining descendants }
        ensures action { IfOk result (IsAction name loc) }
        ensures kind { IfOk result (λ action. (action_of action).kind
            ≡ defined_action (set_names principals) (set_names resources) (ty_of context)) }
        ensures borrowed { IfOk result (λ action. context_of action ≡ Some context) }
        ensures descendants { IfOk result (λ action.
            HoldsOfAll D.into_iter_gives D.IntoIter.next_gives descendants
            (λ xs. SameItems (action_of action).descendants (map uid_of xs))) }
    {
        let requests = DefinedRequests {
            action: name.clone()?,
            principals,
            resources,
            context,
        };
        let kind = ValidatorActionKind::Defined {
            requests: Rc::new(alloc, requests)?,
        };
        Self::with_kind(alloc, name, descendants, kind, loc)
    }

    /// An external action, which is declared elsewhere. The descendants have to come to an end.
    /// Out of memory is the only refusal.
    pub fn new_external<D: IntoIterator<Item = EntityUID>>(
        alloc: Global,
        name: EntityUID,
        descendants: D,
        loc: Option<Loc>,
    ) -> M<Self>
        requires { IsFiniteIterable D.into_iter_gives D.IntoIter.can_next
            D.IntoIter.remaining descendants }
        ensures action { IfOk result (IsAction name loc) }
        ensures kind { IfOk result (λ action. (action_of action).kind ≡ external_action) }
        ensures descendants { IfOk result (λ action.
            HoldsOfAll D.into_iter_gives D.IntoIter.next_gives descendants
            (λ xs. SameItems (action_of action).descendants (map uid_of xs))) }
    {
        Self::with_kind(alloc, name, descendants, ValidatorActionKind::External, loc)
    }

    /// The action's uid.
    pub fn name(&self) -> &EntityUID
        ensures uid { uid_of result.now ≡ (action_of self.now).uid }
        ensures loc { uid_loc result.now ≡ name_loc self.now }
        ensures type_loc { uid_type_loc result.now ≡ name_type_loc self.now }
    {
        &self.parts.name
    }

    /// Where the action was declared, if that is known.
    pub fn loc(&self) -> Option<Loc>
        ensures { result ≡ action_loc self.now }
    {
        self.parts.loc
    }

    /// The uids of the descendants of the action in the hierarchy, each once.
    pub fn descendants(&self) -> btree_set::Iter<'_, EntityUID>
        ensures uids { map uid_of result ≡ (action_of self.now).descendants }
        ensures once { AllPairs (λ a b. a ≢ b) (action_of self.now).descendants }
    {
        self.parts.descendants.iter()
    }

    /// Whether the action is declared elsewhere.
    pub fn is_external(&self) -> bool
        ensures { IsTrue result ↔ ((action_of self.now).kind ≡ external_action) }
    {
        matches!(self.parts.kind, ValidatorActionKind::External)
    }

    /// The type of the context of the action's requests. External actions have none.
    pub fn context(&self) -> Option<&Type>
        ensures ty { option_map ty_of (option_copied result)
            ≡ kind_context (action_of self.now).kind }
        ensures borrowed { option_copied result ≡ context_of self.now }
    {
        match &self.parts.kind {
            ValidatorActionKind::Defined { requests } => Some(&requests.context),
            ValidatorActionKind::External => None,
        }
    }

    /// The type of the context of the action's requests. External actions have none.
    pub fn context_type(&self) -> Option<&Type>
        ensures ty { option_map ty_of (option_copied result)
            ≡ kind_context (action_of self.now).kind }
        ensures borrowed { option_copied result ≡ context_of self.now }
    {
        self.context()
    }

    /// The types of the principals of the action's requests, in the order of their names, each
    /// once. External actions have none.
    pub fn principals(&self) -> RequestTypes<'_>
        ensures names { map type_name result ≡ kind_principals (action_of self.now).kind }
        ensures once { AllPairs (λ a b. a ≢ b) (kind_principals (action_of self.now).kind) }
        ensures in_order { IsStrictlySortedBy name_cmp (kind_principals (action_of self.now).kind) }
    {
        match &self.parts.kind {
            ValidatorActionKind::Defined { requests } => requests.principals.iter(),
            ValidatorActionKind::External => RequestTypes::none(),
        }
    }

    /// The types of the resources of the action's requests, in the order of their names, each once.
    /// External actions have none.
    pub fn resources(&self) -> RequestTypes<'_>
        ensures names { map type_name result ≡ kind_resources (action_of self.now).kind }
        ensures once { AllPairs (λ a b. a ≢ b) (kind_resources (action_of self.now).kind) }
        ensures in_order { IsStrictlySortedBy name_cmp (kind_resources (action_of self.now).kind) }
    {
        match &self.parts.kind {
            ValidatorActionKind::Defined { requests } => requests.resources.iter(),
            ValidatorActionKind::External => RequestTypes::none(),
        }
    }

    /// The types of the principals of the action's requests, in the order of their names, each
    /// once. External actions have none.
    pub fn applies_to_principals(&self) -> RequestTypes<'_>
        ensures names { map type_name result ≡ kind_principals (action_of self.now).kind }
        ensures once { AllPairs (λ a b. a ≢ b) (kind_principals (action_of self.now).kind) }
        ensures in_order { IsStrictlySortedBy name_cmp (kind_principals (action_of self.now).kind) }
    {
        self.principals()
    }

    /// The types of the resources of the action's requests, in the order of their names, each once.
    /// External actions have none.
    pub fn applies_to_resources(&self) -> RequestTypes<'_>
        ensures names { map type_name result ≡ kind_resources (action_of self.now).kind }
        ensures once { AllPairs (λ a b. a ≢ b) (kind_resources (action_of self.now).kind) }
        ensures in_order { IsStrictlySortedBy name_cmp (kind_resources (action_of self.now).kind) }
    {
        self.resources()
    }

    /// Whether the entity type is a type of principals of the action's requests.
    pub fn is_applicable_principal_type(&self, ty: &EntityType) -> bool
        ensures { IsTrue result ↔ Contains (kind_principals (action_of self.now).kind)
            (type_name ty.now) }
    {
        match &self.parts.kind {
            ValidatorActionKind::Defined { requests } => requests.principals.contains(ty),
            ValidatorActionKind::External => false,
        }
    }

    /// Whether the entity type is a type of resources of the action's requests.
    pub fn is_applicable_resource_type(&self, ty: &EntityType) -> bool
        ensures { IsTrue result ↔ Contains (kind_resources (action_of self.now).kind)
            (type_name ty.now) }
    {
        match &self.parts.kind {
            ValidatorActionKind::Defined { requests } => requests.resources.contains(ty),
            ValidatorActionKind::External => false,
        }
    }

    /// An equal action, located alike, its uid too. Out of memory is the only refusal.
    pub fn clone(&self) -> M<Self>
        ensures uid { IfOk result (λ copy. (action_of copy).uid ≡ (action_of self.now).uid) }
        ensures name_loc { IfOk result (λ copy. name_loc copy ≡ name_loc self.now) }
        ensures name_type_loc { IfOk result (λ copy. name_type_loc copy ≡ name_type_loc self.now) }
        ensures kind { IfOk result (λ copy.
            SameActionKind (action_of copy).kind (action_of self.now).kind) }
        ensures requests { IfOk result (λ copy.
            (action_of copy).kind ≡ (action_of self.now).kind) }
        ensures descendants { IfOk result (λ copy.
            SameItems (action_of copy).descendants (action_of self.now).descendants) }
        ensures loc { IfOk result (λ copy. action_loc copy ≡ action_loc self.now) }
    {
        let parts = ActionParts {
            name: self.parts.name.clone()?,
            kind: self.parts.kind.clone()?,
            descendants: copied_in_order(&self.parts.descendants, EntityUID::clone)?,
            loc: self.parts.loc,
        };
        Ok(ValidatorActionId {
            parts: Box::new(*Box::allocator(&self.parts), parts)?,
        })
    }
}
