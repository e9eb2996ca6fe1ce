//! What the steps that actions and entity types have in common ask of an action.

ghost use Rattle.cedar_builder.specs.Words.{ActionReference, AreSoundRequests, IsElaboratedAction, IsParentActionFault, IsRequestsFault, NamesAction, PlainUid, Requests, action_of, fragment_parent, is_action_definition, names_in, uid_of, written_action_body, written_namespace};

use crate::action_requests::{ActionScope, elaborated_action};
use crate::declared_node::DeclaredNode;
use crate::parents::HasParents;
use cedar_ast::{EntityUID, M};
use cedar_fragments::namespace::{ActionFragment, ActionParent};
use cedar_name_resolution::Written;
use cedar_name_resolution::defs::{AllDefs, WrittenName};
use cedar_schema_elements::ValidatorActionId;
use cedar_schema_semantics::SchemaError;
use std::alloc::Global;

impl<N: WrittenName> HasParents<EntityUID> for Written<ActionFragment<N, N>> {
    type Parent = ActionParent<N>;

    ghost Name = { PlainUid };

    ghost key_name = { uid_of };

    ghost Reference = { ActionReference };

    ghost reference_of = { λ it. fragment_parent N (N.refer (written_namespace it)) };

    ghost parents_of = { λ it. (written_action_body N N.refer it).parents };

    ghost Resolves = { λ names. NamesAction names.actions };

    ghost Refuses = { IsParentActionFault };

    fn parents(&self) -> &[ActionParent<N>] {
        self.declared.parents.as_slice()
    }

    fn parent_key(
        &self,
        _alloc: Global,
        parent: &ActionParent<N>,
        defs: &AllDefs,
    ) -> Result<EntityUID, SchemaError> {
        parent.named_within(self.namespace(), defs)
    }

    fn copy_key(key: &EntityUID) -> M<EntityUID> {
        key.clone()
    }
}

impl<'a, 't, N: WrittenName + Drop> DeclaredNode<
    EntityUID,
    ActionScope<'a, 't>,
    Written<ActionFragment<N, N>>,
> for ValidatorActionId {
    ghost Body = { Requests };

    ghost body_of = { λ it. (written_action_body N N.refer it).applies_to };

    ghost is_definition = { is_action_definition };

    ghost Gives = { λ scope body node.
        IsElaboratedAction scope.types.now (action_of node).uid body node };

    ghost IsSound = { λ scope. AreSoundRequests scope.types.now (names_in scope.entity_types.now) };

    ghost IsBodyFault = { λ scope key.
        IsRequestsFault scope.types.now (names_in scope.entity_types.now) (uid_of key) };

    fn declared(
        alloc: Global,
        name: EntityUID,
        fragment: Written<ActionFragment<N, N>>,
        scope: &ActionScope<'a, 't>,
    ) -> Result<ValidatorActionId, SchemaError> {
        elaborated_action(alloc, name, &fragment, scope)
    }
}
