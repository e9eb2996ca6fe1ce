//! Actions as nodes of the hierarchy: each has an edge to each of its descendants.

ghost use Rattle.std.specs.Prelude.{◌≡◌, ◌||◌, OnErr, OnOk};
ghost use Rattle.std.specs.List.{list_any};
ghost use Rattle.cedar_schema_elements.specs.Words.{EntityUID, PlainUid, action_of, duplicate_action, external_action, uid_cmp, uid_loc, uid_of, uid_type_loc};
ghost use Rattle.std.proofs.Common.{refl, ◌∙◌, ap, sym};
ghost use Rattle.cedar_ast.proofs.Lists.{Contains-preimage, list_any-Contains};
ghost use Rattle.cedar_ast.proofs.PlainNames.{uid_cmp-total};
ghost use Rattle.cedar_ast.proofs.Uids.{entity_uid_eq-same, entity_uid_ord-Equal, entity_uid_ord-uid_cmp, entity_uid_searches-respect_eq};
ghost use Rattle.cedar_schema_elements.specs.ActionKind.{plain_kind};
ghost use Rattle.cedar_schema_elements.specs.ValidatorActionId.{IsLocatedAsKey, parts_of};

use crate::action_id::ValidatorActionId;
use crate::schema_node::SchemaNode;
use crate::sets::joined;
use cedar_ast::{EntityUID, M};
use cedar_graph::TCNode;
use cedar_schema_semantics::SchemaError;
use std::collections::btree_set;

impl TCNode<EntityUID> for ValidatorActionId {
    ghost has_edge = { λ node key.
        list_any (⟦<EntityUID as PartialEq>⟧.eq key) (parts_of node).descendants.keys };

    ghost own_key = { λ node. (parts_of node).name };

    ghost is_alike = { λ a b. ((parts_of a).name ≡ (parts_of b).name)
        × ((parts_of a).kind ≡ (parts_of b).kind) × ((parts_of a).loc ≡ (parts_of b).loc) };

    // Shared, so that each further copy costs a count.
    fn copy_key(key: &EntityUID) -> M<EntityUID> {
        key.clone()?.into_shared()
    }

    fn get_key(&self) -> &EntityUID {
        &self.parts.name
    }

    fn add_edge_to(&mut self, key: EntityUID) -> M<()> {
        self.parts.descendants.insert(key)?;
        Ok(())
    }

    fn add_edges_to(&mut self, keys: Vec<EntityUID>) -> M<()>
        ensures added { OnOk result ((other : EntityUID)
            → list_any (⟦<EntityUID as PartialEq>⟧.eq other)
            (parts_of self.new).descendants.keys
            ≡ (list_any (⟦<EntityUID as PartialEq>⟧.eq other) keys.items
            || list_any (⟦<EntityUID as PartialEq>⟧.eq other)
            (parts_of self.old).descendants.keys)) }
        ensures err { OnErr result ((other : EntityUID)
            → list_any (⟦<EntityUID as PartialEq>⟧.eq other)
            (parts_of self.new).descendants.keys
            ≡ list_any (⟦<EntityUID as PartialEq>⟧.eq other)
            (parts_of self.old).descendants.keys) }
        ensures alike { ((parts_of self.old).name ≡ (parts_of self.new).name)
            × ((parts_of self.old).kind ≡ (parts_of self.new).kind)
            × ((parts_of self.old).loc ≡ (parts_of self.new).loc) }
    {
        let all = joined(&self.parts.descendants, keys, EntityUID::clone)?;
        self.parts.descendants = all;
        Ok(())
    }

    fn out_edges(&self) -> btree_set::Iter<'_, EntityUID> {
        self.parts.descendants.iter()
    }

    fn has_edge_to(&self, key: &EntityUID) -> bool {
        self.parts.descendants.contains(key)
    }

    fn reset_edges(&mut self) {}

    ghost edges_respect_eq = { λ node a b same.
        entity_uid_searches-respect_eq (parts_of node).descendants.keys a b same };

    ghost alike_itself = { λ node. (refl, refl, refl) };

    ghost alike_onwards = { λ a b c first second.
        (first.0 ∙ second.0, first.1 ∙ second.1, first.2 ∙ second.2) };
}

impl SchemaNode<EntityUID> for ValidatorActionId {
    ghost Name = { PlainUid };

    ghost key_name = { uid_of };

    ghost name_order = { uid_cmp };

    ghost node_name = { λ node. (action_of node).uid };

    ghost IsExternal = { λ node. (action_of node).kind ≡ external_action };

    ghost IsLocatedAs = { λ key node. IsLocatedAsKey (key, node) };

    ghost below = { λ node. (action_of node).descendants };

    ghost duplicate_fault = { duplicate_action };

    fn name(&self) -> &EntityUID {
        self.name()
    }

    fn copy_name(name: &EntityUID) -> M<EntityUID> {
        name.clone()
    }

    fn is_external(&self) -> bool {
        self.is_external()
    }

    fn descendants(&self) -> btree_set::Iter<'_, EntityUID> {
        self.descendants()
    }

    fn duplicate(name: EntityUID) -> SchemaError {
        SchemaError::DuplicateAction(name)
    }

    ghost same_key = { entity_uid_eq-same };

    ghost tied_key = { entity_uid_ord-Equal };

    ghost order_total = { uid_cmp-total };

    ghost key_order = { entity_uid_ord-uid_cmp };

    ghost below_key = { λ node name among.
        let key = Contains-preimage uid_of (parts_of node).descendants.keys name among in
        (key.0, key.2) };

    ghost edge_below = { λ node key. list_any-Contains uid_of (uid_of key) _
        (λ each. (
          λ equal. sym ((entity_uid_eq-same key each).0 equal),
          λ same.
              (entity_uid_eq-same key each).1 (sym same),
        ))
        (parts_of node).descendants.keys };

    ghost alike_named = { λ a b alike. ap uid_of alike.0 };

    ghost alike_external = { λ a b alike is. ap plain_kind (sym alike.1) ∙ is };

    ghost alike_located = { λ key a b alike located.
        record {
          uid = located.uid ∙ ap uid_loc alike.0;
          ty = located.ty
              ∙ ap uid_type_loc alike.0;
        } };
}
