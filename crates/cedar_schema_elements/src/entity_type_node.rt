//! Entity types as nodes of the hierarchy: each has an edge to each of its descendants.

ghost use Rattle.std.specs.Prelude.{◌≡◌, ◌||◌, OnErr, OnOk};
ghost use Rattle.std.specs.List.{list_any};
ghost use Rattle.cedar_schema_elements.specs.Words.{EntityType, IsLocatedAsKey, PlainName, descendant_names, duplicate_entity_type, entity_type_of, external_kind, name_cmp, plain_kind, type_loc, type_name};
ghost use Rattle.std.proofs.Common.{refl, ◌∙◌, ap, sym};
ghost use Rattle.cedar_ast.proofs.Names.{entity_type_eq-same, entity_type_ord-Equal, entity_type_ord-name_cmp, entity_type_searches-respect_eq};
ghost use Rattle.cedar_ast.proofs.PlainNames.{name_cmp-total};
ghost use Rattle.cedar_types.proofs.MemberLemmas.{Contains-named, list_any-names};

use crate::entity_type::ValidatorEntityType;
use crate::schema_node::SchemaNode;
use crate::sets::joined;
use cedar_ast::{EntityType, M};
use cedar_graph::TCNode;
use cedar_schema_semantics::SchemaError;
use std::collections::btree_set;

impl TCNode<EntityType> for ValidatorEntityType {
    ghost has_edge = { λ node key.
        list_any (⟦<EntityType as PartialEq>⟧.eq key) node.descendants.keys };

    ghost own_key = { λ node. node.name };

    ghost is_alike = { λ a b. (a.name ≡ b.name) × (a.kind ≡ b.kind) × (a.loc ≡ b.loc) };

    // Shared, so that each further copy costs a count.
    fn copy_key(key: &EntityType) -> M<EntityType> {
        key.clone()?.into_shared()
    }

    fn get_key(&self) -> &EntityType {
        &self.name
    }

    fn add_edge_to(&mut self, key: EntityType) -> M<()> {
        self.descendants.insert(key)?;
        Ok(())
    }

    fn add_edges_to(&mut self, keys: Vec<EntityType>) -> M<()>
        ensures added { OnOk result ((other : EntityType)
            → list_any (⟦<EntityType as PartialEq>⟧.eq other) self.new.descendants.keys
            ≡ (list_any (⟦<EntityType as PartialEq>⟧.eq other) keys.items
            || list_any (⟦<EntityType as PartialEq>⟧.eq other) self.old.descendants.keys)) }
        ensures err { OnErr result ((other : EntityType)
            → list_any (⟦<EntityType as PartialEq>⟧.eq other) self.new.descendants.keys
            ≡ list_any (⟦<EntityType as PartialEq>⟧.eq other) self.old.descendants.keys) }
        ensures alike { (self.old.name ≡ self.new.name) × (self.old.kind ≡ self.new.kind)
            × (self.old.loc ≡ self.new.loc) }
    {
        self.descendants = joined(&self.descendants, keys, EntityType::clone)?;
        Ok(())
    }

    fn out_edges(&self) -> btree_set::Iter<'_, EntityType> {
        self.descendants.iter()
    }

    fn has_edge_to(&self, key: &EntityType) -> bool {
        self.descendants.contains(key)
    }

    fn reset_edges(&mut self) {}

    ghost edges_respect_eq = { λ node a b same.
        entity_type_searches-respect_eq node.descendants.keys a b same };

    ghost alike_itself = { λ node. (refl, refl, refl) };

    ghost alike_onwards = { λ a b c first second.
        (first.0 ∙ second.0, first.1 ∙ second.1, first.2 ∙ second.2) };
}

impl SchemaNode<EntityType> for ValidatorEntityType {
    ghost Name = { PlainName };

    ghost key_name = { type_name };

    ghost name_order = { name_cmp };

    ghost node_name = { λ node. (entity_type_of node).name };

    ghost IsExternal = { λ node. (entity_type_of node).kind ≡ external_kind };

    ghost IsLocatedAs = { λ key node. IsLocatedAsKey (key, node) };

    ghost below = { descendant_names };

    ghost duplicate_fault = { duplicate_entity_type };

    fn name(&self) -> &EntityType {
        self.name()
    }

    fn copy_name(name: &EntityType) -> M<EntityType> {
        name.clone()
    }

    fn is_external(&self) -> bool {
        self.is_external()
    }

    fn descendants(&self) -> btree_set::Iter<'_, EntityType> {
        self.descendants.iter()
    }

    fn duplicate(name: EntityType) -> SchemaError {
        SchemaError::DuplicateEntityType(name)
    }

    ghost same_key = { entity_type_eq-same };

    ghost tied_key = { entity_type_ord-Equal };

    ghost order_total = { name_cmp-total };

    ghost key_order = { entity_type_ord-name_cmp };

    ghost below_key = { λ node name among.
        let key = Contains-named node.descendants.keys name among in (key.0, key.2) };

    ghost edge_below = { λ node key. list_any-names key node.descendants.keys };

    ghost alike_named = { λ a b alike. ap type_name alike.0 };

    ghost alike_external = { λ a b alike is. ap plain_kind (sym alike.1) ∙ is };

    ghost alike_located = { λ key a b alike located. located ∙ ap type_loc alike.0 };
}
