//! What the defined names hold, and how names are added to them.

ghost use Rattle.std.specs.Prelude.{◌≡◌, ◌↔◌, IsTrue, IfOk, OnOk, OnErr, map, Contains, [], ◌∷◌};
ghost use Rattle.cedar_name_resolution.specs.Words.{HasAlso, StandsWhere, held_names, name_of, uid_of};

use crate::defs::all_defs::AllDefs;
use cedar_ast::{EntityUID, InternalName, M};
use std::collections::BTreeSet;

/// Adds a name to some, or leaves them as they are and runs out of memory.
fn add_name(names: &mut BTreeSet<InternalName>, name: InternalName) -> M<()>
    ensures added { OnOk result (HasAlso (map name_of names.new.keys) (map name_of names.old.keys)
        (name_of name ∷ [])) }
    ensures refused { OnErr result (names.new.keys ≡ names.old.keys) }
{
    let _is_new = names.insert(name)?;
    Ok(())
}

impl AllDefs {
    /// Whether an entity type of that name is defined.
    pub fn is_defined_as_entity(&self, name: &InternalName) -> bool
        ensures { IsTrue result ↔ Contains (held_names self.now).entities (name_of name.now) }
    {
        self.entity_defs.contains(name)
    }

    /// Whether a common type of that name is defined.
    pub fn is_defined_as_common(&self, name: &InternalName) -> bool
        ensures { IsTrue result ↔ Contains (held_names self.now).common (name_of name.now) }
    {
        self.common_defs.contains(name)
    }

    /// Whether an action of that uid is defined.
    pub fn is_defined_as_action(&self, uid: &EntityUID) -> bool
        ensures { IsTrue result ↔ Contains (held_names self.now).actions (uid_of uid.now) }
    {
        self.action_defs.contains(uid)
    }

    /// The name of an entity type as it was declared, if one of that name is defined.
    pub(crate) fn declared_entity(&self, name: &InternalName) -> Option<&InternalName>
        ensures { StandsWhere (λ found. name_of found.now) (name_of name.now)
            (Contains (held_names self.now).entities (name_of name.now)) result }
    {
        self.entity_defs.get(name)
    }

    /// The name of a common type as it was declared, if one of that name is defined.
    pub(crate) fn declared_common(&self, name: &InternalName) -> Option<&InternalName>
        ensures { StandsWhere (λ found. name_of found.now) (name_of name.now)
            (Contains (held_names self.now).common (name_of name.now)) result }
    {
        self.common_defs.get(name)
    }

    /// The uid of an action as it was declared, if one of that uid is defined.
    pub fn declared_action(&self, uid: &EntityUID) -> Option<&EntityUID>
        ensures { StandsWhere (λ found. uid_of found.now) (uid_of uid.now)
            (Contains (held_names self.now).actions (uid_of uid.now)) result }
    {
        self.action_defs.get(uid)
    }

    /// Adds the name to those of entity types. Out of memory is the only refusal, after which all
    /// names are as before.
    pub fn mark_as_defined_as_entity_type(&mut self, name: InternalName) -> M<()>
        ensures added { OnOk result (HasAlso (held_names self.new).entities
            (held_names self.old).entities (name_of name ∷ [])) }
        ensures common_stay { (held_names self.new).common ≡ (held_names self.old).common }
        ensures actions_stay { (held_names self.new).actions ≡ (held_names self.old).actions }
        ensures refused { OnErr result (held_names self.new ≡ held_names self.old) }
    {
        add_name(&mut self.entity_defs, name)
    }

    /// Adds the name to those of common types. Out of memory is the only refusal, after which all
    /// names are as before.
    pub fn mark_as_defined_as_common_type(&mut self, name: InternalName) -> M<()>
        ensures added { OnOk result (HasAlso (held_names self.new).common
            (held_names self.old).common (name_of name ∷ [])) }
        ensures entities_stay { (held_names self.new).entities ≡ (held_names self.old).entities }
        ensures actions_stay { (held_names self.new).actions ≡ (held_names self.old).actions }
        ensures refused { OnErr result (held_names self.new ≡ held_names self.old) }
    {
        add_name(&mut self.common_defs, name)
    }
}

impl AllDefs {
    /// The same names, and among those of entity types also the type of each action. Out of
    /// memory is the only refusal.
    pub fn with_action_types(self) -> M<Self>
        ensures entities { IfOk result (λ defs.
            HasAlso (held_names defs).entities (held_names self).entities
            (map (λ uid. uid.ty) (held_names self).actions)) }
        ensures common_stay { IfOk result (λ defs.
            (held_names defs).common ≡ (held_names self).common) }
        ensures actions_stay { IfOk result (λ defs.
            (held_names defs).actions ≡ (held_names self).actions) }
    {
        let AllDefs {
            mut entity_defs,
            common_defs,
            action_defs,
            alloc,
        } = self;
        for uid in &action_defs {
            let name = uid.entity_type().clone()?.into_name().into_internal();
            add_name(&mut entity_defs, name)?;
        }
        Ok(AllDefs {
            entity_defs,
            common_defs,
            action_defs,
            alloc,
        })
    }
}
