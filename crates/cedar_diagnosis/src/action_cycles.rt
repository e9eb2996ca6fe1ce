//! Actions that are among their own ancestors.

ghost use Rattle.std.proofs.Common.{refl};
ghost use Rattle.std.specs.Prelude.{◌≡◌, [], IfOk, OnOk, map};
ghost use Rattle.cedar_ast.proofs.Uids.{entity_uid_ord-Equal};
ghost use Rattle.cedar_ast.specs.Words.{uid_of};
ghost use Rattle.cedar_diagnosis.specs.Adding.{Adds, SomeGives};
ghost use Rattle.cedar_diagnosis.specs.Finding.{LinksAction, LinksToParent};
ghost use Rattle.cedar_diagnosis.specs.Links.{link_told};
ghost use Rattle.cedar_diagnosis.specs.ReferenceKeys.{key_parent};
ghost use Rattle.cedar_diagnosis.specs.Ties.{tie_through, uid_told};
ghost use Rattle.cedar_name_resolution.specs.Words.{held_names};
ghost use Rattle.cedar_schema_semantics.specs.Words.{action_cycle, fault_of};

use crate::cycles::{Link, Links};
use crate::finding::FaultKind;
use crate::lent::Lent;
use crate::named_action::{named_action, parents_of};
use crate::parent_key::ParentKey;
use cedar_ast::{EntityUID, M};
use cedar_name_resolution::defs::AllDefs;
use cedar_schema_semantics::SchemaError;
use std::alloc::Global;

/// Actions that are among their own ancestors.
#[derive(Clone, Copy)]
pub(crate) struct ActionCycles<'a> {
    /// The names that are defined.
    pub(crate) defs: &'a AllDefs,
}

impl FaultKind for ActionCycles<'_> {
    type Key = EntityUID;

    ghost fault = { λ key. action_cycle (uid_of key) };

    fn error(_alloc: Global, key: EntityUID) -> M<SchemaError>
        ensures { IfOk result (λ error. fault_of error ≡ action_cycle (uid_of key)) }
    {
        Ok(SchemaError::CycleInActionHierarchy(key))
    }

    ghost ties = { tie_through _ uid_of entity_uid_ord-Equal action_cycle uid_told (λ _. refl) };
}

impl ActionCycles<'_> {
    /// Adds a link to the action that a parent names, if it names one.
    fn add(
        &self,
        alloc: Global,
        lower: &EntityUID,
        parent: &ParentKey,
        links: &mut Vec<Link<EntityUID>>,
    ) -> M<()>
        ensures { OnOk result (Adds (LinksToParent (held_names self.now.defs.now).actions
            (uid_of lower.now) (key_parent parent.now))
            (map (link_told (λ key. action_cycle (uid_of key))) links.old.items)
            (map (link_told (λ key. action_cycle (uid_of key))) links.new.items)) }
    {
        let from = lower.clone()?;
        match named_action(alloc, parent, self.defs)? {
            Some(to) => {
                links.push(Link { from, to })?;
                Ok(())
            }
            None => Ok(()),
        }
    }

    /// Adds links to the actions that some parents name.
    fn add_all(
        &self,
        alloc: Global,
        lower: &EntityUID,
        parents: &[ParentKey],
        links: &mut Vec<Link<EntityUID>>,
    ) -> M<()>
        ensures { OnOk result (Adds (SomeGives
            (LinksToParent (held_names self.now.defs.now).actions (uid_of lower.now))
            (map key_parent parents.now))
            (map (link_told (λ key. action_cycle (uid_of key))) links.old.items)
            (map (link_told (λ key. action_cycle (uid_of key))) links.new.items)) }
    {
        for parent in parents {
            self.add(alloc, lower, parent, links)?;
        }
        Ok(())
    }
}

impl Links for ActionCycles<'_> {
    ghost linked = { λ self it. LinksAction (held_names self.defs.now).actions it };

    fn copy(key: &EntityUID) -> M<EntityUID>
        ensures { IfOk result (λ copy. action_cycle (uid_of copy)
            ≡ action_cycle (uid_of key.now)) }
    {
        key.clone()
    }

    fn link(&self, alloc: Global, it: &Lent, links: &mut Vec<Link<EntityUID>>) -> M<()> {
        let Some(lower) = it.action_uid(alloc)? else {
            return Ok(());
        };
        let parents = parents_of(alloc, it)?;
        self.add_all(alloc, &lower, &parents, links)
    }
}
