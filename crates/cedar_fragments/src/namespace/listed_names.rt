//! The names that fragments declare, put into lists.

ghost use Rattle.std.specs.Prelude.{OnOk, map};
ghost use Rattle.cedar_fragments.specs.Words.{HasAlso, HoldsAlso, common_type_names, definition_names, entity_type_names, fragment_names, listed_names, name_of, uid_of, uids_of_actions};

use crate::namespace::actions::ActionsDef;
use crate::namespace::common_types::CommonTypeDefs;
use crate::namespace::definition::ValidatorNamespaceDef;
use crate::namespace::entity_types::EntityTypesDef;
use crate::namespace::fragment::ValidatorSchemaFragment;
use cedar_ast::{EntityUID, InternalName, M};
use cedar_name_resolution::defs::{DeclaresNames, NameLists};

/// Adds the names of some common types.
fn add_common_types<N>(names: &mut Vec<InternalName>, defs: &CommonTypeDefs<N>) -> M<()>
    ensures { OnOk result (HasAlso (map name_of names.new.items) (map name_of names.old.items)
        (common_type_names N defs.now)) }
{
    for def in &defs.defs {
        names.push(def.name.clone()?)?;
    }
    Ok(())
}

/// Adds the names of some entity types.
fn add_entity_types<N>(names: &mut Vec<InternalName>, defs: &EntityTypesDef<N>) -> M<()>
    ensures { OnOk result (HasAlso (map name_of names.new.items) (map name_of names.old.items)
        (entity_type_names N defs.now)) }
{
    for def in &defs.defs {
        names.push(def.name.clone()?.into_name().into_internal())?;
    }
    Ok(())
}

/// Adds the uids of some actions.
fn add_actions<N, A>(uids: &mut Vec<EntityUID>, defs: &ActionsDef<N, A>) -> M<()>
    ensures { OnOk result (HasAlso (map uid_of uids.new.items) (map uid_of uids.old.items)
        (uids_of_actions N A defs.now)) }
{
    for def in &defs.defs {
        uids.push(def.uid.clone()?)?;
    }
    Ok(())
}

/// Adds what a definition itself declares.
fn add_definition<N, A>(lists: &mut NameLists, definition: &ValidatorNamespaceDef<N, A>) -> M<()>
    ensures { OnOk result (HoldsAlso (listed_names lists.new) (listed_names lists.old)
        (definition_names N A definition.now)) }
{
    add_common_types(&mut lists.common, &definition.common_types)?;
    add_entity_types(&mut lists.entities, &definition.entity_types)?;
    add_actions(&mut lists.actions, &definition.actions)
}

impl<N, A> DeclaresNames for ValidatorSchemaFragment<N, A> {
    ghost names = { fragment_names N A };

    fn list_names(&self, lists: &mut NameLists) -> M<()> {
        for definition in &self.definitions {
            add_definition(lists, definition)?;
        }
        Ok(())
    }
}
