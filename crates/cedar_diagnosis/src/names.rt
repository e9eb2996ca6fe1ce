//! The names of what is declared.

ghost use Rattle.std.specs.Prelude.{◌≡◌, ◌≢◌, IfOk, map};
ghost use Rattle.cedar_ast.specs.Words.{id_text, name_of, reserved_word, type_name, uid_of};
ghost use Rattle.cedar_diagnosis.specs.Adding.{optional};
ghost use Rattle.cedar_diagnosis.specs.Lent.{declaration_of, namespace_of};
ghost use Rattle.cedar_diagnosis.specs.Names.{action_uids_in, common_names_in, entity_names_in};
ghost use Rattle.cedar_schema_ast.specs.Words.{name_within};

use crate::lent::{Lent, LentBody};
use cedar_ast::{Eid, EntityType, EntityUID, Id, InternalName, Loc, M, identifier};
use cedar_name_resolution::full_name::full_name;
use std::alloc::Global;

impl Lent<'_> {
    /// The entity type of an id in the namespace.
    fn type_within(&self, alloc: Global, id: Id, loc: Option<Loc>) -> M<EntityType>
        requires { id_text id ≢ reserved_word }
        ensures { IfOk result (λ ty. type_name ty
            ≡ name_within (namespace_of self.now.namespace.now) (id_text id)) }
    {
        let name = full_name(alloc, self.namespace(), id, loc)?;
        match EntityType::from_internal(name) {
            Ok(ty) => Ok(ty),
            Err(_) => unreachable!(),
        }
    }

    /// The full name of the common type that is declared, or None where another thing is.
    pub(crate) fn common_name(&self, alloc: Global) -> M<Option<InternalName>>
        ensures { IfOk result (λ name.
            optional name_of name ≡ common_names_in (declaration_of self.now)) }
    {
        match self.body {
            LentBody::CommonType { id, declared } => {
                let id = id.as_id().as_id().clone()?;
                Ok(Some(full_name(alloc, self.namespace(), id, declared.loc)?))
            }
            _ => Ok(None),
        }
    }

    /// The entity type that is declared, or None where another thing is.
    pub(crate) fn entity_name(&self, alloc: Global) -> M<Option<EntityType>>
        ensures { IfOk result (λ ty.
            optional type_name ty ≡ entity_names_in (declaration_of self.now)) }
    {
        match self.body {
            LentBody::EntityType { id, declared } => {
                let id = id.as_id().clone()?;
                Ok(Some(self.type_within(alloc, id, declared.loc)?))
            }
            _ => Ok(None),
        }
    }

    /// The uid of the action that is declared, or None where another thing is.
    pub(crate) fn action_uid(&self, alloc: Global) -> M<Option<EntityUID>>
        ensures { IfOk result (λ uid.
            optional uid_of uid ≡ action_uids_in (declaration_of self.now)) }
    {
        match self.body {
            LentBody::Action { id, declared } => {
                let ty = self.type_within(alloc, identifier(alloc, "Action")?, declared.loc)?;
                let uid = EntityUID::new(ty, Eid(id.clone()?), declared.loc);
                Ok(Some(uid.into_shared()?))
            }
            _ => Ok(None),
        }
    }
}
