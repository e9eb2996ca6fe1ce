//! What parents of actions name where they are written.

ghost use Rattle.std.specs.Prelude.{◌≡◌, IfErr, IfOk};
ghost use Rattle.cedar_fragments.specs.Words.{IsUnresolvable, NamesAction, fault_of, fragment_parent, held_names, namespace_name, uid_loc, uid_of};

use crate::namespace::actions::ActionParent;
use crate::namespace::qualify_actions::first_action;
use cedar_ast::{EntityUID, InternalName, NonEmpty};
use cedar_name_resolution::defs::{AllDefs, WrittenName};
use cedar_schema_ast::json_schema::{ActionEntityUID, ReferenceType};
use cedar_schema_semantics::SchemaError;

impl<N: WrittenName> ActionParent<N> {
    /// The uid of the action that the parent names where it is written in the namespace: of the
    /// names that its type may stand for there, the first under which its id is that of an action.
    /// What is shared of the action's own uid is shared with it, and its location is the parent's.
    /// It is refused with `ActionNotDefined` if there is none, or with `Memory` if memory runs out.
    pub fn named_within(
        &self,
        namespace: Option<&InternalName>,
        all_defs: &AllDefs,
    ) -> Result<EntityUID, SchemaError>
        ensures named { IfOk result (λ uid. NamesAction (held_names all_defs.now).actions
            (fragment_parent N (N.refer (namespace_name namespace.entry)) self.now)
            (uid_of uid)) }
        ensures loc { IfOk result (λ uid. uid_loc uid ≡ self.now.loc) }
        ensures fault { IfErr result (λ error. IsUnresolvable (held_names all_defs.now)
            (λ reference. ⊥)
            (λ it. fragment_parent N (N.refer (namespace_name namespace.entry)) self.now ≡ it)
            (λ reference. ⊥) (fault_of error)) }
    {
        let alloc = all_defs.alloc;
        let kind = ReferenceType::Entity;
        let reference = self.ty.reference_within(alloc, kind, namespace)?;
        match first_action(reference.into_possibilities(), &self.id, self.loc, all_defs)? {
            Some(uid) => Ok(uid),
            None => Err(SchemaError::ActionNotDefined(NonEmpty {
                head: ActionEntityUID {
                    id: self.id.clone()?,
                    ty: Some(self.ty.reference_within(alloc, kind, namespace)?),
                    loc: self.loc,
                },
                tail: Vec::new(alloc),
            })),
        }
    }
}
