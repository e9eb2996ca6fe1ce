//! The name of the type of the actions of the empty namespace.

ghost use Rattle.std.specs.Prelude.{◌≡◌, None};
ghost use Rattle.cedar_ast.specs.Words.{action_word, name_of};
ghost use Rattle.cedar_schema_ast.specs.Words.{name_within};

use crate::namespace::actions::action_type_name;
use cedar_ast::{InternalName, M};
use std::alloc::Global;

/// The name of the type of the actions that are declared in no namespace. It is made once, and
/// shared by all of them.
#[derive(Debug)]
pub struct UnqualifiedActionType {
    name: InternalName,
    ghost named: { name_of name ≡ name_within None action_word },
}

// Written out: proofs of what holds it then see one call.
impl Drop for UnqualifiedActionType {
    fn drop(self) {
        let UnqualifiedActionType { name: _name } = self;
    }
}

impl UnqualifiedActionType {
    ghost use Rattle.std.specs.Prelude.{◌≡◌, IfOk};
    ghost use Rattle.cedar_fragments.specs.Words.{action_word, name_of, name_within, namespace_name, unqualified_action_type};

    /// The name, which is made now. Out of memory is the only refusal.
    pub fn new(alloc: Global) -> M<Self>
        ensures { IfOk result (λ it.
            unqualified_action_type it ≡ name_within None action_word) }
    {
        Ok(UnqualifiedActionType {
            name: action_type_name(alloc, None)?,
        })
    }

    /// The name of the type of the actions that are declared in a namespace. It is shared.
    pub(crate) fn within(&self, alloc: Global, namespace: Option<&InternalName>) -> M<InternalName>
        ensures { IfOk result (λ name.
            name_of name ≡ name_within (namespace_name namespace.entry) action_word) }
    {
        match namespace {
            None => self.name.clone(),
            Some(_) => action_type_name(alloc, namespace),
        }
    }
}
