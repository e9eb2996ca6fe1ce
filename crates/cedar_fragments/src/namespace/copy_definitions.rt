//! Copies of definitions of namespaces, and of fragments.

ghost use Rattle.std.specs.Prelude.{◌≡◌, IfOk};
ghost use Rattle.std.specs.Option.{option_map};
ghost use Rattle.cedar_fragments.specs.Words.{IsNamespaceDefCopy, IsSchemaFragmentCopy, located_name};

use crate::namespace::definition::ValidatorNamespaceDef;
use crate::namespace::fragment::ValidatorSchemaFragment;
use cedar_ast::{InternalName, M, copied_items};
use cedar_schema_ast::json_schema::FragmentName;

/// An equal name of a namespace with the same location. None is the empty one.
fn copied_namespace(namespace: &Option<InternalName>) -> M<Option<InternalName>>
    ensures { IfOk result (λ copy.
        option_map located_name copy ≡ option_map located_name namespace.now) }
{
    match namespace {
        None => Ok(None),
        Some(name) => Ok(Some(name.clone()?)),
    }
}

impl<N: FragmentName + Drop, A: FragmentName + Drop> ValidatorNamespaceDef<N, A> {
    /// An equal definition with the same locations. Out of memory is the only refusal.
    pub fn clone(&self) -> M<Self>
        ensures { IfOk result (IsNamespaceDefCopy N.is_alike A.is_alike self.now) }
    {
        Ok(ValidatorNamespaceDef {
            namespace: copied_namespace(&self.namespace)?,
            common_types: self.common_types.clone()?,
            entity_types: self.entity_types.clone()?,
            actions: self.actions.clone()?,
            loc: self.loc,
        })
    }
}

impl<N: FragmentName + Drop, A: FragmentName + Drop> ValidatorSchemaFragment<N, A> {
    /// An equal fragment with the same locations. Out of memory is the only refusal.
    pub fn clone(&self) -> M<Self>
        ensures { IfOk result (IsSchemaFragmentCopy N.is_alike A.is_alike self.now) }
    {
        let definitions = copied_items(&self.definitions, ValidatorNamespaceDef::clone)?;
        Ok(ValidatorSchemaFragment { definitions })
    }
}
