//! What a schema shows of its fragments, collected before it is built.

ghost use Rattle.std.specs.Prelude.{◌≡◌, [], ◌∷◌, ◌++◌, IfOk, List, map};
ghost use Rattle.std.specs.Slice.Iter.{iter_rest};
ghost use Rattle.cedar_schema.specs.Words.{AreShown, Shows, ValidatorSchemaFragment as Fragment, common_entries, namespace_entries, shown_common_type, shown_entry};

use crate::iterators::Namespaces;
use crate::located_common_type::LocatedCommonType;
use crate::located_namespace::LocatedNamespace;
use crate::namespaces::{NamespacesByName, built_in_namespaces};
use crate::{common_types, namespaces};
use cedar_ast::{InternalName, M, copied_entries, copied_items};
use cedar_fragments::namespace::ValidatorSchemaFragment;
use std::alloc::Global;
use std::collections::BTreeMap;
use std::slice;

/// What a schema shows of its fragments: common types and namespaces, with where these were
/// written.
#[derive(Debug, Drop)]
pub struct Located {
    common_types: Vec<LocatedCommonType>,
    namespaces: NamespacesByName,
}

impl Located {
    /// What a schema shows that was put together without fragments: nothing.
    pub fn nothing(alloc: Global) -> Self
        ensures common_types { common_entries result ≡ [] }
        ensures namespaces { namespace_entries result ≡ [] }
    {
        Located {
            common_types: Vec::new(alloc),
            namespaces: BTreeMap::new(alloc),
        }
    }

    /// What a schema shows before it has any fragment: the namespace `__cedar`, where the built-in
    /// types are. Out of memory is the only refusal.
    pub fn built_in(alloc: Global) -> M<Self>
        ensures shown { IfOk result (Shows [] []) }
        ensures types { IfOk result (λ it. common_entries it ≡ []) }
    {
        Ok(Located {
            common_types: Vec::new(alloc),
            namespaces: built_in_namespaces(alloc)?,
        })
    }

    /// What a schema shows of some fragments and one more.
    ///
    /// Its common types are those whose declaration has a location and whose base name is none of
    /// `Bool`, `Long` and `String`, in order. Its namespaces are those of the definitions, the
    /// empty one left out, and `__cedar`. Out of memory is the only refusal.
    pub fn with<N, A>(self, alloc: Global, fragment: &ValidatorSchemaFragment<N, A>) -> M<Self>
        ensures { IfOk result (λ it. (fragments : List (Fragment N A))
            → AreShown N A fragments self
            → AreShown N A (fragments ++ fragment.now ∷ []) it) }
    {
        let Located {
            common_types,
            namespaces,
        } = self;
        let definitions = fragment.definitions();
        Ok(Located {
            common_types: common_types::with_definitions(alloc, common_types, definitions)?,
            namespaces: namespaces::with_definitions(alloc, namespaces, definitions)?,
        })
    }

    /// The common types that are shown, in the order of the fragments.
    pub fn common_types(&self) -> slice::Iter<'_, LocatedCommonType>
        ensures { iter_rest result ≡ common_entries self.now }
    {
        self.common_types.iter()
    }

    /// The namespaces that have a name, each once, in the order of their names.
    pub fn namespaces(&self) -> Namespaces<'_>
        ensures { result ≡ map (λ entry. entry.1) (namespace_entries self.now) }
    {
        Namespaces::new(self.namespaces.values())
    }

    /// The same common types and namespaces with the same locations. Out of memory is the only
    /// refusal.
    pub fn clone(&self) -> M<Self>
        ensures common_types { IfOk result (λ copy.
            map shown_common_type (common_entries copy)
            ≡ map shown_common_type (common_entries self.now)) }
        ensures namespaces { IfOk result (λ copy.
            map shown_entry (namespace_entries copy)
            ≡ map shown_entry (namespace_entries self.now)) }
    {
        Ok(Located {
            common_types: copied_items(&self.common_types, LocatedCommonType::clone)?,
            namespaces: copied_entries(
                &self.namespaces,
                InternalName::clone,
                LocatedNamespace::clone,
            )?,
        })
    }
}
