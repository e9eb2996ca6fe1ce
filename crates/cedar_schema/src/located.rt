//! What a schema shows of the fragments that it was built from.

use crate::iterators::Namespaces;
use crate::located_common_type::LocatedCommonType;
use crate::schema::ValidatorSchema;
use std::slice;

impl ValidatorSchema {
    ghost use Rattle.std.specs.Prelude.{◌≡◌, map};
    ghost use Rattle.std.specs.Slice.Iter.{iter_rest};
    ghost use Rattle.cedar_schema.specs.Words.{common_entries, located_of, namespace_entries};

    /// The common types of the fragments, with where they were declared, in the order of the
    /// fragments: those whose declaration has a location and whose base name is none of `Bool`,
    /// `Long` and `String`. A schema that was put together without fragments has none.
    pub fn common_types(&self) -> slice::Iter<'_, LocatedCommonType>
        ensures { iter_rest result ≡ common_entries (located_of self.now) }
    {
        self.located.value().common_types()
    }

    /// The namespaces of the fragments that have a name, each once and in the order of their names,
    /// with where they were defined; `__cedar`, where the built-in types are, is among them. A
    /// schema that was put together without fragments has none.
    pub fn namespaces(&self) -> Namespaces<'_>
        ensures { result ≡ map (λ entry. entry.1) (namespace_entries (located_of self.now)) }
    {
        self.located.value().namespaces()
    }
}
