//! Namespaces with where they were defined.

ghost use Rattle.std.specs.Prelude.{◌≡◌, IfOk};
ghost use Rattle.cedar_schema.specs.ShownNamespaces.{shown_namespace};

use cedar_ast::{Loc, M};

/// A namespace that a schema has, and where it was defined. Equality and hash ignore the locations.
#[derive(Drop)]
#[derive_where(Debug, PartialEq, Eq, Hash)]
pub struct LocatedNamespace {
    /// The full name, printed.
    pub name: String,
    /// Where the name was written, if that is known.
    #[derive_where(skip(EqHashOrd))]
    pub name_loc: Option<Loc>,
    /// Where the namespace was defined, if that is known: of several definitions, where the last
    /// was.
    #[derive_where(skip(EqHashOrd))]
    pub def_loc: Option<Loc>,
}

impl LocatedNamespace {
    /// An equal namespace with the same locations. Out of memory is the only refusal.
    pub fn clone(&self) -> M<Self>
        ensures { IfOk result (λ copy. shown_namespace copy ≡ shown_namespace self.now) }
    {
        Ok(LocatedNamespace {
            name: self.name.clone()?,
            name_loc: self.name_loc,
            def_loc: self.def_loc,
        })
    }
}
