//! What is declared, with the namespace that its names are written in.

ghost use Rattle.std.specs.Prelude.{◌≡◌};
ghost use Rattle.cedar_name_resolution.specs.WrittenTypes.{written_namespace};
ghost use Rattle.cedar_name_resolution.specs.Words.{namespace_name};

use cedar_ast::InternalName;
use cedar_schema_ast::json_schema::Type;

/// What is declared, with the namespace that its names are written in, None being the empty one.
#[derive(Debug, Drop)]
pub struct Written<D> {
    /// The namespace.
    pub namespace: Option<InternalName>,
    /// What is declared.
    pub declared: D,
}

impl<D> Written<D> {
    /// The namespace's name, or None for the empty one.
    pub fn namespace(&self) -> Option<&InternalName>
        ensures { namespace_name result ≡ written_namespace self.now }
    {
        self.namespace.as_ref()
    }
}

/// A common type that is declared: its full name, and its type with the namespace that the names
/// in it are written in.
pub type DeclaredCommonType<N> = (InternalName, Written<Type<N>>);
