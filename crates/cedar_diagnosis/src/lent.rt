//! What fragments declare, lent.

ghost use Rattle.std.specs.Prelude.{◌≡◌};
ghost use Rattle.cedar_diagnosis.specs.Lent.{namespace_of};
ghost use Rattle.cedar_schema_ast.specs.Words.{namespace_name};

use cedar_ast::{InternalName, Name, UnreservedId};
use cedar_schema_ast::json_schema::{ActionType, CommonType, CommonTypeId, EntityType, RawName};

/// A declaration of a fragment: the namespace in which it stands, and what it declares.
#[derive(Clone, Copy)]
pub(crate) struct Lent<'a> {
    /// The namespace, None being the empty one.
    pub(crate) namespace: &'a Option<Name>,
    /// What is declared.
    pub(crate) body: LentBody<'a>,
}

/// What is declared, under which id.
#[derive(Clone, Copy)]
pub(crate) enum LentBody<'a> {
    /// A common type.
    CommonType {
        /// Its base name.
        id: &'a CommonTypeId,
        /// Its definition.
        declared: &'a CommonType<RawName>,
    },
    /// An entity type.
    EntityType {
        /// Its base name.
        id: &'a UnreservedId,
        /// What is declared of it.
        declared: &'a EntityType<RawName>,
    },
    /// An action.
    Action {
        /// Its id.
        id: &'a String,
        /// What is declared of it.
        declared: &'a ActionType<RawName>,
    },
}

impl<'a> Lent<'a> {
    /// The namespace that its names are written in, None being the empty one.
    pub(crate) fn namespace(&self) -> Option<&'a InternalName>
        ensures { namespace_name result ≡ namespace_of self.now.namespace.now }
    {
        match self.namespace {
            Some(name) => Some(name.as_internal()),
            None => None,
        }
    }
}
