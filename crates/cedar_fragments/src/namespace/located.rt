//! What fragments and definitions hold, borrowed, with where it was declared.

ghost use Rattle.std.specs.Prelude.{◌≡◌};
ghost use Rattle.cedar_fragments.specs.Located.{definition_common_types, definition_loc, fragment_definitions};

use crate::namespace::common_types::CommonTypeDef;
use crate::namespace::definition::ValidatorNamespaceDef;
use crate::namespace::fragment::ValidatorSchemaFragment;
use cedar_ast::Loc;

impl<N, A> ValidatorSchemaFragment<N, A> {
    /// The definitions, in order.
    pub fn definitions(&self) -> &[ValidatorNamespaceDef<N, A>]
        ensures { result.now ≡ fragment_definitions N A self.now }
    {
        self.definitions.as_slice()
    }
}

impl<N, A> ValidatorNamespaceDef<N, A> {
    /// Where the namespace was defined, if that is known.
    pub fn loc(&self) -> Option<Loc>
        ensures { result ≡ definition_loc N A self.now }
    {
        self.loc
    }

    /// The common types that are declared, in order.
    pub fn common_types(&self) -> &[CommonTypeDef<N>]
        ensures { result.now ≡ definition_common_types N A self.now }
    {
        self.common_types.defs.as_slice()
    }
}
