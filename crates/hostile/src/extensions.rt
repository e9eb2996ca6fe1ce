//! No extensions.

ghost use Rattle.cedar_ast.specs.Words.{TypeNamesFit, extension_types};

use cedar_schema::below::Extensions;
use std::alloc::Global;
use std::collections::BTreeMap;

/// No extension types and functions.
pub(crate) fn no_extensions(alloc: Global) -> Extensions
    ensures { TypeNamesFit (extension_types result) }
{
    Extensions::new(Vec::new(alloc), BTreeMap::new(alloc))
}
