//! The common types of a namespace.

ghost use Rattle.std.specs.Prelude.{◌≡◌, IfOk};
ghost use Rattle.std.specs.Slice.Iter.{iter_rest};
ghost use Rattle.cedar_fragments.specs.Words.{common_type_defs};
ghost use Rattle.cedar_schema_ast.specs.declared.json_schema.conditional_name.ConditionalName.{ConditionalName as Conditional};
ghost use Rattle.cedar_schema_ast.specs.declared.json_schema.raw_name.RawName.{RawName as Raw};

use cedar_ast::{InternalName, Loc, M};
use cedar_name_resolution::full_name::full_name;
use cedar_schema_ast::json_schema::{CommonType, CommonTypeId, ConditionalName, RawName, Type};
use std::alloc::Global;
use std::collections::BTreeMap;
use std::slice;

/// The common types that a definition declares, each under its full name.
#[derive(Debug, Drop)]
pub struct CommonTypeDefs<N> {
    pub(crate) defs: Vec<CommonTypeDef<N>>,
}

/// A common type under its full name, whose location is that of the declaration.
#[derive(Debug, Drop)]
pub struct CommonTypeDef<N> {
    /// The full name.
    pub name: InternalName,
    /// The type that it is defined as.
    pub ty: Type<N>,
}

impl<N> CommonTypeDefs<N> {
    /// The common types, in order.
    pub fn iter(&self) -> slice::Iter<'_, CommonTypeDef<N>>
        ensures { iter_rest result ≡ common_type_defs N self.now }
    {
        self.defs.iter()
    }
}
