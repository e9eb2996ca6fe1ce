//! Types with a location.

ghost use Rattle.std.specs.Prelude.{◌≡◌, IfOk, None};
ghost use Rattle.cedar_schema.specs.Words.{loc_at, ty_of, type_at};

use cedar_ast::{Loc, M};
use cedar_types::Type;

/// A type with where it was written, if that is known. Equality compares the location too.
#[derive(Debug, Drop, PartialEq, Eq)]
pub struct LocatedType {
    ty: Type,
    loc: Option<Loc>,
}

impl LocatedType {
    /// The type, without a location.
    pub fn new(ty: Type) -> Self
        ensures ty { type_at result ≡ ty }
        ensures loc { loc_at result ≡ None }
    {
        LocatedType { ty, loc: None }
    }

    /// The type, at this location.
    pub fn new_with_loc(ty: Type, loc: Option<Loc>) -> Self
        ensures ty { type_at result ≡ ty }
        ensures loc { loc_at result ≡ loc }
    {
        LocatedType { ty, loc }
    }

    /// The same type, at this location.
    pub fn with_loc(self, loc: Option<Loc>) -> Self
        ensures ty { type_at result ≡ type_at self }
        ensures loc { loc_at result ≡ loc }
    {
        LocatedType { ty: self.ty, loc }
    }

    /// The type, and where it was written.
    pub fn into_type_and_loc(self) -> (Type, Option<Loc>)
        ensures ty { result.0 ≡ type_at self }
        ensures loc { result.1 ≡ loc_at self }
    {
        (self.ty, self.loc)
    }

    /// An equal type at the same location. Out of memory is the only refusal.
    pub fn clone(&self) -> M<Self>
        ensures ty { IfOk result (λ copy. ty_of (type_at copy) ≡ ty_of (type_at self.now)) }
        ensures loc { IfOk result (λ copy. loc_at copy ≡ loc_at self.now) }
    {
        Ok(LocatedType {
            ty: self.ty.clone()?,
            loc: self.loc,
        })
    }
}
