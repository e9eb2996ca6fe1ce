//! Common types with where they were declared.

ghost use Rattle.std.specs.Prelude.{◌≡◌, IfOk, string_bytes};
ghost use Rattle.cedar_schema.specs.Words.{loc_at, name_loc, name_of};

use crate::located_type::LocatedType;
use cedar_ast::{InternalName, Loc, M};
use std::alloc::Global;

/// A common type that a schema declares, and where. Equality and hash ignore the locations.
#[derive(Drop)]
#[derive_where(Debug, PartialEq, Eq, Hash)]
pub struct LocatedCommonType {
    /// The base name.
    pub name: String,
    /// The full name.
    pub full_name: InternalName,
    /// Where it was declared, if that is known.
    #[derive_where(skip(EqHashOrd))]
    pub name_loc: Option<Loc>,
    /// Where the type that it is defined as was written, if that is known.
    #[derive_where(skip(EqHashOrd))]
    pub type_loc: Option<Loc>,
}

impl LocatedCommonType {
    /// The common type of a full name, which was declared at the location of the name and is
    /// defined as a type. Out of memory is the only refusal.
    pub fn new(alloc: Global, name: &InternalName, ty: LocatedType) -> M<Self>
        ensures name { IfOk result (λ it. string_bytes it.name ≡ (name_of name.now).base) }
        ensures full_name { IfOk result (λ it. name_of it.full_name ≡ name_of name.now) }
        ensures name_loc { IfOk result (λ it. it.name_loc ≡ name_loc name.now) }
        ensures type_loc { IfOk result (λ it. it.type_loc ≡ loc_at ty) }
    {
        let (_ty, type_loc) = ty.into_type_and_loc();
        LocatedCommonType::at(alloc, name, type_loc)
    }

    /// The common type of a full name, of which it is known where the type that it is defined as
    /// was written.
    pub(crate) fn at(alloc: Global, name: &InternalName, type_loc: Option<Loc>) -> M<Self>
        ensures name { IfOk result (λ it. string_bytes it.name ≡ (name_of name.now).base) }
        ensures full_name { IfOk result (λ it. name_of it.full_name ≡ name_of name.now) }
        ensures name_loc { IfOk result (λ it. it.name_loc ≡ name_loc name.now) }
        ensures type_loc { IfOk result (λ it. it.type_loc ≡ type_loc) }
    {
        Ok(LocatedCommonType {
            name: String::from_str(alloc, name.basename().as_str())?,
            full_name: name.clone()?,
            name_loc: name.loc(),
            type_loc,
        })
    }

    /// An equal common type with the same locations. Out of memory is the only refusal.
    pub fn clone(&self) -> M<Self>
        ensures name { IfOk result (λ copy. string_bytes copy.name ≡ string_bytes self.now.name) }
        ensures full_name { IfOk result (λ copy.
            name_of copy.full_name ≡ name_of self.now.full_name) }
        ensures name_loc { IfOk result (λ copy. copy.name_loc ≡ self.now.name_loc) }
        ensures type_loc { IfOk result (λ copy. copy.type_loc ≡ self.now.type_loc) }
    {
        Ok(LocatedCommonType {
            name: self.name.clone()?,
            full_name: self.full_name.clone()?,
            name_loc: self.name_loc,
            type_loc: self.type_loc,
        })
    }
}
