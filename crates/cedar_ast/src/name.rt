//! Names that are not reserved.

ghost use Rattle.std.specs.Prelude.{◌≡◌, ◌↔◌, IsTrue, IsSome, IfSome, IfOk, map};
ghost use Rattle.cedar_ast.specs.Id.{id_text};
ghost use Rattle.cedar_ast.specs.InternalName.{name_of, name_loc};
ghost use Rattle.cedar_ast.specs.PlainName.{IsUnqualified, IsReserved};

use crate::id::Id;
use crate::internal_name::InternalName;
use crate::loc::Loc;
use crate::memory::M;
use crate::name_fault::NameFault;
use crate::quick_hash::QuickHash;
use std::alloc::Global;
use std::fmt;
use std::hash::Hasher;

/// A name that isn't reserved: no part of it is `__cedar`.
#[derive(Debug, Drop, PartialEq, Eq, PartialOrd, Ord, Hash)]
pub struct Name {
    name: InternalName,
    ghost unreserved: { ¬ IsReserved (name_of name) },
}

impl Name {
    ghost use Rattle.std.specs.Prelude.{◌≡◌, ◌↔◌, IsTrue, IsSome, IfSome, IfOk, IfErr, None, map};
    ghost use Rattle.cedar_ast.specs.Words.{IsNameFault, IsNameText, IsReserved, IsReservedNameText, IsUnqualified, id_text, is_plain_shared, name_loc, name_of, name_text, plain_loc, plain_name};

    /// The name, or None where it is reserved.
    pub fn new(name: InternalName) -> Option<Self>
        ensures valid { IsSome result ↔ ¬ IsReserved (name_of name) }
        ensures name { IfSome result (λ kept. plain_name kept ≡ name_of name) }
        ensures loc { IfSome result (λ kept. plain_loc kept ≡ name_loc name) }
    {
        if name.is_reserved() {
            None
        } else {
            Some(Name { name })
        }
    }

    /// The name that a text spells: identifiers joined by `::`, with nothing else between them. It
    /// has no location. It is refused exactly where no name prints as the text, with the byte at
    /// which it stops being one, or the name is reserved, or out of memory.
    pub fn from_str(alloc: Global, text: &str) -> Result<Self, NameFault>
        ensures name { IfOk result (λ name. name_text (plain_name name) ≡ text.now) }
        ensures loc { IfOk result (λ name. plain_loc name ≡ None) }
        ensures fault { IfErr result (IsNameFault IsNameText IsReservedNameText (λ _. ⊥) text.now) }
    {
        let name = InternalName::from_str(alloc, text)?;
        if name.is_reserved() {
            Err(NameFault::Reserved)
        } else {
            Ok(Name { name })
        }
    }

    /// The base name.
    pub fn basename(&self) -> &Id
        ensures { id_text result.now ≡ (plain_name self.now).base }
    {
        self.name.basename()
    }

    /// The identifiers before the base name, outermost first.
    pub fn path(&self) -> &[Id]
        ensures { map id_text result.now ≡ (plain_name self.now).path }
    {
        self.name.path()
    }

    /// Where the name was written, if that is known.
    pub fn loc(&self) -> Option<Loc>
        ensures { result ≡ plain_loc self.now }
    {
        self.name.loc()
    }

    /// The same name, as written at this place, or nowhere.
    pub fn with_loc(self, loc: Option<Loc>) -> Self
        ensures name { plain_name result ≡ plain_name self }
        ensures loc { plain_loc result ≡ loc }
        ensures shared { is_plain_shared result ≡ is_plain_shared self }
    {
        Name {
            name: self.name.with_loc(loc),
        }
    }

    /// Whether the path is empty.
    pub fn is_unqualified(&self) -> bool
        ensures { IsTrue result ↔ IsUnqualified (plain_name self.now) }
    {
        self.name.is_unqualified()
    }

    /// Whether the names are the same, ignoring locations.
    pub fn is_same(&self, other: &Name) -> bool
        ensures { IsTrue result ↔ (plain_name self.now ≡ plain_name other.now) }
    {
        self == other
    }

    /// The same name, where one is asked for that might be reserved.
    pub fn as_internal(&self) -> &InternalName
        ensures name { name_of result.now ≡ plain_name self.now }
        ensures unreserved { ¬ IsReserved (name_of result.now) }
    {
        &self.name
    }

    /// The same name, where one is asked for that might be reserved.
    pub fn into_internal(self) -> InternalName
        ensures name { name_of result ≡ plain_name self }
        ensures loc { name_loc result ≡ plain_loc self }
        ensures unreserved { ¬ IsReserved (name_of result) }
    {
        self.name
    }

    /// The same name with the same location, shared: a copy of it then only counts one more owner.
    /// Out of memory is the only refusal.
    pub fn into_shared(self) -> M<Self>
        ensures name { IfOk result (λ shared. plain_name shared ≡ plain_name self) }
        ensures loc { IfOk result (λ shared. plain_loc shared ≡ plain_loc self) }
        ensures shared { IfOk result (λ shared. IsTrue (is_plain_shared shared)) }
    {
        Ok(Name {
            name: self.name.into_shared()?,
        })
    }

    /// An equal name with the same location. That of a shared name is shared with it. Out of memory
    /// is the only refusal.
    pub fn clone(&self) -> M<Self>
        ensures name { IfOk result (λ copy. plain_name copy ≡ plain_name self.now) }
        ensures loc { IfOk result (λ copy. plain_loc copy ≡ plain_loc self.now) }
        ensures shared { IfOk result (λ copy. is_plain_shared copy ≡ is_plain_shared self.now) }
    {
        Ok(Name {
            name: self.name.clone()?,
        })
    }
}

impl QuickHash for Name {
    ghost use Rattle.cedar_ast.specs.Words.{name_input, plain_name};

    ghost quick_input = { λ name. name_input (plain_name name) };

    fn quick_hash<H: Hasher>(&self, state: &mut H) {
        self.name.quick_hash(state);
    }
}

impl fmt::Display for Name {
    ghost use Rattle.std.specs.Prelude.{Some};
    ghost use Rattle.cedar_ast.specs.Words.{name_text, plain_name};

    ghost output = { λ name. Some (name_text (plain_name name)) };

    fn fmt<W: fmt::Write>(&self, f: &mut fmt::Formatter<W>) -> fmt::Result {
        self.name.fmt(f)
    }
}
