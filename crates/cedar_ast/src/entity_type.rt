//! Names of entity types, which are never reserved.

ghost use Rattle.std.specs.Prelude.{◌≡◌, ◌↔◌, IsTrue, IfErr, IfOk, OnOk, None};
ghost use Rattle.cedar_ast.specs.Words.{IsActionType, IsNameFault, IsNameText, IsReserved, IsReservedNameText, is_type_shared, name_loc, name_of, name_text, plain_loc, plain_name, type_loc, type_name};

use crate::internal_name::InternalName;
use crate::loc::Loc;
use crate::memory::M;
use crate::name::Name;
use crate::name_fault::NameFault;
use crate::quick_hash::QuickHash;
use std::alloc::Global;
use std::fmt;
use std::hash::Hasher;

/// The base name of every action's type.
const ACTION: &str = "Action";

/// The name of an entity type, which is never reserved.
#[derive(Debug, Drop, PartialEq, Eq, PartialOrd, Ord, Hash)]
pub struct EntityType(Name);

impl EntityType {
    /// The entity type of this name.
    pub fn new(name: Name) -> Self
        ensures name { type_name result ≡ plain_name name }
        ensures loc { type_loc result ≡ plain_loc name }
    {
        EntityType(name)
    }

    /// The entity type of a name with its location; or the name back, where it is reserved.
    pub fn from_internal(name: InternalName) -> Result<Self, InternalName>
        ensures name { IfOk result (λ ty. type_name ty ≡ name_of name) }
        ensures loc { IfOk result (λ ty. type_loc ty ≡ name_loc name) }
        ensures unreserved { OnOk result (¬ IsReserved (name_of name)) }
        ensures refused { IfErr result (λ given. (given ≡ name) × IsReserved (name_of name)) }
    {
        if name.is_reserved() {
            return Err(name);
        }
        match Name::new(name) {
            Some(name) => Ok(EntityType(name)),
            None => unreachable!(),
        }
    }

    /// The entity type of the name that a text spells: identifiers joined by `::`, with nothing
    /// else between them. It has no location. It is refused exactly where no name prints as the
    /// text, with the byte at which it stops being one, or the name is reserved, or out of memory.
    pub fn from_str(alloc: Global, text: &str) -> Result<Self, NameFault>
        ensures name { IfOk result (λ ty. name_text (type_name ty) ≡ text.now) }
        ensures loc { IfOk result (λ ty. type_loc ty ≡ None) }
        ensures fault { IfErr result (IsNameFault IsNameText IsReservedNameText (λ _. ⊥) text.now) }
    {
        Ok(EntityType(Name::from_str(alloc, text)?))
    }

    /// The entity type's name.
    pub fn name(&self) -> &Name
        ensures name { plain_name result.now ≡ type_name self.now }
        ensures loc { plain_loc result.now ≡ type_loc self.now }
    {
        &self.0
    }

    /// The entity type's name.
    pub fn into_name(self) -> Name
        ensures name { plain_name result ≡ type_name self }
        ensures loc { plain_loc result ≡ type_loc self }
    {
        self.0
    }

    /// Where the entity type was written, if that is known.
    pub fn loc(&self) -> Option<Loc>
        ensures { result ≡ type_loc self.now }
    {
        self.0.loc()
    }

    /// The same entity type, as written at this place, or nowhere.
    pub fn with_loc(self, loc: Option<Loc>) -> Self
        ensures name { type_name result ≡ type_name self }
        ensures loc { type_loc result ≡ loc }
        ensures shared { is_type_shared result ≡ is_type_shared self }
    {
        EntityType(self.0.with_loc(loc))
    }

    /// Whether this is a type of actions: its base name is `Action`, whatever its path.
    pub fn is_action(&self) -> bool
        ensures { IsTrue result ↔ IsActionType (type_name self.now) }
    {
        self.0.basename().as_str() == ACTION
    }

    /// The same entity type with the same location, shared: a copy of it then only counts one more
    /// owner. Out of memory is the only refusal.
    pub fn into_shared(self) -> M<Self>
        ensures name { IfOk result (λ shared. type_name shared ≡ type_name self) }
        ensures loc { IfOk result (λ shared. type_loc shared ≡ type_loc self) }
        ensures shared { IfOk result (λ shared. IsTrue (is_type_shared shared)) }
    {
        Ok(EntityType(self.0.into_shared()?))
    }

    /// An equal entity type with the same location. That of a shared one is shared with it. Out of
    /// memory is the only refusal.
    pub fn clone(&self) -> M<Self>
        ensures name { IfOk result (λ copy. type_name copy ≡ type_name self.now) }
        ensures loc { IfOk result (λ copy. type_loc copy ≡ type_loc self.now) }
        ensures shared { IfOk result (λ copy. is_type_shared copy ≡ is_type_shared self.now) }
    {
        Ok(EntityType(self.0.clone()?))
    }
}

impl QuickHash for EntityType {
    ghost use Rattle.cedar_ast.specs.Words.{name_input, type_name};

    ghost quick_input = { λ ty. name_input (type_name ty) };

    fn quick_hash<H: Hasher>(&self, state: &mut H) {
        self.0.quick_hash(state);
    }
}

impl fmt::Display for EntityType {
    ghost use Rattle.std.specs.Prelude.{Some};
    ghost use Rattle.cedar_ast.specs.Words.{name_text, type_name};

    ghost output = { λ ty. Some (name_text (type_name ty)) };

    fn fmt<W: fmt::Write>(&self, f: &mut fmt::Formatter<W>) -> fmt::Result {
        self.0.fmt(f)
    }
}
