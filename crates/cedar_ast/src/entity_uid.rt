//! Uids of entities: a type and an id.

ghost use Rattle.std.specs.Prelude.{◌≡◌, ◌↔◌, IsTrue, IfOk, IfErr, None};
ghost use Rattle.cedar_ast.specs.Words.{IsActionType, IsNameFault, IsReservedUidText, IsTypeBefore, IsTypeFault, IsUidText, eid_text, is_uid_shared, type_loc, type_name, uid_loc, uid_of, uid_text, uid_type_loc};

use crate::eid::Eid;
use crate::entity_type::EntityType;
use crate::escape::read_id;
use crate::internal_name::InternalName;
use crate::loc::Loc;
use crate::memory::M;
use crate::name_fault::NameFault;
use crate::quick_hash::QuickHash;
use crate::quoted::Quoted;
use crate::with_leading::WithLeading;
use std::alloc::Global;
use std::fmt;
use std::hash::Hasher;

/// The uid of an entity: its type, and its id within the type.
///
/// Equality, order and hash ignore the location, and whether the uid is shared. Uids order by type,
/// and then by the id's bytes.
#[derive(Debug)]
#[derive_where(PartialEq, Eq, PartialOrd, Ord, Hash)]
pub struct EntityUID {
    ty: EntityType,
    eid: WithLeading<Eid>,
    #[derive_where(skip(EqHashOrd))]
    loc: Option<Loc>,
}

// Written out: proofs of what holds uids then see one call, and nothing of their parts.
impl Drop for EntityUID {
    fn drop(self) {
        let EntityUID {
            ty: _ty,
            eid: _eid,
            loc: _,
        } = self;
    }
}

/// Why a text without quotes is not the beginning of a uid, or not all that stands before its id.
fn type_fault(alloc: Global, before: &str) -> NameFault
    ensures { IsTypeFault before.now result }
{
    match InternalName::from_str(alloc, before) {
        Err(fault) => fault,
        Ok(_) => NameFault::NotAName(before.len()),
    }
}

/// The name of the type in what stands before the quote of a uid, or None where it is none.
fn type_before_quote(alloc: Global, before: &str) -> M<Option<InternalName>>
    ensures { IfOk result (λ name. IsTypeBefore before.now name) }
{
    let Some(name) = before.strip_suffix("::") else {
        return Ok(None);
    };
    match InternalName::from_str(alloc, name) {
        Ok(name) => Ok(Some(name)),
        Err(NameFault::Memory(refused)) => Err(refused),
        Err(_) => Ok(None),
    }
}

impl EntityUID {
    /// The uid of this type and this id.
    pub fn new(ty: EntityType, eid: Eid, loc: Option<Loc>) -> Self
        ensures ty { (uid_of result).ty ≡ type_name ty }
        ensures eid { (uid_of result).eid ≡ eid_text eid }
        ensures loc { uid_loc result ≡ loc }
        ensures type_loc { uid_type_loc result ≡ type_loc ty }
    {
        EntityUID {
            ty,
            eid: WithLeading::new(eid),
            loc,
        }
    }

    /// The same uid with the same locations, shared: a copy of it then only counts one more owner
    /// of its type and of its id. Out of memory is the only refusal.
    pub fn into_shared(self) -> M<Self>
        ensures uid { IfOk result (λ shared. uid_of shared ≡ uid_of self) }
        ensures loc { IfOk result (λ shared. uid_loc shared ≡ uid_loc self) }
        ensures type_loc { IfOk result (λ shared. uid_type_loc shared ≡ uid_type_loc self) }
        ensures shared { IfOk result (λ shared. IsTrue (is_uid_shared shared)) }
    {
        let alloc = *self.eid.value().0.allocator();
        let EntityUID { ty, eid, loc } = self;
        Ok(EntityUID {
            ty: ty.into_shared()?,
            eid: eid.into_shared(alloc)?,
            loc,
        })
    }

    /// The uid that a text spells, as uids print: the name of its type, `::`, and its id in quotes,
    /// with `\\`, `\"`, `\n`, `\r`, `\t` and `\0` for those characters, `\u{7f}` with the number
    /// in lower-case hexadecimal, without leading zeros, for each other control character, and all
    /// else as it is. It has no locations. It is refused exactly where no uid prints as the text,
    /// with the byte at which it stops being a uid's, or the type's name is reserved, or out of
    /// memory.
    pub fn from_str(alloc: Global, text: &str) -> Result<Self, NameFault>
        ensures uid { IfOk result (λ uid. uid_text (uid_of uid) ≡ text.now) }
        ensures loc { IfOk result (λ uid. uid_loc uid ≡ None) }
        ensures type_loc { IfOk result (λ uid. uid_type_loc uid ≡ None) }
        ensures fault { IfErr result (IsNameFault IsUidText IsReservedUidText (λ _. ⊥) text.now) }
    {
        let Some((before, after)) = text.split_once('"') else {
            return Err(type_fault(alloc, text));
        };
        let Some(name) = type_before_quote(alloc, before)? else {
            return Err(type_fault(alloc, before));
        };
        match read_id(alloc, after) {
            Err(NameFault::NotAName(at)) => Err(NameFault::NotAName(before.len() + 1 + at)),
            Err(fault) => Err(fault),
            Ok(id) => match EntityType::from_internal(name) {
                Ok(ty) => Ok(EntityUID::new(ty, Eid(id), None)),
                Err(_) => Err(NameFault::Reserved),
            },
        }
    }

    /// The type of the entity.
    pub fn entity_type(&self) -> &EntityType
        ensures name { type_name result.now ≡ (uid_of self.now).ty }
        ensures loc { type_loc result.now ≡ uid_type_loc self.now }
    {
        &self.ty
    }

    /// The entity's id.
    pub fn eid(&self) -> &Eid
        ensures { eid_text result.now ≡ (uid_of self.now).eid }
    {
        self.eid.value()
    }

    /// Where the uid was written, if that is known.
    pub fn loc(&self) -> Option<Loc>
        ensures { result ≡ uid_loc self.now }
    {
        self.loc
    }

    /// Whether this is the uid of an action: the base name of its type is `Action`.
    pub fn is_action(&self) -> bool
        ensures { IsTrue result ↔ IsActionType (uid_of self.now).ty }
    {
        self.ty.is_action()
    }

    /// The same uid, as written at the one place, or nowhere, and its type at the other.
    pub fn with_locs(self, loc: Option<Loc>, type_loc: Option<Loc>) -> Self
        ensures uid { uid_of result ≡ uid_of self }
        ensures loc { uid_loc result ≡ loc }
        ensures type_loc { uid_type_loc result ≡ type_loc }
        ensures shared { is_uid_shared result ≡ is_uid_shared self }
    {
        let EntityUID { ty, eid, loc: _ } = self;
        EntityUID {
            ty: ty.with_loc(type_loc),
            eid,
            loc,
        }
    }

    /// An equal uid with the same locations, its own and its type's. What is shared of a uid is
    /// shared with its copy. Out of memory is the only refusal.
    pub fn clone(&self) -> M<Self>
        ensures uid { IfOk result (λ copy. uid_of copy ≡ uid_of self.now) }
        ensures loc { IfOk result (λ copy. uid_loc copy ≡ uid_loc self.now) }
        ensures type_loc { IfOk result (λ copy. uid_type_loc copy ≡ uid_type_loc self.now) }
        ensures shared { IfOk result (λ copy. is_uid_shared copy ≡ is_uid_shared self.now) }
    {
        let eid = match self.eid.other_owner()? {
            Some(eid) => eid,
            None => WithLeading::new(self.eid.value().clone()?),
        };
        Ok(EntityUID {
            ty: self.ty.clone()?,
            eid,
            loc: self.loc,
        })
    }
}

impl QuickHash for EntityUID {
    ghost use Rattle.cedar_ast.specs.Words.{uid_input, uid_of};

    ghost quick_input = { λ uid. uid_input (uid_of uid) };

    fn quick_hash<H: Hasher>(&self, state: &mut H) {
        self.ty.quick_hash(state);
        state.write(self.eid().as_str().as_bytes());
    }
}

/// Prints the type, `::`, and the id as [`Quoted`] does.
impl fmt::Display for EntityUID {
    ghost use Rattle.std.specs.Prelude.{Some};
    ghost use Rattle.cedar_ast.specs.Words.{uid_of, uid_text};

    ghost output = { λ uid. Some (uid_text (uid_of uid)) };

    fn fmt<W: fmt::Write>(&self, f: &mut fmt::Formatter<W>) -> fmt::Result {
        write!(f, "{}::{}", self.ty, Quoted(self.eid().as_str()))
    }
}
