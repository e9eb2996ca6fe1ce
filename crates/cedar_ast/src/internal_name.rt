//! Names that may be reserved.

ghost use Rattle.std.specs.Prelude.{◌≡◌, ◌↔◌, IsTrue, IfOk, Contains, map};
ghost use Rattle.cedar_ast.specs.Words.{IsReserved, IsUnqualified, id_text, is_name_shared, name_loc, name_of, parts_of, reserved_word, tells_whole};

use crate::id::Id;
use crate::leading::leading_number;
use crate::loc::Loc;
use crate::memory::M;
use crate::quick_hash::QuickHash;
use crate::with_leading::{Leading, WithLeading};
use std::cmp::Ordering;
use std::fmt;
use std::hash::{Hash, Hasher};

/// The parts of a name: its base name, and the identifiers before it, outermost first.
#[derive(Debug, Drop, PartialEq, Eq, PartialOrd, Ord, Hash)]
pub(crate) struct NameParts {
    id: Id,
    path: Vec<Id>,
}

/// A name: a base name, and a path of identifiers before it. It may be reserved.
///
/// Equality, order and hash ignore the location, and whether the name is shared. Names order by
/// base name, and then by path.
#[derive_where(PartialEq, Eq, PartialOrd, Ord, Hash)]
pub struct InternalName {
    parts: WithLeading<NameParts>,
    #[derive_where(skip(EqHashOrd))]
    loc: Option<Loc>,
}

// Written out: proofs of what holds names then see one call, and nothing of their parts.
impl Drop for InternalName {
    fn drop(self) {
        let InternalName {
            parts: _parts,
            loc: _,
        } = self;
    }
}

/// Equal identifiers in the same order.
fn clone_path(path: &Vec<Id>) -> M<Vec<Id>>
    ensures { IfOk result (λ copy. map id_text copy.items ≡ map id_text path.now.items) }
{
    let mut copy = Vec::new(*path.allocator());
    for part in path {
        copy.push(part.clone()?)?;
    }
    Ok(copy)
}

/// Whether an identifier of the path is the reserved word.
fn has_reserved(path: &[Id]) -> bool
    ensures { IsTrue result ↔ Contains (map id_text path.now) reserved_word }
{
    for part in path {
        if part.is_reserved() {
            return true;
        }
    }
    false
}

impl NameParts {
    /// Equal parts.
    fn clone(&self) -> M<Self>
        ensures { IfOk result (λ copy. parts_of copy ≡ parts_of self.now) }
    {
        Ok(NameParts {
            id: self.id.clone()?,
            path: clone_path(&self.path)?,
        })
    }
}

/// Whether the number that a name begins with tells it whole: its base name is short, and it has no
/// path.
fn tells_whole(leading: u64) -> bool
    ensures { result ≡ tells_whole leading }
{
    leading % 256 < 16 && leading % 2 == 0
}

impl Leading for NameParts {
    ghost use Rattle.cedar_ast.specs.Words.{id_text, name_leading};

    ghost leading_of = { λ parts. name_leading (id_text parts.id) parts.path.items };

    fn leading(&self) -> u64 {
        let base = self.id.as_str().as_bytes();
        let short = base.len().min(8) as u8;
        let end = match self.path.as_slice() {
            [] => 2 * short,
            [..] => (2 * short + 1).min(16),
        };
        leading_number(base, end)
    }

    fn order_by_leading(leading: u64, other: u64) -> Option<Ordering> {
        if leading != other {
            return Some(leading.cmp(&other));
        }
        if tells_whole(leading) {
            return Some(Ordering::Equal);
        }
        None
    }
}

impl InternalName {
    /// The name with this base name and this path, outermost part first.
    pub fn new(id: Id, path: Vec<Id>, loc: Option<Loc>) -> Self
        ensures base { (name_of result).base ≡ id_text id }
        ensures path { (name_of result).path ≡ map id_text path.items }
        ensures loc { name_loc result ≡ loc }
    {
        InternalName {
            parts: WithLeading::new(NameParts { id, path }),
            loc,
        }
    }

    /// The same name with the same location, shared: a copy of it then only counts one more owner.
    /// Out of memory is the only refusal.
    pub fn into_shared(self) -> M<Self>
        ensures name { IfOk result (λ shared. name_of shared ≡ name_of self) }
        ensures loc { IfOk result (λ shared. name_loc shared ≡ name_loc self) }
        ensures shared { IfOk result (λ shared. IsTrue (is_name_shared shared)) }
    {
        let alloc = *self.parts.value().path.allocator();
        let InternalName { parts, loc } = self;
        Ok(InternalName {
            parts: parts.into_shared(alloc)?,
            loc,
        })
    }

    /// The base name.
    pub fn basename(&self) -> &Id
        ensures { id_text result.now ≡ (name_of self.now).base }
    {
        &self.parts.value().id
    }

    /// The identifiers before the base name, outermost first.
    pub fn path(&self) -> &[Id]
        ensures { map id_text result.now ≡ (name_of self.now).path }
    {
        self.parts.value().path.as_slice()
    }

    /// Where the name was written, if that is known.
    pub fn loc(&self) -> Option<Loc>
        ensures { result ≡ name_loc self.now }
    {
        self.loc
    }

    /// The same name, as written at this place, or nowhere.
    pub fn with_loc(self, loc: Option<Loc>) -> Self
        ensures name { name_of result ≡ name_of self }
        ensures loc { name_loc result ≡ loc }
        ensures shared { is_name_shared result ≡ is_name_shared self }
    {
        let InternalName { parts, loc: _ } = self;
        InternalName { parts, loc }
    }

    /// Whether the path is empty.
    pub fn is_unqualified(&self) -> bool
        ensures { IsTrue result ↔ IsUnqualified (name_of self.now) }
    {
        self.path().is_empty()
    }

    /// Whether a part of the name is the reserved word `__cedar`.
    pub fn is_reserved(&self) -> bool
        ensures { IsTrue result ↔ IsReserved (name_of self.now) }
    {
        self.basename().is_reserved() || has_reserved(self.path())
    }

    /// An equal name with the same location. That of a shared name is shared with it. Out of memory
    /// is the only refusal.
    pub fn clone(&self) -> M<Self>
        ensures name { IfOk result (λ copy. name_of copy ≡ name_of self.now) }
        ensures loc { IfOk result (λ copy. name_loc copy ≡ name_loc self.now) }
        ensures shared { IfOk result (λ copy. is_name_shared copy ≡ is_name_shared self.now) }
    {
        let parts = match self.parts.other_owner()? {
            Some(parts) => parts,
            None => WithLeading::new(self.parts.value().clone()?),
        };
        Ok(InternalName {
            parts,
            loc: self.loc,
        })
    }
}

impl QuickHash for InternalName {
    ghost use Rattle.cedar_ast.specs.Words.{name_input, name_of};

    ghost quick_input = { λ name. name_input (name_of name) };

    fn quick_hash<H: Hasher>(&self, state: &mut H) {
        let leading = self.parts.leading();
        state.write_u64(leading);
        if !tells_whole(leading) {
            self.parts.value().hash(state);
        }
    }
}

impl fmt::Debug for InternalName {
    fn fmt<W: fmt::Write>(&self, f: &mut fmt::Formatter<W>) -> fmt::Result {
        let parts = self.parts.value();
        f.debug_struct("InternalName")
            .field("id", &parts.id)
            .field("path", &parts.path)
            .field("loc", &self.loc)
            .finish()
    }
}

impl fmt::Display for InternalName {
    ghost use Rattle.std.specs.Prelude.{Some};
    ghost use Rattle.cedar_ast.specs.Words.{name_of, name_text};

    ghost output = { λ name. Some (name_text (name_of name)) };

    fn fmt<W: fmt::Write>(&self, f: &mut fmt::Formatter<W>) -> fmt::Result {
        let parts = self.parts.value();
        for part in &parts.path {
            write!(f, "{part}::")?;
        }
        write!(f, "{}", parts.id)
    }
}
