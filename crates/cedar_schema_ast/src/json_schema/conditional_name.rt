//! References whose names are not resolved yet.

ghost use Rattle.std.specs.Fmt.{WritesOnOk};
ghost use Rattle.std.specs.Prelude.{◌≡◌, ◌∷◌, [], IfOk, codes, map};
ghost use Rattle.cedar_schema_ast.specs.Words.{each_after, locs_of, name_loc, name_of, name_text, names_of, possibilities_of, possibilities_text, possibility_locs, reference_type_of};

use crate::json_schema::reference_type::ReferenceType;
use cedar_ast::{InternalName, M, NonEmpty};
use std::alloc::Global;
use std::fmt;

/// A reference to a type whose name is not resolved yet: the names that it may stand for, and what
/// kind of type it may name. It stands for the first of its possibilities that is declared as such
/// a type.
///
/// Equality and hash ignore the locations of the names.
#[derive(Debug, PartialEq, Eq, Hash)]
pub struct ConditionalName {
    possibilities: NonEmpty<InternalName>,
    reference_type: ReferenceType,
}

// Written out: proofs of what holds references then see one call, and nothing of their parts.
impl Drop for ConditionalName {
    fn drop(self) {
        let ConditionalName {
            possibilities: _possibilities,
            reference_type: _,
        } = self;
    }
}

/// Equal names in the same order with the same locations.
fn clone_names(names: &Vec<InternalName>) -> M<Vec<InternalName>>
    ensures names { IfOk result (λ copy. map name_of copy.items ≡ map name_of names.now.items) }
    ensures locs { IfOk result (λ copy. map name_loc copy.items ≡ map name_loc names.now.items) }
{
    let mut copy = Vec::new(*names.allocator());
    for name in names {
        copy.push(name.clone()?)?;
    }
    Ok(copy)
}

impl ConditionalName {
    /// The reference that may stand for these names, the first to be tried first.
    pub fn new(possibilities: NonEmpty<InternalName>, reference_type: ReferenceType) -> Self
        ensures possibilities { possibilities_of result ≡ names_of possibilities }
        ensures locs { possibility_locs result ≡ locs_of possibilities }
        ensures reference_type { reference_type_of result ≡ reference_type }
    {
        ConditionalName {
            possibilities,
            reference_type,
        }
    }

    /// The reference that can stand for this name alone.
    pub fn unconditional(alloc: Global, name: InternalName, reference_type: ReferenceType) -> Self
        ensures possibilities { possibilities_of result ≡ name_of name ∷ [] }
        ensures locs { possibility_locs result ≡ name_loc name ∷ [] }
        ensures reference_type { reference_type_of result ≡ reference_type }
    {
        let possibilities = NonEmpty {
            head: name,
            tail: Vec::new(alloc),
        };
        ConditionalName::new(possibilities, reference_type)
    }

    /// The names that the reference may stand for, the first to be tried first.
    pub fn possibilities(&self) -> &NonEmpty<InternalName>
        ensures names { names_of result.now ≡ possibilities_of self.now }
        ensures locs { locs_of result.now ≡ possibility_locs self.now }
    {
        &self.possibilities
    }

    /// The names that the reference may stand for, the first to be tried first.
    pub fn into_possibilities(self) -> NonEmpty<InternalName>
        ensures names { names_of result ≡ possibilities_of self }
        ensures locs { locs_of result ≡ possibility_locs self }
    {
        let ConditionalName {
            possibilities,
            reference_type: _,
        } = self;
        possibilities
    }

    /// What kind of type the reference may name.
    pub fn reference_type(&self) -> &ReferenceType
        ensures { result.now ≡ reference_type_of self.now }
    {
        &self.reference_type
    }

    /// An equal reference with the same locations. Out of memory is the only refusal.
    pub fn clone(&self) -> M<Self>
        ensures possibilities { IfOk result
            (λ copy. possibilities_of copy ≡ possibilities_of self.now) }
        ensures locs { IfOk result (λ copy. possibility_locs copy ≡ possibility_locs self.now) }
        ensures reference_type { IfOk result
            (λ copy. reference_type_of copy ≡ reference_type_of self.now) }
    {
        Ok(ConditionalName {
            possibilities: NonEmpty {
                head: self.possibilities.head.clone()?,
                tail: clone_names(&self.possibilities.tail)?,
            },
            reference_type: self.reference_type,
        })
    }
}

/// Writes names, each with ` or ` before it.
fn write_others<W: fmt::Write>(names: &[InternalName], f: &mut fmt::Formatter<W>) -> fmt::Result
    ensures { WritesOnOk W.write_str_gives f.old result
        (each_after (codes " or ") (map name_text (map name_of names.now))) f.new }
{
    for name in names {
        write!(f, " or {name}")?;
    }
    Ok(())
}

/// Writes the names that a reference may stand for, in order, with ` or ` between them.
pub(crate) fn write_possibilities<W: fmt::Write>(
    reference: &ConditionalName,
    f: &mut fmt::Formatter<W>,
) -> fmt::Result
    ensures { WritesOnOk W.write_str_gives f.old result
        (possibilities_text (possibilities_of reference.now)) f.new }
{
    write!(f, "{}", reference.possibilities.head)?;
    write_others(reference.possibilities.tail.as_slice(), f)
}

/// Prints the last of the possibilities, which is the name as it was written.
impl fmt::Display for ConditionalName {
    ghost use Rattle.std.specs.Option.{option_map};
    ghost use Rattle.cedar_schema_ast.specs.ConditionalName.{last_possibility};

    ghost output = { λ name. option_map name_text (last_possibility name) };

    fn fmt<W: fmt::Write>(&self, f: &mut fmt::Formatter<W>) -> fmt::Result {
        match self.possibilities.tail.last() {
            Some(name) => name.fmt(f),
            None => self.possibilities.head.fmt(f),
        }
    }
}
