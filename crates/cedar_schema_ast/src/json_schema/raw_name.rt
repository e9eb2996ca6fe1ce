//! Names as they were written.

ghost use Rattle.std.specs.Prelude.{◌≡◌, IfOk, IfErr, None, map};
ghost use Rattle.cedar_schema_ast.specs.Words.{IsNameFault, IsNameText, conditional_reference, name_loc, name_of, name_text, name_within, namespace_name, possibilities_of, possibility_locs, qualified_name, raw_loc, raw_name, reference_to};

use crate::json_schema::conditional_name::ConditionalName;
use crate::json_schema::reference_type::ReferenceType;
use cedar_ast::{InternalName, Loc, M, NameFault, NonEmpty};
use std::alloc::Global;
use std::fmt;

/// A name as a schema writes it, before it is known in which namespace to look it up.
///
/// Equality and hash ignore the location.
#[derive(Debug, Drop, PartialEq, Eq, Hash)]
pub struct RawName(InternalName);

/// The name in a namespace that has the base name and the location of another.
fn name_in(alloc: Global, namespace: &InternalName, name: &InternalName) -> M<InternalName>
    ensures name { IfOk result (λ full.
        name_of full ≡ name_within (Some (name_of namespace.now)) (name_of name.now).base) }
    ensures loc { IfOk result (λ full. name_loc full ≡ name_loc name.now) }
{
    let mut path = Vec::new(alloc);
    for part in namespace.path() {
        path.push(part.clone()?)?;
    }
    path.push(namespace.basename().clone()?)?;
    Ok(InternalName::new(name.basename().clone()?, path, name.loc()))
}

impl RawName {
    /// The name as it was written.
    pub fn new(name: InternalName) -> Self
        ensures name { raw_name result ≡ name_of name }
        ensures loc { raw_loc result ≡ name_loc name }
    {
        RawName(name)
    }

    /// The name that a text spells: identifiers joined by `::`, with nothing else between them. It
    /// has no location. It is refused exactly where no name prints as the text, with the byte at
    /// which it stops being one, or out of memory.
    pub fn from_str(alloc: Global, text: &str) -> Result<Self, NameFault>
        ensures name { IfOk result (λ name. name_text (raw_name name) ≡ text.now) }
        ensures loc { IfOk result (λ name. raw_loc name ≡ None) }
        ensures fault { IfErr result (IsNameFault IsNameText (λ _. ⊥) (λ _. ⊥) text.now) }
    {
        Ok(RawName(InternalName::from_str(alloc, text)?))
    }

    /// The name as it was written.
    pub fn as_internal(&self) -> &InternalName
        ensures name { name_of result.now ≡ raw_name self.now }
        ensures loc { name_loc result.now ≡ raw_loc self.now }
    {
        &self.0
    }

    /// The name as it was written.
    pub fn into_internal(self) -> InternalName
        ensures name { name_of result ≡ raw_name self }
        ensures loc { name_loc result ≡ raw_loc self }
    {
        self.0
    }

    /// Where the name was written, if that is known.
    pub fn loc(&self) -> Option<Loc>
        ensures { result ≡ raw_loc self.now }
    {
        self.0.loc()
    }

    /// The name in full of what is declared under this name in the namespace: an unqualified name
    /// with the namespace before it, and a qualified name itself. In the empty namespace, None, it
    /// is the name itself. Out of memory is the only refusal.
    pub fn qualify_with(self, alloc: Global, namespace: Option<&InternalName>) -> M<InternalName>
        ensures name { IfOk result (λ full.
            name_of full ≡ qualified_name (namespace_name namespace.entry) (raw_name self)) }
        ensures loc { IfOk result (λ full. name_loc full ≡ raw_loc self) }
    {
        match namespace {
            Some(namespace) if self.0.is_unqualified() => name_in(alloc, namespace, &self.0),
            _ => Ok(self.0),
        }
    }

    /// The reference that the name is where it is written in the namespace: an unqualified name may
    /// stand for the name in the namespace, and then for itself. A qualified name, and any name in
    /// the empty namespace, may stand for itself alone. Out of memory is the only refusal.
    pub fn conditionally_qualify_with(
        self,
        alloc: Global,
        namespace: Option<&InternalName>,
        reference_type: ReferenceType,
    ) -> M<ConditionalName>
        ensures reference { IfOk result (λ name. conditional_reference name
            ≡ reference_to (namespace_name namespace.entry) reference_type (raw_name self)) }
        ensures locs { IfOk result (λ name.
            possibility_locs name ≡ map (λ _. raw_loc self) (possibilities_of name)) }
    {
        match namespace {
            Some(namespace) if self.0.is_unqualified() => {
                let possibilities = NonEmpty {
                    head: name_in(alloc, namespace, &self.0)?,
                    tail: vec![in alloc; self.0]?,
                };
                Ok(ConditionalName::new(possibilities, reference_type))
            }
            _ => Ok(ConditionalName::unconditional(alloc, self.0, reference_type)),
        }
    }

    /// An equal name with the same location. Out of memory is the only refusal.
    pub fn clone(&self) -> M<Self>
        ensures name { IfOk result (λ copy. raw_name copy ≡ raw_name self.now) }
        ensures loc { IfOk result (λ copy. raw_loc copy ≡ raw_loc self.now) }
    {
        Ok(RawName(self.0.clone()?))
    }
}

impl fmt::Display for RawName {
    ghost use Rattle.std.specs.Prelude.{Some};
    ghost use Rattle.cedar_schema_ast.specs.Words.{name_text, raw_name};

    ghost output = { λ name. Some (name_text (raw_name name)) };

    fn fmt<W: fmt::Write>(&self, f: &mut fmt::Formatter<W>) -> fmt::Result {
        self.0.fmt(f)
    }
}
