//! What the names in a namespace's definition would name.

ghost use Rattle.std.specs.Option.{option_map};
ghost use Rattle.std.specs.Prelude.{◌≡◌, IfOk, map};
ghost use Rattle.cedar_ast.specs.Words.{IsIdentifier, name_of, plain_name};
ghost use Rattle.cedar_name_resolution.specs.Words.{held_names};
ghost use Rattle.cedar_schema_ast.specs.Words.{namespace_name, possibilities_of, possible_names, raw_name};
ghost use Rattle.cedar_schema_text_writer.specs.Scope.{first_in, namespace_in};
ghost use Rattle.cedar_schema_semantics.specs.Words.{alias_name};
ghost use Rattle.cedar_schema_text_writer.specs.Names.{first_standing, standing_of};

use cedar_ast::{InternalName, M, Name, identifier};
use cedar_name_resolution::defs::AllDefs;
use cedar_schema_ast::json_schema::{ConditionalName, RawName, ReferenceType};
use std::alloc::Global;

/// What a name is declared as.
#[derive(Clone, Copy)]
pub enum Standing {
    /// A common type, and perhaps an entity type too.
    Common,
    /// An entity type alone.
    Entity,
    /// Neither.
    Undeclared,
}

/// The names that are declared, and the namespace that names are written in.
#[derive(Clone, Copy)]
pub(crate) struct Scope<'a> {
    /// Where names are made that are looked up.
    pub(crate) alloc: Global,
    /// The names that are declared.
    pub(crate) known: &'a AllDefs,
    /// The namespace; None is the empty one.
    pub(crate) namespace: &'a Option<Name>,
}

/// The name of a namespace, reserved or not.
pub(crate) fn namespace_of(namespace: &Option<Name>) -> Option<&InternalName>
    ensures { namespace_name result ≡ option_map plain_name namespace.now }
{
    match namespace {
        Some(name) => Some(name.as_internal()),
        None => None,
    }
}

/// What a name in full is declared as.
fn standing_of(known: &AllDefs, name: &InternalName) -> Standing
    ensures { result ≡ standing_of (held_names known.now) (name_of name.now) }
{
    if known.is_defined_as_common(name) {
        Standing::Common
    } else if known.is_defined_as_entity(name) {
        Standing::Entity
    } else {
        Standing::Undeclared
    }
}

/// What the first of some names that is declared is declared as.
fn first_of(known: &AllDefs, names: &[InternalName]) -> Standing
    ensures { result ≡ first_standing (held_names known.now) (map name_of names.now) }
{
    for name in names {
        match standing_of(known, name) {
            Standing::Undeclared => {}
            Standing::Common => return Standing::Common,
            Standing::Entity => return Standing::Entity,
        }
    }
    Standing::Undeclared
}

/// What the first of a reference's possibilities that is declared is declared as.
fn first_standing(known: &AllDefs, name: &ConditionalName) -> Standing
    ensures { result ≡ first_standing (held_names known.now) (possibilities_of name.now) }
{
    let possibilities = name.possibilities();
    match standing_of(known, &possibilities.head) {
        Standing::Undeclared => first_of(known, possibilities.tail.as_slice()),
        Standing::Common => Standing::Common,
        Standing::Entity => Standing::Entity,
    }
}

impl Scope<'_> {
    /// What the first of a written name's possibilities that is declared is declared as.
    pub(crate) fn first(self, name: &RawName) -> M<Standing>
        ensures { IfOk result (λ it. it ≡ first_in self.entry
            (possible_names (namespace_in self.entry) (raw_name name.now))) }
    {
        let name = name.clone()?;
        let namespace = namespace_of(self.namespace);
        let kind = ReferenceType::CommonOrEntity;
        let reference = name.conditionally_qualify_with(self.alloc, namespace, kind)?;
        Ok(first_standing(self.known, &reference))
    }

    /// What the first possibility of a base name alone that is declared is declared as.
    pub(crate) fn first_of_word(self, word: &str) -> M<Standing>
        requires { IsIdentifier word.now }
        ensures { IfOk result (λ it. it ≡ first_in self.entry
            (possible_names (namespace_in self.entry) (alias_name word.now))) }
    {
        let word = identifier(self.alloc, word)?;
        let name = RawName::new(InternalName::new(word, Vec::new(self.alloc), None));
        self.first(&name)
    }
}
