//! The names that are declared, and those that are defined.

ghost use Rattle.std.specs.Prelude.{◌≡◌, ◌∷◌, [], IfOk, OnOk, false, map};
ghost use Rattle.cedar_ast.specs.Words.{id_text, name_of, type_name, uid_of};
ghost use Rattle.cedar_diagnosis.specs.Adding.{Adds, SomeGives, optional};
ghost use Rattle.cedar_diagnosis.specs.BuiltIn.{IsBuiltInName};
ghost use Rattle.cedar_diagnosis.specs.Lent.{declaration_of, declarations_of};
ghost use Rattle.cedar_name_resolution.specs.Words.{HasAlso, HoldsJust, held_names, names_given, type_names};
ghost use Rattle.cedar_schema_semantics.specs.Words.{Bag, built_in_name, built_in_types, defined_names};

use crate::lent::Lent;
use crate::shadowing::is_type;
use cedar_ast::{EntityType, EntityUID, Extensions, Id, InternalName, M, identifier};
use cedar_name_resolution::defs::{AllDefs, DeclaresNames, NameLists};
use std::alloc::Global;

/// Adds a name, if there is one.
fn push_name(names: &mut Vec<InternalName>, name: Option<InternalName>) -> M<()>
    ensures { OnOk result (HasAlso (map name_of names.new.items) (map name_of names.old.items)
        (optional name_of name)) }
{
    if let Some(name) = name {
        names.push(name)?;
    }
    Ok(())
}

/// Adds a uid, if there is one.
fn push_uid(uids: &mut Vec<EntityUID>, uid: Option<EntityUID>) -> M<()>
    ensures { OnOk result (HasAlso (map uid_of uids.new.items) (map uid_of uids.old.items)
        (optional uid_of uid)) }
{
    if let Some(uid) = uid {
        uids.push(uid)?;
    }
    Ok(())
}

/// The name of an entity type, if there is one.
fn into_name(ty: Option<EntityType>) -> Option<InternalName>
    ensures { optional name_of result ≡ optional type_name ty }
{
    match ty {
        Some(ty) => Some(ty.into_name().into_internal()),
        None => None,
    }
}

impl DeclaresNames for Lent<'_> {
    ghost names = { λ it. names_given (declaration_of it ∷ []) };

    fn list_names(&self, lists: &mut NameLists) -> M<()> {
        let alloc = lists.alloc;
        push_name(&mut lists.common, self.common_name(alloc)?)?;
        push_name(&mut lists.entities, into_name(self.entity_name(alloc)?))?;
        push_uid(&mut lists.actions, self.action_uid(alloc)?)
    }
}

/// The names that are declared.
pub(crate) fn declared_names(alloc: Global, bag: &[Lent]) -> M<AllDefs>
    ensures { IfOk result (λ defs.
        HoldsJust (held_names defs) (names_given (declarations_of bag.now))) }
{
    AllDefs::new(alloc, bag)
}

/// The base names of built-in types.
fn built_in_words(alloc: Global, extensions: &Extensions) -> M<Vec<Id>>
    ensures { IfOk result (λ words.
        map id_text words.items ≡ map (λ it. it.0) (built_in_types extensions.now)) }
{
    let mut words = Vec::new(alloc);
    words.push(identifier(alloc, "Bool")?)?;
    words.push(identifier(alloc, "Long")?)?;
    words.push(identifier(alloc, "String")?)?;
    for name in extensions.ext_types() {
        words.push(name.basename().clone()?)?;
    }
    Ok(words)
}

/// The full name of a built-in type: its base name in the namespace `__cedar`.
fn full_built_in_name(alloc: Global, word: &Id) -> M<InternalName>
    ensures { IfOk result (λ name. name_of name ≡ built_in_name (id_text word.now)) }
{
    let mut path = Vec::new(alloc);
    path.push(identifier(alloc, "__cedar")?)?;
    Ok(InternalName::new(word.clone()?, path, None))
}

/// Adds a name that isn't taken.
fn add_free(name: InternalName, is_taken: bool, names: &mut Vec<InternalName>) -> M<()>
    ensures { OnOk result (Adds (λ each. (name_of name ≡ each) × (is_taken ≡ false))
        (map name_of names.old.items) (map name_of names.new.items)) }
{
    if !is_taken {
        names.push(name)?;
    }
    Ok(())
}

/// Adds the names of the built-in type of a base name: the full one, and the base name alone unless
/// a type of that name is declared.
fn add_built_in(
    alloc: Global,
    word: &Id,
    declared: &AllDefs,
    names: &mut Vec<InternalName>,
) -> M<()>
    ensures { OnOk result (Adds
        (IsBuiltInName (type_names (held_names declared.now)) (id_text word.now))
        (map name_of names.old.items) (map name_of names.new.items)) }
{
    names.push(full_built_in_name(alloc, word)?)?;
    let alias = InternalName::new(word.clone()?, Vec::new(alloc), None);
    let is_taken = is_type(declared, &alias);
    add_free(alias, is_taken, names)
}

/// The names of built-in types where these names are declared.
fn built_in_names(alloc: Global, words: &[Id], declared: &AllDefs) -> M<Vec<InternalName>>
    ensures { IfOk result (λ names. Adds
        (SomeGives (IsBuiltInName (type_names (held_names declared.now))) (map id_text words.now))
        [] (map name_of names.items)) }
{
    let mut names = Vec::new(alloc);
    for word in words {
        add_built_in(alloc, word, declared, &mut names)?;
    }
    Ok(names)
}

/// The same names, and among those of common types also some more.
fn with_names(defs: AllDefs, names: &[InternalName]) -> M<AllDefs>
    ensures common { IfOk result (λ after. HasAlso (held_names after).common
        (held_names defs).common (map name_of names.now)) }
    ensures entities_stay { IfOk result (λ after.
        (held_names after).entities ≡ (held_names defs).entities) }
    ensures actions_stay { IfOk result (λ after.
        (held_names after).actions ≡ (held_names defs).actions) }
{
    let mut defs = defs;
    for name in names {
        defs.mark_as_defined_as_common_type(name.clone()?)?;
    }
    Ok(defs)
}

/// All names that are defined where these are declared: also the built-in types with their aliases,
/// and the types of actions.
pub(crate) fn all_names(alloc: Global, declared: AllDefs, extensions: &Extensions) -> M<AllDefs>
    ensures { IfOk result (λ defs. (bag : Bag)
        → HoldsJust (held_names declared) (names_given bag)
        → HoldsJust (held_names defs) (defined_names bag extensions.now)) }
{
    let words = built_in_words(alloc, extensions)?;
    let names = built_in_names(alloc, &words, &declared)?;
    with_names(declared, &names)?.with_action_types()
}
