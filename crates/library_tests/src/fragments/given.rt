//! Definitions and fragments that are put together, and the names that they show.

use crate::fragments::copies::{Conditional, Definition, WRITTEN, conditional};
use crate::fragments::shown::shown;
use crate::types::test_values::PLACE;
use cedar_ast::{InternalName, M, Name};
use cedar_fragments::namespace::{
    ActionsDef, CommonTypeDefs, EntityTypesDef, ValidatorNamespaceDef, ValidatorSchemaFragment,
};
use cedar_schema_ast::json_schema::{ConditionalName, Type, TypeVariant};
use checked::names::{internal_name, unreserved_id};
use checked::{fragment_of, holds, same};
use std::alloc::Global;
use std::collections::HashMap;
use std::fmt::Write;
use std::test::Fail;

/// The fragment of the definitions of a text, so often one after another.
fn of_definitions(alloc: Global, text: &str, times: u32) -> Result<Conditional, Fail> {
    let mut definitions = Vec::new(alloc);
    for number in 0..times {
        for (name, written) in fragment_of(alloc, text, number + 1)?.0 {
            let name = name.map(Name::into_internal);
            let definition = ValidatorNamespaceDef::from_namespace_definition(
                alloc, name, written,
            )?;
            definitions.push(definition)?;
        }
    }
    Ok(ValidatorSchemaFragment::from_namespaces(alloc, definitions)?)
}

/// The base names of the namespaces of a fragment, and `none` for the empty one.
fn namespaces(alloc: Global, fragment: &Conditional) -> M<String> {
    let mut texts = String::new(alloc);
    for namespace in fragment.namespaces() {
        let base = namespace.map_or("none", |name| name.basename().as_str());
        write!(texts, "{base} ")?;
    }
    Ok(texts)
}

#[test]
fn fragments_keep_definitions_of_one_namespace(rt: HostRuntime) -> Result<(), Fail> {
    let alloc = rt.alloc();
    let fragment = of_definitions(alloc, "namespace N { entity T; }\nentity T;", 2)?;
    same(
        "namespaces",
        namespaces(alloc, &fragment)?.as_str(),
        "none N none N ",
    )
}

#[test]
fn plain_data_becomes_its_definitions(rt: HostRuntime) -> Result<(), Fail> {
    let alloc = rt.alloc();
    let plain = shown(alloc, conditional(alloc, WRITTEN)?)?;
    let expected = shown(alloc, of_definitions(alloc, WRITTEN, 1)?)?;
    same("plain data", plain.as_str(), expected.as_str())
}

/// A definition of two declarations of each kind, some of them external.
const TWO_OF_EACH: &str = "namespace N { type C = Long; type D = Long; entity E; \
     external entity F; action a; external action b; }";

/// The common types, entity types and actions that a definition declares.
fn declared(alloc: Global, definition: &Definition) -> M<String> {
    let mut names = String::new(alloc);
    for name in definition.all_declared_common_type_names() {
        write!(names, "{name} ")?;
    }
    for name in definition.all_declared_entity_type_names() {
        write!(names, "{name} ")?;
    }
    for uid in definition.all_declared_action_names() {
        write!(names, "{uid} ")?;
    }
    Ok(names)
}

/// The same of what is lent of its parts.
fn lent(
    alloc: Global,
    common_types: &CommonTypeDefs<ConditionalName>,
    entity_types: &EntityTypesDef<ConditionalName>,
    actions: &ActionsDef<ConditionalName, ConditionalName>,
) -> M<String> {
    let mut names = String::new(alloc);
    for def in common_types.iter() {
        write!(names, "{} ", def.name)?;
    }
    for def in entity_types.iter() {
        write!(names, "{} ", def.name)?;
    }
    for def in actions.iter() {
        write!(names, "{} ", def.uid)?;
    }
    Ok(names)
}

/// The names of the declarations of that definition.
const NAMES: &str = "N::C N::D N::E N::F N::Action::\"a\" N::Action::\"b\" ";

#[test]
fn definitions_show_their_names(rt: HostRuntime) -> Result<(), Fail> {
    let alloc = rt.alloc();
    for definition in conditional(alloc, TWO_OF_EACH)?.into_definitions() {
        same("names", declared(alloc, &definition)?.as_str(), NAMES)?;
        let (common_types, entity_types, actions) = definition.into_parts();
        let lent = lent(alloc, &common_types, &entity_types, &actions)?;
        same("parts", lent.as_str(), NAMES)?;
    }
    Ok(())
}

/// Whole numbers, at a place.
fn long() -> Type<ConditionalName> {
    Type::Plain {
        ty: TypeVariant::Long,
        loc: Some(PLACE),
    }
}

/// The definition of `N` that declares a map of the common type `C`.
fn several(alloc: Global, inside: InternalName) -> Result<Definition, Fail> {
    let mut definitions = HashMap::new(alloc);
    definitions.insert(unreserved_id(alloc, "C")?, long())?;
    Ok(ValidatorNamespaceDef::from_common_type_defs(alloc, Some(inside), definitions)?)
}

/// The definition of `N` that declares the common type `C`.
fn single(alloc: Global, inside: InternalName) -> Result<Definition, Fail> {
    let definition = (unreserved_id(alloc, "C")?, long());
    Ok(ValidatorNamespaceDef::from_common_type_def(alloc, Some(inside), definition)?)
}

/// What is shown of the common type that these declare.
const GIVEN: &str = "common_types: CommonTypeDefs { defs: [CommonTypeDef { \
     name: InternalName { id: Id { text: \"C\" }, path: [Id { text: \"N\" }], loc: None }, \
     ty: Plain { ty: Long, loc: Some(Loc { source: 1, start: 2, stop: 5 }) } }] }";

#[test]
fn given_common_types_are_declared(rt: HostRuntime) -> Result<(), Fail> {
    let alloc = rt.alloc();
    let several = shown(alloc, several(alloc, internal_name(alloc, "N")?)?)?;
    holds(several.contains(GIVEN), several.as_str())?;
    let single = shown(alloc, single(alloc, internal_name(alloc, "N")?)?)?;
    holds(single.contains(GIVEN), single.as_str())
}

/// Why the definition of a text is refused in a namespace.
fn defined_in(alloc: Global, namespace: &str, text: &str) -> Result<String, Fail> {
    let inside = internal_name(alloc, namespace)?;
    let Some((_, written)) = fragment_of(alloc, text, 1)?.0.pop_first() else {
        return Err(Fail::from("no definition"));
    };
    match ValidatorNamespaceDef::from_namespace_definition(alloc, Some(inside), written) {
        Ok(_) => Err(Fail::from("no refusal")),
        Err(error) => Ok(format!(in alloc; "{error}")?),
    }
}

#[test]
fn definitions_of_reserved_namespaces_are_refused(rt: HostRuntime) -> Result<(), Fail> {
    let refusal = defined_in(rt.alloc(), "A::__cedar::N", "entity T;")?;
    same(
        "entity T;",
        refusal.as_str(),
        "the name A::__cedar::N::T is reserved",
    )
}
