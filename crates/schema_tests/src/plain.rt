//! What is built of one definition, and of a reference to a common type that no file spells.

use crate::schemas::schema_of;
use cedar_schema::ValidatorSchema;
use cedar_schema::json_schema::{
    EntityType, EntityTypeKind, Fragment, NamespaceDefinition, RawName, Type,
};
use checked::names::raw;
use checked::{fragment_of, holds, sample_extensions};
use std::alloc::Global;
use std::collections::BTreeMap;
use std::test::Fail;

/// The definition of nothing.
fn nothing(alloc: Global) -> NamespaceDefinition<RawName> {
    NamespaceDefinition {
        common_types: BTreeMap::new(alloc),
        entity_types: BTreeMap::new(alloc),
        actions: BTreeMap::new(alloc),
        loc: None,
    }
}

/// The definition of what a text declares outside namespaces.
fn definition_of(alloc: Global, text: &str) -> Result<NamespaceDefinition<RawName>, Fail> {
    let mut fragment = fragment_of(alloc, text, 0)?;
    match fragment.0.remove(&None) {
        Some(definition) => Ok(definition),
        None => Ok(nothing(alloc)),
    }
}

/// Whether what is built of one definition is the schema of a text.
fn is_built_of(
    alloc: Global,
    definition: NamespaceDefinition<RawName>,
    text: &str,
) -> Result<bool, Fail> {
    let extensions = sample_extensions(alloc)?;
    let schema = ValidatorSchema::from_namespace_def(alloc, definition, &extensions)?;
    Ok(schema == schema_of(alloc, &[text])?)
}

/// What texts declare outside namespaces, each with a text of the same schema.
const ALONE: &[(&str, &str)] = &[
    (
        "entity U in V { a: Long }; external entity V; type T = Set<U>; \
         action view appliesTo { principal: U, resource: V };",
        "external entity V; entity U in V { a: Long }; \
         action view appliesTo { principal: U, resource: V };",
    ),
    ("type T = Long;", ""),
    ("", ""),
];

#[test]
fn one_definition_is_built_alone(rt: HostRuntime) -> Result<(), Fail> {
    for (text, expected) in ALONE {
        let definition = definition_of(rt.alloc(), text)?;
        holds(is_built_of(rt.alloc(), definition, expected)?, text)?;
    }
    Ok(())
}

/// Has the tags of a standard entity type be a reference to a common type.
fn refer(declared: &mut EntityType<RawName>, type_name: RawName) {
    if let EntityTypeKind::Standard(standard) = &mut declared.kind {
        let loc = None;
        standard.tags = Some(Type::CommonTypeRef { type_name, loc });
    }
}

/// Has the tags of all entity types of a definition be references to a common type.
fn refer_all(
    alloc: Global,
    definition: &mut NamespaceDefinition<RawName>,
    to: &str,
) -> Result<(), Fail> {
    for declared in definition.entity_types.values_mut() {
        refer(declared, raw(alloc, to)?);
    }
    Ok(())
}

/// The fragment of a text, whose entity types all have tags that refer to a common type.
fn referring(alloc: Global, text: &str, to: &str) -> Result<Fragment<RawName>, Fail> {
    let mut fragment = fragment_of(alloc, text, 0)?;
    for definition in fragment.0.values_mut() {
        refer_all(alloc, definition, to)?;
    }
    Ok(fragment)
}

/// Whether what is built of a text, where all tags refer to a common type, is the schema of another.
fn is_built_referring(alloc: Global, text: &str, to: &str, expected: &str) -> Result<bool, Fail> {
    let extensions = sample_extensions(alloc)?;
    let expected = schema_of(alloc, &[expected])?;
    let fragment = referring(alloc, text, to)?;
    Ok(ValidatorSchema::from_schema_frag(alloc, fragment, &extensions)? == expected)
}

/// A text, a common type that the tags of its entity types are made to refer to, and a text of the
/// same schema.
const REFERRING: &[(&str, &str, &str)] = &[
    (
        "namespace N { entity Long; entity U; }",
        "Long",
        "namespace N { entity Long tags __cedar::Long; entity U tags __cedar::Long; }",
    ),
    (
        "namespace N { type T = Long; entity T; entity U; }",
        "T",
        "namespace N { entity T tags Long; entity U tags Long; }",
    ),
    (
        "namespace N { entity U; }",
        "String",
        "namespace N { entity U tags String; }",
    ),
];

#[test]
fn references_to_common_types_name_no_entity_types(rt: HostRuntime) -> Result<(), Fail> {
    for (text, to, expected) in REFERRING {
        holds(is_built_referring(rt.alloc(), text, to, expected)?, text)?;
    }
    Ok(())
}
