//! The namespaces of fragments, each once.

ghost use Rattle.std.specs.Prelude.{◌≡◌, ◌∷◌, ◌++◌, [], IfOk, List, None};
ghost use Rattle.std.specs.List.{flat_map};
ghost use Rattle.cedar_schema.specs.Words.{DefinedNamespace, HoldsNamespaces, built_in_namespace, definition_namespaces, name_loc, name_of, name_text, reserved_word, shown_namespace};

use crate::located_namespace::LocatedNamespace;
use cedar_ast::{Id, InternalName, Loc, M};
use cedar_fragments::namespace::ValidatorNamespaceDef;
use std::alloc::Global;
use std::collections::BTreeMap;

/// Namespaces, each under its full name.
pub(crate) type NamespacesByName = BTreeMap<InternalName, LocatedNamespace>;

/// The namespace of a name, which is defined at a location.
fn located_namespace(
    alloc: Global,
    name: &InternalName,
    def_loc: Option<Loc>,
) -> M<LocatedNamespace>
    ensures { IfOk result (λ it. shown_namespace it
        ≡ record {
          text = name_text (name_of name.now);
          name_loc = name_loc name.now;
          def_loc = def_loc;
        }) }
{
    Ok(LocatedNamespace {
        name: name.to_string(alloc)?,
        name_loc: name.loc(),
        def_loc,
    })
}

/// The namespaces, and the one of a definition in the place of an earlier one of its name.
fn with_namespace<N, A>(
    alloc: Global,
    namespaces: NamespacesByName,
    definition: &ValidatorNamespaceDef<N, A>,
) -> M<NamespacesByName>
    ensures { IfOk result (λ it. (defined : List DefinedNamespace)
        → HoldsNamespaces defined namespaces
        → HoldsNamespaces
        (defined ++ definition_namespaces N A definition.now) it) }
{
    let Some(name) = definition.namespace() else {
        return Ok(namespaces);
    };
    let mut namespaces = namespaces;
    let namespace = located_namespace(alloc, name, definition.loc())?;
    namespaces.insert(name.clone()?, namespace)?;
    Ok(namespaces)
}

/// The namespaces, and those of some definitions in the place of earlier ones of their names.
pub(crate) fn with_definitions<N, A>(
    alloc: Global,
    namespaces: NamespacesByName,
    definitions: &[ValidatorNamespaceDef<N, A>],
) -> M<NamespacesByName>
    ensures { IfOk result (λ it. (defined : List DefinedNamespace)
        → HoldsNamespaces defined namespaces
        → HoldsNamespaces (defined ++ flat_map
        (definition_namespaces N A) definitions.now) it) }
{
    let mut namespaces = namespaces;
    for definition in definitions {
        namespaces = with_namespace(alloc, namespaces, definition)?;
    }
    Ok(namespaces)
}

/// The name of the namespace of the built-in types.
fn built_in_name(alloc: Global) -> M<InternalName>
    ensures name { IfOk result (λ name. name_of name ≡ record { base = reserved_word; path = [] }) }
    ensures loc { IfOk result (λ name. name_loc name ≡ None) }
{
    match Id::new(String::from_str(alloc, "__cedar")?) {
        Some(id) => Ok(InternalName::new(id, Vec::new(alloc), None)),
        None => unreachable!(),
    }
}

/// The namespace of the built-in types alone.
pub(crate) fn built_in_namespaces(alloc: Global) -> M<NamespacesByName>
    ensures { IfOk result (HoldsNamespaces (built_in_namespace ∷ [])) }
{
    let name = built_in_name(alloc)?;
    let namespace = located_namespace(alloc, &name, None)?;
    let mut namespaces = BTreeMap::new(alloc);
    namespaces.insert(name, namespace)?;
    Ok(namespaces)
}
