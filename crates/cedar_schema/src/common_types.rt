//! The common types of fragments that a schema shows.

ghost use Rattle.std.specs.Prelude.{◌≡◌, ◌++◌, IfOk, map};
ghost use Rattle.std.specs.List.{flat_map, list_any};
ghost use Rattle.std.specs.Str.{bytes_eq};
ghost use Rattle.cedar_schema.specs.Words.{common_types_to_show, definition_common_types, is_shown, located_name, primitive_words, shown_common_type};

use crate::located_common_type::LocatedCommonType;
use crate::type_locations::type_loc;
use cedar_ast::{InternalName, M};
use cedar_fragments::namespace::{CommonTypeDef, ValidatorNamespaceDef};
use std::alloc::Global;

/// Whether a text is the name of a primitive type.
fn names_primitive(text: &str) -> bool
    ensures { result ≡ list_any (bytes_eq text.now) primitive_words }
{
    text == "Bool" || text == "Long" || text == "String"
}

/// Whether a common type of this name is shown: it is known where it was declared, and its base
/// name is none of a primitive type.
fn is_to_be_shown(name: &InternalName) -> bool
    ensures { result ≡ is_shown (located_name name.now) }
{
    name.loc().is_some() && !names_primitive(name.basename().as_str())
}

/// The common types, and then also those of a definition that are shown.
fn with_common_types<N>(
    alloc: Global,
    shown: Vec<LocatedCommonType>,
    defs: &[CommonTypeDef<N>],
) -> M<Vec<LocatedCommonType>>
    ensures { IfOk result (λ it. map shown_common_type it.items
        ≡ map shown_common_type shown.items ++ common_types_to_show N defs.now) }
{
    let mut shown = shown;
    for def in defs {
        if is_to_be_shown(&def.name) {
            shown.push(LocatedCommonType::at(alloc, &def.name, type_loc(&def.ty))?)?;
        }
    }
    Ok(shown)
}

/// The common types, and then also those of some definitions that are shown.
pub(crate) fn with_definitions<N, A>(
    alloc: Global,
    shown: Vec<LocatedCommonType>,
    definitions: &[ValidatorNamespaceDef<N, A>],
) -> M<Vec<LocatedCommonType>>
    ensures { IfOk result (λ it. map shown_common_type it.items ≡ map shown_common_type shown.items
        ++ common_types_to_show N
        (flat_map (definition_common_types N A) definitions.now)) }
{
    let mut shown = shown;
    for definition in definitions {
        shown = with_common_types(alloc, shown, definition.common_types())?;
    }
    Ok(shown)
}
