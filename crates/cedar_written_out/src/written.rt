//! The types that fragments declare, with their figures.

ghost use Rattle.std.specs.Prelude.{◌≡◌, ◌⊎◌, IfErr, IfOk};
ghost use Rattle.cedar_written_out.specs.Words.{AreListed, IsFault, TypeNamesFit, declared_exprs, definitions, extension_types, fault_of, out_of_memory, raw_bag};

use crate::common::common_figures;
use crate::gathering::{Known, what_is_known};
use crate::listing::{Measured, list_actions, list_common_types, list_entity_types};
use crate::measuring::FigureScope;
use cedar_ast::Extensions;
use cedar_elaboration::name_indices;
use cedar_fragments::Declarations;
use cedar_schema_ast::json_schema::{Fragment, RawName};
use cedar_schema_semantics::SchemaError;
use std::alloc::Global;

/// How deep and how large each type is that fragments declare over some extensions, once the common
/// types that it refers to stand in their places.
///
/// First come the definitions of the common types, then of each entity type the shape and the type
/// of its tags, if it has one, and then the contexts of the actions: each kind in the order of the
/// fragments, of their namespaces, and of the names in these. Of what is external, and of
/// enumerated entity types, there is none; the context of an action for which no requests are
/// written is the record without attributes.
///
/// It takes time linear in what is written, but for look-ups of names, whatever the size of what
/// would be written out, and goes down no further than the types are nested as they are written.
///
/// It is refused only where the builder of a schema refuses these fragments too, before it
/// elaborates any type: where an action has attributes, a name is reserved, is that of actions'
/// types or shadows another, or a common type is declared twice; or where memory runs out. As for
/// the builder, the names of extension types have to fit, as [`Extensions::type_names_fit`] tests:
/// where they don't, it may be refused for a common type that stands twice among the built-in ones.
pub fn written_out(
    alloc: Global,
    fragments: &[Fragment<RawName>],
    extensions: &Extensions,
) -> Result<Vec<Measured>, SchemaError>
    ensures listed { IfOk result (λ listed.
        AreListed (definitions (raw_bag fragments.now) extensions.now)
        (declared_exprs (raw_bag fragments.now)) listed.items) }
    ensures fault { IfErr result (λ error. (fault_of error ≡ out_of_memory)
        ⊎ (TypeNamesFit (extension_types extensions.now)
        → IsFault (raw_bag fragments.now) extensions.now (fault_of error))) }
{
    let Known {
        declarations,
        built_in,
        defs,
    } = what_is_known(alloc, fragments, extensions)?;
    let Declarations {
        common_types,
        entity_types,
        actions,
    } = declarations;
    let declared = common_types.len();
    let mut types = common_types;
    let mut built_in = built_in;
    types.append(&mut built_in)?;
    let indices = name_indices(alloc, &types)?;
    let figures = common_figures(alloc, &types, &indices, &defs)?;
    let scope = FigureScope {
        defs: &defs,
        indices: &indices,
        figures: &figures,
    };
    let mut listed = Vec::new(alloc);
    list_common_types(&mut listed, &types[..declared], &scope)?;
    list_entity_types(&mut listed, &entity_types, &scope)?;
    list_actions(&mut listed, &actions, &scope)?;
    Ok(listed)
}
