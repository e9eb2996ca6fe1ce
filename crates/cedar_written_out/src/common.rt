//! Common types, each measured once.

ghost use Rattle.std.specs.Prelude.{IfOk};
ghost use Rattle.cedar_written_out.specs.Words.{AreFigures, AreIndices, Defined, DefinesJust, held_names, indexed_names, item_names, raw_reference, written_common};
ghost use Rattle.cedar_written_out.specs.Words.{RawName as Raw};

use crate::figure::Figure;
use crate::measuring::{FigureScope, measure};
use cedar_ast::M;
use cedar_elaboration::{Indices, all_targets};
use cedar_graph::lowest_first;
use cedar_name_resolution::DeclaredCommonType;
use cedar_name_resolution::defs::AllDefs;
use cedar_schema_ast::json_schema::RawName;
use std::alloc::Global;

/// The figures of the common types by their indices, None where one has none. Each is measured
/// once, after those that it refers to, but for those that lead back to themselves.
pub(crate) fn common_figures(
    alloc: Global,
    types: &[DeclaredCommonType<RawName>],
    indices: &Indices,
    defs: &AllDefs,
) -> M<Vec<Option<Figure>>>
    requires { AreIndices (item_names (written_common Raw raw_reference types.now))
        (indexed_names indices.now) }
    ensures { IfOk result (λ figures. (defined : Defined)
        → DefinesJust (written_common Raw raw_reference types.now) (held_names defs.now) defined
        → AreFigures defined figures.items) }
{
    let targets = all_targets(alloc, types, indices, defs)?;
    let order = lowest_first(alloc, &targets)?;
    let mut figures: Vec<Option<Figure>> = vec![in alloc; None; types.len()]?;
    for item_index in &order {
        let item = &types[*item_index];
        let scope = FigureScope {
            defs,
            indices,
            figures: &figures,
        };
        let figure = measure(&item.1.declared, item.1.namespace(), &scope)?;
        figures[*item_index] = figure;
    }
    Ok(figures)
}
