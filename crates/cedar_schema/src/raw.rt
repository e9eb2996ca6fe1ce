//! The builder over fragments as they are written.

ghost use Rattle.std.specs.Prelude.{IfErr, IfOk};
ghost use Rattle.std.specs.Result.{result_map_both};
ghost use Rattle.cedar_schema.specs.Words.{AreKeysLocated, IsBuiltFrom, NamesAllOfADefinition, ShowsWritten, TypeNamesFit, extension_types, fault_of, parts_schema, raw_bag};

use crate::building::{SchemaParts, build_collected};
use crate::collected_fragments::CollectedFragments;
use cedar_ast::Extensions;
use cedar_fragments::namespace::{UnqualifiedActionType, ValidatorSchemaFragment};
use cedar_schema_ast::json_schema::{Fragment, RawName};
use cedar_schema_semantics::SchemaError;
use std::alloc::Global;

/// What fragments declare over some extensions, whose names of extension types have to fit, as
/// [`Extensions::type_names_fit`] tests.
///
/// It is refused exactly where the bag of their declarations is ill-formed, with a fault of it by
/// name, or where memory runs out. A refusal for actions with attributes names all those of one
/// definition.
pub(crate) fn build_raw(
    alloc: Global,
    fragments: Vec<Fragment<RawName>>,
    extensions: &Extensions,
) -> Result<SchemaParts, SchemaError>
    requires { TypeNamesFit (extension_types extensions.now) }
    ensures built { IsBuiltFrom (raw_bag fragments.items) extensions.now
        (result_map_both parts_schema fault_of result) }
    ensures all_named { IfErr result (λ error.
        NamesAllOfADefinition fragments.items (fault_of error)) }
    ensures located { IfOk result (λ parts. ShowsWritten fragments.items parts.located) }
    ensures keys { IfOk result (λ parts.
        AreKeysLocated parts.tables.entity_types.entries parts.tables.actions.entries) }
{
    let unqualified = UnqualifiedActionType::new(alloc)?;
    let mut taken = CollectedFragments::with_room(alloc, fragments.len())?;
    for fragment in fragments {
        let written = ValidatorSchemaFragment::as_written(alloc, fragment, &unqualified)?;
        taken = taken.with(alloc, written)?;
    }
    build_collected(alloc, taken, extensions)
}
