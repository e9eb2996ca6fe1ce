//! What fragments declare and define, taken out of copies of them.

ghost use Rattle.std.specs.Prelude.{◌≡◌, ◌⊎◌, IfErr, IfOk};
ghost use Rattle.cedar_written_out.specs.Words.{Extensions as Given, IsFault, IsGathered, IsKnown, fault_of, out_of_memory, raw_bag};

use cedar_ast::Extensions;
use cedar_fragments::namespace::{UnqualifiedActionType, ValidatorSchemaFragment};
use cedar_fragments::{CollectedDeclarations, Declarations};
use cedar_name_resolution::defs::AllDefs;
use cedar_name_resolution::{DeclaredCommonType, DefinedNames, defined_names};
use cedar_schema_ast::json_schema::{Fragment, RawName};
use cedar_schema_semantics::SchemaError;
use std::alloc::Global;

/// What some fragments declare, and what names mean among them.
#[derive(Debug, Drop)]
pub(crate) struct Known {
    /// The declarations, in the order of the fragments; the common types among them.
    pub(crate) declarations: Declarations<RawName>,
    /// The built-in common types and their aliases.
    pub(crate) built_in: Vec<DeclaredCommonType<RawName>>,
    /// The names that are defined.
    pub(crate) defs: AllDefs,
}

/// What fragments declare, copied.
fn gathered(
    alloc: Global,
    fragments: &[Fragment<RawName>],
) -> Result<CollectedDeclarations<RawName>, SchemaError>
    ensures gathered { IfOk result (λ gathered. IsGathered (raw_bag fragments.now) gathered) }
    ensures fault { IfErr result (λ error. (fault_of error ≡ out_of_memory)
        ⊎ ((extensions : Given)
        → IsFault (raw_bag fragments.now) extensions (fault_of error))) }
{
    let unqualified = UnqualifiedActionType::new(alloc)?;
    let mut gathered = CollectedDeclarations::with_room(alloc, fragments.len())?;
    for fragment in fragments {
        let written = ValidatorSchemaFragment::as_written(alloc, fragment.clone()?, &unqualified)?;
        gathered = gathered.with(written)?;
    }
    Ok(gathered)
}

/// What fragments declare, copied, and what names mean among them.
pub(crate) fn what_is_known(
    alloc: Global,
    fragments: &[Fragment<RawName>],
    extensions: &Extensions,
) -> Result<Known, SchemaError>
    ensures known { IfOk result (IsKnown (raw_bag fragments.now) extensions.now) }
    ensures fault { IfErr result (λ error. (fault_of error ≡ out_of_memory)
        ⊎ IsFault (raw_bag fragments.now) extensions.now (fault_of error)) }
{
    let CollectedDeclarations {
        names,
        declarations,
    } = gathered(alloc, fragments)?;
    let declared = names.into_defs()?;
    let DefinedNames { defs, built_in } = defined_names::<RawName>(alloc, declared, extensions)?;
    Ok(Known {
        declarations,
        built_in,
        defs,
    })
}
