//! The steps of the builder, one after another.

ghost use Rattle.std.specs.Prelude.{◌≡◌, ◌⊎◌, IfErr, IfOk, List, OnOk};
ghost use Rattle.std.specs.Result.{result_map_both};
ghost use Rattle.cedar_schema.specs.Words.{AreKeysLocated, AreShown, AreCollectedFragments, Collects, IsBuiltFrom, IsDeclaredSchema, IsFault, IsIllFormed, IsNamedOver, TypeNamesFit, ValidatorSchemaFragment as Fragment, extension_types, fault_of, held_names, out_of_memory, parts_schema, written_bag, written_common};

use crate::collected_fragments::CollectedFragments;
use crate::collecting::Located;
use crate::shared::Shared;
use cedar_ast::Extensions;
use cedar_builder::{actions, entity_types};
use cedar_elaboration::{SharedTypes, TypeScope, defined_common_types};
use cedar_fragments::namespace::ValidatorSchemaFragment;
use cedar_fragments::{CollectedDeclarations, Declarations};
use cedar_name_resolution::defs::{AllDefs, WrittenName};
use cedar_name_resolution::{DeclaredCommonType, DefinedNames, defined_names};
use cedar_schema_semantics::SchemaError;
use cedar_validation::Parts;
use std::alloc::Global;

/// What a schema holds, and what it shows of its fragments.
#[derive(Drop)]
pub(crate) struct SchemaParts {
    /// The entity types and the actions, each with all its descendants.
    pub(crate) tables: Parts,
    /// The common types and namespaces of the fragments, with where these were written.
    pub(crate) located: Shared<Located>,
}

/// What some declarations give, where these are the names that are defined, and these the built-in
/// types and their aliases.
fn build_named<N: WrittenName + Drop>(
    alloc: Global,
    declarations: Declarations<N>,
    defs: &AllDefs,
    built_in: Vec<DeclaredCommonType<N>>,
    located: Shared<Located>,
    extensions: &Extensions,
) -> Result<SchemaParts, SchemaError>
    ensures declared { IfOk result (λ parts. (fragments : List (Fragment N N))
        → Collects N N.refer (written_bag N N.refer fragments) declarations
        → IsNamedOver (written_bag N N.refer fragments) extensions.now (held_names defs.now)
        (written_common N N.refer built_in.items)
        → IsDeclaredSchema (written_bag N N.refer fragments) extensions.now
        (parts_schema parts)) }
    ensures located { IfOk result (λ parts. parts.located ≡ located) }
    ensures keys { IfOk result (λ parts.
        AreKeysLocated parts.tables.entity_types.entries parts.tables.actions.entries) }
    ensures well_formed { OnOk result ((fragments : List (Fragment N N))
        → Collects N N.refer (written_bag N N.refer fragments) declarations
        → IsNamedOver (written_bag N N.refer fragments) extensions.now (held_names defs.now)
        (written_common N N.refer built_in.items)
        → ¬ IsIllFormed (written_bag N N.refer fragments) extensions.now) }
    ensures fault { IfErr result (λ error. (fragments : List (Fragment N N))
        → Collects N N.refer (written_bag N N.refer fragments) declarations
        → IsNamedOver (written_bag N N.refer fragments) extensions.now (held_names defs.now)
        (written_common N N.refer built_in.items)
        → (fault_of error ≡ out_of_memory)
        ⊎ IsFault (written_bag N N.refer fragments) extensions.now (fault_of error)) }
{
    let Declarations {
        common_types,
        entity_types: declared,
        actions: declared_actions,
    } = declarations;
    let shared = SharedTypes::new(alloc)?;
    let common = defined_common_types(alloc, common_types, built_in, defs, extensions, &shared)?;
    let known = TypeScope {
        common: &common,
        defs,
        extensions,
        shared: &shared,
    };
    let entity_types = entity_types(alloc, declared, &known)?;
    let actions = actions(alloc, declared_actions, &entity_types, &known)?;
    entity_types.keys_ascend();
    actions.keys_ascend();
    let tables = Parts {
        entity_types,
        actions,
    };
    Ok(SchemaParts { tables, located })
}

/// What was taken over of fragments gives over some extensions, whose names of extension types have
/// to fit, as [`Extensions::type_names_fit`] tests. Each name is looked up in the namespace that it
/// is written in.
///
/// It is refused exactly where the bag of their declarations is ill-formed, with a fault of it by
/// name, or where memory runs out.
pub(crate) fn build_collected<N: WrittenName + Drop>(
    alloc: Global,
    taken: CollectedFragments<N>,
    extensions: &Extensions,
) -> Result<SchemaParts, SchemaError>
    requires { TypeNamesFit (extension_types extensions.now) }
    ensures built { (fragments : List (Fragment N N))
        → AreCollectedFragments N N.refer fragments taken
        → IsBuiltFrom (written_bag N N.refer fragments) extensions.now
        (result_map_both parts_schema fault_of result) }
    ensures located { IfOk result (λ parts. (fragments : List (Fragment N N))
        → AreCollectedFragments N N.refer fragments taken → AreShown N N fragments parts.located) }
    ensures keys { IfOk result (λ parts.
        AreKeysLocated parts.tables.entity_types.entries parts.tables.actions.entries) }
{
    let CollectedFragments { located, gathered } = taken;
    let CollectedDeclarations {
        names,
        declarations,
    } = gathered;
    let located = Shared::new(alloc, located)?;
    let declared = names.into_defs()?;
    let DefinedNames { defs, built_in } = defined_names::<N>(alloc, declared, extensions)?;
    build_named(alloc, declarations, &defs, built_in, located, extensions)
}

/// What fragments declare over some extensions, whose names of extension types have to fit, as
/// [`Extensions::type_names_fit`] tests. Each name is looked up in the namespace that it is written
/// in.
///
/// It is refused exactly where the bag of their declarations is ill-formed, with a fault of it by
/// name, or where memory runs out.
pub(crate) fn build<N: WrittenName + Drop>(
    alloc: Global,
    fragments: Vec<ValidatorSchemaFragment<N, N>>,
    extensions: &Extensions,
) -> Result<SchemaParts, SchemaError>
    requires { TypeNamesFit (extension_types extensions.now) }
    ensures built { IsBuiltFrom (written_bag N N.refer fragments.items) extensions.now
        (result_map_both parts_schema fault_of result) }
    ensures located { IfOk result (λ parts. AreShown N N fragments.items parts.located) }
    ensures keys { IfOk result (λ parts.
        AreKeysLocated parts.tables.entity_types.entries parts.tables.actions.entries) }
{
    let mut taken = CollectedFragments::with_room(alloc, fragments.len())?;
    for fragment in fragments {
        taken = taken.with(alloc, fragment)?;
    }
    build_collected(alloc, taken, extensions)
}
