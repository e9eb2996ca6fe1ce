//! All faults of fragments.

ghost use Rattle.std.specs.Prelude.{IfOk, OnOk, map};
ghost use Rattle.cedar_ast.specs.Words.{TypeNamesFit, extension_types};
ghost use Rattle.cedar_ast.specs.declared.extension.Extensions.{Extensions as Given};
ghost use Rattle.cedar_diagnosis.specs.Kinds.{IsDiagnosis, TellsTogether, declared_kinds, told_kinds, type_kinds};
ghost use Rattle.cedar_diagnosis.specs.Lent.{declarations_of};
ghost use Rattle.cedar_name_resolution.specs.Words.{HoldsJust, held_names, names_given};
ghost use Rattle.cedar_schema_ast.specs.Words.{raw_bag};
ghost use Rattle.cedar_schema_semantics.specs.Words.{defined_names, fault_of};

use crate::action_attributes::ActionAttributes;
use crate::action_cycles::ActionCycles;
use crate::action_entity_types::ActionEntityTypes;
use crate::common_type_cycles::CommonTypeCycles;
use crate::cycles::tell_cycles;
use crate::defined::{all_names, declared_names};
use crate::duplicates::{DuplicateActions, DuplicateCommonTypes, DuplicateEntityTypes};
use crate::enumerated::{EnumeratedBelow, enumerated_types};
use crate::finding::tell_found;
use crate::lent::Lent;
use crate::listing::listed;
use crate::open_records::OpenRecords;
use crate::repeated::tell_repeated;
use crate::shadowing::{ShadowedActions, ShadowedTypes};
use crate::undeclared_types::UndeclaredTypes;
use crate::undefined_parents::UndefinedParents;
use crate::undefined_types::UndefinedTypes;
use crate::unknown_extensions::UnknownExtensions;
use cedar_ast::{Extensions, M};
use cedar_name_resolution::defs::AllDefs;
use cedar_schema_ast::json_schema::{Fragment, RawName};
use cedar_schema_semantics::SchemaError;
use std::alloc::Global;

/// Tells what is at fault in names, and what is declared twice.
fn tell_declared(
    alloc: Global,
    bag: &[Lent],
    declared: &AllDefs,
    faults: &mut Vec<SchemaError>,
) -> M<()>
    requires { HoldsJust (held_names declared.now) (names_given (declarations_of bag.now)) }
    ensures { OnOk result ((extensions : Given) → TypeNamesFit (extension_types extensions)
        → TellsTogether (declarations_of bag.now) extensions declared_kinds
        (map fault_of faults.old.items) (map fault_of faults.new.items)) }
{
    tell_found(alloc, &ShadowedTypes { declared }, bag, faults)?;
    tell_found(alloc, &ShadowedActions { declared }, bag, faults)?;
    tell_repeated::<DuplicateCommonTypes>(alloc, bag, faults)?;
    tell_repeated::<DuplicateEntityTypes>(alloc, bag, faults)?;
    tell_repeated::<DuplicateActions>(alloc, bag, faults)?;
    tell_found(alloc, &ActionEntityTypes, bag, faults)?;
    tell_found(alloc, &ActionAttributes, bag, faults)?;
    Ok(())
}

/// Tells what is at fault in types and in references, where these names are defined.
fn tell_types(
    alloc: Global,
    bag: &[Lent],
    defs: &AllDefs,
    extensions: &Extensions,
    faults: &mut Vec<SchemaError>,
) -> M<()>
    requires { HoldsJust (held_names defs.now)
        (defined_names (declarations_of bag.now) extensions.now) }
    ensures { OnOk result (TellsTogether (declarations_of bag.now) extensions.now type_kinds
        (map fault_of faults.old.items) (map fault_of faults.new.items)) }
{
    tell_found(alloc, &OpenRecords, bag, faults)?;
    tell_found(alloc, &UnknownExtensions { extensions }, bag, faults)?;
    tell_found(alloc, &UndefinedTypes { defs }, bag, faults)?;
    tell_found(alloc, &UndeclaredTypes { defs }, bag, faults)?;
    tell_found(alloc, &UndefinedParents { defs }, bag, faults)?;
    let enumerated = &enumerated_types(alloc, bag)?;
    tell_found(alloc, &EnumeratedBelow { defs, enumerated }, bag, faults)?;
    tell_cycles(alloc, &CommonTypeCycles { defs }, bag, faults)?;
    tell_cycles(alloc, &ActionCycles { defs }, bag, faults)?;
    Ok(())
}

/// The faults of fragments, each once: what the builder would refuse them for.
///
/// Where a fault may name several of its kind, one is told for each: an undefined reference, or an
/// action with attributes. These kinds are told:
///
/// - `TypeShadowing`, `ActionShadowing`: a name in a namespace is that of one in the empty namespace
///   (Cedar's RFC 70)
/// - `DuplicateCommonType`, `DuplicateEntityType`, `DuplicateAction`: what has two definitions
/// - `ActionEntityTypeDeclared`: an entity type with the base name of types of actions
/// - `UnsupportedFeature`: an action with attributes, and record types that admit others than they
///   list
/// - `UnknownExtensionType`: an extension type that isn't among those that are handed in
/// - `TypeNotDefined`: a reference that names nothing (RFC 24)
/// - `UndeclaredEntityTypes`: the type of some actions where an entity type has to stand
/// - `ActionNotDefined`: a parent of an action that names no action
/// - `EnumEntityInHierarchy`: an enumerated entity type to which an external declaration gives a
///   parent, with that (RFC 53 and RFC 116)
/// - `CycleInCommonTypeReferences`, `CycleInActionHierarchy`: each name on a cycle
///
/// `ReservedName` isn't told: what `Fragment<RawName>` declares has names that aren't reserved.
///
/// The names of the extension types have to be such as `Extensions::type_names_fit` tells. Out of
/// memory is the only refusal.
pub fn faults(
    alloc: Global,
    fragments: &[Fragment<RawName>],
    extensions: &Extensions,
) -> M<Vec<SchemaError>>
    requires { TypeNamesFit (extension_types extensions.now) }
    ensures { IfOk result (λ faults. IsDiagnosis (raw_bag fragments.now) extensions.now told_kinds
        (map fault_of faults.items)) }
{
    let bag = listed(alloc, fragments)?;
    let declared = declared_names(alloc, &bag)?;
    let mut faults = Vec::new(alloc);
    tell_declared(alloc, &bag, &declared, &mut faults)?;
    let defs = all_names(alloc, declared, extensions)?;
    tell_types(alloc, &bag, &defs, extensions, &mut faults)?;
    Ok(faults)
}
