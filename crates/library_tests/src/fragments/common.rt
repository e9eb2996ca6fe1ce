//! What common types are elaborated as, with their places, and why they are refused.

use crate::asked::{Question, Rows, check};
use cedar_ast::{InternalName, M};
use cedar_elaboration::{SharedTypes, common_types};
use cedar_fragments::CollectedDeclarations;
use cedar_fragments::namespace::{UnqualifiedActionType, ValidatorSchemaFragment};
use cedar_name_resolution::DeclaredCommonType;
use cedar_name_resolution::defs::AllDefs;
use cedar_schema_ast::json_schema::RawName;
use cedar_types::Type;
use checked::names::internal_name;
use checked::{fragment_of, sample_extensions};
use std::alloc::Global;
use std::collections::BTreeMap;
use std::fmt::Write;
use std::test::Fail;

/// What the fragment of a text declares, by the names that are written.
fn gathered(alloc: Global, text: &str) -> Result<CollectedDeclarations<RawName>, Fail> {
    let unqualified = UnqualifiedActionType::new(alloc)?;
    let written = fragment_of(alloc, text, 1)?;
    let fragment = ValidatorSchemaFragment::as_written(alloc, written, &unqualified)?;
    Ok(CollectedDeclarations::with_room(alloc, 0)?.with(fragment)?)
}

/// Adds the names of the attributes of a record type that have a location, each with the first
/// byte.
fn push_places(shown: &mut String, ty: &Type) -> M<()> {
    if let Type::Record { attrs, .. } = ty {
        for (name, attribute) in attrs.iter() {
            if let Some(loc) = attribute.loc {
                write!(shown, " {name}@{}", loc.start)?;
            }
        }
    }
    Ok(())
}

/// Common types as text, each with its name, and with the places of its attributes.
fn listed(alloc: Global, types: &BTreeMap<InternalName, Type>) -> M<String> {
    let mut shown = String::new(alloc);
    for (name, ty) in types {
        write!(shown, "{name}={ty}")?;
        push_places(&mut shown, ty)?;
        shown.push_str(";")?;
    }
    Ok(shown)
}

/// Some common types as they are elaborated, or why they are refused.
fn elaborated(
    alloc: Global,
    types: &[DeclaredCommonType<RawName>],
    all_defs: &AllDefs,
) -> Result<String, Fail> {
    let extensions = sample_extensions(alloc)?;
    let shared = SharedTypes::new(alloc)?;
    match common_types(alloc, types, all_defs, &extensions, &shared) {
        Ok(types) => Ok(listed(alloc, &types)?),
        Err(error) => Ok(format!(in alloc; "{error}")?),
    }
}

/// What is asked about the common types of a text.
#[derive(Clone, Copy)]
struct OfCommonTypes;

impl Question for OfCommonTypes {
    /// What they are elaborated as, or why they are refused, where a reserved name is that of an
    /// entity type.
    fn answer(self, alloc: Global, text: &str) -> Result<String, Fail> {
        let CollectedDeclarations {
            names,
            declarations,
        } = gathered(alloc, text)?;
        let mut all_defs = names.into_defs()?;
        all_defs.mark_as_defined_as_entity_type(internal_name(alloc, "__cedar")?)?;
        elaborated(alloc, &declarations.common_types, &all_defs)
    }
}

/// Common types, each list with what it is elaborated as or refused for.
const OUTCOMES: Rows = &[
    (
        "entity User; type A = Set<B>; type B = {a: C, b?: C}; type C = User;",
        "A=Set<{a: User,b?: User,}>;B={a: User,b?: User,} a@40 b@46;C=User;",
    ),
    (
        "entity User; type A = {a: User, b?: User};",
        "A={a: User,b?: User,} a@23 b@32;",
    ),
    ("type A = Set<__cedar>;", "the name __cedar is reserved"),
];

#[test]
fn common_types_are_elaborated_or_refused(rt: HostRuntime) -> Result<(), Fail> {
    check(rt.alloc(), &[(OfCommonTypes, OUTCOMES)])
}
