//! What references resolve to.

ghost use Rattle.std.specs.Prelude.{IfOk, IfErr, MatchOption, Contains, map};
ghost use Rattle.cedar_name_resolution.specs.Words.{HoldsPairwise, IsDefined, IsFirst, IsRefused, IsRefusedAmong, PlainName, Reference, ResolvesTo, StandsWhere, conditional_reference, held_names, name_of, names_of, positional_reference};

use crate::defs::all_defs::AllDefs;
use cedar_ast::{InternalName, M, NonEmpty};
use cedar_schema_ast::json_schema::{
    ConditionalName, QualifyError, ReferenceType, TypeNotDefinedError,
};

/// The name as it was declared in a kind that a reference of the kind permits, if it was.
fn declared<'a>(
    all_defs: &'a AllDefs,
    kind: ReferenceType,
    name: &InternalName,
) -> Option<&'a InternalName>
    ensures { StandsWhere (λ found. name_of found.now) (name_of name.now)
        (IsDefined (held_names all_defs.now) kind (name_of name.now)) result }
{
    match kind {
        ReferenceType::Common => all_defs.declared_common(name),
        ReferenceType::Entity => all_defs.declared_entity(name),
        ReferenceType::CommonOrEntity => match all_defs.declared_common(name) {
            Some(found) => Some(found),
            None => all_defs.declared_entity(name),
        },
    }
}

/// The name with its location, shared with what declares it in a kind that a reference of the kind
/// permits, if something does.
pub(crate) fn shared_name(
    all_defs: &AllDefs,
    kind: ReferenceType,
    name: &InternalName,
) -> M<Option<InternalName>>
    ensures { IfOk result (StandsWhere name_of (name_of name.now)
        (IsDefined (held_names all_defs.now) kind (name_of name.now))) }
{
    match declared(all_defs, kind, name) {
        None => Ok(None),
        Some(found) => Ok(Some(found.clone()?.with_loc(name.loc()))),
    }
}

/// The first of some names that is defined in a kind that a reference of the kind permits, if one
/// is.
pub(crate) fn first_defined(
    names: &NonEmpty<InternalName>,
    kind: ReferenceType,
    all_defs: &AllDefs,
) -> M<Option<InternalName>>
    ensures { IfOk result (λ found. MatchOption found
        ((name : PlainName) → Contains (names_of names.now) name
        → ¬ IsDefined (held_names all_defs.now) kind name)
        (λ name. IsFirst (IsDefined (held_names all_defs.now) kind) (names_of names.now)
        (name_of name))) }
{
    if let Some(name) = shared_name(all_defs, kind, &names.head)? {
        return Ok(Some(name));
    }
    for name in &names.tail {
        if let Some(name) = shared_name(all_defs, kind, name)? {
            return Ok(Some(name));
        }
    }
    Ok(None)
}

/// What a name stands for at a position of the kind: the first of its possibilities that is defined
/// in a kind that the position permits. It is refused with `TypeNotDefined`, which holds the
/// reference itself, if there is none.
pub(crate) fn resolve_at(
    name: ConditionalName,
    kind: ReferenceType,
    all_defs: &AllDefs,
) -> Result<InternalName, QualifyError>
    ensures resolved { IfOk result (λ found.
        ResolvesTo (held_names all_defs.now) (positional_reference kind name) (name_of found)) }
    ensures refused { IfErr result
        (IsRefused (held_names all_defs.now) (positional_reference kind name)) }
{
    match first_defined(name.possibilities(), kind, all_defs)? {
        Some(found) => Ok(found),
        None => Err(QualifyError::TypeNotDefined(TypeNotDefinedError {
            undefined_types: NonEmpty {
                head: ConditionalName::new(name.into_possibilities(), kind),
                tail: Vec::new(all_defs.alloc),
            },
        })),
    }
}

/// What names that aren't resolved resolve to.
///
/// The ghost member says what a name refers to: its possibilities, and the kinds that it permits.
pub trait ResolveName {
    ghost reference: { Self → Reference };

    /// The full name of what the name stands for: the first of its possibilities that is defined
    /// in a kind that it permits.
    ///
    /// It is refused with `TypeNotDefined`, which holds the reference itself, if there is none,
    /// or with `Memory` if memory runs out.
    fn resolve(self, all_defs: &AllDefs) -> Result<InternalName, QualifyError>
        ensures resolved { IfOk result (λ name.
            ResolvesTo (held_names all_defs.now) (reference self) (name_of name)) }
        ensures refused { IfErr result (IsRefused (held_names all_defs.now) (reference self)) };
}

impl ResolveName for ConditionalName {
    ghost reference = { conditional_reference };

    fn resolve(self, all_defs: &AllDefs) -> Result<InternalName, QualifyError> {
        let kind = *self.reference_type();
        resolve_at(self, kind, all_defs)
    }
}

/// The full names of what some names stand for, in order. It is refused with `TypeNotDefined` if
/// one stands for nothing, or with `Memory` if memory runs out.
pub fn resolve_all<N: ResolveName + Drop>(
    names: Vec<N>,
    all_defs: &AllDefs,
) -> Result<Vec<InternalName>, QualifyError>
    ensures resolved { IfOk result (λ found. HoldsPairwise (ResolvesTo (held_names all_defs.now))
        (map N.reference names.items) (map name_of found.items)) }
    ensures refused { IfErr result
        (IsRefusedAmong (held_names all_defs.now) (Contains (map N.reference names.items))) }
{
    let mut resolved = Vec::new(all_defs.alloc);
    for name in names {
        resolved.push(name.resolve(all_defs)?)?;
    }
    Ok(resolved)
}
