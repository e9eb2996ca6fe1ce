//! Names that are looked up where they are written.

ghost use Rattle.std.proofs.Common.{refl};
ghost use Rattle.std.specs.Prelude.{◌≡◌, ◌∷◌, [], Contains, IfErr, IfOk, MatchOption, Option};
ghost use Rattle.cedar_name_resolution.specs.Words.{IsDefined, IsFirst, IsRefused, IsUnresolved, PlainName, Reference, ReferenceType, ResolvesTo, conditional_reference, held_names, name_of, namespace_name, positional_reference, raw_reference};

use crate::defs::all_defs::AllDefs;
use crate::defs::resolve::{first_defined, shared_name};
use crate::full_name::name_in;
use cedar_ast::{InternalName, M, NonEmpty};
use cedar_schema_ast::json_schema::{
    ConditionalName, QualifyError, RawName, ReferenceType, TypeNotDefinedError,
};
use std::alloc::Global;

/// Names that are looked up in the namespace that they are written in, at a position that permits
/// some kinds.
///
/// The ghost members say what a name refers to there, and that its kind is that of the position.
pub trait WrittenName: Sized {
    ghost refer: { Option PlainName → ReferenceType → Self → Reference };

    ghost keeps_kind: { (namespace : Option PlainName) (kind : ReferenceType) (name : Self)
        → (refer namespace kind name).kind ≡ kind };

    /// The full name of what the name stands for at a position of the kind in the namespace, or
    /// None if it stands for nothing. Out of memory is the only refusal.
    fn resolved_within(
        &self,
        kind: ReferenceType,
        namespace: Option<&InternalName>,
        all_defs: &AllDefs,
    ) -> M<Option<InternalName>>
        ensures { IfOk result (λ found. MatchOption found
            (IsUnresolved (held_names all_defs.now)
            (refer (namespace_name namespace.entry) kind self.now))
            (λ name. ResolvesTo (held_names all_defs.now)
            (refer (namespace_name namespace.entry) kind self.now) (name_of name))) };

    /// The reference that the name is at a position of the kind in the namespace. Out of memory is
    /// the only refusal.
    fn reference_within(
        &self,
        alloc: Global,
        kind: ReferenceType,
        namespace: Option<&InternalName>,
    ) -> M<ConditionalName>
        ensures { IfOk result (λ it. conditional_reference it
            ≡ refer (namespace_name namespace.entry) kind self.now) };
}

impl WrittenName for ConditionalName {
    ghost refer = { λ _. positional_reference };

    ghost keeps_kind = { λ _ _ _. refl };

    /// What one of the possibilities stands for, whatever the namespace.
    fn resolved_within(
        &self,
        kind: ReferenceType,
        _namespace: Option<&InternalName>,
        all_defs: &AllDefs,
    ) -> M<Option<InternalName>> {
        first_defined(self.possibilities(), kind, all_defs)
    }

    /// A reference to the same possibilities, whatever the namespace.
    fn reference_within(
        &self,
        _alloc: Global,
        kind: ReferenceType,
        _namespace: Option<&InternalName>,
    ) -> M<ConditionalName> {
        Ok(ConditionalName::new(self.clone()?.into_possibilities(), kind))
    }
}

/// The first of two names that is defined in a kind that a reference of the kind permits, if one
/// is.
fn first_of(
    kind: ReferenceType,
    first: &InternalName,
    second: &InternalName,
    all_defs: &AllDefs,
) -> M<Option<InternalName>>
    ensures { IfOk result (λ found. MatchOption found
        ((name : PlainName) → Contains (name_of first.now ∷ name_of second.now ∷ []) name
        → ¬ IsDefined (held_names all_defs.now) kind name)
        (λ name. IsFirst (IsDefined (held_names all_defs.now) kind)
        (name_of first.now ∷ name_of second.now ∷ []) (name_of name))) }
{
    if let Some(name) = shared_name(all_defs, kind, first)? {
        return Ok(Some(name));
    }
    shared_name(all_defs, kind, second)
}

impl WrittenName for RawName {
    ghost refer = { raw_reference };

    ghost keeps_kind = { λ _ _ _. refl };

    /// What the name stands for where it is written in the namespace. Only a name without a path
    /// that is written in a namespace may stand for two.
    fn resolved_within(
        &self,
        kind: ReferenceType,
        namespace: Option<&InternalName>,
        all_defs: &AllDefs,
    ) -> M<Option<InternalName>> {
        let name = self.as_internal();
        let Some(_) = namespace else {
            return shared_name(all_defs, kind, name);
        };
        if !name.is_unqualified() {
            return shared_name(all_defs, kind, name);
        }
        let base = name.basename().clone()?;
        let within = name_in(all_defs.alloc, namespace, base, name.loc())?;
        first_of(kind, &within, name, all_defs)
    }

    /// What the name may stand for where it is written in the namespace.
    fn reference_within(
        &self,
        alloc: Global,
        kind: ReferenceType,
        namespace: Option<&InternalName>,
    ) -> M<ConditionalName> {
        self.clone()?
            .conditionally_qualify_with(alloc, namespace, kind)
    }
}

/// The full name of what a name that is written in the namespace stands for, at a position of the
/// kind. It is refused with `TypeNotDefined`, which holds the reference itself, if there is none,
/// or with `Memory` if memory runs out.
pub fn resolve_within<N: WrittenName>(
    name: &N,
    kind: ReferenceType,
    namespace: Option<&InternalName>,
    all_defs: &AllDefs,
) -> Result<InternalName, QualifyError>
    ensures resolved { IfOk result (λ found. ResolvesTo (held_names all_defs.now)
        (N.refer (namespace_name namespace.entry) kind name.now) (name_of found)) }
    ensures refused { IfErr result (IsRefused (held_names all_defs.now)
        (N.refer (namespace_name namespace.entry) kind name.now)) }
{
    match name.resolved_within(kind, namespace, all_defs)? {
        Some(found) => Ok(found),
        None => Err(QualifyError::TypeNotDefined(TypeNotDefinedError {
            undefined_types: NonEmpty {
                head: name.reference_within(all_defs.alloc, kind, namespace)?,
                tail: Vec::new(all_defs.alloc),
            },
        })),
    }
}
