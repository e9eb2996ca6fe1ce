//! References as keys.

ghost use Rattle.std.specs.Prelude.{◌≡◌, IfOk};
ghost use Rattle.cedar_diagnosis.specs.Mentioned.{reference_of};
ghost use Rattle.cedar_diagnosis.specs.ReferenceKeys.{key_kind, key_reference};
ghost use Rattle.cedar_schema_ast.specs.Words.{conditional_reference};

use crate::mentions::WrittenReference;
use cedar_ast::{InternalName, M, NonEmpty};
use cedar_name_resolution::full_name::name_in;
use cedar_schema_ast::json_schema::{ConditionalName, ReferenceType};
use std::alloc::Global;

/// What kinds a reference may name, in an order.
#[derive(Clone, Copy, PartialEq, Eq, PartialOrd, Ord)]
pub(crate) enum NamedKind {
    /// Common types.
    CommonType,
    /// Entity types.
    EntityType,
    /// Both.
    AnyType,
}

/// A reference: the names that it may stand for, and what it may name.
#[derive(PartialEq, Eq, PartialOrd, Ord, Drop)]
pub(crate) struct ReferenceKey {
    /// The name that is tried first.
    pub(crate) first: InternalName,
    /// Whether its base name alone is tried after it.
    pub(crate) is_within: bool,
    /// What it may name.
    pub(crate) kind: NamedKind,
}

/// The kinds in their order.
fn named_kind(kind: ReferenceType) -> NamedKind
    ensures { key_kind result ≡ kind }
{
    match kind {
        ReferenceType::Common => NamedKind::CommonType,
        ReferenceType::Entity => NamedKind::EntityType,
        ReferenceType::CommonOrEntity => NamedKind::AnyType,
    }
}

/// The kinds of a key.
fn reference_type(kind: NamedKind) -> ReferenceType
    ensures { result ≡ key_kind kind }
{
    match kind {
        NamedKind::CommonType => ReferenceType::Common,
        NamedKind::EntityType => ReferenceType::Entity,
        NamedKind::AnyType => ReferenceType::CommonOrEntity,
    }
}

/// The key of a reference.
pub(crate) fn reference_key(alloc: Global, it: &WrittenReference) -> M<ReferenceKey>
    ensures { IfOk result (λ key. key_reference key ≡ reference_of it.now) }
{
    let kind = named_kind(it.kind);
    let name = it.name.as_internal();
    if it.namespace.is_none() || !name.is_unqualified() {
        let first = name.clone()?;
        let is_within = false;
        return Ok(ReferenceKey {
            first,
            is_within,
            kind,
        });
    }
    let first = name_in(alloc, it.namespace, name.basename().clone()?, name.loc())?;
    let is_within = true;
    Ok(ReferenceKey {
        first,
        is_within,
        kind,
    })
}

impl ReferenceKey {
    /// The reference of the key.
    pub(crate) fn into_reference(self, alloc: Global) -> M<ConditionalName>
        ensures { IfOk result (λ reference. conditional_reference reference
            ≡ key_reference self) }
    {
        let kind = reference_type(self.kind);
        if !self.is_within {
            return Ok(ConditionalName::unconditional(alloc, self.first, kind));
        }
        let base = InternalName::new(
            self.first.basename().clone()?,
            Vec::new(alloc),
            self.first.loc(),
        );
        let possibilities = NonEmpty {
            head: self.first,
            tail: vec![in alloc; base]?,
        };
        Ok(ConditionalName::new(possibilities, kind))
    }
}
