//! Least upper bounds of types and of entity kinds.

ghost use Rattle.std.specs.Prelude.{◌≡◌, ◌<◌, ◌&&◌, ◌↔◌, ◌++◌, [], ◌∷◌, IfOk, IfSome, None, OnOk, length, map, string_bytes};
ghost use Rattle.std.specs.declared.alloc.Global.{Global};
ghost use Rattle.std.specs.declared.string.String.{String};
ghost use Rattle.cedar_types.specs.Words.{Below, ClosedAttributes, IsAnswerOrMemory, IsHandedOn, IsJoinAnswer, IsLeastOwnBound, IsPermissiveAttribute, IsReduceAnswer, IsStrictAttribute, IsUnplaced, Text, attribute_loc, attribute_of, either_open, fields_of, kind_ty, listed_at, located_at, lub_ty, never, record_of, ty_of};
ghost use Rattle.cedar_ast.specs.declared.validation_mode.ValidationMode.TheVariants as mode;

use crate::attributes::{AttributeType, Attributes};
use crate::entity_kind::EntityKind;
use crate::entity_lub::EntityLUB;
use crate::subtype::union_fits;
use crate::types::Type;
use cedar_ast::{M, Memory, ValidationMode};
use cedar_type_rules::{JoinError, LubHelp, OpenTag, reduce};
use std::alloc::Global;
use std::rc::Rc;

/// The join of two unions in strict mode: the union, if they are the same.
fn strict_union(lub: &EntityLUB, other: &EntityLUB) -> Result<EntityLUB, JoinError>
    ensures { IsAnswerOrMemory lub_ty
        (IsJoinAnswer mode.Strict (lub_ty lub.now) (lub_ty other.now)) result }
{
    if union_fits(lub, other, ValidationMode::Strict) {
        Ok(lub.clone()?)
    } else {
        Err(JoinError::Help(LubHelp::EntityType))
    }
}

/// The join of two unions.
pub(crate) fn join_unions(
    lub: &EntityLUB,
    other: &EntityLUB,
    mode: ValidationMode,
) -> Result<EntityLUB, JoinError>
    ensures { IsAnswerOrMemory lub_ty
        (IsJoinAnswer mode (lub_ty lub.now) (lub_ty other.now)) result }
{
    match mode {
        ValidationMode::Strict => strict_union(lub, other),
        ValidationMode::Permissive => Ok(lub.least_upper_bound(other)?),
    }
}

/// The join of two kinds of entities in strict mode: the kind, if they are the same.
fn strict_kind(kind: &EntityKind, other: &EntityKind) -> Result<EntityKind, JoinError>
    ensures { IsAnswerOrMemory kind_ty
        (IsJoinAnswer mode.Strict (kind_ty kind.now) (kind_ty other.now)) result }
{
    if kind.is_subtype(other, ValidationMode::Strict) {
        Ok(kind.clone()?)
    } else {
        Err(JoinError::Help(LubHelp::EntityType))
    }
}

/// The join of two kinds of entities in permissive mode.
fn permissive_kind(kind: &EntityKind, other: &EntityKind) -> M<EntityKind>
    ensures { IfOk result (λ join.
        IsLeastOwnBound mode.Permissive (kind_ty kind.now) (kind_ty other.now) (kind_ty join)) }
{
    match (kind, other) {
        (EntityKind::Entity(lub), EntityKind::Entity(other_lub)) => Ok(EntityKind::Entity(
            lub.least_upper_bound(other_lub)?,
        )),
        _ => Ok(EntityKind::AnyEntity),
    }
}

impl EntityKind {
    /// The least kind that has the entities of both.
    ///
    /// In permissive mode that is the union of the entity types of both, or any entity where one of
    /// them is. In strict mode only a kind and itself have one; else the help is `EntityType`. Or
    /// the answer is that memory ran out.
    pub fn least_upper_bound(
        &self,
        other: &EntityKind,
        mode: ValidationMode,
    ) -> Result<EntityKind, JoinError>
        ensures { IsAnswerOrMemory kind_ty
            (IsJoinAnswer mode (kind_ty self.now) (kind_ty other.now)) result }
    {
        match mode {
            ValidationMode::Strict => strict_kind(self, other),
            ValidationMode::Permissive => Ok(permissive_kind(self, other)?),
        }
    }
}

/// A shared type.
fn shared(alloc: Global, ty: Type) -> M<Rc<Type>>
    ensures { IfOk result (λ rc. rc.value ≡ ty) }
{
    Ok(Rc::new(alloc, ty)?)
}

/// The same type, shared once more.
fn shared_again(ty: &Rc<Type>) -> M<Rc<Type>>
    ensures { IfOk result (λ rc. rc.value ≡ ty.now.value) }
{
    Ok(ty.clone()?)
}

/// Puts an attribute with a name behind others.
fn push_named(
    entries: &mut Vec<(String, AttributeType)>,
    name: &String,
    attribute: AttributeType,
) -> M<()>
    ensures { OnOk result ((key : String Global) × (string_bytes key ≡ string_bytes name.now)
        × (entries.new.items ≡ entries.old.items ++ (key, attribute) ∷ [])) }
{
    entries.push((name.clone()?, attribute))?;
    Ok(())
}

/// The record type with these attributes.
fn record(attrs: Attributes, open_attributes: OpenTag) -> Type
    ensures ty { ty_of result ≡ record_of (fields_of attrs) open_attributes }
    ensures listed { (name : Text) → listed_at name result ≡ located_at name attrs }
{
    Type::Record {
        attrs,
        open_attributes,
    }
}

/// The openness of the permissive join of two records with so many attributes, of which it keeps so
/// many: closed if both are and no name is dropped.
fn permissive_openness(
    openness: OpenTag,
    other_openness: OpenTag,
    count: usize,
    other_count: usize,
    kept: usize,
) -> OpenTag
    ensures { (result ≡ ClosedAttributes)
        ↔ (((openness ≡ ClosedAttributes) × (other_openness ≡ ClosedAttributes))
        × ((kept ≡ count) × (kept ≡ other_count))) }
{
    let are_closed = openness == OpenTag::ClosedAttributes
        && other_openness == OpenTag::ClosedAttributes;
    if are_closed && kept == count && kept == other_count {
        OpenTag::ClosedAttributes
    } else {
        OpenTag::OpenAttributes
    }
}

/// The openness of the strict join of two records: open if either is.
fn strict_openness(openness: OpenTag, other_openness: OpenTag) -> OpenTag
    ensures { result ≡ either_open openness other_openness }
{
    match openness {
        OpenTag::OpenAttributes => OpenTag::OpenAttributes,
        OpenTag::ClosedAttributes => other_openness,
    }
}

/// The join of two attributes of a name in permissive mode, or None where their types don't join;
/// or out of memory. It has no location.
#[cycle(join)]
fn permissive_attribute(
    alloc: Global,
    a: &AttributeType,
    b: &AttributeType,
) -> M<Option<AttributeType>>
    ensures join { IfOk result (IsPermissiveAttribute (attribute_of a.now) (attribute_of b.now)) }
    ensures loc { IfOk result (λ found. IfSome found (λ join. attribute_loc join ≡ None)) }
{
    match join_shared(
        alloc,
        &a.attr_type,
        &b.attr_type,
        ValidationMode::Permissive,
    ) {
        Ok(ty) => Ok(Some(AttributeType::new(ty, a.is_required && b.is_required))),
        Err(JoinError::Help(_)) => Ok(None),
        Err(JoinError::Memory) => Err(Memory),
    }
}

/// The join of two attributes of a name in strict mode, which has no location; or the help for
/// their types, or the one for their flags.
#[cycle(join)]
fn strict_attribute(
    alloc: Global,
    a: &AttributeType,
    b: &AttributeType,
) -> Result<AttributeType, JoinError>
    ensures join { IsStrictAttribute (attribute_of a.now) (attribute_of b.now) result }
    ensures loc { IfOk result (λ join. attribute_loc join ≡ None) }
{
    let ty = join_shared(alloc, &a.attr_type, &b.attr_type, ValidationMode::Strict)?;
    if a.is_required == b.is_required {
        Ok(AttributeType::new(ty, a.is_required))
    } else {
        Err(JoinError::Help(LubHelp::AttributeQualifier))
    }
}

/// The join of two records in permissive mode: the attributes of the names of both whose types
/// join.
///
/// It goes over the attributes of both together, once.
#[cycle(join)]
fn permissive_record(
    alloc: Global,
    a: &Attributes,
    b: &Attributes,
    a_openness: OpenTag,
    b_openness: OpenTag,
) -> M<Type>
    ensures join { IfOk result (λ join.
        IsLeastOwnBound mode.Permissive (record_of (fields_of a.now) a_openness)
        (record_of (fields_of b.now) b_openness) (ty_of join)) }
    ensures unplaced { IfOk result IsUnplaced }
{
    let own = a.attrs.as_slice();
    let others = b.attrs.as_slice();
    let mut joined = Vec::new(alloc);
    let mut at = 0;
    for (name, attribute) in own {
        let (place, is_there) = b.attrs.seek(at, name);
        if is_there {
            if let Some(join) = permissive_attribute(alloc, attribute, &others[place].1)? {
                push_named(&mut joined, name, join)?;
            }
        }
        at = place;
    }
    let openness = permissive_openness(
        a_openness,
        b_openness,
        own.len(),
        others.len(),
        joined.len(),
    );
    Ok(record(Attributes::from_sorted_by_name(alloc, joined)?, openness))
}

/// The join of two records in strict mode: the attributes of the same names, each joined.
///
/// It goes over the attributes of both together, once.
#[cycle(join)]
fn strict_record(
    alloc: Global,
    a: &Attributes,
    b: &Attributes,
    a_openness: OpenTag,
    b_openness: OpenTag,
) -> Result<Type, JoinError>
    ensures join { IsAnswerOrMemory ty_of
        (IsJoinAnswer mode.Strict (record_of (fields_of a.now) a_openness)
        (record_of (fields_of b.now) b_openness)) result }
    ensures unplaced { IfOk result IsUnplaced }
{
    let own = a.attrs.as_slice();
    let others = b.attrs.as_slice();
    if own.len() != others.len() {
        return Err(JoinError::Help(LubHelp::RecordWidth));
    }
    let mut joined = Vec::new(alloc);
    let mut at = 0;
    for (name, attribute) in own {
        let (place, is_there) = b.attrs.seek(at, name);
        if !is_there {
            return Err(JoinError::Help(LubHelp::RecordWidth));
        }
        let join = strict_attribute(alloc, attribute, &others[place].1)?;
        push_named(&mut joined, name, join)?;
        at = place;
    }
    let attrs = Attributes::from_sorted_by_name(alloc, joined)?;
    Ok(record(attrs, strict_openness(a_openness, b_openness)))
}

/// The type of the join of two kinds of entities.
fn join_kinds(
    kind: &EntityKind,
    other: &EntityKind,
    mode: ValidationMode,
) -> Result<Type, JoinError>
    ensures join { IsAnswerOrMemory ty_of
        (IsJoinAnswer mode (kind_ty kind.now) (kind_ty other.now)) result }
    ensures unplaced { IfOk result IsUnplaced }
{
    Ok(Type::Entity(kind.least_upper_bound(other, mode)?))
}

/// The join of two records.
#[cycle(join)]
fn join_records(
    alloc: Global,
    a: &Attributes,
    b: &Attributes,
    a_openness: OpenTag,
    b_openness: OpenTag,
    mode: ValidationMode,
) -> Result<Type, JoinError>
    ensures join { IsAnswerOrMemory ty_of
        (IsJoinAnswer mode (record_of (fields_of a.now) a_openness)
        (record_of (fields_of b.now) b_openness)) result }
    ensures unplaced { IfOk result IsUnplaced }
{
    match mode {
        ValidationMode::Strict => strict_record(alloc, a, b, a_openness, b_openness),
        ValidationMode::Permissive => Ok(permissive_record(alloc, a, b, a_openness, b_openness)?),
    }
}

/// The join of two types of which none is below the other.
#[cycle(join)]
fn join_apart(alloc: Global, a: &Type, b: &Type, mode: ValidationMode) -> Result<Type, JoinError>
    requires first { ¬ Below mode (ty_of a.now) (ty_of b.now) }
    requires second { ¬ Below mode (ty_of b.now) (ty_of a.now) }
    ensures join { IsAnswerOrMemory ty_of (IsJoinAnswer mode (ty_of a.now) (ty_of b.now)) result }
    ensures unplaced { IfOk result IsUnplaced }
{
    match (a, b) {
        (Type::Bool(_), Type::Bool(_)) => Ok(Type::primitive_boolean()),
        (Type::Entity(kind), Type::Entity(other)) => join_kinds(kind, other, mode),
        (
            Type::Set {
                element_type: element,
            },
            Type::Set {
                element_type: other,
            },
        ) => match (element, other) {
            (Some(element), Some(other)) => Ok(Type::set(join_shared(
                alloc, element, other, mode,
            )?)),
            _ => Ok(Type::any_set()),
        },
        (
            Type::Record {
                attrs,
                open_attributes,
            },
            Type::Record {
                attrs: others,
                open_attributes: openness,
            },
        ) => join_records(alloc, attrs, others, *open_attributes, *openness, mode),
        (Type::Entity(_), Type::Record { .. }) | (Type::Record { .. }, Type::Entity(_)) => Err(
            JoinError::Help(LubHelp::EntityRecord),
        ),
        _ => Err(JoinError::Help(LubHelp::None)),
    }
}

/// The join of two shared types. Where one of them is below the other, it is the upper, and shared.
#[cycle(join)]
fn join_shared(
    alloc: Global,
    a: &Rc<Type>,
    b: &Rc<Type>,
    mode: ValidationMode,
) -> Result<Rc<Type>, JoinError>
    ensures { IsAnswerOrMemory (λ rc.
        ty_of rc.value) (IsJoinAnswer mode (ty_of a.now.value) (ty_of b.now.value)) result }
{
    if Type::is_subtype(a, b, mode) {
        return Ok(shared_again(b)?);
    }
    if Type::is_subtype(b, a, mode) {
        return Ok(shared_again(a)?);
    }
    let join = join_apart(alloc, a, b, mode)?;
    Ok(shared(alloc, join)?)
}

/// References to the unions that types are of, where each is a type of the entities of one; else
/// None.
fn unions_of<'a>(alloc: Global, types: &'a [Type]) -> M<Option<Vec<&'a EntityLUB>>>
    ensures { IfOk result (λ found. IfSome found (λ unions.
        map ty_of types.now ≡ map (λ lub. lub_ty lub.now) unions.items)) }
{
    let mut unions = Vec::new(alloc);
    for ty in types {
        let Type::Entity(EntityKind::Entity(lub)) = ty else {
            return Ok(None);
        };
        unions.push(lub)?;
    }
    Ok(Some(unions))
}

/// The fold of the join in permissive mode over types that are each of the entities of a union: all
/// unions are joined at once. None where a type is another.
fn join_of_unions(alloc: Global, types: &[Type]) -> M<Option<Type>>
    requires { 1 < length types.now }
    ensures { IfOk result (λ found. IfSome found (λ join.
        IsReduceAnswer mode.Permissive never (map ty_of types.now) (Ok (ty_of join)))) }
{
    match unions_of(alloc, types)? {
        Some(unions) => Ok(Some(Type::Entity(EntityKind::Entity(EntityLUB::of_all(&unions)?)))),
        None => Ok(None),
    }
}

impl Type {
    /// The least upper bound of two types: of the types above both that lie within them, the one
    /// below each of these. Parts that are handed on stay shared.
    ///
    /// Where one type is below the other it is the upper. Two truth values have `Bool`, two sets
    /// the set of their elements' join, two entities the join of their kinds. In permissive mode
    /// two records have the attributes of the names of both whose types join, required if both
    /// require them, and their join is open if either is or if a name of either is dropped. In
    /// strict mode the records have to list the same names with the same flags, and all their types
    /// have to join. An attribute that is joined has no location.
    ///
    /// Else there is a help: `EntityRecord` for an entity and a record, that of the elements for
    /// sets, `EntityType` for unlike entities in strict mode, and for records in strict mode
    /// `RecordWidth` where the names differ, `AttributeQualifier` where two flags differ and their
    /// types join, or that of two types; and `None` for all other types. Or the answer is that
    /// memory ran out.
    pub fn least_upper_bound(
        alloc: Global,
        a: &Type,
        b: &Type,
        mode: ValidationMode,
    ) -> Result<Type, JoinError>
        ensures join { IsAnswerOrMemory ty_of
            (IsJoinAnswer mode (ty_of a.now) (ty_of b.now)) result }
        ensures second { Below mode (ty_of a.now) (ty_of b.now) → IfOk result (IsHandedOn b.now) }
        ensures first { ¬ Below mode (ty_of a.now) (ty_of b.now)
            → Below mode (ty_of b.now) (ty_of a.now) → IfOk result (IsHandedOn a.now) }
        ensures apart { ¬ Below mode (ty_of a.now) (ty_of b.now)
            → ¬ Below mode (ty_of b.now) (ty_of a.now) → IfOk result IsUnplaced }
    {
        if Type::is_subtype(a, b, mode) {
            return Ok(b.clone()?);
        }
        if Type::is_subtype(b, a, mode) {
            return Ok(a.clone()?);
        }
        join_apart(alloc, a, b, mode)
    }

    /// The fold of the join over some types, from `Never` on; or the help of the first join that is
    /// refused.
    ///
    /// The join of no types is `Never`. Where the any-set is among the types, their order matters.
    /// Or the answer is that memory ran out.
    pub fn reduce_to_least_upper_bound(
        alloc: Global,
        items: &[Type],
        mode: ValidationMode,
    ) -> Result<Type, JoinError>
        ensures { IsAnswerOrMemory ty_of (IsReduceAnswer mode never (map ty_of items.now)) result }
    {
        if mode == ValidationMode::Permissive && items.len() > 1 {
            if let Some(join) = join_of_unions(alloc, items)? {
                return Ok(join);
            }
        }
        reduce(alloc, Type::Never, items, mode)
    }
}
