//! The types that the program joins and separates.

ghost use Rattle.std.specs.Prelude.{IfOk};
ghost use Rattle.std.specs.List.{AllByRecursion};
ghost use Rattle.cedar_types.specs.Meaning.{ty_of};
ghost use Rattle.schema_lines.specs.Samples.{IsStatedAlone};

use crate::command::{SampleType, StatedType};
use crate::names::name;
use cedar_schema::below::{EntityType, Extensions, M, Name, ValidationMode};
use cedar_schema::member::separating_value;
use cedar_schema::{AttributeType, JoinError, OpenTag, Type};
use std::alloc::Global;
use std::collections::BTreeMap;
use std::rc::Rc;

/// The sets of elements of a type.
fn set_of(alloc: Global, element: Type) -> M<Type>
    requires { IsStatedAlone (ty_of element) }
    ensures { IfOk result (λ ty. IsStatedAlone (ty_of ty)) }
{
    Ok(Type::set(Rc::new(alloc, element)?))
}

/// An attribute of a name, with its type, which an entity has to have where that is asked for.
fn attribute(alloc: Global, text: &str, ty: Type, required: bool) -> M<(String, AttributeType)> {
    let ty = Rc::new(alloc, ty)?;
    Ok((
        String::from_str(alloc, text)?,
        AttributeType::new(ty, required),
    ))
}

/// The closed record of required attributes.
fn closed(alloc: Global, items: Vec<(String, Rc<Type>)>) -> M<Type>
    requires { AllByRecursion (λ item. IsStatedAlone (ty_of item.1.value)) items.items }
    ensures { IfOk result (λ ty. IsStatedAlone (ty_of ty)) }
{
    Type::record_with_required_attributes(alloc, items, OpenTag::ClosedAttributes)
}

/// The closed record `{bar: Long}`.
fn bar_alone(alloc: Global) -> M<Type>
    ensures { IfOk result (λ ty. IsStatedAlone (ty_of ty)) }
{
    let mut items = Vec::new(alloc);
    items.push((String::from_str(alloc, "bar")?, Rc::new(alloc, Type::Long)?))?;
    closed(alloc, items)
}

/// The closed record `{bar: Long}` with `foo` of another type.
fn bar_and(alloc: Global, foo: Type) -> M<Type>
    requires { IsStatedAlone (ty_of foo) }
    ensures { IfOk result (λ ty. IsStatedAlone (ty_of ty)) }
{
    let mut items = Vec::new(alloc);
    items.push((String::from_str(alloc, "bar")?, Rc::new(alloc, Type::Long)?))?;
    items.push((String::from_str(alloc, "foo")?, Rc::new(alloc, foo)?))?;
    closed(alloc, items)
}

/// The closed record of one optional attribute of whole numbers.
fn optional(alloc: Global) -> M<Type> {
    let attributes = [attribute(alloc, "y", Type::primitive_long(), false)?];
    Type::record_with_attributes(alloc, attributes, OpenTag::ClosedAttributes)
}

/// The type of the entities of the type that a text names.
fn entity_of(alloc: Global, ty: Name) -> M<Type>
    ensures { IfOk result (λ ty. IsStatedAlone (ty_of ty)) }
{
    Type::named_entity_reference(alloc, EntityType::new(ty))
}

/// The type that a sample stands for, which needs no samples for being stated.
fn stated_type(alloc: Global, sample: StatedType) -> M<Type>
    ensures { IfOk result (λ ty. IsStatedAlone (ty_of ty)) }
{
    match sample {
        StatedType::True => Ok(Type::singleton_boolean(true)),
        StatedType::False => Ok(Type::singleton_boolean(false)),
        StatedType::Bool => Ok(Type::primitive_boolean()),
        StatedType::Long => Ok(Type::primitive_long()),
        StatedType::String => Ok(Type::primitive_string()),
        StatedType::AnySet => Ok(Type::any_set()),
        StatedType::SetOfBool => set_of(alloc, Type::primitive_boolean()),
        StatedType::SetOfLong => set_of(alloc, Type::primitive_long()),
        StatedType::AnyEntity => Ok(Type::any_entity_reference()),
        StatedType::Foo => entity_of(alloc, name(alloc, "Foo")?),
        StatedType::Bar => entity_of(alloc, name(alloc, "Bar")?),
        StatedType::AnyRecord => Type::any_record(alloc),
        StatedType::Unit => closed(alloc, Vec::new(alloc)),
        StatedType::BarAndFalse => bar_and(alloc, Type::singleton_boolean(false)),
        StatedType::BarAndString => bar_and(alloc, Type::primitive_string()),
        StatedType::BarAlone => bar_alone(alloc),
    }
}

/// The type that a sample stands for.
fn type_of(alloc: Global, sample: SampleType) -> M<Type> {
    match sample {
        SampleType::Never => Ok(Type::Never),
        SampleType::Optional => optional(alloc),
        SampleType::Stated(sample) => stated_type(alloc, sample),
    }
}

/// Whether a value that the one type has and the other hasn't is found.
pub(crate) fn is_separated(alloc: Global, first: StatedType, second: StatedType) -> M<bool> {
    let (first, second) = (stated_type(alloc, first)?, stated_type(alloc, second)?);
    let extensions = Extensions::new(Vec::new(alloc), BTreeMap::new(alloc));
    let value = separating_value(alloc, &first, &second, &extensions, &[])?;
    Ok(value.is_some())
}

/// The join of two types in a mode.
pub(crate) fn joined(
    alloc: Global,
    mode: ValidationMode,
    first: SampleType,
    second: SampleType,
) -> Result<Type, JoinError> {
    let (first, second) = (type_of(alloc, first)?, type_of(alloc, second)?);
    Type::least_upper_bound(alloc, &first, &second, mode)
}
