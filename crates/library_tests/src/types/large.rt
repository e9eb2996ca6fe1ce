//! Tests of types that are large.

use cedar_ast::ValidationMode;
use cedar_types::Type;
use checked::names::entity_type;
use checked::{holds, same};
use std::alloc::Global;
use std::rc::Rc;
use std::test::Fail;

/// The type of numbers within as many sets, one in another.
fn nested(alloc: Global, depth: u32) -> Result<Type, Fail> {
    let mut ty = Type::Long;
    for _ in 0..depth {
        ty = Type::set(Rc::new(alloc, ty)?);
    }
    Ok(ty)
}

/// The text of that type.
fn nested_text(alloc: Global, depth: u32) -> Result<String, Fail> {
    let mut text = String::from_str(alloc, "Long")?;
    for _ in 0..depth {
        text = format!(in alloc; "Set<{text}>")?;
    }
    Ok(text)
}

#[test]
fn sets_within_sets_print_each_of_them(rt: HostRuntime) -> Result<(), Fail> {
    let ty = nested(rt.alloc(), 200)?.to_string(rt.alloc())?;
    let expected = nested_text(rt.alloc(), 200)?;
    same("200 sets", ty.as_str(), expected.as_str())
}

/// The type of the entities of the entity type of a number.
fn numbered(alloc: Global, number: u32) -> Result<Type, Fail> {
    let name = format!(in alloc; "E{number}")?;
    Ok(Type::named_entity_reference(alloc, entity_type(alloc, name.as_str())?)?)
}

/// What the types of the entities of 300 entity types are reduced to, in the order of their numbers
/// or the last first.
fn reduced(alloc: Global, reversed: bool) -> Result<Type, Fail> {
    let mut types = Vec::new(alloc);
    for step in 0..300u32 {
        let number = if reversed {
            299u32.saturating_sub(step)
        } else {
            step
        };
        types.push(numbered(alloc, number)?)?;
    }
    Ok(Type::reduce_to_least_upper_bound(alloc, &types, ValidationMode::Permissive)?)
}

/// How many entity types the entities of a type are of.
fn members(ty: &Type) -> usize {
    match ty.as_entity_lub() {
        Some(union) => union.iter().count(),
        None => 0,
    }
}

#[test]
fn many_entity_types_are_one_union_in_either_order(rt: HostRuntime) -> Result<(), Fail> {
    let union = reduced(rt.alloc(), false)?;
    let other = reduced(rt.alloc(), true)?;
    holds(union == other && members(&union) == 300, "300 entity types")
}
