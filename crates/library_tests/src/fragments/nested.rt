//! How deep types that are written are nested.

use crate::asked::{Question, Rows, check};
use crate::fragments::copies::written;
use cedar_ast::{Loc, M};
use cedar_schema_ast::json_schema::{RawName, Type, TypeVariant};
use checked::holds;
use std::alloc::Global;
use std::fmt::Write;
use std::test::Fail;

/// What is asked about the common types of a text.
#[derive(Clone, Copy)]
struct Levels;

/// The least number of levels within which a type is nested, if that is less than ten.
fn least(ty: &Type<RawName>) -> Option<u32> {
    for levels in 0..10u32 {
        if ty.is_nested_at_most(levels) {
            return Some(levels);
        }
    }
    None
}

impl Question for Levels {
    /// The least number of levels within which each of them is nested.
    fn answer(self, alloc: Global, text: &str) -> Result<String, Fail> {
        let mut answer = String::new(alloc);
        for definition in written(alloc, text)?.0.values() {
            for it in definition.common_types.values() {
                write!(answer, "{:?} ", least(&it.ty))?;
            }
        }
        Ok(answer)
    }
}

/// Common types, and how many sets and records stand in one another in each.
const LEVELS: Rows = &[
    ("type A = Long; type B = A;", "Some(0) Some(0) "),
    ("type A = Set<Long>; type B = {};", "Some(1) Some(1) "),
    (
        "type T = { a: Long, b: { c: Set<Long> }, d: Set<Long> };",
        "Some(3) ",
    ),
    (
        r#"{"": {"commonTypes": {"A": {"type": "B"}, "B": {"type": "Set", "element": {"type": "A"}}},
          "entityTypes": {}, "actions": {}}}"#,
        "Some(0) Some(1) ",
    ),
];

#[test]
fn levels_of_types_are_counted(rt: HostRuntime) -> Result<(), Fail> {
    check(rt.alloc(), &[(Levels, LEVELS)])
}

/// So many sets in one another.
pub(crate) fn sets(alloc: Global, levels: u32) -> M<Type<RawName>> {
    let loc: Option<Loc> = None;
    let mut ty = Type::Plain {
        ty: TypeVariant::Long,
        loc,
    };
    for _ in 0..levels {
        let element = Box::new(alloc, ty)?;
        ty = Type::Plain {
            ty: TypeVariant::Set { element },
            loc,
        };
    }
    Ok(ty)
}

/// Lets go of so many sets in one another, the outermost first, so that it takes no stack.
fn let_go(ty: Type<RawName>, levels: u32) {
    let mut ty = ty;
    for _ in 0..levels {
        ty = match ty {
            Type::Plain {
                ty: TypeVariant::Set { element },
                ..
            } => Box::into_inner(element),
            other => other,
        };
    }
}

#[test]
fn deep_types_are_told_from_others(rt: HostRuntime) -> Result<(), Fail> {
    let ty = sets(rt.alloc(), 1_000)?;
    let is_told = !ty.is_nested_at_most(999) && ty.is_nested_at_most(1_000);
    holds(is_told, "1,000 levels")
}

#[test]
fn types_are_gone_down_no_further_than_asked(rt: HostRuntime) -> Result<(), Fail> {
    let ty = sets(rt.alloc(), 50_000)?;
    let is_within = ty.is_nested_at_most(128);
    let_go(ty, 50_000);
    holds(!is_within, "more than 128 levels")
}
