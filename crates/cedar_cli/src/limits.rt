//! Types that are too deep or too large once common types are written out.

use crate::finding::{Finding, file_of};
use crate::repeating::shortened;
use cedar_ast::{M, Memory};
use cedar_json::cedar_extensions;
use cedar_schema::SchemaError;
use cedar_schema_ast::json_schema::{Fragment, RawName};
use cedar_written_out::{DeclaredType, Measured, written_out};
use std::alloc::Global;

/// How many types may stand in one another: so many that no command runs out of stack.
const MOST_LEVELS: u64 = 1000;

/// How many types the shapes, tags and contexts of a schema may have together.
const MOST_TYPES: u64 = 1_000_000;

/// How a command goes over the types of a schema.
#[derive(Clone, Copy, Drop, PartialEq)]
pub(crate) enum Walk {
    /// It goes over no type, or over each common type once.
    Shared,
    /// It goes over each type with all that stand in it.
    WrittenOut,
}

/// What a type is of, in words.
fn type_text(alloc: Global, declared: &DeclaredType) -> M<String> {
    let text = match declared {
        DeclaredType::CommonType(name) => format!(in alloc; "the common type {name}"),
        DeclaredType::Shape(ty) => format!(in alloc; "the record of attributes of {ty}"),
        DeclaredType::Tags(ty) => format!(in alloc; "the type of the tags of {ty}"),
        DeclaredType::Context(uid) => format!(in alloc; "the context of {uid}"),
    };
    text.or(Err(Memory))
}

/// What is reported of a type that is too deep, or with which those before it are too large.
fn finding(declared: &DeclaredType, kind: &'static str, message: String) -> M<Finding> {
    let loc = declared.loc();
    Ok(Finding {
        file: file_of(loc),
        loc,
        kind,
        message: shortened(message)?,
        other: None,
    })
}

/// What is reported of the first type that is too deep, if there is one.
fn too_deep(alloc: Global, types: &[Measured]) -> M<Option<Finding>> {
    for it in types {
        if it.figure.is_some_and(|figure| figure.depth > MOST_LEVELS) {
            let what = type_text(alloc, &it.declared)?;
            let message = format!(in alloc;
                "{what} has more than {MOST_LEVELS} types in one another once common types are \
                written out"
            )?;
            return Ok(Some(finding(&it.declared, "TooDeep", message)?));
        }
    }
    Ok(None)
}

/// How many types stand in one that is counted: of a common type none, since it counts where it is
/// used.
fn counted(it: &Measured) -> u64 {
    match (&it.declared, it.figure) {
        (DeclaredType::CommonType(_), _) | (_, None) => 0,
        (_, Some(figure)) => figure.size,
    }
}

/// What is reported of the first type with which those before it are too large, if there is one.
fn too_large(alloc: Global, types: &[Measured]) -> M<Option<Finding>> {
    let mut count: u64 = 0;
    for it in types {
        count = count.saturating_add(counted(it));
        if count > MOST_TYPES {
            let what = type_text(alloc, &it.declared)?;
            let message = format!(in alloc;
                "with {what} the schema has more than {MOST_TYPES} types once common types are \
                written out"
            )?;
            return Ok(Some(finding(&it.declared, "TooLarge", message)?));
        }
    }
    Ok(None)
}

/// What is reported of types that are beyond a limit of a command over the extensions of Cedar, if
/// there are some. Where what is declared is refused otherwise, nothing is.
pub(crate) fn beyond_limits(
    alloc: Global,
    fragments: &[Fragment<RawName>],
    walk: Walk,
) -> M<Option<Finding>> {
    let extensions = cedar_extensions(alloc)?;
    let types = match written_out(alloc, fragments, &extensions) {
        Ok(types) => types,
        Err(SchemaError::Memory(refused)) => return Err(refused),
        Err(_) => return Ok(None),
    };
    match too_deep(alloc, &types)? {
        Some(found) => Ok(Some(found)),
        None if walk == Walk::WrittenOut => too_large(alloc, &types),
        None => Ok(None),
    }
}
