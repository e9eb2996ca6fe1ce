//! Core types, and what is consistent with them.

use crate::asked::{Question, Rows, check};
use crate::types::test_values::{made, value};
use cedar_ast::{
    CoreSchemaType, ExtensionFunctionLookupError, Extensions, M, RestrictedExpr, Value,
};
use cedar_types::{Type, core_type_of};
use checked::sample_extensions;
use std::alloc::Global;
use std::test::Fail;

/// What is shown of a core type, without the parts of names.
pub(crate) fn core_text(alloc: Global, core: &CoreSchemaType) -> M<String> {
    match core {
        CoreSchemaType::Entity { ty } => Ok(format!(in alloc; "Entity {ty}")?),
        CoreSchemaType::Extension { name } => Ok(format!(in alloc; "Extension {name}")?),
        CoreSchemaType::Set { .. } => Ok(String::from_str(alloc, "Set")?),
        CoreSchemaType::Record { .. } => Ok(String::from_str(alloc, "Record")?),
        _ => Ok(format!(in alloc; "{core:?}")?),
    }
}

/// What is asked about the type of a word and, behind a blank, another word.
#[derive(Clone, Copy)]
enum Asked {
    /// Whether it is consistent with the core type of the type of the other.
    Consistent,
    /// Whether the value of the other fits its core type.
    Fits,
    /// Whether the value of the other has it.
    HasValue,
    /// Whether the expression of the other has it.
    HasExpression,
}

/// Whether a type is consistent with the core type of that of a word.
fn is_consistent(alloc: Global, ty: &Type, of: &str) -> Result<bool, Fail> {
    let core = core_type_of(alloc, made(alloc, of)?)?;
    Ok(ty.is_consistent_with(&core))
}

/// Whether an expression fits the core type of a type.
fn does_fit(alloc: Global, expr: &RestrictedExpr, ty: Type) -> Result<bool, Fail> {
    let core = core_type_of(alloc, ty)?;
    Ok(expr.fits(&core, &sample_extensions(alloc)?))
}

/// What the answer is as a text.
fn answer_text(
    alloc: Global,
    answer: Result<bool, ExtensionFunctionLookupError>,
) -> Result<String, Fail> {
    match answer {
        Ok(has_type) => Ok(format!(in alloc; "{has_type}")?),
        Err(fault) => Ok(format!(in alloc; "no function {}", fault.name)?),
    }
}

/// Whether the value of a word has a type, or which function it asks for.
fn of_value(alloc: Global, ty: &Type, word: &str) -> Result<String, Fail> {
    let value = Value::new(value(alloc, word)?);
    let extensions: Extensions = sample_extensions(alloc)?;
    answer_text(alloc, ty.typecheck_value(&value, &extensions))
}

/// The same of the expression that it is.
fn of_expression(alloc: Global, ty: &Type, word: &str) -> Result<String, Fail> {
    let expr = value(alloc, word)?;
    let extensions: Extensions = sample_extensions(alloc)?;
    answer_text(alloc, ty.typecheck_restricted_expr(&expr, &extensions))
}

impl Question for Asked {
    fn answer(self, alloc: Global, text: &str) -> Result<String, Fail> {
        let (first, second) = text.split_once(' ').ok_or("one word")?;
        let ty = made(alloc, first)?;
        match self {
            Asked::Consistent => {
                let is_consistent = is_consistent(alloc, &ty, second)?;
                Ok(format!(in alloc; "{is_consistent}")?)
            }
            Asked::Fits => {
                let does_fit = does_fit(alloc, &value(alloc, second)?, ty)?;
                Ok(format!(in alloc; "{does_fit}")?)
            }
            Asked::HasValue => of_value(alloc, &ty, second),
            Asked::HasExpression => of_expression(alloc, &ty, second),
        }
    }
}

/// Types, each with another, and whether it is consistent with the core type of that.
const CONSISTENT: Rows = &[
    ("a-long a-long", "true"),
    ("a-true a-bool", "true"),
    ("a-long a-bool", "false"),
    ("unit a-long", "false"),
    ("unit a-long-optional", "true"),
    ("any-record a-long", "true"),
    ("unit unit", "true"),
    ("a-long-optional unit", "true"),
    ("a-long unit", "false"),
    ("a-long any-record", "true"),
    ("set-bool set-long", "false"),
    ("set-bool any-set", "true"),
    ("any-set any-set", "true"),
    ("unit any-set", "false"),
    ("Foo|Bar Foo", "true"),
    ("ipaddr ipaddr", "true"),
    ("mixed mixed", "true"),
];

/// Types, each with a value, and whether it fits the core type.
const FITS: Rows = &[
    ("a-long {a:1}", "true"),
    ("a-long-open {}", "false"),
    ("a-long {a:1,b:1}", "false"),
    ("a-long-open {a:1,b:1}", "true"),
    ("set-long [1", "true"),
    ("set-bool [1", "false"),
    ("set-bool [", "true"),
    ("any-set [", "true"),
    ("Foo blue", "true"),
    ("Bar blue", "false"),
    ("ipaddr ip=x", "true"),
    ("ipaddr ip=1", "true"),
    ("ipaddr nosuch()", "false"),
];

/// Types, each with a value, and whether the value has the type or else which function it asks for.
const MEMBERS: Rows = &[
    ("long 1", "true"),
    ("string 1", "false"),
    ("string x", "true"),
    ("Foo blue", "true"),
    ("Bar blue", "false"),
    ("any-entity blue", "true"),
    ("unit {}", "true"),
    ("a-long-optional {}", "true"),
    ("a-long {}", "false"),
    ("ipaddr ip=x", "true"),
    ("ipaddr ip()", "true"),
    ("ipaddr ip=x&1", "true"),
    ("ipaddr ip=1", "false"),
    ("ipaddr x", "false"),
    ("ipaddr nosuch()", "no function nosuch"),
    ("ipaddr ip=nosuch()", "false"),
    ("set-ipaddr [ip=x;nosuch()", "no function nosuch"),
    ("set-ipaddr [ip=x;ip()", "true"),
    ("long nosuch()", "false"),
    ("ipaddr ip=x&nosuch()", "true"),
    ("a-long {a:1}", "true"),
    ("a-long {a:1,z:nosuch()}", "false"),
    ("ipaddr-and-long {a:nosuch(),b:x}", "false"),
    ("ipaddr-and-long {a:nosuch(),b:1}", "no function nosuch"),
];

#[test]
fn values_and_types_are_of_core_types(rt: HostRuntime) -> Result<(), Fail> {
    let table = &[
        (Asked::Consistent, CONSISTENT),
        (Asked::Fits, FITS),
        (Asked::HasValue, MEMBERS),
        (Asked::HasExpression, MEMBERS),
    ];
    check(rt.alloc(), table)
}
