//! The extensions of Cedar.

ghost use Rattle.std.specs.Prelude.{◌≡◌, [], IfOk, map, option_map};
ghost use Rattle.cedar_json.specs.Words.{AreKinds, AreNames, AreRows, IsKind, IsRow, PlainName, SpellsName, TypeNamesFit, cedar_function, cedar_type_names, core_ty_of, extension_types, function_named, inserted, kind_type, plain_name, row_signature, signature, signatures, texts_of, unqualified};

use crate::fault::Fault;
use crate::spelling::read_plain_name;
use cedar_ast::{CoreSchemaType, ExtensionFunction, Extensions, M, Memory, Name, put};
use std::alloc::Global;
use std::collections::BTreeMap;

/// The kinds of type that the functions take and give.
#[derive(Clone, Copy)]
pub(crate) enum Kind {
    /// Truth values.
    Truth,
    /// Whole numbers.
    Number,
    /// Texts.
    Text,
    /// Values of the extension type of this name.
    Extension(&'static str),
}

/// A function of an extension.
#[derive(Clone, Copy)]
pub(crate) struct Row {
    /// Its name.
    pub(crate) name: &'static str,
    /// The types of its arguments.
    pub(crate) arguments: &'static [Kind],
    /// The type of its result.
    pub(crate) result: Kind,
}

const IP: Kind = Kind::Extension("ipaddr");

const DECIMAL: Kind = Kind::Extension("decimal");

const DATETIME: Kind = Kind::Extension("datetime");

const DURATION: Kind = Kind::Extension("duration");

/// A row of the table.
macro_rules! row {
    ($name:literal, [$($argument:expr),*], $result:expr) => {
        Row { name: $name, arguments: &[$($argument),*], result: $result }
    };
}

/// The names of Cedar's extension types.
const TYPES: &[&str] = &["ipaddr", "decimal", "datetime", "duration"];

/// The functions of Cedar's extension types.
const FUNCTIONS: &[Row] = &[
    row!("ip", [Kind::Text], IP),
    row!("isIpv4", [IP], Kind::Truth),
    row!("isIpv6", [IP], Kind::Truth),
    row!("isLoopback", [IP], Kind::Truth),
    row!("isMulticast", [IP], Kind::Truth),
    row!("isInRange", [IP, IP], Kind::Truth),
    row!("decimal", [Kind::Text], DECIMAL),
    row!("lessThan", [DECIMAL, DECIMAL], Kind::Truth),
    row!("lessThanOrEqual", [DECIMAL, DECIMAL], Kind::Truth),
    row!("greaterThan", [DECIMAL, DECIMAL], Kind::Truth),
    row!("greaterThanOrEqual", [DECIMAL, DECIMAL], Kind::Truth),
    row!("datetime", [Kind::Text], DATETIME),
    row!("offset", [DATETIME, DURATION], DATETIME),
    row!("durationSince", [DATETIME, DATETIME], DURATION),
    row!("toDate", [DATETIME], DATETIME),
    row!("toTime", [DATETIME], DURATION),
    row!("duration", [Kind::Text], DURATION),
    row!("toMilliseconds", [DURATION], Kind::Number),
    row!("toSeconds", [DURATION], Kind::Number),
    row!("toMinutes", [DURATION], Kind::Number),
    row!("toHours", [DURATION], Kind::Number),
    row!("toDays", [DURATION], Kind::Number),
];

/// The name without a path that a text spells.
fn spelled(alloc: Global, text: &str) -> M<Name>
    requires { SpellsName text.now }
    ensures { IfOk result (λ name. plain_name name ≡ unqualified text.now) }
{
    match read_plain_name(alloc, text) {
        Ok(name) => Ok(name),
        Err(Fault::Memory) => Err(Memory),
        Err(Fault::At(_, _)) => unreachable!(),
    }
}

/// The type of a kind.
fn type_of_kind(alloc: Global, kind: Kind) -> M<CoreSchemaType>
    requires { IsKind kind }
    ensures { IfOk result (λ ty. core_ty_of ty ≡ kind_type kind) }
{
    match kind {
        Kind::Truth => Ok(CoreSchemaType::Bool),
        Kind::Number => Ok(CoreSchemaType::Long),
        Kind::Text => Ok(CoreSchemaType::String),
        Kind::Extension(name) => Ok(CoreSchemaType::Extension {
            name: spelled(alloc, name)?,
        }),
    }
}

/// The types of some kinds.
fn types_of(alloc: Global, kinds: &[Kind]) -> M<Vec<CoreSchemaType>>
    requires { AreKinds kinds.now }
    ensures { IfOk result (λ types. map core_ty_of types.items ≡ map kind_type kinds.now) }
{
    let mut types = Vec::new(alloc);
    for kind in kinds {
        types.push(type_of_kind(alloc, *kind)?)?;
    }
    Ok(types)
}

/// The function of a row.
fn function_of(alloc: Global, row: Row) -> M<ExtensionFunction>
    requires { IsRow row }
    ensures { IfOk result (λ function. signature function ≡ row_signature row) }
{
    let arg_types = types_of(alloc, row.arguments)?;
    let return_type = Some(type_of_kind(alloc, row.result)?);
    Ok(ExtensionFunction {
        arg_types,
        return_type,
    })
}

/// The functions of some rows by name.
fn functions_of(alloc: Global, rows: &[Row]) -> M<BTreeMap<Name, ExtensionFunction>>
    requires { AreRows rows.now }
    ensures { IfOk result (λ all. signatures all ≡ inserted rows.now []) }
{
    let mut all = BTreeMap::new(alloc);
    for row in rows {
        let name = spelled(alloc, row.name)?;
        put(&mut all, name, function_of(alloc, *row)?)?;
    }
    Ok(all)
}

/// The names that some texts spell.
fn names_of(alloc: Global, texts: &[&str]) -> M<Vec<Name>>
    requires { AreNames texts.now }
    ensures { IfOk result (λ names. map plain_name names.items
        ≡ map unqualified (texts_of texts.now)) }
{
    let mut names = Vec::new(alloc);
    for text in texts {
        names.push(spelled(alloc, *text)?)?;
    }
    Ok(names)
}

/// The extensions of Cedar: the types `ipaddr`, `decimal`, `datetime` and `duration`, and their
/// functions (Cedar reference, data types and operators). Memory may run out.
pub fn cedar_extensions(alloc: Global) -> M<Extensions>
    ensures types { IfOk result (λ it. extension_types it ≡ cedar_type_names) }
    ensures functions { IfOk result (λ it. (name : PlainName)
        → option_map signature (function_named it name) ≡ cedar_function name) }
    ensures fit { IfOk result (λ it. TypeNamesFit (extension_types it)) }
{
    let functions = functions_of(alloc, FUNCTIONS)?;
    Ok(Extensions::new(names_of(alloc, TYPES)?, functions))
}
