//! The open record types and the extension types in a type.

ghost use Rattle.std.specs.Prelude.{◌≡◌, ◌∷◌, [], IfOk, cond};
ghost use Rattle.cedar_places.specs.Words.{IsListed, extension_type, marked, open_record, record_marks, type_marks, unreserved_id_text, variant_marks};

use crate::table::Table;
use crate::written::{Written, WrittenAt};
use cedar_ast::{Loc, M, UnreservedId};
use cedar_schema_ast::json_schema::{RawName, RecordType, Type, TypeVariant};
use std::alloc::Global;

/// Lists the open record types and the extension types in a type.
#[cycle(types)]
pub(crate) fn list_type(ty: &Type<RawName>, table: &mut Table)
    ensures { IsListed (type_marks ty.now) table.old table.new }
{
    match ty {
        Type::Plain { ty, loc } => list_variant(ty, *loc, table),
        Type::CommonTypeRef { .. } => {}
    }
}

/// The mention of an extension type at a place.
fn extension_type_at(alloc: Global, name: &UnreservedId, loc: Option<Loc>) -> M<WrittenAt>
    ensures { IfOk result (λ it. marked it ≡ (extension_type (unreserved_id_text name.now), loc)) }
{
    let what = Written::ExtensionType(String::from_str(alloc, name.as_str())?);
    Ok(WrittenAt { what, loc })
}

/// The same of a type variant that was written at a place.
#[cycle(types)]
fn list_variant(ty: &TypeVariant<RawName>, loc: Option<Loc>, table: &mut Table)
    ensures { IsListed (variant_marks ty.now loc) table.old table.new }
{
    match ty {
        TypeVariant::Set { element } => list_type(element, table),
        TypeVariant::Record(record_type) => list_record(record_type, loc, table),
        TypeVariant::Extension { name } => {
            let made = extension_type_at(table.alloc(), name, loc);
            table.add(made);
        }
        TypeVariant::String
        | TypeVariant::Long
        | TypeVariant::Boolean
        | TypeVariant::Entity { .. }
        | TypeVariant::EntityOrCommon { .. } => {}
    }
}

/// Lists a record type that was written at a place, if it is open.
fn list_if_open(is_open: bool, loc: Option<Loc>, table: &mut Table)
    ensures { IsListed (cond is_open ((open_record, loc) ∷ []) []) table.old table.new }
{
    if is_open {
        let what = Written::OpenRecord;
        table.push(WrittenAt { what, loc });
    }
}

/// The same of a record type that was written at a place.
#[cycle(types)]
fn list_record(record_type: &RecordType<RawName>, loc: Option<Loc>, table: &mut Table)
    ensures { IsListed (record_marks record_type.now loc) table.old table.new }
{
    list_if_open(record_type.additional_attributes, loc, table);
    for (_, attribute) in &record_type.attributes {
        list_type(&attribute.ty, table);
    }
}
