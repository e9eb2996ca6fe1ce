//! Reading definitions of namespaces, and fragments.

ghost use Rattle.std.proofs.Common.{refl};
ghost use Rattle.std.specs.Prelude.{Option, Some, None, option_map, string_bytes};
ghost use Rattle.std.specs.Option.{option_cmp};
ghost use Rattle.cedar_json.specs.Words.{Expr, PlainName, Text, WrittenDefinition, common_key, common_type_of, common_type_text, definition_of, id_key, name_cmp, namespace_key, plain_name, raw_expr, text_cmp, unreserved_id_text, written_definition};
ghost use Rattle.cedar_ast.proofs.Names.{name_ord-name_cmp};

use crate::annotations::{check_annotations, check_declaration};
use crate::fault::{Fault, FaultKind, Row};
use crate::from_json::Described;
use crate::from_json_owned::{FromJsonOwned, Key, taken_field, taken_or_else};
use crate::place_table::Cursor;
use crate::type_reading::read_type_of;
use cedar_ast::{Name, NameFault, UnreservedId};
use cedar_schema_ast::json_schema::{CommonType, CommonTypeId, NamespaceDefinition, RawName};
use json::Value;
use std::alloc::Global;
use std::collections::BTreeMap;

impl Described for CommonType<RawName> {
    ghost Plain = { Expr };

    ghost describes = { common_type_of };

    ghost shown = { λ it. raw_expr None it.ty };
}

impl FromJsonOwned for CommonType<RawName> {
    /// The common type that a value describes.
    fn take(
        alloc: Global,
        value: &mut Value<'_>,
        cursor: Cursor<'_>,
    ) -> Result<CommonType<RawName>, Fault> {
        check_annotations(alloc, value)?;
        let ty = read_type_of(alloc, value, Row::OfCommonType, cursor)?;
        let loc = cursor.key_loc();
        Ok(CommonType { ty, loc })
    }
}

impl Key for CommonTypeId {
    ghost PlainKey = { Text };

    ghost order = { text_cmp };

    ghost key_of = { common_key };

    ghost shown_key = { common_type_text };

    ghost same_order = { λ a b. refl };

    /// The id of a common type that a key is.
    fn read_key(
        alloc: Global,
        key: &str,
        index: usize,
        _cursor: Cursor<'_>,
    ) -> Result<CommonTypeId, Fault> {
        match CommonTypeId::from_str(alloc, key) {
            Ok(id) => Ok(id),
            Err(fault) => match fault {
                NameFault::Memory(_) => Err(Fault::Memory),
                NameFault::Reserved => Err(Fault::here(alloc, FaultKind::KeyIsReserved(index))),
                NameFault::NoCommonType => {
                    Err(Fault::here(alloc, FaultKind::KeyIsTypeWord(index)))
                }
                NameFault::NotAName(_) => Err(Fault::here(alloc, FaultKind::KeyIsNoId(index))),
            },
        }
    }
}

impl Key for UnreservedId {
    ghost PlainKey = { Text };

    ghost order = { text_cmp };

    ghost key_of = { id_key };

    ghost shown_key = { unreserved_id_text };

    ghost same_order = { λ a b. refl };

    /// The id of an entity type that a key is.
    fn read_key(
        alloc: Global,
        key: &str,
        index: usize,
        _cursor: Cursor<'_>,
    ) -> Result<UnreservedId, Fault> {
        match UnreservedId::from_str(alloc, key) {
            Ok(id) => Ok(id),
            Err(fault) => match fault {
                NameFault::Memory(_) => Err(Fault::Memory),
                NameFault::Reserved => Err(Fault::here(alloc, FaultKind::KeyIsReserved(index))),
                NameFault::NotAName(_) | NameFault::NoCommonType => {
                    Err(Fault::here(alloc, FaultKind::KeyIsNoId(index)))
                }
            },
        }
    }
}

impl Key for String {
    ghost PlainKey = { Text };

    ghost order = { text_cmp };

    ghost key_of = { Some };

    ghost shown_key = { string_bytes };

    ghost same_order = { λ a b. refl };

    /// The id of an action or the name of an attribute, which is any text.
    fn read_key(
        alloc: Global,
        key: &str,
        _index: usize,
        _cursor: Cursor<'_>,
    ) -> Result<String, Fault> {
        Ok(String::from_str(alloc, key)?)
    }
}

impl Described for NamespaceDefinition<RawName> {
    ghost Plain = { WrittenDefinition };

    ghost describes = { definition_of };

    ghost shown = { written_definition };
}

impl FromJsonOwned for NamespaceDefinition<RawName> {
    /// The definition of a namespace that a value describes.
    fn take(
        alloc: Global,
        value: &mut Value<'_>,
        cursor: Cursor<'_>,
    ) -> Result<NamespaceDefinition<RawName>, Fault> {
        check_declaration(alloc, value, Row::OfDefinition)?;
        let absent = BTreeMap::new(alloc);
        let common_types = taken_or_else(alloc, value, "commonTypes", absent, cursor)?;
        let entity_types = taken_field(alloc, value, "entityTypes", cursor)?;
        let actions = taken_field(alloc, value, "actions", cursor)?;
        Ok(NamespaceDefinition {
            common_types,
            entity_types,
            actions,
            loc: cursor.loc(),
        })
    }
}

impl Key for Option<Name> {
    ghost PlainKey = { Option PlainName };

    ghost order = { option_cmp name_cmp };

    ghost key_of = { namespace_key };

    ghost shown_key = { option_map plain_name };

    ghost same_order = { elim [
      | None ↦ elim [ None ↦ refl | Some b ↦ refl ]
      | Some a ↦ elim [ None ↦ refl | Some b ↦ name_ord-name_cmp a b ]
    ] };

    /// The namespace that a key names, with the location of the key.
    fn read_key(
        alloc: Global,
        key: &str,
        index: usize,
        cursor: Cursor<'_>,
    ) -> Result<Option<Name>, Fault> {
        if key.is_empty() {
            return Ok(None);
        }
        match Name::from_str(alloc, key) {
            Ok(name) => Ok(Some(name.with_loc(cursor.key_loc()))),
            Err(fault) => match fault {
                NameFault::Memory(_) => Err(Fault::Memory),
                NameFault::Reserved => {
                    Err(Fault::here(alloc, FaultKind::KeyIsReservedName(index)))
                }
                NameFault::NotAName(_) | NameFault::NoCommonType => {
                    Err(Fault::here(alloc, FaultKind::KeyIsNoName(index)))
                }
            },
        }
    }
}
