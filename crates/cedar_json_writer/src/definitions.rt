//! Definitions of namespaces that are written, with the keys in them.

ghost use Rattle.std.proofs.Common.{refl};
ghost use Rattle.std.specs.Prelude.{Option, None, OnOk, codes, option_map, string_bytes};
ghost use Rattle.std.specs.Option.{option_cmp};
ghost use Rattle.cedar_json.proofs.NameLemmas.{namespace_order};
ghost use Rattle.cedar_json_writer.specs.Words.{AddsField, Expr, IsChecked, PlainName, SoundDeclarations, SoundDefinition, SoundType, Text, WrittenDefinition, common_key, common_type_text, common_types_held, declared_flaws, definition_document, definition_flaws, name_cmp, namespace_text, plain_name, raw_expr, text_cmp, type_document, type_flaws, unreserved_id_text, written_common_types, written_definition};

use crate::fault::WriteFault;
use crate::fields::close_object;
use crate::types::write_type;
use crate::written::{Key, Written, write_field};
use cedar_ast::{Name, UnreservedId};
use cedar_schema_ast::json_schema::{CommonType, CommonTypeId, NamespaceDefinition, RawName};
use json::{Pretty, Token};
use std::alloc::{AllocError, Global};
use std::collections::BTreeMap;

impl Key for CommonTypeId {
    ghost PlainKey = { Text };

    ghost order = { text_cmp };

    ghost text = { λ text. text };

    ghost shown_key = { common_type_text };

    ghost same_order = { λ a b. refl };

    /// Writes the id of a common type as a key.
    fn write_key(&self, _alloc: Global, out: &mut Pretty) -> Result<(), AllocError> {
        out.token(Token::Key(self.as_str()))
    }
}

impl Key for UnreservedId {
    ghost PlainKey = { Text };

    ghost order = { text_cmp };

    ghost text = { λ text. text };

    ghost shown_key = { unreserved_id_text };

    ghost same_order = { λ a b. refl };

    /// Writes the id of an entity type as a key.
    fn write_key(&self, _alloc: Global, out: &mut Pretty) -> Result<(), AllocError> {
        out.token(Token::Key(self.as_str()))
    }
}

impl Key for String {
    ghost PlainKey = { Text };

    ghost order = { text_cmp };

    ghost text = { λ text. text };

    ghost shown_key = { string_bytes };

    ghost same_order = { λ a b. refl };

    /// Writes the id of an action or the name of an attribute as a key.
    fn write_key(&self, _alloc: Global, out: &mut Pretty) -> Result<(), AllocError> {
        out.token(Token::Key(self.as_str()))
    }
}

impl Key for Option<Name> {
    ghost PlainKey = { Option PlainName };

    ghost order = { option_cmp name_cmp };

    ghost text = { namespace_text };

    ghost shown_key = { option_map plain_name };

    ghost same_order = { namespace_order };

    /// Writes a namespace as a key.
    fn write_key(&self, alloc: Global, out: &mut Pretty) -> Result<(), AllocError> {
        match self {
            Some(name) => {
                let text = name.to_string(alloc)?;
                out.token(Token::Key(text.as_str()))?;
            }
            None => out.token(Token::Key(""))?,
        }
        Ok(())
    }
}

impl Written for CommonType<RawName> {
    ghost Plain = { Expr };

    ghost document = { type_document };

    ghost flaws = { type_flaws };

    ghost Sound = { SoundType };

    ghost shown = { λ it. raw_expr None it.ty };

    /// Writes the type that a common type stands for.
    fn write(&self, alloc: Global, out: &mut Pretty) -> Result<(), WriteFault> {
        write_type(alloc, out, &self.ty)
    }
}

/// Writes the field for common types, where there are some.
fn write_common_types(
    alloc: Global,
    out: &mut Pretty,
    all: &BTreeMap<CommonTypeId, CommonType<RawName>>,
) -> Result<(), WriteFault>
    ensures written { OnOk result (AddsField out.old out.new (codes "commonTypes")
        (common_types_held (written_common_types all.now))) }
    ensures checked { IsChecked result (declared_flaws type_flaws (written_common_types all.now))
        (SoundDeclarations common_key SoundType (written_common_types all.now)) }
{
    if all.is_empty() {
        return Ok(());
    }
    write_field(alloc, out, "commonTypes", all)
}

impl Written for NamespaceDefinition<RawName> {
    ghost Plain = { WrittenDefinition };

    ghost document = { definition_document };

    ghost flaws = { definition_flaws };

    ghost Sound = { SoundDefinition };

    ghost shown = { written_definition };

    /// Writes the object of a definition.
    fn write(&self, alloc: Global, out: &mut Pretty) -> Result<(), WriteFault> {
        out.token(Token::BeginObject)?;
        write_field(alloc, out, "entityTypes", &self.entity_types)?;
        write_field(alloc, out, "actions", &self.actions)?;
        write_common_types(alloc, out, &self.common_types)?;
        close_object(out)
    }
}
