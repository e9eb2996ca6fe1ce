//! Declarations of actions that are written.

ghost use Rattle.std.specs.Prelude.{OnOk, codes, map, option_map};
ghost use Rattle.json.specs.Json.{string};
ghost use Rattle.cedar_json_writer.specs.Words.{AddsField, AddsValue, IfThere, IsChecked, SoundAction, SoundPairs, SoundRequests, WrittenAction, action_document, action_flaws, flaws_in, name_text, pairs_document, pairs_flaws, parent_array, parent_document, raw_name, requests_document, requests_flaws, written_action, written_pairs, written_parent, written_requests};

use crate::entity_types::write_shape_field;
use crate::fault::WriteFault;
use crate::fields::{
    close_object, close_with_flag, open_object, write_name_field, write_names_field,
    write_text_field,
};
use crate::values::write_attribute_values;
use crate::written::Written;
use cedar_ast::Value;
use cedar_schema_ast::json_schema::{ActionEntityUID, ActionType, ApplySpec, RawName};
use json::{Pretty, Token};
use std::alloc::{AllocError, Global};
use std::collections::BTreeMap;

/// Writes the field for the type of a parent, where one is written.
fn write_parent_type(
    alloc: Global,
    out: &mut Pretty,
    ty: &Option<RawName>,
) -> Result<(), AllocError>
    ensures { OnOk result (AddsField out.old out.new (codes "type")
        (option_map (λ name. string (name_text (raw_name name))) ty.now)) }
{
    if let Some(name) = ty {
        write_name_field(alloc, out, "type", name.as_internal())?;
    }
    Ok(())
}

/// Writes the object of a parent.
fn write_parent(
    alloc: Global,
    out: &mut Pretty,
    it: &ActionEntityUID<RawName>,
) -> Result<(), AllocError>
    ensures { OnOk result (AddsValue out.old out.new (parent_document (written_parent it.now))) }
{
    out.token(Token::BeginObject)?;
    write_text_field(out, "id", it.id.as_str())?;
    write_parent_type(alloc, out, &it.ty)?;
    out.token(Token::EndObject)
}

/// Writes the field for parents, where some are written.
fn write_member_of_field(
    alloc: Global,
    out: &mut Pretty,
    member_of: &Option<Vec<ActionEntityUID<RawName>>>,
) -> Result<(), AllocError>
    ensures { OnOk result (AddsField out.old out.new (codes "memberOf")
        (option_map parent_array
        (option_map (λ parents. map written_parent parents.items) member_of.now))) }
{
    let Some(parents) = member_of else {
        return Ok(());
    };
    out.token(Token::Key("memberOf"))?;
    out.token(Token::BeginArray)?;
    for parent in parents {
        write_parent(alloc, out, parent)?;
    }
    out.token(Token::EndArray)
}

/// Writes the field for the requests that an action is for, where they are written.
fn write_applies_to_field(
    alloc: Global,
    out: &mut Pretty,
    applies_to: &Option<ApplySpec<RawName>>,
) -> Result<(), WriteFault>
    ensures written { OnOk result (AddsField out.old out.new (codes "appliesTo")
        (option_map requests_document (option_map written_requests applies_to.now))) }
    ensures checked { IsChecked result
        (flaws_in requests_flaws (option_map written_requests applies_to.now))
        (IfThere SoundRequests (option_map written_requests applies_to.now)) }
{
    let Some(it) = applies_to else {
        return Ok(());
    };
    open_object(out, "appliesTo")?;
    write_names_field(alloc, out, "principalTypes", &it.principal_types)?;
    write_names_field(alloc, out, "resourceTypes", &it.resource_types)?;
    write_shape_field(alloc, out, "context", &it.context.0)?;
    close_object(out)
}

/// Writes the field for attributes, where some are written.
fn write_attributes_field(
    alloc: Global,
    out: &mut Pretty,
    attributes: &Option<BTreeMap<String, Value>>,
) -> Result<(), WriteFault>
    ensures written { OnOk result (AddsField out.old out.new (codes "attributes")
        (option_map pairs_document (option_map written_pairs attributes.now))) }
    ensures checked { IsChecked result
        (flaws_in pairs_flaws (option_map written_pairs attributes.now))
        (IfThere SoundPairs (option_map written_pairs attributes.now)) }
{
    let Some(values) = attributes else {
        return Ok(());
    };
    write_attribute_values(alloc, out, "attributes", values)
}

impl Written for ActionType<RawName> {
    ghost Plain = { WrittenAction };

    ghost document = { action_document };

    ghost flaws = { action_flaws };

    ghost Sound = { SoundAction };

    ghost shown = { written_action };

    /// Writes the object of an action.
    fn write(&self, alloc: Global, out: &mut Pretty) -> Result<(), WriteFault> {
        out.token(Token::BeginObject)?;
        write_applies_to_field(alloc, out, &self.applies_to)?;
        write_member_of_field(alloc, out, &self.member_of)?;
        write_attributes_field(alloc, out, &self.attributes)?;
        close_with_flag(out, "external", false, self.external)
    }
}
