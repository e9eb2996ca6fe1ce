//! Requests, written as texts.

ghost use Rattle.std.specs.Prelude.{◌≡◌, [], Some, MatchResult, OnOk, IfOk, IfErr, string_bytes};
ghost use Rattle.json.specs.Json.{string};
ghost use Rattle.cedar_json_writer.specs.Words.{AddsField, AddsValue, IsFlawOf, json_tokens, pairs_flaws, pretty, request_document, uid_of, uid_text, written_pairs};

use crate::fault::WriteFault;
use crate::fields::{close_object, write_text_field};
use crate::text::text_of;
use crate::values::write_attribute_values;
use cedar_ast::{EntityUID, Value};
use json::{Pretty, Token};
use std::alloc::{AllocError, Global};
use std::collections::BTreeMap;

/// Writes a field that holds a uid as it is printed.
fn write_uid_field(
    alloc: Global,
    out: &mut Pretty,
    name: &str,
    uid: &EntityUID,
) -> Result<(), AllocError>
    ensures { OnOk result
        (AddsField out.old out.new name.now (Some (string (uid_text (uid_of uid.now))))) }
{
    let text = uid.to_string(alloc)?;
    write_text_field(out, name, text.as_str())
}

/// Writes the object of a request.
fn write_request(
    alloc: Global,
    out: &mut Pretty,
    principal: &EntityUID,
    action: &EntityUID,
    resource: &EntityUID,
    context: &BTreeMap<String, Value>,
) -> Result<(), WriteFault>
    ensures written { OnOk result (AddsValue out.old out.new (request_document
        (uid_of principal.now) (uid_of action.now) (uid_of resource.now)
        (written_pairs context.now))) }
    ensures checked { MatchResult result (λ _. pairs_flaws (written_pairs context.now) ≡ [])
        (IsFlawOf (pairs_flaws (written_pairs context.now))) }
{
    out.token(Token::BeginObject)?;
    write_uid_field(alloc, out, "principal", principal)?;
    write_uid_field(alloc, out, "action", action)?;
    write_uid_field(alloc, out, "resource", resource)?;
    write_attribute_values(alloc, out, "context", context)?;
    close_object(out)
}

/// The text of a request as JSON (Cedar reference, entities and context in JSON): an object of
/// `principal`, `action` and `resource`, each the text that its uid prints as, and of the object
/// `context`. It is laid out as the text of a fragment is.
///
/// It is refused as `Unwritable` exactly where a value of the context is, as in `value_to_json`.
/// Memory may run out.
pub fn request_to_json(
    alloc: Global,
    principal: &EntityUID,
    action: &EntityUID,
    resource: &EntityUID,
    context: &BTreeMap<String, Value>,
) -> Result<String, WriteFault>
    ensures text { IfOk result (λ text. string_bytes text ≡ pretty (json_tokens (request_document
        (uid_of principal.now) (uid_of action.now) (uid_of resource.now)
        (written_pairs context.now)))) }
    ensures writable { IfOk result (λ _. pairs_flaws (written_pairs context.now) ≡ []) }
    ensures fault { IfErr result (IsFlawOf (pairs_flaws (written_pairs context.now))) }
{
    let mut out = Pretty::new(alloc);
    write_request(alloc, &mut out, principal, action, resource, context)?;
    Ok(text_of(out))
}
