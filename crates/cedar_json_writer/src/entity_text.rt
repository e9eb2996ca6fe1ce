//! Entities, written as texts.

ghost use Rattle.std.specs.Prelude.{◌≡◌, [], MatchResult, OnOk, IfOk, IfErr, codes, string_bytes};
ghost use Rattle.cedar_json_writer.specs.Words.{AddsField, AddsValue, IsFlawOf, entity_ancestors, entity_attrs, entity_document, entity_flaws, entity_tags, entity_uid, json_tokens, pairs_flaws, pretty, tags_held, uid_array, written_pairs};

use crate::fault::WriteFault;
use crate::fields::close_object;
use crate::text::text_of;
use crate::values::{open_with_uid, write_attribute_values, write_uid};
use cedar_ast::{Entity, Value};
use json::{Pretty, Token};
use std::alloc::{AllocError, Global};
use std::collections::BTreeMap;

/// Writes the array of the ancestors of an entity.
fn write_ancestors(alloc: Global, out: &mut Pretty, entity: &Entity) -> Result<(), AllocError>
    ensures { OnOk result (AddsValue out.old out.new (uid_array (entity_ancestors entity.now))) }
{
    out.token(Token::BeginArray)?;
    for uid in entity.ancestors() {
        write_uid(alloc, out, uid)?;
    }
    out.token(Token::EndArray)
}

/// Writes the field for tags, where there are some.
fn write_tags(
    alloc: Global,
    out: &mut Pretty,
    tags: &BTreeMap<String, Value>,
) -> Result<(), WriteFault>
    ensures written { OnOk result (AddsField out.old out.new (codes "tags")
        (tags_held (written_pairs tags.now))) }
    ensures checked { MatchResult result (λ _. pairs_flaws (written_pairs tags.now) ≡ [])
        (IsFlawOf (pairs_flaws (written_pairs tags.now))) }
{
    if tags.is_empty() {
        return Ok(());
    }
    write_attribute_values(alloc, out, "tags", tags)
}

/// Writes the object of an entity.
fn write_entity(alloc: Global, out: &mut Pretty, entity: &Entity) -> Result<(), WriteFault>
    ensures written { OnOk result (AddsValue out.old out.new (entity_document
        (entity_uid entity.now) (written_pairs (entity_attrs entity.now))
        (entity_ancestors entity.now) (written_pairs (entity_tags entity.now)))) }
    ensures checked { MatchResult result
        (λ _. entity_flaws (written_pairs (entity_attrs entity.now))
        (written_pairs (entity_tags entity.now)) ≡ [])
        (IsFlawOf (entity_flaws (written_pairs (entity_attrs entity.now))
        (written_pairs (entity_tags entity.now)))) }
{
    open_with_uid(alloc, out, "uid", entity.uid())?;
    write_attribute_values(alloc, out, "attrs", entity.attrs())?;
    out.token(Token::Key("parents"))?;
    write_ancestors(alloc, out, entity)?;
    write_tags(alloc, out, entity.tags())?;
    close_object(out)
}

/// The text of an entity as JSON (Cedar reference, entities in JSON): an object of `uid`, `attrs`,
/// `parents`, which are all ancestors in the order of their uids, and `tags` where there are some.
/// It is laid out as the text of a fragment is.
///
/// It is refused as `Unwritable` exactly where a value of an attribute or a tag is, as in
/// `value_to_json`. Memory may run out.
pub fn entity_to_json(alloc: Global, entity: &Entity) -> Result<String, WriteFault>
    ensures text { IfOk result (λ text. string_bytes text
        ≡ pretty (json_tokens (entity_document (entity_uid entity.now)
        (written_pairs (entity_attrs entity.now)) (entity_ancestors entity.now)
        (written_pairs (entity_tags entity.now))))) }
    ensures writable { IfOk result (λ _. entity_flaws (written_pairs (entity_attrs entity.now))
        (written_pairs (entity_tags entity.now)) ≡ []) }
    ensures fault { IfErr result (IsFlawOf (entity_flaws (written_pairs (entity_attrs entity.now))
        (written_pairs (entity_tags entity.now)))) }
{
    let mut out = Pretty::new(alloc);
    write_entity(alloc, &mut out, entity)?;
    Ok(text_of(out))
}
