//! Names that are declared, and references.

ghost use Rattle.std.specs.Prelude.{◌≡◌, Some, true, [], map, string_bytes, IfOk, IfErr, OnOk};
ghost use Rattle.std.specs.List.{flat_map, list_all};
ghost use Rattle.cedar_ast.specs.Words.{id_text, is_identifier_text, name_loc, name_of, plain_loc, plain_name, unreserved_id_text};
ghost use Rattle.cedar_schema_ast.specs.CommonTypeId.{common_type_text};
ghost use Rattle.cedar_schema_grammar.specs.Plain.{path_of};
ghost use Rattle.cedar_schema_text.specs.Faults.{IsAmong, is_common_id, is_name, is_unreserved, name_faults, namespace_faults, reserved, unless};
ghost use Rattle.cedar_schema_text.specs.Meaning.{name_from, name_meant};
ghost use Rattle.cedar_schema_text.specs.Shown.{name_shown, namespace_shown};

use crate::fault::MeaningFault;
use cedar_ast::{Id, InternalName, Loc, Name, UnreservedId};
use cedar_schema_ast::json_schema::{CommonTypeId, RawName};
use cedar_schema_grammar as text;
use std::alloc::Global;

/// The identifier that a text is. The ids of a text are identifiers.
fn id(alloc: Global, id: &str, loc: Loc) -> Result<Id, MeaningFault>
    ensures text { IfOk result (λ found. id_text found ≡ id.now) }
    ensures valid { OnOk result (is_identifier_text id.now ≡ true) }
    ensures fault { IfErr result (IsAmong (unless (is_identifier_text id.now) (reserved loc))) }
{
    match Id::new(String::from_str(alloc, id)?) {
        Some(id) => Ok(id),
        None => Err(MeaningFault::Reserved(loc)),
    }
}

/// The identifiers that some texts are.
fn ids(alloc: Global, written: &[String], loc: Loc) -> Result<Vec<Id>, MeaningFault>
    ensures texts { IfOk result (λ found.
        map id_text found.items ≡ map string_bytes written.now) }
    ensures valid { OnOk result
        (list_all is_identifier_text (map string_bytes written.now) ≡ true) }
    ensures fault { IfErr result
        (IsAmong (unless (list_all is_identifier_text (map string_bytes written.now))
        (reserved loc))) }
{
    let mut found = Vec::with_capacity(alloc, written.len())?;
    for part in written {
        found.push(id(alloc, part.as_str(), loc)?)?;
    }
    Ok(found)
}

/// The name that a path is, where it was written.
fn internal_name(alloc: Global, path: &text::Path) -> Result<InternalName, MeaningFault>
    ensures name { IfOk result (λ it. name_of it ≡ name_from (path_of path.now).ids) }
    ensures loc { IfOk result (λ it. name_loc it ≡ Some path.now.loc) }
    ensures valid { OnOk result (is_name (path_of path.now).ids ≡ true) }
    ensures fault { IfErr result (IsAmong (name_faults (path_of path.now))) }
{
    let mut parts = ids(alloc, &path.ids, path.loc)?;
    match parts.pop() {
        Some(base) => Ok(InternalName::new(base, parts, Some(path.loc))),
        None => Err(MeaningFault::Reserved(path.loc)),
    }
}

/// The reference that a path is.
pub(crate) fn reference(alloc: Global, path: &text::Path) -> Result<RawName, MeaningFault>
    ensures meant { IfOk result (λ it. name_shown it ≡ name_meant (path_of path.now)) }
    ensures none { OnOk result (name_faults (path_of path.now) ≡ []) }
    ensures fault { IfErr result (IsAmong (name_faults (path_of path.now))) }
{
    Ok(RawName::new(internal_name(alloc, path)?))
}

/// The references that some paths are.
pub(crate) fn references(alloc: Global, paths: &[text::Path]) -> Result<Vec<RawName>, MeaningFault>
    ensures meant { IfOk result (λ all.
        map name_shown all.items ≡ map name_meant (map path_of paths.now)) }
    ensures none { OnOk result (flat_map name_faults (map path_of paths.now) ≡ []) }
    ensures fault { IfErr result (IsAmong (flat_map name_faults (map path_of paths.now))) }
{
    let mut names = Vec::with_capacity(alloc, paths.len())?;
    for path in paths {
        names.push(reference(alloc, path)?)?;
    }
    Ok(names)
}

/// The name of a namespace, which must not be reserved.
pub(crate) fn namespace(alloc: Global, path: &text::Path) -> Result<Name, MeaningFault>
    ensures meant { IfOk result (λ it. namespace_shown it ≡ name_meant (path_of path.now)) }
    ensures none { OnOk result (namespace_faults (path_of path.now) ≡ []) }
    ensures fault { IfErr result (IsAmong (namespace_faults (path_of path.now))) }
{
    match Name::new(internal_name(alloc, path)?) {
        Some(name) => Ok(name),
        None => Err(MeaningFault::Reserved(path.loc)),
    }
}

/// The id of an entity type, which must not be reserved.
pub(crate) fn unreserved(alloc: Global, name: &text::Name) -> Result<UnreservedId, MeaningFault>
    ensures text { IfOk result (λ id. unreserved_id_text id ≡ string_bytes name.now.text) }
    ensures valid { OnOk result (is_unreserved (string_bytes name.now.text) ≡ true) }
    ensures fault { IfErr result
        (IsAmong (unless (is_unreserved (string_bytes name.now.text)) (reserved name.now.loc))) }
{
    match UnreservedId::new(String::from_str(alloc, name.text.as_str())?) {
        Some(id) => Ok(id),
        None => Err(MeaningFault::Reserved(name.loc)),
    }
}

/// The id of a common type, which must be no word that the format has for a form of type.
pub(crate) fn common_type(alloc: Global, name: &text::Name) -> Result<CommonTypeId, MeaningFault>
    ensures text { IfOk result (λ id. common_type_text id ≡ string_bytes name.now.text) }
    ensures valid { OnOk result (is_common_id (string_bytes name.now.text) ≡ true) }
    ensures fault { IfErr result
        (IsAmong (unless (is_common_id (string_bytes name.now.text)) (reserved name.now.loc))) }
{
    match CommonTypeId::new(unreserved(alloc, name)?) {
        Some(id) => Ok(id),
        None => Err(MeaningFault::Reserved(name.loc)),
    }
}
