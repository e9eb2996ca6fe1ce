//! The lines that show a schema.

use crate::hidden::escaped;
use crate::spelled::{push_name, push_type};
use cedar_schema::below::{EntityType, EntityUID, M, Quoted};
use cedar_schema::{
    AttributeType, Type, UnlinkedRequestEnv, ValidatorActionId, ValidatorEntityType,
    ValidatorEntityTypeKind, ValidatorSchema,
};
use std::alloc::Global;

/// How ids and names of attributes are spelled.
#[derive(Clone, Copy, Drop)]
enum Spelling {
    /// As they are.
    Plain,
    /// As uids print ids, but for names that are identifiers; and what else would control a
    /// terminal as such an escape.
    Escaped,
}

/// The word for how an entity type is declared.
fn kind_word(kind: &ValidatorEntityTypeKind) -> &'static str {
    match kind {
        ValidatorEntityTypeKind::Standard(_) => "standard",
        ValidatorEntityTypeKind::Enum(_) => "enum",
        ValidatorEntityTypeKind::External => "external",
    }
}

/// An action's uid: its type, and its id as it is, between quotes. Out of memory is the only
/// refusal.
pub fn uid_text(alloc: Global, uid: &EntityUID) -> M<String> {
    let ty = uid.entity_type();
    let id = uid.eid().as_str();
    Ok(format!(in alloc; "{ty}::\"{id}\"")?)
}

/// An action's uid in a spelling.
fn uid_spelled(alloc: Global, uid: &EntityUID, spelling: Spelling) -> M<String> {
    match spelling {
        Spelling::Plain => uid_text(alloc, uid),
        Spelling::Escaped => Ok(format!(in alloc; "{uid}")?),
    }
}

/// An id of an entity in a spelling.
fn id_spelled(alloc: Global, id: &str, spelling: Spelling) -> M<String> {
    match spelling {
        Spelling::Plain => Ok(String::from_str(alloc, id)?),
        Spelling::Escaped => Ok(format!(in alloc; "{}", Quoted(id))?),
    }
}

/// Adds the name of an attribute in a spelling.
fn push_attribute(line: &mut String, name: &str, spelling: Spelling) -> M<()> {
    match spelling {
        Spelling::Plain => Ok(line.push_str(name)?),
        Spelling::Escaped => push_name(line, name),
    }
}

/// Adds a type in a spelling.
fn push_spelled(line: &mut String, ty: &Type, spelling: Spelling) -> M<()> {
    match spelling {
        Spelling::Plain => Ok(line.write(ty)?),
        Spelling::Escaped => push_type(line, ty),
    }
}

/// The line of an attribute of an entity type.
fn attribute_line(
    alloc: Global,
    ty: &EntityType,
    name: &str,
    declared: &AttributeType,
    spelling: Spelling,
) -> M<String> {
    let mut line = format!(in alloc; "attr {ty} ")?;
    push_attribute(&mut line, name, spelling)?;
    line.push_str(if declared.is_required() { ": " } else { "?: " })?;
    push_spelled(&mut line, &declared.attr_type, spelling)?;
    Ok(line)
}

/// Adds a line for each attribute of an entity type.
fn push_attributes(
    alloc: Global,
    ty: &ValidatorEntityType,
    spelling: Spelling,
    lines: &mut Vec<String>,
) -> M<()> {
    let of = ty.name();
    for (name, declared) in ty.attributes().iter() {
        lines.push(attribute_line(alloc, of, name.as_str(), declared, spelling)?)?;
    }
    Ok(())
}

/// What begins a line, with a type behind it in a spelling.
fn type_line(mut line: String, ty: &Type, spelling: Spelling) -> M<String> {
    push_spelled(&mut line, ty, spelling)?;
    Ok(line)
}

/// Adds a line for each id of the entities of an enumerated entity type.
fn push_choices(
    alloc: Global,
    ty: &ValidatorEntityType,
    spelling: Spelling,
    lines: &mut Vec<String>,
) -> M<()> {
    let ValidatorEntityTypeKind::Enum(choices) = &ty.kind else {
        return Ok(());
    };
    let name = ty.name();
    let id = id_spelled(alloc, choices.head.as_str(), spelling)?;
    lines.push(format!(in alloc; "choice {name} {id}")?)?;
    for choice in &choices.tail {
        let id = id_spelled(alloc, choice.as_str(), spelling)?;
        lines.push(format!(in alloc; "choice {name} {id}")?)?;
    }
    Ok(())
}

/// Adds a line for each descendant of an entity type.
fn push_descendants(alloc: Global, ty: &ValidatorEntityType, lines: &mut Vec<String>) -> M<()> {
    let name = ty.name();
    for lower in &ty.descendants {
        lines.push(format!(in alloc; "descendant {name} {lower}")?)?;
    }
    Ok(())
}

/// Adds the lines of an entity type.
fn push_entity_type(
    alloc: Global,
    ty: &ValidatorEntityType,
    spelling: Spelling,
    lines: &mut Vec<String>,
) -> M<()> {
    let name = ty.name();
    lines.push(format!(in alloc; "entity {name} {}", kind_word(&ty.kind))?)?;
    if let Some(tags) = ty.tag_type() {
        let line = format!(in alloc; "tags {name}: ")?;
        lines.push(type_line(line, tags, spelling)?)?;
    }
    push_attributes(alloc, ty, spelling, lines)?;
    push_choices(alloc, ty, spelling, lines)?;
    push_descendants(alloc, ty, lines)
}

/// Adds the lines of an action.
fn push_action(
    alloc: Global,
    action: &ValidatorActionId,
    spelling: Spelling,
    lines: &mut Vec<String>,
) -> M<()> {
    let uid = uid_spelled(alloc, action.name(), spelling)?;
    let kind = if action.is_external() {
        "external"
    } else {
        "defined"
    };
    lines.push(format!(in alloc; "action {uid} {kind}")?)?;
    if let Some(context) = action.context() {
        let line = format!(in alloc; "context {uid} ")?;
        lines.push(type_line(line, context, spelling)?)?;
    }
    for lower in action.descendants() {
        let lower = uid_spelled(alloc, lower, spelling)?;
        lines.push(format!(in alloc; "member {uid} {lower}")?)?;
    }
    Ok(())
}

/// Adds the line of an environment of requests.
fn push_environment(
    alloc: Global,
    it: &UnlinkedRequestEnv,
    spelling: Spelling,
    lines: &mut Vec<String>,
) -> M<()> {
    let types = it.as_request_env();
    let uid = uid_spelled(alloc, types.action, spelling)?;
    let (principal, resource) = (types.principal, types.resource);
    lines.push(format!(in alloc; "env {principal} {uid} {resource}")?)?;
    Ok(())
}

/// Adds the lines of the environments of requests.
fn push_environments(
    alloc: Global,
    schema: &ValidatorSchema,
    spelling: Spelling,
    lines: &mut Vec<String>,
) -> M<()> {
    for it in schema.unlinked_envs_owned() {
        push_environment(alloc, it, spelling, lines)?;
    }
    Ok(())
}

/// Adds the lines of the actions.
fn push_actions(
    alloc: Global,
    schema: &ValidatorSchema,
    spelling: Spelling,
    lines: &mut Vec<String>,
) -> M<()> {
    for action in schema.action_ids() {
        push_action(alloc, action, spelling, lines)?;
    }
    Ok(())
}

/// Some lines, each ended by a line feed.
fn text_of(alloc: Global, lines: &[String]) -> M<String> {
    let mut text = String::new(alloc);
    for line in lines {
        text.push_str(line.as_str())?;
        text.push_str("\n")?;
    }
    Ok(text)
}

/// The lines of a schema in a spelling, in any order.
fn spelled_lines(alloc: Global, schema: &ValidatorSchema, spelling: Spelling) -> M<Vec<String>> {
    let mut lines = Vec::new(alloc);
    for ty in schema.entity_types() {
        push_entity_type(alloc, ty, spelling, &mut lines)?;
    }
    push_actions(alloc, schema, spelling, &mut lines)?;
    push_environments(alloc, schema, spelling, &mut lines)?;
    Ok(lines)
}

/// Some lines, sorted by their bytes, each ended by a line feed.
fn sorted_text(alloc: Global, lines: &mut Vec<String>) -> M<String> {
    lines.sort()?;
    text_of(alloc, lines)
}

/// Puts an escape in the place of each character of some lines that would control a terminal.
fn escape_each(alloc: Global, lines: &mut Vec<String>) -> M<()> {
    for line in lines.iter_mut() {
        *line = escaped(alloc, line.as_str())?;
    }
    Ok(())
}

/// The lines that show a schema, sorted by their bytes, each ended by a line feed.
///
/// - `entity NAME KIND` for each entity type, KIND being `standard`, `enum` or `external`
/// - `attr NAME ATTR: TYPE` for each of its attributes, with `ATTR?:` where it is optional
/// - `choice NAME ID` for each id of an enumerated one, `tags NAME: TYPE` for the type of its tags
/// - `descendant NAME OTHER` for each of its descendants
/// - `action UID KIND` for each action, KIND being `defined` or `external`
/// - `context UID TYPE` for the type of its context, `member UID OTHER` for each of its descendants
/// - `env PRINCIPAL UID RESOURCE` for each environment of requests
///
/// Out of memory is the only refusal.
pub fn lines_of(alloc: Global, schema: &ValidatorSchema) -> M<String> {
    sorted_text(alloc, &mut spelled_lines(alloc, schema, Spelling::Plain)?)
}

/// The same lines, safe to be shown, and each of them the line of one thing alone: ids stand in
/// quotes as uids print, names of attributes too where they are no identifiers, and each other
/// character that would control a terminal stands as such an escape. Out of memory is the only
/// refusal.
pub fn escaped_lines_of(alloc: Global, schema: &ValidatorSchema) -> M<String> {
    let mut lines = spelled_lines(alloc, schema, Spelling::Escaped)?;
    escape_each(alloc, &mut lines)?;
    sorted_text(alloc, &mut lines)
}
