//! Why one version of a schema lacks what another admits, in words.

use crate::sides::Sides;
use crate::steps::{Part, push_attribute_path, push_parting, push_steps};
use crate::text::Text;
use cedar_ast::{EntityType, EntityUID};
use cedar_compare::{Cause, Difference};
use cedar_counterexample::Step;
use cedar_schema::{TCNode, ValidatorSchema};

/// The cause of a difference.
fn cause_of(difference: &Difference) -> &Cause {
    match difference {
        Difference::EntityType { cause, .. } => cause,
        Difference::Action { cause, .. } => cause,
        Difference::Environment { cause, .. } => cause,
    }
}

/// The uid of the entity that a difference names, or of the action of its request.
fn uid_of(difference: &Difference) -> &EntityUID {
    match difference {
        Difference::EntityType { witness, .. } => witness.uid(),
        Difference::Action { witness, .. } => witness.uid(),
        Difference::Environment { witness, .. } => &witness.action,
    }
}

/// What the other version has in the place of an entity type.
fn type_words(sides: &Sides<'_>, name: &EntityType) -> &'static str {
    match sides.other.get_entity_type(name) {
        Some(ty) if ty.is_enumerated() => "has it as an enumerated type",
        Some(_) => "has it as a standard type",
        None => "has no such entity type",
    }
}

/// What is said of the other version, which has nothing of the sort.
fn gone_words(sides: &Sides<'_>, difference: &Difference) -> &'static str {
    match difference {
        Difference::EntityType { witness, .. } => type_words(sides, witness.uid().entity_type()),
        Difference::Action { .. } => "has no such action",
        Difference::Environment { .. } => "has no such environment",
    }
}

/// Whether a schema lists an action below another.
fn lists(schema: &ValidatorSchema, lower: &EntityUID, upper: &EntityUID) -> bool {
    match schema.get_action_id(upper) {
        Some(action) => action.has_edge_to(lower),
        None => false,
    }
}

/// Adds that an action stands above another in one of the two versions alone.
fn push_upper(text: &mut Text, sides: &Sides<'_>, lower: &EntityUID, upper: &EntityUID) {
    if lists(sides.own, lower, upper) {
        write!(text, "{upper} isn't above it in {}", sides.other_name);
    } else {
        write!(text, "{upper} is above it in {} alone", sides.other_name);
    }
}

/// The attributes of an entity type, if there is one.
fn attributes_of<'a>(schema: &'a ValidatorSchema, name: &EntityType) -> Option<Part<'a>> {
    let declared = schema.get_entity_type(name)?;
    Some(Part::Attributes(declared.attributes()))
}

/// The type of the tags of an entity type, if it has some.
fn tags_of<'a>(schema: &'a ValidatorSchema, name: &EntityType) -> Option<Part<'a>> {
    let tags = schema.get_entity_type(name)?.tag_type()?;
    Some(Part::Type(tags))
}

/// The type of the context of an action, if there is one.
fn context_of<'a>(schema: &'a ValidatorSchema, uid: &EntityUID) -> Option<Part<'a>> {
    Some(Part::Type(schema.context_type(uid)?))
}

/// Adds what is said of two parts that a schema may lack, and of the other version where it lacks
/// one.
fn push_parts(
    text: &mut Text,
    sides: &Sides<'_>,
    parts: (Option<Part<'_>>, Option<Part<'_>>),
    steps: &[Step],
    lacking: &str,
) {
    text.push_str(": ");
    match parts {
        (Some(own), Some(other)) => push_parting(text, sides, own, other, steps),
        _ => sides.push_said(text, lacking),
    }
}

/// Adds what is said of the attributes of an entity type, with the path.
fn push_attributes(text: &mut Text, sides: &Sides<'_>, name: &EntityType, steps: &[Step]) {
    let parts = (
        attributes_of(sides.own, name),
        attributes_of(sides.other, name),
    );
    push_attribute_path(text, steps);
    push_parts(text, sides, parts, steps, "has no such entity type");
}

/// Adds what is said of the tags of an entity type, with the path.
fn push_tags(text: &mut Text, sides: &Sides<'_>, name: &EntityType, steps: &[Step]) {
    let parts = (tags_of(sides.own, name), tags_of(sides.other, name));
    text.push_str("tags");
    push_steps(text, steps);
    push_parts(text, sides, parts, steps, "has no tags");
}

/// Adds what is said of the context of an action, with the path.
fn push_context(text: &mut Text, sides: &Sides<'_>, uid: &EntityUID, steps: &[Step]) {
    let parts = (context_of(sides.own, uid), context_of(sides.other, uid));
    text.push_str("context");
    push_steps(text, steps);
    push_parts(text, sides, parts, steps, "has no such action");
}

/// Adds the path down a part of an entity or of a request.
fn push_path(text: &mut Text, part: cedar_compare::Part, steps: &[Step]) {
    match part {
        cedar_compare::Part::Attributes => push_attribute_path(text, steps),
        cedar_compare::Part::Tags => {
            text.push_str("tags");
            push_steps(text, steps);
        }
        cedar_compare::Part::Context => {
            text.push_str("context");
            push_steps(text, steps);
        }
    }
}

/// Adds that a uid, which may be named at the end of a path, doesn't exist in the other version.
fn push_missing(text: &mut Text, sides: &Sides<'_>, uid: &EntityUID) {
    let sort = if uid.is_action() { "action" } else { "choice" };
    write!(text, ": {uid} is no {sort} in {}", sides.other_name);
}

/// Adds why the other version lacks what a difference names.
pub(crate) fn push_cause(text: &mut Text, sides: &Sides<'_>, difference: &Difference) {
    let uid = uid_of(difference);
    match cause_of(difference) {
        Cause::Gone => sides.push_said(text, gone_words(sides, difference)),
        Cause::Choice(choice) => {
            write!(text, "{choice} is no choice in {}", sides.other_name);
        }
        Cause::AncestorType(upper) => {
            write!(text, "{upper} isn't above it in {}", sides.other_name);
        }
        Cause::AncestorAction(upper) => push_upper(text, sides, uid, upper),
        Cause::Attributes(steps) => push_attributes(text, sides, uid.entity_type(), steps),
        Cause::Tags(steps) => push_tags(text, sides, uid.entity_type(), steps),
        Cause::Context(steps) => push_context(text, sides, uid, steps),
        Cause::NoSuchEntity { part, steps, uid } => {
            push_path(text, *part, steps);
            push_missing(text, sides, uid);
        }
    }
}
