//! The types of attributes, of tags and of contexts.

use crate::answers::Answer;
use crate::asked_for::{no_action, no_type, type_named, uid_named};
use crate::repeating::{Repeated, shortened};
use crate::text::Text;
use cedar_ast::{EntityType, EntityUID, Memory, Quoted};
use cedar_schema::lookup::SchemaLookup;
use cedar_schema::{Type, ValidatorEntityType, ValidatorSchema};
use std::alloc::Global;
use std::fmt::Display;

/// The text of a type.
fn type_text(alloc: Global, ty: &Type) -> Text {
    let mut text = Text::new(alloc);
    text.push_type(ty);
    text
}

/// One line with the text of a type.
fn type_line(alloc: Global, ty: &Type) -> Answer {
    let mut line = Text::new(alloc);
    line.push_text(&type_text(alloc, ty));
    line.push('\n');
    Answer::lines(line.whole())
}

/// That a type has no attribute of a name.
fn no_attribute(alloc: Global, ty: &Type, name: &str) -> Answer {
    let mut why = Text::new(alloc);
    why.push_beginning(&type_text(alloc, ty));
    let name = Repeated(name);
    write!(
        why,
        " has no attribute {}{}",
        Quoted(name.beginning()),
        name.rest()
    );
    Answer::nothing(why.whole())
}

/// That a schema has nothing of a kind.
fn nothing<T: Display + Drop>(alloc: Global, why: T) -> Answer {
    Answer::nothing(match String::format(alloc, why) {
        Ok(why) => shortened(why),
        Err(_) => Err(Memory),
    })
}

/// A type, or the type at the end of a chain of attributes that begins with one of it.
fn type_below(alloc: Global, schema: &ValidatorSchema, ty: &Type, names: &[&str]) -> Answer {
    let Some((name, others)) = names.split_first() else {
        return type_line(alloc, ty);
    };
    match Type::lookup_attribute_type(alloc, schema, ty, name) {
        Ok(Some(attribute)) => type_below(alloc, schema, &attribute.attr_type, others),
        Ok(None) => no_attribute(alloc, ty, name),
        Err(refused) => Answer::lines(Err(refused)),
    }
}

/// The type of the tags of an entity type.
fn tags_answer(alloc: Global, declared: &ValidatorEntityType) -> Answer {
    match declared.tag_type() {
        Some(tags) => type_line(alloc, tags),
        None => nothing(alloc, format_args!("{} has no tags", declared.name())),
    }
}

/// The type of the attributes of an entity type, or that at the end of a chain of them.
fn attributes_answer(
    alloc: Global,
    schema: &ValidatorSchema,
    declared: &ValidatorEntityType,
    names: &[&str],
) -> Answer {
    let open_attributes = declared.open_attributes();
    match declared.attributes().clone() {
        Ok(attrs) => {
            let all = Type::Record {
                attrs,
                open_attributes,
            };
            type_below(alloc, schema, &all, names)
        }
        Err(_) => Answer::lines(Err(Memory)),
    }
}

/// The type of the attributes of an entity type, or that at the end of a chain of them; or else the
/// type of its tags.
fn type_answer(
    alloc: Global,
    schema: &ValidatorSchema,
    ty: &EntityType,
    names: &[&str],
    is_of_tags: bool,
) -> Answer {
    match schema.get_entity_type(ty) {
        Some(declared) if is_of_tags => tags_answer(alloc, declared),
        Some(declared) => attributes_answer(alloc, schema, declared, names),
        None => no_type(alloc, schema, ty),
    }
}

/// The same of the entity type that a word names.
pub(crate) fn entity_answer(
    alloc: Global,
    schema: &ValidatorSchema,
    name: &str,
    names: &[&str],
    is_of_tags: bool,
) -> Answer {
    match type_named(alloc, name) {
        Ok(ty) => type_answer(alloc, schema, &ty, names, is_of_tags),
        Err(why) => why,
    }
}

/// The type of an action's context, or that at the end of a chain of attributes of it.
fn context_answer(
    alloc: Global,
    schema: &ValidatorSchema,
    action: &EntityUID,
    names: &[&str],
) -> Answer {
    match schema.context_type(action) {
        Some(context) => type_below(alloc, schema, context, names),
        None => no_action(alloc, schema, action),
    }
}

/// The same of the action that a word spells.
pub(crate) fn action_answer(
    alloc: Global,
    schema: &ValidatorSchema,
    uid: &str,
    names: &[&str],
) -> Answer {
    match uid_named(alloc, schema, uid) {
        Ok(action) => context_answer(alloc, schema, &action, names),
        Err(why) => why,
    }
}
