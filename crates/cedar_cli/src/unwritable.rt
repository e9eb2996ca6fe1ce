//! Why no file declares a schema again, in words.

use crate::repeating::shortened;
use crate::text::Text;
use cedar_ast::{EntityType, Id, M, Memory, NameFault};
use cedar_schema::{
    Attributes, EntityKind, Type, ValidatorActionId, ValidatorEntityType, ValidatorSchema,
};
use json::MAX_DEPTH;
use std::alloc::Global;

/// How many levels of JSON the types of attributes and of tags may take, below a fragment, a
/// namespace, its entity types and one of these.
const LEVELS_OF_ENTITY_TYPE: usize = MAX_DEPTH - 4;

/// How many that of a context may take, below a fragment, a namespace, its actions, one of these
/// and what that applies to.
const LEVELS_OF_CONTEXT: usize = MAX_DEPTH - 5;

/// Whether an action of a schema is of a type.
fn has_action_of(schema: &ValidatorSchema, name: &EntityType) -> bool {
    for action in schema.action_ids() {
        if *action.name().entity_type() == *name {
            return true;
        }
    }
    false
}

/// The entity type of the same base name below a path.
fn within(alloc: Global, path: &[Id], name: &EntityType) -> Result<EntityType, NameFault> {
    let mut text = Text::new(alloc);
    for part in path {
        write!(text, "{part}::");
    }
    write!(text, "{name}");
    EntityType::from_str(alloc, text.whole()?.as_str())
}

/// What is looked through for what no file says. What is found is written as words.
#[derive(Clone, Copy, Drop)]
struct Search<'a> {
    /// The schema.
    schema: &'a ValidatorSchema,
    /// The namespace that types are written in.
    path: &'a [Id],
}

impl Search<'_> {
    /// Whether a name without a namespace would be another one.
    fn finds_other(self, words: &mut Text, name: &EntityType) -> bool {
        match within(words.alloc(), self.path, name) {
            Ok(other) => {
                let schema = self.schema;
                let is_known = schema.get_entity_type(&other).is_some();
                let is_found = is_known || has_action_of(schema, &other);
                if is_found {
                    write!(
                        words,
                        "the name {name} would be {other} where it has to be written"
                    );
                }
                is_found
            }
            Err(NameFault::Memory(Memory)) => {
                words.refuse();
                true
            }
            Err(_) => false,
        }
    }

    /// The same of any kind of entities.
    fn finds_in_kind(self, words: &mut Text, kind: &EntityKind) -> bool {
        let EntityKind::Entity(union) = kind else {
            return false;
        };
        match union.get_single_entity() {
            Some(name) if name.name().is_unqualified() && !self.path.is_empty() => {
                self.finds_other(words, name)
            }
            _ => false,
        }
    }

    /// Whether no file says a type that may take so many levels.
    #[cycle(searching)]
    fn finds_in_type(self, words: &mut Text, ty: &Type, levels: usize) -> bool {
        let Some(below) = levels.checked_sub(1) else {
            write!(
                words,
                "types nest deeper than the {MAX_DEPTH} levels of a file"
            );
            return true;
        };
        match ty {
            Type::Entity(kind) => self.finds_in_kind(words, kind),
            Type::Set {
                element_type: Some(element),
            } => self.finds_in_type(words, element, below),
            Type::Record { attrs, .. } => self.finds_in_attributes(words, attrs, below),
            _ => false,
        }
    }

    /// Whether no file says the type of one of some attributes, below the level of their names.
    #[cycle(searching)]
    fn finds_in_attributes(self, words: &mut Text, attrs: &Attributes, levels: usize) -> bool {
        let below = levels.saturating_sub(1);
        for (_name, attribute) in attrs.iter() {
            if self.finds_in_type(words, &attribute.attr_type, below) {
                return true;
            }
        }
        false
    }
}

/// Whether no file says an entity type.
fn finds_entity_type(words: &mut Text, schema: &ValidatorSchema, ty: &ValidatorEntityType) -> bool {
    let name = ty.name();
    let path = name.name().path();
    let search = Search { schema, path };
    let levels = LEVELS_OF_ENTITY_TYPE - 1;
    if search.finds_in_attributes(words, ty.attributes(), levels) {
        write!(words, ", in the attributes of {name}");
        return true;
    }
    match ty.tag_type() {
        Some(tags) if search.finds_in_type(words, tags, LEVELS_OF_ENTITY_TYPE) => {
            write!(words, ", in the tags of {name}");
            true
        }
        _ => false,
    }
}

/// Whether no file says an action.
fn finds_action(words: &mut Text, schema: &ValidatorSchema, action: &ValidatorActionId) -> bool {
    let uid = action.name();
    let path = uid.entity_type().name().path();
    let search = Search { schema, path };
    match action.context() {
        Some(context) if search.finds_in_type(words, context, LEVELS_OF_CONTEXT) => {
            write!(words, ", in the context of {uid}");
            true
        }
        _ => false,
    }
}

/// Whether no file says one of the actions of a schema.
fn finds_among_actions(words: &mut Text, schema: &ValidatorSchema) -> bool {
    for action in schema.action_ids() {
        if finds_action(words, schema, action) {
            return true;
        }
    }
    false
}

/// Whether no file says one of the entity types of a schema.
fn finds_among_entity_types(words: &mut Text, schema: &ValidatorSchema) -> bool {
    for ty in schema.entity_types() {
        if finds_entity_type(words, schema, ty) {
            return true;
        }
    }
    false
}

/// Why no file declares a schema again, with the part of it that none says.
pub(crate) fn unwritable_text(alloc: Global, schema: &ValidatorSchema) -> M<String> {
    let mut words = Text::new(alloc);
    words.push_str("no file declares this schema again: ");
    let is_found = finds_among_entity_types(&mut words, schema)
        || finds_among_actions(&mut words, schema);
    if !is_found {
        words.push_str("the format can't say it");
    }
    shortened(words.whole()?)
}
