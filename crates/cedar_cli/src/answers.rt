//! What a schema answers: its counts, what it lacks, and its environments.

use crate::finding::{Finding, file_of};
use crate::outcome::Outcome;
use crate::repeating::shortened;
use crate::text::Text;
use cedar_ast::{EntityType, EntityUID, M, Memory};
use cedar_schema::{CompleteError, IncompleteSchemaError, RequestEnv, ValidatorSchema};
use std::alloc::Global;

/// How many things of a kind there are, and how many of them are external.
#[derive(Clone, Copy, Drop)]
struct Count {
    /// All of them.
    all: usize,
    /// Those that are external.
    external: usize,
}

impl Count {
    /// Goes on by one.
    fn add(&mut self, is_external: bool) {
        self.all = self.all.saturating_add(1);
        if is_external {
            self.external = self.external.saturating_add(1);
        }
    }
}

/// How many entity types there are.
fn type_count(schema: &ValidatorSchema) -> Count {
    let mut count = Count {
        all: 0,
        external: 0,
    };
    for ty in schema.entity_types() {
        count.add(ty.is_external());
    }
    count
}

/// How many actions there are.
fn action_count(schema: &ValidatorSchema) -> Count {
    let mut count = Count {
        all: 0,
        external: 0,
    };
    for action in schema.action_ids() {
        count.add(action.is_external());
    }
    count
}

/// Adds a line with a count.
fn push_count(text: &mut Text, what: &str, count: Count) {
    let Count { all, external } = count;
    write!(text, "{what}: {all}, {external} of them external\n");
}

/// The counts of a schema, a line each.
pub(crate) fn counts(alloc: Global, schema: &ValidatorSchema) -> M<Outcome> {
    let mut text = Text::new(alloc);
    text.push_str("ok\n");
    push_count(&mut text, "entity types", type_count(schema));
    push_count(&mut text, "actions", action_count(schema));
    let environments = schema.unlinked_envs_owned().len();
    write!(text, "environments: {environments}\n");
    Ok(Outcome::done(alloc, text.whole()?))
}

/// What is external, at the first place where something is declared so, behind what the message
/// begins with.
fn lacking(alloc: Global, beginning: &str, error: &IncompleteSchemaError) -> M<Option<Finding>> {
    let message = shortened(format!(in alloc; "{beginning}{error}")?)?;
    Ok(Some(Finding {
        file: file_of(error.loc),
        loc: error.loc,
        kind: "Incomplete",
        message,
        other: None,
    }))
}

/// What of a schema is external, if anything is, with what the message is to begin with.
pub(crate) fn incomplete(
    alloc: Global,
    beginning: &str,
    schema: &ValidatorSchema,
) -> M<Option<Finding>> {
    match schema.check_complete(alloc) {
        Ok(()) => Ok(None),
        Err(CompleteError::Memory(refused)) => Err(refused),
        Err(CompleteError::Incomplete(error)) => lacking(alloc, beginning, &error),
    }
}

/// What the text of an answer says.
#[derive(Clone, Copy, Drop)]
pub(crate) enum AnswerKind {
    /// What was asked for, in lines.
    Lines,
    /// That the schema has nothing of that kind.
    Nothing,
    /// Why the question itself is none.
    BadWord,
}

/// What is answered to a question of a schema.
#[derive(Drop)]
pub(crate) struct Answer {
    /// What its text says.
    pub(crate) kind: AnswerKind,
    /// Its text, where memory sufficed for it.
    pub(crate) text: M<String>,
}

impl Answer {
    /// The lines that were asked for.
    pub(crate) fn lines(text: M<String>) -> Self {
        let kind = AnswerKind::Lines;
        Answer { kind, text }
    }

    /// That a schema has nothing of a kind.
    pub(crate) fn nothing(text: M<String>) -> Self {
        let kind = AnswerKind::Nothing;
        Answer { kind, text }
    }

    /// Why a word of the question is none.
    pub(crate) fn bad_word(text: M<String>) -> Self {
        let kind = AnswerKind::BadWord;
        Answer { kind, text }
    }
}

/// What environments are asked for.
#[derive(Drop)]
pub(crate) struct EnvironmentFilter {
    /// The entity type of the principal, if only one is asked for.
    pub(crate) principal: Option<EntityType>,
    /// The action, if only one is asked for.
    pub(crate) action: Option<EntityUID>,
    /// The entity type of the resource, if only one is asked for.
    pub(crate) resource: Option<EntityType>,
}

/// Whether nothing else is asked for.
fn is_met_by<T: PartialEq>(filter: Option<&T>, given: &T) -> bool {
    match filter {
        Some(filter) => *filter == *given,
        None => true,
    }
}

impl EnvironmentFilter {
    /// Whether an environment is asked for.
    fn is_met(&self, env: &RequestEnv<'_>) -> bool {
        is_met_by(self.principal.as_ref(), env.principal)
            && is_met_by(self.action.as_ref(), env.action)
            && is_met_by(self.resource.as_ref(), env.resource)
    }
}

/// The line of an environment.
fn line_of(alloc: Global, env: &RequestEnv<'_>) -> M<String> {
    let mut line = Text::new(alloc);
    line.write_escaped(format_args!("{} {} {}", env.principal, env.action, env.resource));
    line.push('\n');
    line.whole()
}

/// The environments that are asked for, a line each.
fn lines_of(alloc: Global, schema: &ValidatorSchema, filter: &EnvironmentFilter) -> M<Vec<String>> {
    let mut lines = Vec::new(alloc);
    for env in schema.unlinked_envs_owned() {
        let env = env.as_request_env();
        if filter.is_met(&env) {
            lines.push(line_of(alloc, &env)?)?;
        }
    }
    Ok(lines)
}

/// The environments that are asked for, sorted by their text, a line each.
pub(crate) fn environment_lines(
    alloc: Global,
    schema: &ValidatorSchema,
    filter: &EnvironmentFilter,
) -> M<String> {
    let mut lines = lines_of(alloc, schema, filter)?;
    lines.sort()?;
    lines.concat(alloc).or(Err(Memory))
}
