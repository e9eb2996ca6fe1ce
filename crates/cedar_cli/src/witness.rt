//! What a difference is of, and its witness as Cedar's JSON.

use crate::text::Text;
use cedar_ast::{M, Memory, RestrictedExpr, Value};
use cedar_compare::{Difference, Request};
use cedar_json_writer::{WriteFault, entity_to_json, request_to_json};
use std::alloc::Global;
use std::collections::BTreeMap;

/// Adds what a difference is of: `entity NAME`, `action UID`, or `request PRINCIPAL UID RESOURCE`
/// with the entity types of the principal and the resource.
pub(crate) fn push_subject(text: &mut Text, difference: &Difference) {
    match difference {
        Difference::EntityType { witness, .. } => {
            write!(text, "entity {}", witness.uid().entity_type());
        }
        Difference::Action { witness, .. } => write!(text, "action {}", witness.uid()),
        Difference::Environment { witness, .. } => write!(
            text,
            "request {} {} {}",
            witness.principal.entity_type(),
            witness.action,
            witness.resource.entity_type()
        ),
    }
}

/// The values of a context by name. It is a record wherever a difference has one.
fn context_of(alloc: Global, context: &Value) -> M<BTreeMap<String, Value>> {
    let mut values = BTreeMap::new(alloc);
    if let RestrictedExpr::Record(entries) = context.expr() {
        for (name, value) in entries {
            values.insert(name.clone()?, Value::new(value.clone()?))?;
        }
    }
    Ok(values)
}

/// The text of a request.
fn request_text(alloc: Global, request: &Request) -> Result<String, WriteFault> {
    let context = context_of(alloc, &request.context)?;
    request_to_json(
        alloc,
        &request.principal,
        &request.action,
        &request.resource,
        &context,
    )
}

/// The witness of a difference as Cedar's JSON, or None where that can't say it.
pub(crate) fn witness_text(alloc: Global, difference: &Difference) -> M<Option<String>> {
    let written = match difference {
        Difference::EntityType { witness, .. } => entity_to_json(alloc, witness),
        Difference::Action { witness, .. } => entity_to_json(alloc, witness),
        Difference::Environment { witness, .. } => request_text(alloc, witness),
    };
    match written {
        Ok(text) => Ok(Some(text)),
        Err(WriteFault::Memory) => Err(Memory),
        Err(WriteFault::Unwritable(_)) => Ok(None),
    }
}
