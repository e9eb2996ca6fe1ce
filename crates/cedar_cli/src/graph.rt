//! The hierarchies of a schema as a graph in Graphviz DOT.

use crate::hierarchy::{Edge, Hierarchy, actions, entity_types, text_of};
use crate::text::Text;
use cedar_ast::{M, Memory};
use cedar_schema::{RequestTypes, ValidatorActionId, ValidatorSchema};
use std::alloc::Global;
use std::collections::BTreeSet;

/// Adds a name as DOT has it in quotes.
fn push_quoted(text: &mut Text, name: &str) {
    text.push('"');
    for character in name.chars() {
        if character == '"' || character == '\\' {
            text.push('\\');
        }
        text.push(character);
    }
    text.push('"');
}

/// Adds a node of a shape.
fn push_node(text: &mut Text, name: &str, shape: &str) {
    text.push_str("  ");
    push_quoted(text, name);
    write!(text, " [shape={shape}];\n");
}

/// Adds an edge, drawn in a style.
fn push_edge(text: &mut Text, from: &str, to: &str, style: &str) {
    text.push_str("  ");
    push_quoted(text, from);
    text.push_str(" -> ");
    push_quoted(text, to);
    write!(text, "{style};\n");
}

/// Adds each node of a hierarchy.
fn push_nodes(text: &mut Text, hierarchy: &Hierarchy, shape: &str) {
    for name in hierarchy.below.keys() {
        push_node(text, name.as_str(), shape);
    }
}

/// Adds edges, each from its lower end.
fn push_edges(text: &mut Text, edges: &[Edge<'_>]) {
    for edge in edges {
        push_edge(text, edge.lower, edge.upper, "");
    }
}

/// Adds each node of a hierarchy, and each edge that no two others make.
fn push_hierarchy(text: &mut Text, hierarchy: &Hierarchy, shape: &str) {
    match hierarchy.edges(text.alloc()) {
        Ok(edges) => {
            push_nodes(text, hierarchy, shape);
            push_edges(text, &edges);
        }
        Err(Memory) => text.refuse(),
    }
}

/// What entity types are to an action.
#[derive(Clone, Copy, Drop)]
enum Role {
    /// Its principals, from which a line leads to it.
    Principals,
    /// Its resources, to which a line leads from it.
    Resources,
}

/// Adds a dashed edge between an action and each of some names.
fn push_dashed(text: &mut Text, uid: &str, names: &BTreeSet<String>, role: Role) {
    for name in names {
        let name = name.as_str();
        let (from, to) = match role {
            Role::Principals => (name, uid),
            Role::Resources => (uid, name),
        };
        push_edge(text, from, to, " [style=dashed]");
    }
}

/// The texts of the names of some entity types.
fn texts(alloc: Global, types: RequestTypes<'_>) -> M<BTreeSet<String>> {
    let mut texts = BTreeSet::new(alloc);
    for ty in types {
        texts.insert(text_of(alloc, ty)?)?;
    }
    Ok(texts)
}

/// Adds the dashed edges between an action and the entity types of some names.
fn push_types(text: &mut Text, uid: &str, types: RequestTypes<'_>, role: Role) {
    match texts(text.alloc(), types) {
        Ok(names) => push_dashed(text, uid, &names, role),
        Err(Memory) => text.refuse(),
    }
}

/// Adds the edges from the principals of an action to it, and from it to its resources.
fn push_action(text: &mut Text, action: &ValidatorActionId) {
    match text_of(text.alloc(), action.name()) {
        Ok(uid) => {
            push_types(text, uid.as_str(), action.principals(), Role::Principals);
            push_types(text, uid.as_str(), action.resources(), Role::Resources);
        }
        Err(Memory) => text.refuse(),
    }
}

/// The graph of a schema: a box for each entity type and an ellipse for each action, a line from
/// each to what it may stand right below, and a dashed one from the principals of an action to it
/// and from it to its resources.
pub(crate) fn graph(alloc: Global, schema: &ValidatorSchema) -> M<String> {
    let mut text = Text::new(alloc);
    text.push_str("digraph schema {\n  rankdir=BT;\n");
    push_hierarchy(&mut text, &entity_types(alloc, schema), "box");
    push_hierarchy(&mut text, &actions(alloc, schema), "ellipse");
    for action in schema.action_ids() {
        push_action(&mut text, action);
    }
    text.push_str("}\n");
    text.whole()
}
