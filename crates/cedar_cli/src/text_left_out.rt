//! What of a file in Cedar's syntax its fragment doesn't have: annotations and comments.

use crate::left_out::LeftOut;
use cedar_ast::{Loc, M, Memory};
use cedar_schema_grammar::{
    Attribute, Body, Declaration, GrammarFault, Item, Member, Says, Type, read as read_members,
};
use cedar_schema_tokens::{Token, TokenFault, read as read_tokens};
use std::alloc::Global;

/// How many levels types may nest.
const MOST_LEVELS: usize = 128;

/// Adds the annotations in a type.
#[cycle(types)]
fn add_type(all: &mut LeftOut, ty: &Type) {
    match ty {
        Type::Path(_) => {}
        Type::Set(element) => add_type(all, element),
        Type::Record(attributes, _) => add_attributes(all, attributes),
    }
}

/// Adds the annotations of attributes, and in their types.
#[cycle(types)]
fn add_attributes(all: &mut LeftOut, attributes: &[Attribute<Type>]) {
    for attribute in attributes {
        all.add_annotations(attribute.annotations.len());
        add_type(all, &attribute.of);
    }
}

/// Adds the annotations in the body of an entity type.
fn add_body(all: &mut LeftOut, body: &Body) {
    let Body::Standard { shape, tags, .. } = body else {
        return;
    };
    if let Some(shape) = shape {
        add_type(all, shape);
    }
    if let Some(tags) = tags {
        add_type(all, tags);
    }
}

/// Adds the annotations in what is declared, and common types.
fn add_item(all: &mut LeftOut, item: &Item) {
    match item {
        Item::Entity { body, .. } => add_body(all, body),
        Item::Action {
            applies: Some(applies),
            ..
        } => {
            for part in &applies.parts {
                if let Says::Context(context) = &part.says {
                    add_type(all, context);
                }
            }
        }
        Item::Action { .. } => {}
        Item::Common { of, .. } => {
            all.common_types = all.common_types.saturating_add(1);
            add_type(all, of);
        }
    }
}

/// Adds what declarations have.
fn add_declarations(all: &mut LeftOut, declarations: &[Declaration]) {
    for declaration in declarations {
        all.add_annotations(declaration.annotations.len());
        add_item(all, &declaration.item);
    }
}

/// Adds what the members of a text have.
fn add_members(all: &mut LeftOut, members: &[Member]) {
    for member in members {
        match member {
            Member::Namespace {
                annotations,
                declarations,
                ..
            } => {
                all.add_annotations(annotations.len());
                add_declarations(all, declarations);
            }
            Member::Alone(declaration) => {
                add_declarations(all, std::slice::from_ref(declaration));
            }
        }
    }
}

/// How many comments stand between two tokens.
fn comments_in(gap: &str) -> usize {
    let mut count: usize = 0;
    for line in gap.split(['\n', '\r']) {
        if line.contains("//") {
            count = count.saturating_add(1);
        }
    }
    count
}

/// Adds the comments of a text, which stand between its tokens.
fn add_comments(all: &mut LeftOut, text: &str, tokens: &[Token]) {
    let mut from: usize = 0;
    for token in tokens {
        let gap = text.get(from..token.loc.start as usize).unwrap_or("");
        all.add_comments(comments_in(gap));
        from = token.loc.stop as usize;
    }
    all.add_comments(comments_in(text.get(from..).unwrap_or("")));
}

/// Adds what a text has, if it is a schema.
pub(crate) fn add_schema_text(alloc: Global, all: &mut LeftOut, text: &str) -> M<()> {
    let tokens = match read_tokens(alloc, text, 0) {
        Ok(tokens) => tokens,
        Err(TokenFault::Memory) => return Err(Memory),
        Err(_) => return Ok(()),
    };
    add_comments(all, text, &tokens);
    let nowhere = Loc {
        source: 0,
        start: 0,
        stop: 0,
    };
    match read_members(alloc, &tokens, MOST_LEVELS, nowhere) {
        Ok(members) => {
            add_members(all, &members);
            Ok(())
        }
        Err(GrammarFault::Memory) => Err(Memory),
        Err(_) => Ok(()),
    }
}
