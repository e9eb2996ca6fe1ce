//! What of files isn't in what is linked or translated of them: annotations, comments and common
//! types.

use crate::file_format::FileFormat;
use crate::finding::Source;
use crate::shape::Shape;
use crate::text_left_out::add_schema_text;
use cedar_ast::{M, Memory};
use json::{Error, Scratch, Value};
use std::alloc::Global;

/// How many annotations, comments and common types files have.
#[derive(Clone, Copy, Drop)]
pub(crate) struct LeftOut {
    /// How many annotations.
    pub(crate) annotations: usize,
    /// How many comments, which Cedar's syntax alone has.
    pub(crate) comments: usize,
    /// How many common types.
    pub(crate) common_types: usize,
}

impl LeftOut {
    /// Nothing yet.
    fn none() -> Self {
        LeftOut {
            annotations: 0,
            comments: 0,
            common_types: 0,
        }
    }

    /// Adds some annotations.
    pub(crate) fn add_annotations(&mut self, count: usize) {
        self.annotations = self.annotations.saturating_add(count);
    }

    /// Adds some comments.
    pub(crate) fn add_comments(&mut self, count: usize) {
        self.comments = self.comments.saturating_add(count);
    }
}

/// Adds what a value of a shape has, with what is in its members.
#[cycle(values)]
fn add(all: &mut LeftOut, shape: Shape, value: &Value<'_>) {
    let Value::Object(members) = value else {
        return;
    };
    match shape {
        Shape::Annotations => all.add_annotations(members.len()),
        Shape::CommonTypes => all.common_types = all.common_types.saturating_add(members.len()),
        _ => {}
    }
    for member in members {
        add(all, shape.of_member(member.0), &member.1);
    }
}

/// Adds what the document of a text has.
fn add_text(alloc: Global, all: &mut LeftOut, text: &str) -> M<()> {
    let mut scratch = Scratch::new(alloc);
    match Value::parse(alloc, text, &mut scratch) {
        Ok(document) => {
            add(all, Shape::Fragment, &document);
            Ok(())
        }
        Err(Error::OutOfMemory) => Err(Memory),
        Err(_) => Ok(()),
    }
}

/// Adds what a file has, if it is well formed.
fn add_source(alloc: Global, all: &mut LeftOut, source: &Source) -> M<()> {
    match source.format {
        FileFormat::Json => add_text(alloc, all, source.text.as_str()),
        FileFormat::Text => add_schema_text(alloc, all, source.text.as_str()),
    }
}

/// What a file has that is well formed.
pub(crate) fn left_out_of(alloc: Global, source: &Source) -> M<LeftOut> {
    let mut all = LeftOut::none();
    add_source(alloc, &mut all, source)?;
    Ok(all)
}

/// What files have that are well formed.
pub(crate) fn left_out(alloc: Global, sources: &[Source]) -> M<LeftOut> {
    let mut all = LeftOut::none();
    for source in sources {
        add_source(alloc, &mut all, source)?;
    }
    Ok(all)
}
