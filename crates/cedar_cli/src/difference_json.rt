//! Differences between two versions of a schema, as objects of JSON.

use crate::cause_text::push_cause;
use crate::json_lines::Object;
use crate::sides::Sides;
use crate::text::Text;
use crate::witness::{push_subject, witness_text};
use cedar_ast::Memory;
use cedar_compare::Difference;
use std::alloc::Global;

/// Writes the witness of a difference, or `null` where Cedar's JSON can't say it.
fn write_witness(alloc: Global, object: &mut Object, difference: &Difference) {
    match witness_text(alloc, difference) {
        Ok(Some(text)) => object.parsed(alloc, text.as_str()),
        Ok(None) => object.null(),
        Err(Memory) => object.refuse(),
    }
}

/// Writes the members that tell a difference.
fn write_difference(
    alloc: Global,
    object: &mut Object,
    sides: &Sides<'_>,
    difference: &Difference,
) {
    object.text("change", sides.change);
    let mut subject = Text::new(alloc);
    push_subject(&mut subject, difference);
    object.written("of", &subject);
    let mut cause = Text::new(alloc);
    push_cause(&mut cause, sides, difference);
    object.written("cause", &cause);
    object.key("witness");
    write_witness(alloc, object, difference);
}

/// Adds an object and a line end for each of some differences.
pub(crate) fn push_objects(text: &mut Text, sides: &Sides<'_>, differences: &[Difference]) {
    let alloc = text.alloc();
    for difference in differences {
        let mut object = Object::begin(alloc);
        write_difference(alloc, &mut object, sides, difference);
        object.push_to(text);
    }
}
