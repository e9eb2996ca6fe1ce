//! Steps down the types of two versions, as paths, and what is said of the types at their end.

use crate::sides::Sides;
use crate::text::Text;
use cedar_counterexample::Step;
use cedar_schema::{Attributes, Type};

/// Adds steps: `.NAME` to an attribute, and `[]` to the elements of a set.
pub(crate) fn push_steps(text: &mut Text, steps: &[Step]) {
    for step in steps {
        match step {
            Step::Attribute(name) => {
                text.push('.');
                text.push_name(name.as_str());
            }
            Step::Element => text.push_str("[]"),
        }
    }
}

/// Adds the path from the attributes of an entity type, as `attribute address.city`.
pub(crate) fn push_attribute_path(text: &mut Text, steps: &[Step]) {
    match steps.split_first() {
        Some((Step::Attribute(name), others)) => {
            text.push_str("attribute ");
            text.push_name(name.as_str());
            push_steps(text, others);
        }
        _ => {
            text.push_str("attributes");
            push_steps(text, steps);
        }
    }
}

/// What a step leads to, or what steps begin at: a type, or the attributes of an entity type.
#[derive(Clone, Copy, Drop)]
pub(crate) enum Part<'a> {
    /// A type.
    Type(&'a Type),
    /// The attributes of an entity type.
    Attributes(&'a Attributes),
}

impl<'a> Part<'a> {
    /// Its attributes, if it is of a record.
    fn attributes(self) -> Option<&'a Attributes> {
        match self {
            Part::Attributes(attributes) => Some(attributes),
            Part::Type(Type::Record { attrs, .. }) => Some(attrs),
            Part::Type(_) => None,
        }
    }

    /// The part one step down, if there is one.
    fn below(self, step: &Step) -> Option<Part<'a>> {
        match (self, step) {
            (_, Step::Attribute(name)) => {
                let attribute = self.attributes()?.get_attr(name.as_str())?;
                Some(Part::Type(&attribute.attr_type))
            }
            (
                Part::Type(
                    Type::Set {
                        element_type: Some(element),
                    },
                ),
                Step::Element,
            ) => Some(Part::Type(element)),
            _ => None,
        }
    }

    /// The part at the end of some steps, if there is one.
    fn at(self, steps: &[Step]) -> Option<Part<'a>> {
        let mut part = self;
        for step in steps {
            part = part.below(step)?;
        }
        Some(part)
    }
}

/// What is said of the second of two records where one alone has an attribute or requires it, or
/// where none has it and the first admits further ones, if that is so.
fn attribute_words(own: &Attributes, other: &Attributes, name: &str) -> Option<&'static str> {
    match (own.get_attr(name), other.get_attr(name)) {
        (None, None) => Some("admits no further attributes"),
        (Some(_), None) => Some("doesn't have it"),
        (Some(own), Some(_)) if own.is_required() => None,
        (_, Some(other)) if other.is_required() => Some("requires it"),
        _ => None,
    }
}

/// What is said of the second of two parts at the end of steps, the last of which leads to an
/// attribute that one of two records alone has or requires, if that is so.
fn last_words(own: Part<'_>, other: Part<'_>, steps: &[Step]) -> Option<&'static str> {
    let Some((Step::Attribute(name), before)) = steps.split_last() else {
        return None;
    };
    let own = own.at(before)?.attributes()?;
    let other = other.at(before)?.attributes()?;
    attribute_words(own, other, name.as_str())
}

/// Adds that a type has values that another hasn't.
fn push_types(text: &mut Text, own: &Type, other: &Type) {
    text.push_type(own);
    text.push_str(" admits what ");
    text.push_type(other);
    text.push_str(" doesn't");
}

/// Adds what is said of two parts, one of which has values that the other hasn't.
fn push_parts(text: &mut Text, sides: &Sides<'_>, own: Part<'_>, other: Part<'_>) {
    if own.attributes().is_some() && other.attributes().is_some() {
        sides.push_said(text, "admits no further attributes");
        return;
    }
    match (own, other) {
        (Part::Type(own), Part::Type(other)) => push_types(text, own, other),
        _ => sides.push_said(text, "admits less there"),
    }
}

/// Adds what is said of two types, or of attributes, that part at the end of some steps.
pub(crate) fn push_parting(
    text: &mut Text,
    sides: &Sides<'_>,
    own: Part<'_>,
    other: Part<'_>,
    steps: &[Step],
) {
    if let Some(words) = last_words(own, other, steps) {
        sides.push_said(text, words);
        return;
    }
    match (own.at(steps), other.at(steps)) {
        (Some(own), Some(other)) => push_parts(text, sides, own, other),
        _ => sides.push_said(text, "admits less there"),
    }
}
