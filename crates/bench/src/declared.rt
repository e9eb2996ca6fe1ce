//! Fragments that are built, read from texts that are drawn.

use crate::drawn::Drawn;
use crate::graphs::right_above;
use crate::names::Letters;
use crate::stop::Stop;
use cedar_schema::json_schema::{Fragment, RawName};
use std::alloc::Global;
use std::ops::Range;

/// The type of whole numbers.
const LONG: &str = "{\"type\":\"Long\"}";

/// The type of texts.
const STRING: &str = "{\"type\":\"String\"}";

/// The type of truth values.
const BOOLEAN: &str = "{\"type\":\"Boolean\"}";

/// What stands before the entity types of a fragment.
const BEFORE_ENTITY_TYPES: &str = "{\"\":{\"entityTypes\":{";

/// What stands between the entity types and the actions of a fragment.
const BEFORE_ACTIONS: &str = "},\"actions\":{";

/// What stands after the actions of a fragment.
const END: &str = "}}}";

/// What is declared.
#[derive(Clone, Copy)]
pub(crate) enum Declared {
    /// As many entity types and actions, in one fragment.
    Whole,
    /// The same, of which those of every tenth number have another type of attribute.
    Changed,
    /// The same as `Whole`, one of each in a fragment.
    Split,
    /// As many common types, each another name for the next and the last one for numbers, and an
    /// entity type with an attribute of the first.
    CommonChain,
    /// One action that applies to as many entity types as principals, and to as many others as
    /// resources.
    Crossing,
    /// What `Whole` has, and an action that applies to all entity types as principals and as
    /// resources.
    ApplyingToAll,
    /// As many entity types, each alone, whose names are some letters and a number of eight digits.
    EightDigits(Letters),
}

/// A version of a schema.
#[derive(Clone, Copy)]
enum Version {
    /// The first.
    First,
    /// The one in which every tenth number has another type of attribute.
    Changed,
}

impl Version {
    /// The type of the attribute of a number, which is this one in the first version.
    fn type_at(self, number: usize, ty: &'static str) -> &'static str {
        match self {
            Version::Changed if number % 10 == 0 => BOOLEAN,
            _ => ty,
        }
    }
}

/// Adds what stands between a member and the one before it, if there is one.
fn push_comma(drawn: &mut Drawn, is_first: bool) {
    if !is_first {
        drawn.push_str(",");
    }
}

/// Adds the closed record of one attribute, of a type.
fn push_record(drawn: &mut Drawn, ty: &str) {
    write!(
        drawn,
        "{{\"type\":\"Record\",\"attributes\":{{\"attribute0\":{ty}}}}}"
    );
}

/// Adds references to the entity types of some numbers.
fn push_references(drawn: &mut Drawn, numbers: Range<usize>) {
    let first = numbers.start;
    drawn.push_str("[");
    for number in numbers {
        push_comma(drawn, number == first);
        write!(drawn, "\"E{number}\"");
    }
    drawn.push_str("]");
}

/// Adds the entity type of some letters and a number, right below those of some numbers, with an
/// attribute of a type.
fn push_entity_type(
    drawn: &mut Drawn,
    letters: &str,
    number: usize,
    above: Range<usize>,
    ty: &str,
) {
    write!(drawn, "\"{letters}{number}\":{{\"memberOfTypes\":");
    push_references(drawn, above);
    drawn.push_str(",\"shape\":");
    push_record(drawn, ty);
    drawn.push_str("}");
}

/// Adds the entity types of some numbers in trees, each with an attribute of whole numbers in the
/// first version.
fn push_entity_types(drawn: &mut Drawn, numbers: Range<usize>, version: Version) {
    let first = numbers.start;
    for number in numbers {
        push_comma(drawn, number == first);
        let ty = version.type_at(number, LONG);
        push_entity_type(drawn, "E", number, right_above(number), ty);
    }
}

/// Adds the action of some letters and a number, for requests of each entity type of some numbers
/// on each of others, with an attribute of a type in its context.
fn push_action(
    drawn: &mut Drawn,
    letters: &str,
    number: usize,
    principals: Range<usize>,
    resources: Range<usize>,
    ty: &str,
) {
    write!(
        drawn,
        "\"{letters}{number}\":{{\"appliesTo\":{{\"principalTypes\":"
    );
    push_references(drawn, principals);
    drawn.push_str(",\"resourceTypes\":");
    push_references(drawn, resources);
    drawn.push_str(",\"context\":");
    push_record(drawn, ty);
    drawn.push_str("}}");
}

/// Adds an action for each entity type of some numbers, for its requests on itself, with an
/// attribute of texts in its context in the first version.
fn push_actions(drawn: &mut Drawn, numbers: Range<usize>, version: Version) {
    let first = numbers.start;
    for number in numbers {
        push_comma(drawn, number == first);
        let end = number.saturating_add(1);
        let ty = version.type_at(number, STRING);
        push_action(drawn, "action", number, number..end, number..end, ty);
    }
}

/// The text of the entity types and actions of some numbers, but for its end.
fn declarations(alloc: Global, numbers: Range<usize>, version: Version) -> Drawn {
    let mut drawn = Drawn::new(alloc);
    drawn.push_str(BEFORE_ENTITY_TYPES);
    push_entity_types(&mut drawn, numbers.start..numbers.end, version);
    drawn.push_str(BEFORE_ACTIONS);
    push_actions(&mut drawn, numbers, version);
    drawn
}

/// The fragment of a text that lacks its end.
fn ended(alloc: Global, mut drawn: Drawn) -> Result<Fragment<RawName>, Stop> {
    drawn.push_str(END);
    drawn.read(alloc)
}

/// As many entity types and actions, as a fragment.
pub(crate) fn whole_fragment(alloc: Global, count: usize) -> Result<Fragment<RawName>, Stop> {
    ended(alloc, declarations(alloc, 0..count, Version::First))
}

/// The first number of eight digits.
pub(crate) const FIRST: usize = 10_000_000;

/// The text of as many entity types, each alone, of some letters and a number of eight digits.
fn eight_digits(alloc: Global, letters: &str, count: usize) -> Drawn {
    let mut drawn = Drawn::new(alloc);
    drawn.push_str(BEFORE_ENTITY_TYPES);
    for number in FIRST..FIRST.saturating_add(count) {
        push_comma(&mut drawn, number == FIRST);
        push_entity_type(&mut drawn, letters, number, 0..0, LONG);
    }
    drawn.push_str(BEFORE_ACTIONS);
    drawn
}

/// The text of as many common types in a chain, and of an entity type with an attribute of the
/// first.
fn chain(alloc: Global, count: usize) -> Drawn {
    let last = count.saturating_sub(1);
    let mut drawn = Drawn::new(alloc);
    drawn.push_str("{\"\":{\"commonTypes\":{");
    for number in 0..last {
        let next = number.saturating_add(1);
        write!(
            drawn,
            "\"T{number}\":{{\"type\":\"EntityOrCommon\",\"name\":\"T{next}\"}},"
        );
    }
    write!(drawn, "\"T{last}\":{LONG}}},\"entityTypes\":{{");
    push_entity_type(
        &mut drawn,
        "E",
        0,
        0..0,
        "{\"type\":\"EntityOrCommon\",\"name\":\"T0\"}",
    );
    drawn.push_str(BEFORE_ACTIONS);
    drawn
}

/// The text of as many entity types and actions, and of an action that applies to all of them as
/// principals and as resources.
fn applying_to_all(alloc: Global, count: usize) -> Drawn {
    let mut drawn = declarations(alloc, 0..count, Version::First);
    push_comma(&mut drawn, count == 0);
    push_action(&mut drawn, "all", count, 0..count, 0..count, STRING);
    drawn
}

/// The text of one action that applies to as many entity types as principals, and to as many others
/// as resources.
fn crossing(alloc: Global, count: usize) -> Drawn {
    let end = count.saturating_mul(2);
    let mut drawn = Drawn::new(alloc);
    drawn.push_str(BEFORE_ENTITY_TYPES);
    push_entity_types(&mut drawn, 0..end, Version::First);
    drawn.push_str(BEFORE_ACTIONS);
    push_action(&mut drawn, "all", count, 0..count, count..end, STRING);
    drawn
}

/// The text of what is declared in one fragment, but for its end.
fn text_of(alloc: Global, declared: Declared, count: usize) -> Drawn {
    match declared {
        Declared::Whole | Declared::Split => declarations(alloc, 0..count, Version::First),
        Declared::Changed => declarations(alloc, 0..count, Version::Changed),
        Declared::CommonChain => chain(alloc, count),
        Declared::Crossing => crossing(alloc, count),
        Declared::ApplyingToAll => applying_to_all(alloc, count),
        Declared::EightDigits(letters) => eight_digits(alloc, letters.text(), count),
    }
}

/// As many entity types and actions, one of each in a fragment.
fn split(alloc: Global, count: usize) -> Result<Vec<Fragment<RawName>>, Stop> {
    let mut fragments = Vec::new(alloc);
    for number in 0..count {
        let of_number = declarations(alloc, number..number.saturating_add(1), Version::First);
        fragments.push(ended(alloc, of_number)?)?;
    }
    Ok(fragments)
}

/// The fragments of what is declared.
pub(crate) fn fragments_of(
    alloc: Global,
    declared: Declared,
    count: usize,
) -> Result<Vec<Fragment<RawName>>, Stop> {
    if let Declared::Split = declared {
        return split(alloc, count);
    }
    let mut fragments = Vec::new(alloc);
    fragments.push(ended(alloc, text_of(alloc, declared, count))?)?;
    Ok(fragments)
}
