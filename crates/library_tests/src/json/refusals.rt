//! Texts that are refused, one with each kind of fault: at which JSON pointer, and at which bytes.

use crate::asked::{Question, Rows, check};
use cedar_ast::{Loc, M};
use cedar_json::{JsonSchemaFault, Place, fragment_from_json};
use std::alloc::Global;
use std::test::Fail;

/// A place: the JSON pointer and the bytes, with the number of the text.
fn placed(alloc: Global, at: &Place) -> M<String> {
    match at.loc {
        Some(
            Loc {
                source,
                start,
                stop,
            },
        ) => Ok(format!(in alloc; "{}, {start} to {stop} of {source}", at.pointer)?),
        None => Ok(String::new(alloc)),
    }
}

/// What is told of a refusal.
fn told(alloc: Global, fault: &JsonSchemaFault) -> Result<String, Fail> {
    match fault {
        JsonSchemaFault::TwiceInObject { at, member } => {
            Ok(format!(in alloc; "member {member} at {}", placed(alloc, at)?)?)
        }
        JsonSchemaFault::OutOfShape { at, fault } => {
            Ok(format!(in alloc; "{fault:?} at {}", placed(alloc, at)?)?)
        }
        _ => Ok(format!(in alloc; "{fault:?}")?),
    }
}

/// What is asked about a text.
#[derive(Clone, Copy)]
struct Read;

impl Question for Read {
    /// Whether it is read as the text of the number 7, or why it isn't.
    fn answer(self, alloc: Global, text: &str) -> Result<String, Fail> {
        match fragment_from_json(alloc, text, 7) {
            Ok(_) => Ok(String::from_str(alloc, "read")?),
            Err(fault) => told(alloc, &fault),
        }
    }
}

/// Texts that are no JSON, though they look as if they were some.
const NO_JSON: Rows = &[
    ("", "NotJson { up_to: 0, too_deep: false }"),
    ("  ", "NotJson { up_to: 2, too_deep: false }"),
    ("\u{feff}{}", "NotJson { up_to: 0, too_deep: false }"),
    ("[\"a\tb\"]", "NotJson { up_to: 1, too_deep: false }"),
    ("[1 2]", "NotJson { up_to: 3, too_deep: false }"),
    ("{\"a\":1", "NotJson { up_to: 6, too_deep: false }"),
];

/// A text with a key twice in an object, whose index is that of the second.
const TWICE: Rows = &[
    (
        "{\"\": 0, \"ä\": [], \"\": 1, \"\": 2}",
        "member 2 at , 18 to 20 of 7",
    ),
    (
        "[0, {\"k/\": {\"z~\": 3}}, {\"a\": [{\"b\":{}, \"b\":{}}]}]",
        "member 1 at /2/a/0, 39 to 42 of 7",
    ),
];

/// Definitions that are out of shape.
const DEFINITIONS: Rows = &[
    ("[]", "Wants(Object) at , 0 to 2 of 7"),
    ("{\"A:\": {}}", "KeyIsNoName(0) at , 1 to 5 of 7"),
    (
        "{\"__cedar\": {}}",
        "KeyIsReservedName(0) at , 1 to 10 of 7",
    ),
    ("{\"\": {}}", "Missing(\"entityTypes\") at /, 5 to 7 of 7"),
    (
        "{\"\": {\"actions\": {}, \"entityTypes\": {}, \"x\": 1}}",
        "UnknownField(OfDefinition, 2) at /, 40 to 43 of 7",
    ),
    (
        "{\"\": {\"actions\": {}, \"entityTypes\": {\"A\": {}, \"9\": {}}}}",
        "KeyIsNoId(1) at //entityTypes, 46 to 49 of 7",
    ),
    (
        "{\"\": {\"actions\": {}, \"entityTypes\": {\"__cedar\": {}}}}",
        "KeyIsReserved(0) at //entityTypes, 37 to 46 of 7",
    ),
    (
        "{\"\": {\"actions\": {}, \"entityTypes\": {}, \"commonTypes\": {\"Bool\": {}}}}",
        "KeyIsTypeWord(0) at //commonTypes, 56 to 62 of 7",
    ),
];

/// Declarations that are out of shape.
const DECLARATIONS: Rows = &[
    (
        "{\"N\": {\"actions\": {}, \"entityTypes\": {\"E\": {\"enum\": null}}}}",
        "Wants(Array) at /N/entityTypes/E/enum, 52 to 56 of 7",
    ),
    (
        "{\"N\": {\"actions\": {}, \"entityTypes\": {\"E\": {\"enum\": []}}}}",
        "NoChoices at /N/entityTypes/E/enum, 52 to 54 of 7",
    ),
    (
        "{\"N\": {\"actions\": {}, \"entityTypes\": {\"E\": {\"enum\": [\"a\"], \"tags\": \
         {\"type\": \"Long\"}}}}}",
        "UnknownField(OfEnumeratedType, 1) at /N/entityTypes/E, 59 to 65 of 7",
    ),
    (
        "{\"N\": {\"actions\": {}, \"entityTypes\": {\"E\": {\"memberOf\": []}}}}",
        "UnknownField(OfEntityType, 0) at /N/entityTypes/E, 44 to 54 of 7",
    ),
    (
        "{\"N::M\": {\"entityTypes\": {}, \"actions\": {\"a\": {\"applies_to\": null}}}}",
        "UnknownField(OfAction, 0) at /N::M/actions/a, 47 to 59 of 7",
    ),
    (
        "{\"N::M\": {\"entityTypes\": {}, \"actions\": {\"a\": {\"appliesTo\": \
         {\"principalTypes\": [], \"resourceTypes\": [], \"x\": 0}}}}}",
        "UnknownField(OfAppliesTo, 2) at /N::M/actions/a/appliesTo, 104 to 107 of 7",
    ),
    (
        "{\"N::M\": {\"entityTypes\": {}, \"actions\": {\"a\": {\"memberOf\": [{\"id\": \
         \"\", \"x\": 0}]}}}}",
        "UnknownField(OfParent, 1) at /N::M/actions/a/memberOf/0, 71 to 74 of 7",
    ),
    (
        "{\"N::M\": {\"entityTypes\": {}, \"actions\": {\"a\": {\"attributes\": {\"a\": \
         null}}}}}",
        "Wants(NoNull) at /N::M/actions/a/attributes/a, 67 to 71 of 7",
    ),
];

/// Types and values that are out of shape.
const TYPES: Rows = &[
    (
        "{\"\": {\"entityTypes\": {}, \"actions\": {}, \"commonTypes\": {\"T\": {\"type\": \
         null}}}}",
        "Wants(Text) at //commonTypes/T/type, 70 to 74 of 7",
    ),
    (
        "{\"\": {\"entityTypes\": {}, \"actions\": {}, \"commonTypes\": {\"T\": {\"type\": \
         \"A:B\"}}}}",
        "NoName at //commonTypes/T/type, 70 to 75 of 7",
    ),
    (
        "{\"\": {\"entityTypes\": {}, \"actions\": {}, \"commonTypes\": {\"T\": {\"type\": \
         \"Long\", \"required\": true}}}}",
        "UnknownField(OfCommonType, 1) at //commonTypes/T, 78 to 88 of 7",
    ),
    (
        "{\"\": {\"entityTypes\": {}, \"actions\": {}, \"commonTypes\": {\"T\": {\"type\": \
         \"Long\", \"annotations\": {\"a\": 1}}}}}",
        "Wants(TextOrNull) at //commonTypes/T/annotations/a, 99 to 100 of 7",
    ),
    (
        "{\"\": {\"entityTypes\": {}, \"actions\": {}, \"commonTypes\": {\"T\": {\"type\": \
         \"Set\", \"element\": {\"type\": \"Long\", \"annotations\": {}}}}}}",
        "UnknownField(OfType, 1) at //commonTypes/T/element, 105 to 118 of 7",
    ),
    (
        "{\"\": {\"entityTypes\": {}, \"actions\": {}, \"commonTypes\": {\"T\": {\"type\": \
         \"Extension\", \"name\": \"__cedar\"}}}}",
        "ReservedId at //commonTypes/T/name, 91 to 100 of 7",
    ),
    (
        "{\"\": {\"entityTypes\": {}, \"actions\": {}, \"commonTypes\": {\"T\": {\"type\": \
         \"Extension\", \"name\": \"a::b\"}}}}",
        "NoId at //commonTypes/T/name, 91 to 97 of 7",
    ),
    (
        "{\"\": {\"entityTypes\": {}, \"actions\": {}, \"commonTypes\": {\"T\": {\"type\": \
         \"Record\", \"attributes\": {}, \"additionalAttributes\": null}}}}",
        "Wants(Flag) at //commonTypes/T/additionalAttributes, 122 to 126 of 7",
    ),
    (
        "{\"\": {\"entityTypes\": {}, \"actions\": {}, \"commonTypes\": {\"T\": {\"type\": \
         \"Record\", \"attributes\": {\"a\": {\"type\": \"Long\", \"x\": 1}}}}}}",
        "UnknownField(OfAttribute, 1) at //commonTypes/T/attributes/a, 117 to 120 of 7",
    ),
    (
        "{\"\": {\"entityTypes\": {}, \"actions\": {}, \"commonTypes\": {\"T\": {\"type\": \
         \"Record\", \"attributes\": {\"ä\\n\": {\"type\": \"\\u0031\"}}}}}}",
        "NoName at //commonTypes/T/attributes/ä\n/type, 112 to 120 of 7",
    ),
    (
        "{\"\": {\"entityTypes\": {}, \"actions\": {\"a\": {\"attributes\": {\"v\": 1.0}}}}}",
        "NoLong at //actions/a/attributes/v, 63 to 66 of 7",
    ),
    (
        "{\"\": {\"entityTypes\": {}, \"actions\": {\"a\": {\"attributes\": {\"v\": \
         {\"__entity\": {\"type\": \"__cedar\", \"id\": \"\"}}}}}}}",
        "ReservedName at //actions/a/attributes/v/__entity/type, 85 to 94 of 7",
    ),
    (
        "{\"\": {\"entityTypes\": {}, \"actions\": {\"a\": {\"attributes\": {\"v\": \
         {\"__entity\": {\"type\": \"A\", \"id\": \"\", \"x\": 0}}}}}}}",
        "UnknownField(OfEntityUid, 2) at //actions/a/attributes/v/__entity, 100 to 103 of 7",
    ),
    (
        "{\"\": {\"entityTypes\": {}, \"actions\": {\"a\": {\"attributes\": {\"v\": \
         {\"__extn\": {\"fn\": \"f\", \"arg\": 1, \"x\": 0}}}}}}}",
        "UnknownField(OfCall, 2) at //actions/a/attributes/v/__extn, 96 to 99 of 7",
    ),
];

#[test]
fn texts_are_refused_with_the_place(rt: HostRuntime) -> Result<(), Fail> {
    let table = &[
        (Read, NO_JSON),
        (Read, TWICE),
        (Read, DEFINITIONS),
        (Read, DECLARATIONS),
        (Read, TYPES),
    ];
    check(rt.alloc(), table)
}
