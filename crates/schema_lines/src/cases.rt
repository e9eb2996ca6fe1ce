//! The built-in cases, as texts in Cedar's schema syntax, one for each fragment.

ghost use Rattle.std.specs.Prelude.{◌≡◌, [], ◌∷◌, IfOk};
ghost use Rattle.cedar_ast.specs.Extensions.{extension_types};
ghost use Rattle.schema_lines.specs.Samples.{sample_type};

use crate::command::Case;
use crate::names::name;
use cedar_json::{JsonSchemaFault, fragment_from_json};
use cedar_schema::below::{CoreSchemaType, ExtensionFunction, Extensions, M};
use cedar_schema::json_schema::{Fragment, RawName};
use cedar_schema_text::{TextFault, fragment_from_text};
use std::alloc::{AllocFailed, Global};
use std::collections::BTreeMap;

/// An entity type that is named as a built-in type: the name alone stands for it, and not for the
/// built-in type.
const ALIAS: &[&str] = &[
    "entity String;
entity U { a: String, b: __cedar::String, c: __cedar::String };",
];

/// A name that is declared as a common type and as an entity type. Only JSON can say which is meant.
const BOTH: &[&str] = &[
    r#"{"N": {"actions": {}, "commonTypes": {"T": {"type": "Long"}},
  "entityTypes": {
    "T": {},
    "U": {"memberOfTypes": ["T"], "shape": {"type": "Record", "attributes": {
      "t": {"type": "EntityOrCommon", "name": "T"},
      "u": {"type": "Entity", "name": "T"}}}}}}}"#,
];

/// Common types that form a cycle.
const CYCLE: &[&str] = &[
    "type A = { b: B, n: Long };
type B = Set<A>;",
];

/// An entity type that is external in one fragment, and defined in another.
const LINKED: &[&str] = &[
    "external entity User in [Group];",
    "entity Group;
entity Team;
entity User in [Team] { age: Long };",
];

/// Users in groups, photos in albums, and the action of viewing a photo.
const PHOTOS: &[&str] = &[
    "entity Album;
entity Group;
entity Photo in [Album];
entity User in [Group];
action view_photo appliesTo { principal: [User, Group], resource: [Photo] };",
];

/// Two entity types, each below the other.
const RING: &[&str] = &[
    "entity A in [B];
entity B in [A];",
];

/// A common type in a namespace, of the name of an entity type in the empty one.
const SHADOW: &[&str] = &["entity User;", "namespace N { type User = Long; }"];

/// Entity types with attributes of several types.
const SHAPES: &[&str] = &[
    "entity Team { lead: User };
entity User { age: Long, home: { city: String }, nick?: String, roles: Set<String> };",
];

/// What `PHOTOS` declares, each declaration in a fragment of its own, the last first.
const SPLIT: &[&str] = &[
    "action view_photo appliesTo { principal: [User, Group], resource: [Photo] };",
    "entity Album;",
    "entity Photo in [Album];",
    "entity Group;",
    "entity User in [Group];",
];

/// An external entity type below an enumerated one.
const TINT: &[&str] = &[
    "entity Color enum [\"red\"];
entity Shade in [Color];
external entity Tint in [Shade];",
];

/// The texts of a case.
fn texts_of(case: Case) -> &'static [&'static str] {
    match case {
        Case::Alias => ALIAS,
        Case::Both => BOTH,
        Case::Cycle => CYCLE,
        Case::Empty => &[],
        Case::Linked => LINKED,
        Case::Photos => PHOTOS,
        Case::Ring => RING,
        Case::Shadow => SHADOW,
        Case::Shapes => SHAPES,
        Case::Split => SPLIT,
        Case::Tint => TINT,
    }
}

/// Why there are no fragments of a case.
#[derive(Clone, Copy)]
pub(crate) enum Unread {
    /// A growth was refused.
    Memory,
    /// A text of the case is in neither format.
    Text,
}

impl<T: Drop> From<AllocFailed<T>> for Unread {
    fn from(_refused: AllocFailed<T>) -> Self {
        Unread::Memory
    }
}

/// The fragment of a text in the JSON format.
fn fragment_of_json(alloc: Global, text: &str) -> Result<Fragment<RawName>, Unread> {
    fragment_from_json(alloc, text, 0).map_err(|fault| match fault {
        JsonSchemaFault::Memory => Unread::Memory,
        _ => Unread::Text,
    })
}

/// The fragment of a text, which is JSON where it begins with `{`.
fn fragment(alloc: Global, text: &str) -> Result<Fragment<RawName>, Unread> {
    if text.starts_with('{') {
        return fragment_of_json(alloc, text);
    }
    fragment_from_text(alloc, text, 0).map_err(|fault| match fault {
        TextFault::Memory => Unread::Memory,
        _ => Unread::Text,
    })
}

/// The fragments of a case.
pub(crate) fn fragments_of(alloc: Global, case: Case) -> Result<Vec<Fragment<RawName>>, Unread> {
    let mut fragments = Vec::new(alloc);
    for text in texts_of(case) {
        fragments.push(fragment(alloc, text)?)?;
    }
    Ok(fragments)
}

/// The sample extension: the type `ipaddr`, and the function `ip` that makes one of a text.
pub(crate) fn sample_extensions(alloc: Global) -> M<Extensions>
    ensures { IfOk result (λ extensions. extension_types extensions ≡ sample_type ∷ []) }
{
    let mut types = Vec::new(alloc);
    types.push(name(alloc, "ipaddr")?)?;
    let mut arg_types = Vec::new(alloc);
    arg_types.push(CoreSchemaType::String)?;
    let ip = ExtensionFunction {
        arg_types,
        return_type: Some(CoreSchemaType::Extension {
            name: name(alloc, "ipaddr")?,
        }),
    };
    let mut functions = BTreeMap::new(alloc);
    functions.insert(name(alloc, "ip")?, ip)?;
    Ok(Extensions::new(types, functions))
}
