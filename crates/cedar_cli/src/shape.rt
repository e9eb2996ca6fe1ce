//! What stands where in a schema (Cedar reference, JSON schema format).

ghost use Rattle.std.specs.Prelude.{◌≡◌};

/// What a value in a schema is.
#[derive(Clone, Copy, Drop)]
pub(crate) enum Shape {
    /// The whole: definitions by namespace.
    Fragment,
    /// The definition of a namespace.
    Definition,
    /// The declarations of common types by id.
    CommonTypes,
    /// The declarations of entity types by id.
    EntityTypes,
    /// The declaration of an entity type.
    EntityType,
    /// The declarations of actions by id.
    Actions,
    /// The declaration of an action.
    Action,
    /// The requests that an action is for.
    AppliesTo,
    /// The parents of an action.
    Parents,
    /// A parent of an action.
    Parent,
    /// A type, the declaration of a common type, or an attribute.
    Type,
    /// The attributes of a record type by name.
    Attributes,
    /// Annotations by key.
    Annotations,
    /// Anything else, with members in the order of their keys.
    Other,
}

/// The fields of a definition.
const DEFINITION: &[(&str, Shape)] = &[
    ("entityTypes", Shape::EntityTypes),
    ("actions", Shape::Actions),
    ("commonTypes", Shape::CommonTypes),
    ("annotations", Shape::Annotations),
];

/// The fields of the declaration of an entity type.
const ENTITY_TYPE: &[(&str, Shape)] = &[
    ("enum", Shape::Other),
    ("memberOfTypes", Shape::Other),
    ("shape", Shape::Type),
    ("tags", Shape::Type),
    ("external", Shape::Other),
    ("annotations", Shape::Annotations),
];

/// The fields of the declaration of an action.
const ACTION: &[(&str, Shape)] = &[
    ("appliesTo", Shape::AppliesTo),
    ("memberOf", Shape::Parents),
    ("attributes", Shape::Other),
    ("external", Shape::Other),
    ("annotations", Shape::Annotations),
];

/// The fields of what an action applies to.
const APPLIES_TO: &[(&str, Shape)] = &[
    ("principalTypes", Shape::Other),
    ("resourceTypes", Shape::Other),
    ("context", Shape::Type),
];

/// The fields of a parent of an action.
const PARENT: &[(&str, Shape)] = &[("id", Shape::Other), ("type", Shape::Other)];

/// The fields of a type and of what else has a type's fields.
const TYPE: &[(&str, Shape)] = &[
    ("type", Shape::Other),
    ("element", Shape::Type),
    ("attributes", Shape::Attributes),
    ("additionalAttributes", Shape::Other),
    ("name", Shape::Other),
    ("required", Shape::Other),
    ("annotations", Shape::Annotations),
];

/// Where a member stands in its object: what it is sorted by, and its index.
#[derive(PartialEq, Eq, PartialOrd, Ord, Drop)]
pub(crate) struct Place<'a> {
    /// The rank among the fields of the shape.
    rank: usize,
    /// The key, or the base name of a namespace.
    name: &'a str,
    /// What stands before the base name of a namespace.
    path: &'a str,
    /// The index among the members as they were read.
    pub(crate) index: usize,
}

impl Shape {
    /// The fields of an object of this shape, in order, each with its shape.
    fn fields(self) -> &'static [(&'static str, Shape)] {
        match self {
            Shape::Definition => DEFINITION,
            Shape::EntityType => ENTITY_TYPE,
            Shape::Action => ACTION,
            Shape::AppliesTo => APPLIES_TO,
            Shape::Parent => PARENT,
            Shape::Type => TYPE,
            _ => &[],
        }
    }

    /// The rank of a field among those of the shape; behind all of them where it is none.
    fn rank(self, key: &str) -> usize {
        let fields = self.fields();
        for (rank, field) in fields.iter().enumerate() {
            if field.0 == key {
                return rank;
            }
        }
        fields.len()
    }

    /// The shape of the member that has this key.
    pub(crate) fn of_member(self, key: &str) -> Shape {
        match self {
            Shape::Fragment => Shape::Definition,
            Shape::CommonTypes | Shape::Attributes => Shape::Type,
            Shape::EntityTypes => Shape::EntityType,
            Shape::Actions => Shape::Action,
            _ => match self.fields().get(self.rank(key)) {
                Some(field) => field.1,
                None => Shape::Other,
            },
        }
    }

    /// The shape of each item.
    pub(crate) fn of_item(self) -> Shape {
        match self {
            Shape::Parents => Shape::Parent,
            _ => Shape::Other,
        }
    }

    /// The place of the member that has this key and this index: a namespace is sorted by its base
    /// name and then by what stands before it, a field by its rank among those of the shape, and
    /// all else by its key.
    pub(crate) fn place(self, key: &str, index: usize) -> Place<'_>
        ensures { result.index ≡ index }
    {
        let (rank, (name, path)) = match self {
            Shape::Fragment => (0, base_first(key)),
            _ => (self.rank(key), (key, "")),
        };
        Place {
            rank,
            name,
            path,
            index,
        }
    }
}

/// The base name of a namespace, and what stands before it.
fn base_first(name: &str) -> (&str, &str) {
    match name.rsplit_once("::") {
        Some((path, base)) => (base, path),
        None => (name, ""),
    }
}
