//! Laws of what a schema answers, and of known attributes.

ghost use Rattle.std.specs.Prelude.{◌↔◌, Contains};
ghost use Rattle.cedar_queries.specs.Words.{AttributesAreUnique, KnownAttributesAreCommon, LargerUnionsKnowLess, ListsDescendant, PlainName, PlainSchema, types_above};

/// A type has just one list of attributes: so all that is said of them is said of the same ones.
pub fn attributes_are_unique()
    ensures { AttributesAreUnique }
{}

/// What is known of a union whose members declare clean types: exactly the attributes that all
/// members declare with types that have a clean common bound, each with the least of these bounds,
/// and required exactly where all members require it.
pub fn known_attributes_are_common()
    ensures { KnownAttributesAreCommon }
{}

/// A larger union knows only attributes that a smaller part of it knows, with types above and flags
/// no stronger, where the members declare clean types.
pub fn larger_unions_know_less()
    ensures { LargerUnionsKnowLess }
{}

/// The ancestors of an entity type are its descendants inverted: an entity type is among them
/// exactly where the schema lists the one among the descendants of the other.
pub fn ancestors_are_inverted_descendants()
    ensures { (schema : PlainSchema) (lower upper : PlainName)
        → Contains (types_above lower schema.entity_types) upper
        ↔ ListsDescendant schema lower upper }
{}
