//! Laws of schemas: comparisons, and what two calls of the builder answer; and what equality and
//! hash say of types, common types and namespaces with locations.

ghost use Rattle.std.specs.Prelude.{◌≡◌, ◌↔◌, IsTrue, string_bytes, List, Ok, Err};
ghost use Rattle.cedar_schema.specs.Words.{AreExactlyKnown, AreKnownOfAll, Bag, ClosesSchema, Extensions, Fault, Fields, FieldsBelow, HasRecordContexts, Included, IsBuiltFrom, IsConvertedBack, IsDeclaredSchema, IsIllFormed, IsValidSchema, IsWritable, Permissive, PlainName, PlainSchema, PositionsFit, SameBag, SameSchema, TypeNamesFit, ValidatorSchema, extension_types, loc_at, name_of, out_of_memory, schema_of, ty_of, type_at};

use crate::located_common_type::LocatedCommonType;
use crate::located_namespace::LocatedNamespace;
use crate::located_type::LocatedType;
use crate::schema::ValidatorSchema;
use std::hash::Hash;

/// Types with a location are equal exactly where they stand for the same type and have the same
/// location.
pub fn located_types_compare_by_type_and_location()
    ensures { (a b : LocatedType) → IsTrue (⟦<LocatedType as PartialEq>⟧.eq a b)
        ↔ ((ty_of (type_at a) ≡ ty_of (type_at b)) × (loc_at a ≡ loc_at b)) }
{}

/// Common types are equal exactly where both their names are, ignoring locations.
pub fn located_common_types_compare_by_names()
    ensures equality { (a b : LocatedCommonType)
        → IsTrue (⟦<LocatedCommonType as PartialEq>⟧.eq a b)
        ↔ ((string_bytes a.name ≡ string_bytes b.name)
        × (name_of a.full_name ≡ name_of b.full_name)) }
    ensures hash { (a b : LocatedCommonType) → string_bytes a.name ≡ string_bytes b.name
        → name_of a.full_name ≡ name_of b.full_name
        → ⟦<LocatedCommonType as Hash>⟧.hash_input a ≡ ⟦<LocatedCommonType as Hash>⟧.hash_input b }
{}

/// Namespaces are equal exactly where their names are, ignoring locations.
pub fn located_namespaces_compare_by_name()
    ensures equality { (a b : LocatedNamespace) → IsTrue (⟦<LocatedNamespace as PartialEq>⟧.eq a b)
        ↔ (string_bytes a.name ≡ string_bytes b.name) }
    ensures hash { (a b : LocatedNamespace) → string_bytes a.name ≡ string_bytes b.name
        → ⟦<LocatedNamespace as Hash>⟧.hash_input a ≡ ⟦<LocatedNamespace as Hash>⟧.hash_input b }
{}

/// Schemas are equal exactly where their entity types, their actions and the entities of their
/// actions are the same, ignoring locations.
pub fn schemas_compare_by_what_they_declare()
    ensures { (a b : ValidatorSchema) → IsTrue (⟦<ValidatorSchema as PartialEq>⟧.eq a b)
        ↔ SameSchema (schema_of a) (schema_of b) }
{}

/// What is built from declarations that say the same, name by name, is two equal schemas or two
/// refusals, unless memory runs out: whatever the split into fragments, the order, and the order
/// and repeats of parents, principals and resources.
pub fn declarations_that_say_the_same_build_equal_schemas()
    ensures equal { (bag other : Bag) (extensions : Extensions) (a b : ValidatorSchema)
        → SameBag bag other
        → IsBuiltFrom bag extensions (Ok (schema_of a))
        → IsBuiltFrom other extensions (Ok (schema_of b))
        → IsTrue (⟦<ValidatorSchema as PartialEq>⟧.eq a b) }
    ensures refused { (bag other : Bag) (extensions : Extensions) (schema : PlainSchema)
        (fault : Fault) → SameBag bag other
        → IsBuiltFrom bag extensions (Ok schema) → IsBuiltFrom other extensions (Err fault)
        → fault ≡ out_of_memory }
{}

/// A schema that is built from declarations, whose references fit their positions as those of every
/// raw fragment do, is valid over the same extensions, and validation gives back an equal one.
pub fn built_schemas_are_valid_and_come_back()
    ensures valid { (bag : Bag) (extensions : Extensions) (schema : ValidatorSchema)
        → TypeNamesFit (extension_types extensions)
        → PositionsFit bag → IsBuiltFrom bag extensions (Ok (schema_of schema))
        → IsValidSchema extensions (schema_of schema) }
    ensures equal { (bag : Bag) (extensions : Extensions) (schema closed : ValidatorSchema)
        → IsBuiltFrom bag extensions (Ok (schema_of schema))
        → ClosesSchema (schema_of schema) (schema_of closed)
        → IsTrue (⟦<ValidatorSchema as PartialEq>⟧.eq schema closed) }
{}

/// What validation gives of a valid schema is valid over the same extensions, and validation of it
/// gives back an equal one.
pub fn validation_again_changes_nothing()
    ensures valid { (extensions : Extensions) (schema closed : ValidatorSchema)
        → ClosesSchema (schema_of schema) (schema_of closed)
        → IsValidSchema extensions (schema_of schema)
        → IsValidSchema extensions (schema_of closed) }
    ensures equal { (schema closed again : ValidatorSchema)
        → ClosesSchema (schema_of schema) (schema_of closed)
        → ClosesSchema (schema_of closed) (schema_of again)
        → IsTrue (⟦<ValidatorSchema as PartialEq>⟧.eq closed again) }
{}

/// A schema that is built from declarations, whose references fit their positions as those of every
/// raw fragment do, comes back where it is writable: what is built from it converted back is an
/// equal schema, or a refusal where memory ran out.
pub fn converted_schemas_are_built_again()
    ensures equal { (bag again : Bag) (extensions : Extensions) (schema other : ValidatorSchema)
        → TypeNamesFit (extension_types extensions) → PositionsFit bag
        → IsBuiltFrom bag extensions (Ok (schema_of schema))
        → IsWritable (schema_of schema) → IsConvertedBack (schema_of schema) again
        → IsBuiltFrom again extensions (Ok (schema_of other))
        → IsTrue (⟦<ValidatorSchema as PartialEq>⟧.eq schema other) }
    ensures refused { (bag again : Bag) (extensions : Extensions) (schema : ValidatorSchema)
        (fault : Fault)
        → TypeNamesFit (extension_types extensions) → PositionsFit bag
        → IsBuiltFrom bag extensions (Ok (schema_of schema))
        → IsWritable (schema_of schema) → IsConvertedBack (schema_of schema) again
        → IsBuiltFrom again extensions (Err fault) → fault ≡ out_of_memory }
{}

/// A valid schema whose contexts are records is converted back, where it is writable, as
/// declarations that have no fault, and that declare what validation gives of it.
pub fn converted_schemas_declare_what_validation_gives()
    ensures well_formed { (bag : Bag) (extensions : Extensions) (schema : ValidatorSchema)
        → TypeNamesFit (extension_types extensions)
        → IsValidSchema extensions (schema_of schema) → HasRecordContexts (schema_of schema)
        → IsWritable (schema_of schema)
        → IsConvertedBack (schema_of schema) bag → ¬ IsIllFormed bag extensions }
    ensures declared { (bag : Bag) (extensions : Extensions) (schema closed : ValidatorSchema)
        → IsValidSchema extensions (schema_of schema) → IsWritable (schema_of schema)
        → IsConvertedBack (schema_of schema) bag
        → ClosesSchema (schema_of schema) (schema_of closed)
        → IsDeclaredSchema bag extensions (schema_of closed) }
{}

/// What is known of a union over a schema that is built from declarations: exactly the attributes
/// that all members declare with types that have a clean common bound, each with the least of these
/// bounds, and required exactly where all members require it. A larger union knows only attributes
/// that a part of it knows, with types above and flags no stronger.
pub fn known_attributes_of_built_schemas_are_common()
    ensures exactly { (bag : Bag) (extensions : Extensions) (schema : ValidatorSchema)
        (members : List PlainName) (known : Fields)
        → IsBuiltFrom bag extensions (Ok (schema_of schema))
        → AreKnownOfAll (schema_of schema).entity_types members known
        → AreExactlyKnown (schema_of schema).entity_types members known }
    ensures fewer { (bag : Bag) (extensions : Extensions) (schema : ValidatorSchema)
        (part members : List PlainName)
        (less more : Fields) → IsBuiltFrom bag extensions (Ok (schema_of schema))
        → Included part members
        → AreKnownOfAll (schema_of schema).entity_types members less
        → AreKnownOfAll (schema_of schema).entity_types part more
        → FieldsBelow Permissive more less }
{}
