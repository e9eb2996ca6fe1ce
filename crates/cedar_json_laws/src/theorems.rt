//! The law of schemas that are written as JSON and built again of what is read.
//!
//! Laws are functions that take nothing and do nothing: all that they have is a contract, which
//! cites the same definitions as the calls that it speaks of.

ghost use Rattle.std.specs.Prelude.{◌≡◌, ℕ, List, IsTrue, Ok, Err};
ghost use Rattle.cedar_json_laws.specs.Words.{Bag, Describes, Extensions, Fault, Fragment, IsBuiltFrom, IsConvertedBack, IsRewritten, IsWritable, PositionsFit, RawName, TypeNamesFit, ValidatorSchema, extension_types, out_of_memory, raw_fragment, schema_of, written_fragment};

use cedar_schema::ValidatorSchema;

/// Fragments that one text describes declare the same: where things were written changes nothing,
/// and neither does what the format leaves out.
pub fn fragments_of_one_text_declare_the_same()
    ensures { (text : List ℕ) (fragment other : Fragment RawName)
        → Describes text (written_fragment fragment)
        → Describes text (written_fragment other)
        → raw_fragment fragment ≡ raw_fragment other }
{}

/// A schema that is built from declarations, whose references fit their positions as those of every
/// raw fragment do, comes back through the text of its fragment: where `to_json_schema` gives the
/// fragment, `fragment_to_json` its text and `fragment_from_json` a fragment of that text, what
/// `from_schema_frag` builds of this one is an equal schema, or a refusal where memory ran out.
pub fn written_schemas_are_built_again()
    ensures equal { (bag : Bag) (extensions : Extensions) (schema other : ValidatorSchema)
        (fragment read : Fragment RawName)
        → TypeNamesFit (extension_types extensions) → PositionsFit bag
        → IsBuiltFrom bag extensions (Ok (schema_of schema))
        → IsWritable (schema_of schema) → IsConvertedBack (schema_of schema) (raw_fragment fragment)
        → IsRewritten fragment read
        → IsBuiltFrom (raw_fragment read) extensions (Ok (schema_of other))
        → IsTrue (⟦<ValidatorSchema as PartialEq>⟧.eq schema other) }
    ensures refused { (bag : Bag) (extensions : Extensions) (schema : ValidatorSchema)
        (fragment read : Fragment RawName) (fault : Fault)
        → TypeNamesFit (extension_types extensions) → PositionsFit bag
        → IsBuiltFrom bag extensions (Ok (schema_of schema))
        → IsWritable (schema_of schema) → IsConvertedBack (schema_of schema) (raw_fragment fragment)
        → IsRewritten fragment read
        → IsBuiltFrom (raw_fragment read) extensions (Err fault) → fault ≡ out_of_memory }
{}
