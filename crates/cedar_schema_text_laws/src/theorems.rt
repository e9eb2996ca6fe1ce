//! The laws of schemas that are written as Cedar's schema text, each as a function whose contract
//! is the law.
//!
//! Laws are functions that take nothing and do nothing: all that they have is a contract, which
//! cites the same definitions as the calls that it speaks of.

ghost use Rattle.std.specs.List.{AllByRecursion};
ghost use Rattle.std.specs.Prelude.{◌≡◌, ℕ, [], List, IsTrue, Ok, Err, map};
ghost use Rattle.cedar_schema_text_laws.specs.Words.{Bag, CanBeConvertedBack, Extensions, Fault, First, Fragment, HasKnownExtensions, HasMembers, IsBuiltFrom, IsConvertedBack, IsRewritten, IsWritable, Member, MemberHasNames, PositionsFit, RawName, StandsFor, Text, TypeNamesFit, ValidatorSchema, declaration_form, extension_types, first_beside, fragment_form, fragment_shown, out_of_memory, raw_fragment, schema_of, written_fragment};

use cedar_schema::ValidatorSchema;

/// In the members of a text each path is a name and each id of a type an identifier, and an entity
/// type that lists ids lists one at least. So what is refused as reserved is a name that is
/// reserved where it stands.
pub fn what_texts_name_are_names()
    ensures { (source : ℕ) (text : Text) (members : List Member) → HasMembers source text members
        → AllByRecursion MemberHasNames members }
{}

/// What was read of a text can be written, whatever stands beside it, and is its own text form: so
/// it reads back as it was.
pub fn what_was_read_is_its_own_text_form()
    ensures writable { (source : ℕ) (text : Text) (it : Fragment RawName) (first : First)
        → StandsFor source text (fragment_shown it) → IsWritable first it }
    ensures form { (source : ℕ) (text : Text) (it : Fragment RawName) (first : First)
        → StandsFor source text (fragment_shown it)
        → fragment_form first (written_fragment it) ≡ written_fragment it }
{}

/// What was read of a text, written as JSON and read again of that, is what it was.
pub fn what_was_read_stays_through_json()
    ensures { (it other : Fragment RawName) → IsRewritten it other
        → written_fragment other ≡ written_fragment it }
{}

/// The text form of a fragment declares the text form of what the fragment declares.
pub fn text_forms_are_declared()
    ensures { (first : First) (it other : Fragment RawName)
        → written_fragment other ≡ fragment_form first (written_fragment it)
        → raw_fragment other ≡ map (declaration_form first) (raw_fragment it) }
{}

/// A schema that is built from declarations over no extension types but Cedar's own, and whose
/// fragment can be written as text, comes back through the text: where `to_json_schema` gives the
/// fragment and what is read of its text is the text form, what `from_schema_frag` builds of that
/// is an equal schema, or a refusal where memory ran out.
pub fn written_schemas_are_built_again()
    ensures equal { (bag : Bag) (extensions : Extensions) (schema other : ValidatorSchema)
        (fragment read : Fragment RawName)
        → TypeNamesFit (extension_types extensions) → HasKnownExtensions extensions
        → PositionsFit bag → IsBuiltFrom bag extensions (Ok (schema_of schema))
        → CanBeConvertedBack (schema_of schema)
        → IsConvertedBack (schema_of schema) (raw_fragment fragment)
        → IsWritable (first_beside fragment []) fragment
        → written_fragment read
        ≡ fragment_form (first_beside fragment []) (written_fragment fragment)
        → IsBuiltFrom (raw_fragment read) extensions (Ok (schema_of other))
        → IsTrue (⟦<ValidatorSchema as PartialEq>⟧.eq schema other) }
    ensures refused { (bag : Bag) (extensions : Extensions) (schema : ValidatorSchema)
        (fragment read : Fragment RawName) (fault : Fault)
        → TypeNamesFit (extension_types extensions) → HasKnownExtensions extensions
        → PositionsFit bag → IsBuiltFrom bag extensions (Ok (schema_of schema))
        → CanBeConvertedBack (schema_of schema)
        → IsConvertedBack (schema_of schema) (raw_fragment fragment)
        → IsWritable (first_beside fragment []) fragment
        → written_fragment read
        ≡ fragment_form (first_beside fragment []) (written_fragment fragment)
        → IsBuiltFrom (raw_fragment read) extensions (Err fault) → fault ≡ out_of_memory }
{}
