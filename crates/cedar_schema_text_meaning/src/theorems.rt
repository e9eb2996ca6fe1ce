//! The laws of text forms.
//!
//! Laws are functions that take nothing and do nothing: all that they have is a contract.

ghost use Rattle.cedar_schema_text_meaning.specs.TextMeaning.{TextFormsMeanTheSame};
ghost use Rattle.cedar_schema_text_meaning.specs.TogetherWritten.{FormsOfFragmentsAreTheFormOfTheirBag, SchemasComeBackThroughText, TextFormsAreAnsweredAlike, WritableFragmentsAreAWritableBag};

/// Where a bag can be written, over no extension types but Cedar's own, it is ill-formed exactly
/// where its text form is; and where it isn't, both declare the same schemas.
pub fn text_forms_mean_the_same()
    ensures { TextFormsMeanTheSame }
{}

/// The bag of fragments that can be written beside each other can be written.
pub fn writable_fragments_are_a_writable_bag()
    ensures { WritableFragmentsAreAWritableBag }
{}

/// The bag of fragments that declare the text forms of others, each written beside the rest, is the
/// text form of the bag of these.
pub fn forms_of_fragments_are_the_form_of_their_bag()
    ensures { FormsOfFragmentsAreTheFormOfTheirBag }
{}

/// What a builder answers for fragments that can be written beside each other, over no extension
/// types but Cedar's own, and what it does for fragments that declare their text forms agree, but
/// where memory ran out: both are refusals, or both schemas are the same.
pub fn text_forms_are_answered_alike()
    ensures { TextFormsAreAnsweredAlike }
{}

/// A schema that is built, and converted back as a fragment that can be written, comes back through
/// text: what is built of the text form is the same schema, or it is refused where memory ran out.
pub fn schemas_come_back_through_text()
    ensures { SchemasComeBackThroughText }
{}
