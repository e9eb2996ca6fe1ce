//! Laws of the places that are shown for refusals, and of what is listed with its places.

ghost use Rattle.cedar_places.specs.PlaceLaws.{FirstPlacesStandFirst, MarksAreMentioned, TwoDefinitionsStandApart};

/// The first place of what is looked for in a table is that of the mark that stands first there,
/// and there is none exactly where no mark is what is looked for.
pub fn first_places_stand_first()
    ensures { FirstPlacesStandFirst }
{}

/// Of two definitions the second place that is shown isn't the first.
pub fn two_definitions_stand_apart()
    ensures { TwoDefinitionsStandApart }
{}

/// What is listed of a type are exactly the open record types and the extension types that stand in
/// it.
pub fn marks_are_mentioned()
    ensures { MarksAreMentioned }
{}
