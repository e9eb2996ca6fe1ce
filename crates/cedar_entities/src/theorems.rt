//! Laws of what exists in schemas.

ghost use Rattle.cedar_entities.specs.Words.{PartsTellInclusionBetween};

/// On well-formed types of which the first is inhabited throughout, also by uids that exist, each
/// value of the one that names what exists in the old schema is one of the other that names what
/// exists in the new, exactly where the parts say so: the values are included whatever they name,
/// and the ids of each entity type that the first names are kept.
pub fn parts_tell_inclusion_between_schemas()
    ensures { PartsTellInclusionBetween }
{}
