//! Laws of what a new version of a schema keeps.

ghost use Rattle.std.specs.Prelude.{◌≡◌, List, []};
ghost use Rattle.cedar_compare.specs.Words.{AreLosses, Extensions, Keeps, LosesAction, LosesEntityType, LosesRequest, PlainDifference, PlainName, PlainSchema, PlainUid, SameSchema, SchemaBelow};

/// Every schema keeps itself, and what keeps a schema keeps all that this one keeps.
pub fn keeping_is_a_preorder()
    ensures same { (extensions : Extensions) (schema : PlainSchema)
        → Keeps extensions schema schema }
    ensures further { (extensions : Extensions) (first second third : PlainSchema)
        → Keeps extensions first second → Keeps extensions second third
        → Keeps extensions first third }
{}

/// A schema that is kept loses no entity and no request.
pub fn what_is_kept_is_not_lost()
    ensures entity_types { (extensions : Extensions) (old new : PlainSchema)
        → Keeps extensions old new → (name : PlainName)
        → ¬ LosesEntityType extensions old new name }
    ensures actions { (extensions : Extensions) (old new : PlainSchema) → Keeps extensions old new
        → (uid : PlainUid) → ¬ LosesAction extensions old new uid }
    ensures requests { (extensions : Extensions) (old new : PlainSchema)
        → Keeps extensions old new → (principal : PlainName) (action : PlainUid)
        (resource : PlainName) → ¬ LosesRequest extensions old new principal action resource }
{}

/// Of two schemas that are the same, which is what `==` tells, none loses anything to the other: a
/// list that tells just what is lost, or what is gained, is empty.
pub fn equal_schemas_lose_nothing()
    ensures kept { (extensions : Extensions) (old new : PlainSchema) → SameSchema old new
        → Keeps extensions old new }
    ensures lost { (extensions : Extensions) (old new : PlainSchema) → SameSchema old new
        → (reported : List PlainDifference) → AreLosses extensions old new reported → reported
        ≡ [] }
    ensures gained { (extensions : Extensions) (old new : PlainSchema) → SameSchema old new
        → (reported : List PlainDifference) → AreLosses extensions new old reported → reported
        ≡ [] }
{}

/// What permissive subtyping allows loses nothing: where a schema is below another, that one keeps
/// it.
pub fn what_subtyping_allows_is_kept()
    ensures { (extensions : Extensions) (old new : PlainSchema) → SchemaBelow old new
        → Keeps extensions old new }
{}
