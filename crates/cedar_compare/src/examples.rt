//! Worked examples of what a new version of a schema keeps and loses.

ghost use Rattle.std.specs.Prelude.{true, false, codes};
ghost use Rattle.cedar_compare.specs.Words.{Extensions, Keeps, LosesEntityType, choice, user, users, with_age, without_attributes};

/// An optional attribute is added: each entity stays one.
pub fn optional_attributes_are_kept()
    ensures { (extensions : Extensions)
        → Keeps extensions (users without_attributes) (users (with_age false)) }
{}

/// An attribute is required that wasn't there: the entity without it is lost.
pub fn required_attributes_lose_entities()
    ensures { (extensions : Extensions)
        → LosesEntityType extensions (users without_attributes) (users (with_age true)) user }
{}

/// A choice takes the place of another: the entity that it was is lost.
pub fn choices_lose_entities()
    ensures { (extensions : Extensions) → LosesEntityType extensions (users (choice (codes "red")))
        (users (choice (codes "blue"))) user }
{}
