//! Worked examples of what exists in a schema, and of the entities and requests that name it.

ghost use Rattle.std.specs.Prelude.{[], ◌∷◌, codes};
ghost use Rattle.declaration_examples.specs.Words.{Exists, Extensions, IncludedBetween, IsEntityIn, IsReal, IsRealRequest, IsRequestIn, NamesWhatExists, PlainName, Text, action_named, alias_name, any_entity, any_set, call_value, no_tree, one_role, role_in_set, role_named, role_type, some_user, tree, two_roles, uid_value, user_in_role, viewing_in_role};

/// An enumerated entity type has its choices and no other entities; of a type that the schema
/// doesn't declare every uid exists.
pub fn choices_alone_exist()
    ensures choice { Exists one_role (role_named (codes "admin")) }
    ensures other { ¬ Exists one_role (role_named (codes "editor")) }
    ensures undeclared { (id : Text)
        → Exists one_role (record { ty = alias_name (codes "Team"); eid = id }) }
{}

/// Of the types of actions there are the actions of the schema, external ones too, and no others.
pub fn actions_alone_exist()
    ensures external { Exists one_role (action_named (codes "read")) }
    ensures other { ¬ Exists one_role (action_named (codes "write")) }
{}

/// A uid counts at any depth of records and sets; the arguments of calls don't.
pub fn records_and_sets_are_looked_into()
    ensures there { NamesWhatExists one_role (role_in_set (codes "admin")) }
    ensures deep { ¬ NamesWhatExists one_role (role_in_set (codes "editor")) }
    ensures argument { (function : PlainName) → NamesWhatExists one_role
        (call_value function (tree (uid_value (role_named (codes "editor"))) no_tree)) }
{}

/// A user is no entity of the schema once its role isn't a choice any more, nor where it stands
/// above itself.
pub fn entities_name_what_exists()
    ensures real { IsReal (user_in_role (codes "editor") []) }
    ensures there { (extensions : Extensions)
        → IsEntityIn extensions two_roles (user_in_role (codes "editor") []) }
    ensures taken_away { (extensions : Extensions)
        → ¬ IsEntityIn extensions one_role (user_in_role (codes "editor") []) }
    ensures itself { (extensions : Extensions) → ¬ IsEntityIn extensions one_role
        (user_in_role (codes "admin") (some_user ∷ [])) }
{}

/// A request is no request of the schema once a role in its context isn't a choice any more.
pub fn requests_name_what_exists()
    ensures real { IsRealRequest (viewing_in_role (codes "editor")) }
    ensures there { (extensions : Extensions)
        → IsRequestIn extensions two_roles (viewing_in_role (codes "editor")) }
    ensures taken_away { (extensions : Extensions)
        → ¬ IsRequestIn extensions one_role (viewing_in_role (codes "editor")) }
{}

/// A type is included in itself where choices are added, and isn't where one is taken away; nor are
/// entities and sets of any type then.
pub fn choices_taken_away_are_not_included()
    ensures added { (extensions : Extensions)
        → IncludedBetween extensions one_role role_type two_roles role_type }
    ensures taken_away { (extensions : Extensions)
        → ¬ IncludedBetween extensions two_roles role_type one_role role_type }
    ensures any_entity { (extensions : Extensions)
        → ¬ IncludedBetween extensions two_roles any_entity one_role any_entity }
    ensures any_set { (extensions : Extensions)
        → ¬ IncludedBetween extensions two_roles any_set one_role any_set }
{}
