//! Whether names of extension types fit.

ghost use Rattle.std.specs.Prelude.{◌≢◌, ◌↔◌, IsTrue, All, AllPairs, Contains, map};
ghost use Rattle.cedar_ast.specs.Words.{IsUnqualified, TypeNamesFit, plain_name, primitive_words};

use crate::name::Name;

/// Whether a name of the list is this one, whatever the locations.
pub(crate) fn has_name(names: &[Name], name: &Name) -> bool
    ensures { IsTrue result ↔ Contains (map plain_name names.now) (plain_name name.now) }
{
    names.contains(name)
}

/// Whether a text is the name of a core type.
pub(crate) fn is_core_type_word(text: &str) -> bool
    ensures { IsTrue result ↔ Contains primitive_words text.now }
{
    text == "Bool" || text == "Long" || text == "String"
}

/// Whether a name can be that of an extension type.
fn is_fit(name: &Name) -> bool
    ensures { IsTrue result ↔ (IsUnqualified (plain_name name.now)
        × ¬ Contains primitive_words (plain_name name.now).base) }
{
    name.is_unqualified() && !is_core_type_word(name.basename().as_str())
}

/// Whether each name of the list can be that of an extension type.
fn are_fit(names: &[Name]) -> bool
    ensures { IsTrue result
        ↔ All (λ name. IsUnqualified (plain_name name)
        × ¬ Contains primitive_words (plain_name name).base) names.now }
{
    names.iter().all(|name| is_fit(name))
}

/// Whether no two names of the list are the same, ignoring locations.
fn are_distinct(names: &[Name]) -> bool
    ensures { IsTrue result ↔ AllPairs (λ a b. a ≢ b) (map plain_name names.now) }
{
    for (i, name) in names.iter().enumerate() {
        if has_name(&names[..i], name) {
            return false;
        }
    }
    true
}

/// Whether the names can be those of the extension types of one schema.
pub(crate) fn names_fit(names: &[Name]) -> bool
    ensures { IsTrue result ↔ TypeNamesFit (map plain_name names.now) }
{
    are_fit(names) && are_distinct(names)
}
