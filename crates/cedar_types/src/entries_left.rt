//! A walk over the entries of a record, in the order of their names.

ghost use Rattle.std.specs.Prelude.{◌≡◌, ◌≢◌, None};
ghost use Rattle.std.specs.Option.{option_copied};
ghost use Rattle.std.specs.declared.cmp.Ordering.TheVariants.{Less};
ghost use Rattle.cedar_types.specs.Words.{AreSortedByName, Text, entries_left, text_cmp, value_at};

use cedar_ast::RestrictedExpr;
use std::cmp::Ordering;
use std::collections::{BTreeMap, btree_map};

/// The entries of a record that are left, the first of them apart.
#[derive(Drop)]
pub(crate) struct EntriesLeft<'v> {
    first: Option<(&'v String, &'v RestrictedExpr)>,
    rest: btree_map::Iter<'v, String, RestrictedExpr>,
}

impl<'v> EntriesLeft<'v> {
    /// All entries of a record.
    pub(crate) fn new(values: &'v BTreeMap<String, RestrictedExpr>) -> EntriesLeft<'v>
        ensures all { entries_left result ≡ values.now.entries }
        ensures ascend { AreSortedByName (entries_left result) }
    {
        let mut rest = values.iter();
        let first = rest.next();
        EntriesLeft { first, rest }
    }

    /// The value of a name among the entries that are left, whose names are sorted without
    /// duplicates, if there is one.
    ///
    /// It passes those of lesser names, and each other name finds what it did before.
    pub(crate) fn value_at(&mut self, name: &str) -> Option<&'v RestrictedExpr>
        requires { AreSortedByName (entries_left self.old) }
        ensures value { option_copied result ≡ value_at name.now (entries_left self.old) }
        ensures ascend { AreSortedByName (entries_left self.new) }
        ensures keeps { (other : Text) → text_cmp other name.now ≢ Less
            → value_at other (entries_left self.new) ≡ value_at other (entries_left self.old) }
        ensures passes { (other : Text) → text_cmp other name.now ≡ Less
            → value_at other (entries_left self.new) ≡ None }
    {
        while let Some((key, value)) = self.first {
            match key.as_str().cmp(name) {
                Ordering::Less => self.first = self.rest.next(),
                Ordering::Equal => return Some(value),
                Ordering::Greater => return None,
            }
        }
        None
    }
}
