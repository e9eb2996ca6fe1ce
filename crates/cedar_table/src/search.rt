//! The place of a key in a sorted list of keys.

ghost use Rattle.std.specs.Prelude.{◌↔◌, ℕ, IfNone, IfSome, IsTrue};
ghost use Rattle.cedar_table.specs.Words.{AreHinted, IsStrictlySortedBy, KeyStandsAt};

use crate::hints::Hints;
use cedar_ast::QuickHash;

/// Whether the key stands at a place.
fn stands_at<K: Ord>(keys: &[K], key: &K, place: usize) -> bool
    ensures { IsTrue result ↔ KeyStandsAt K.cmp keys.now key.now place }
{
    place < keys.len() && *key == keys[place]
}

/// The place of a key, where a hint leads to it. Where the hints are complete, a key to which none
/// leads isn't there.
fn hinted_place<K: Ord + QuickHash>(keys: &[K], hints: &Hints, key: &K) -> Option<usize>
    requires { AreHinted K.quick_input hints.now keys.now }
    ensures found { IfSome result (KeyStandsAt K.cmp keys.now key.now) }
    ensures lacking { IfNone result (IsTrue hints.now.complete
        → (place : ℕ) → ¬ KeyStandsAt K.cmp keys.now key.now place) }
{
    let Some(place) = hints.guess(key) else {
        return None;
    };
    if stands_at(keys, key, place) {
        Some(place)
    } else {
        None
    }
}

/// The place of a key, by halving. It is kept out of look-ups that a hint settles.
#[cold]
#[inline(never)]
fn halved_place<K: Ord>(keys: &[K], key: &K) -> Option<usize>
    requires { IsStrictlySortedBy K.cmp keys.now }
    ensures found { IfSome result (KeyStandsAt K.cmp keys.now key.now) }
    ensures lacking { IfNone result ((place : ℕ) → ¬ KeyStandsAt K.cmp keys.now key.now place) }
{
    match keys.binary_search(key) {
        Ok(place) => Some(place),
        Err(_) => None,
    }
}

/// The place of a key, where it is among the keys of a sorted list. Hints are tried first.
pub(crate) fn place_of<K: Ord + QuickHash>(keys: &[K], hints: &Hints, key: &K) -> Option<usize>
    requires sorted { IsStrictlySortedBy K.cmp keys.now }
    requires hinted { AreHinted K.quick_input hints.now keys.now }
    ensures found { IfSome result (KeyStandsAt K.cmp keys.now key.now) }
    ensures lacking { IfNone result ((place : ℕ) → ¬ KeyStandsAt K.cmp keys.now key.now place) }
{
    match hinted_place(keys, hints, key) {
        Some(place) => Some(place),
        None if hints.complete => None,
        None => halved_place(keys, key),
    }
}
