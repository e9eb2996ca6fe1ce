//! Values by name, in one list in the order of the names.

ghost use Rattle.std.specs.Prelude.{◌&&◌, ◌++◌, Some, refl, string_bytes, string_cmp, string_eq, ◌≡◌};
ghost use Rattle.cedar_name_map.specs.FromBelow.{and-Alike, and_equiv, and_per, both_tied, hashing, items_Alike, lists_agrees, lists_equiv, lists_per, lists_po, lists_ties, lists_total, nat_list_cmp_total, nat_list_eq_equiv, on_Alike, on_equiv, on_per, on_po, on_total, ordering_then, partial_equiv_from_equiv, partial_ordering_then, pointwise, slice_cmp, slice_partial_cmp, texts_po, texts_ties, then_agrees, then_po, then_total};
ghost use Rattle.std.specs.Hash as fed;
ghost use Rattle.std.proofs.Common.{rules};
ghost use Rattle.cedar_name_map.specs.ByName.{AreSortedByName, AreSortedByName-prop as one_order};

use cedar_ast::M;
use std::cmp::Ordering;
use std::hash::{Hash, Hasher};

/// Values by name: the pairs of a name and its value, in the order of the names, each name once.
#[derive(Debug, Drop)]
pub struct ByName<V> {
    entries: Vec<(String, V)>,
    ghost sorted_by_name: { AreSortedByName entries.items } by { one_order entries.items },
}

impl<V: PartialEq> PartialEq for ByName<V> {
    ghost eq = { λ m n. pointwise (λ p q.
        string_eq p.0 q.0 && V.eq p.1 q.1) m.entries.items n.entries.items };

    ghost laws = { on_per (λ m. m.entries.items)
        (lists_per (and_per (on_per (λ p.
        string_bytes p.0) (partial_equiv_from_equiv nat_list_eq_equiv))
        (on_per (λ p. p.1) V.laws))) };

    fn eq(&self, other: &ByName<V>) -> bool {
        self.entries == other.entries
    }
}

impl<V: Eq> Eq for ByName<V> {
    ghost laws = { on_equiv (λ m. m.entries.items)
        (lists_equiv (and_equiv (on_equiv (λ p. string_bytes p.0) nat_list_eq_equiv)
        (on_equiv (λ p. p.1) V.Eq.laws))) };
}

impl<V: PartialOrd> PartialOrd for ByName<V> {
    ghost partial_cmp = { λ m n. slice_partial_cmp (λ p q.
        partial_ordering_then (Some (string_cmp p.0 q.0))
        (V.partial_cmp p.1 q.1)) m.entries.items n.entries.items };

    ghost laws = { on_po (λ m. m.entries.items)
        (lists_po (then_po (on_po (λ p. string_bytes p.0) texts_po)
        (on_po (λ p. p.1) V.PartialOrd.laws))) };

    fn partial_cmp(&self, other: &ByName<V>) -> Option<Ordering> {
        self.entries.partial_cmp(&other.entries)
    }
}

impl<V: Ord> Ord for ByName<V> {
    ghost cmp = { λ m n. slice_cmp (λ p q.
        ordering_then (string_cmp p.0 q.0) (V.cmp p.1 q.1)) m.entries.items n.entries.items };

    ghost total = { on_total (λ m.
        m.entries.items) (lists_total (then_total
        (on_total (λ p. string_bytes p.0) nat_list_cmp_total) (on_total (λ p. p.1) V.total))) };

    ghost matches_partial_cmp = { λ x y.
        lists_agrees (then_agrees (λ p q. refl) (λ p q.
        V.matches_partial_cmp p.1 q.1)) x.entries.items y.entries.items };

    ghost matches_eq = { λ x y.
        let V' = V.cmp in
        lists_ties (λ p q. ordering_then (string_cmp p.0 q.0) (V' p.1 q.1)) (λ p q.
        both_tied _ _ (string_cmp p.0 q.0) (V' p.1 q.1)
        (texts_ties (string_bytes p.0) (string_bytes q.0))
        (V.matches_eq p.1 q.1)) x.entries.items y.entries.items };

    fn cmp(&self, other: &ByName<V>) -> Ordering {
        self.entries.cmp(&other.entries)
    }
}

impl<V: Hash> Hash for ByName<V> {
    ghost hash_input = { λ m. fed.slice (λ p.
        fed.str (string_bytes p.0) ++ V.hash_input p.1) m.entries.items };

    ghost respects_eq = { (on_Alike (λ m.
        m.entries.items) (items_Alike (and-Alike
        (on_Alike (λ p. p.0) {E = string_eq} {F = λ s. fed.str (string_bytes s)}
        (record { fed = Prim.search (hashing, rules) }))
        (on_Alike (λ p. p.1) (record { fed = V.respects_eq }))))).fed };

    fn hash<H: Hasher>(&self, state: &mut H) {
        self.entries.hash(state);
    }
}

impl<V> ByName<V> {
    ghost use Rattle.std.specs.Prelude.{◌<◌, IfOk, IsTrue, ◌^◌, get_or, length, string_bytes, ℕ, ◌↔◌, ◌≡◌, ◌≢◌, ◌≤◌};
    ghost use Rattle.cedar_name_map.specs.Words.{Global, Less, String, Text, entries_by_name, last_named, option_copied, text_cmp, value_at, with_texts};

    /// The values of these names. Of repeated names the last wins. Out of memory is the only
    /// refusal.
    pub fn from_entries(entries: Vec<(String, V)>) -> M<ByName<V>>
    where
        V: Drop,
        ensures { IfOk result (λ all. (name : Text)
            → value_at name (entries_by_name all) ≡ last_named name (with_texts entries.items)) }
    {
        let mut entries = entries;
        entries.reverse();
        entries.sort_by(|a, b| a.0.cmp(&b.0))?;
        entries.dedup_by(|a, b| a.0 == b.0);
        Ok(ByName { entries })
    }

    /// The values of these names, which are sorted.
    pub fn from_sorted_by_name(entries: Vec<(String, V)>) -> ByName<V>
        requires { AreSortedByName entries.items }
        ensures { entries_by_name result ≡ entries.items }
    {
        ByName { entries }
    }

    /// The pairs of a name and its value, in the order of the names.
    pub fn as_slice(&self) -> &[(String, V)]
        ensures { result.now ≡ entries_by_name self.now }
    {
        self.entries.as_slice()
    }

    /// The value of a name, if there is one, and how many names were compared with it.
    pub fn get_counted(&self, name: &str) -> (Option<&V>, u32)
        ensures value { option_copied result.0 ≡ value_at name.now (entries_by_name self.now) }
        ensures halving { (k : ℕ) → length (entries_by_name self.now) < 2 ^ k → result.1 ≤ k }
    {
        let entries = self.entries.as_slice();
        let mut low = 0;
        let mut high = entries.len();
        let mut compared = 0;
        while low < high {
            let middle = low + (high - low) / 2;
            compared += 1;
            match entries[middle].0.as_str().cmp(name) {
                Ordering::Less => low = middle + 1,
                Ordering::Equal => return (Some(&entries[middle].1), compared),
                Ordering::Greater => high = middle,
            }
        }
        (None, compared)
    }

    /// The first place, from one on, whose name isn't below the given one, and whether the given
    /// one stands there.
    pub fn seek(&self, from: usize, name: &str) -> (usize, bool)
        ensures from { from ≤ result.0 }
        ensures within { from ≤ length (entries_by_name self.now)
            → result.0 ≤ length (entries_by_name self.now) }
        ensures passed { (i : ℕ) (d : String Global × V) → from ≤ i → i < result.0
            → text_cmp (string_bytes (get_or (entries_by_name self.now) i d).0) name.now ≡ Less }
        ensures stays { (d : String Global × V) → result.0 < length (entries_by_name self.now)
            → text_cmp (string_bytes (get_or (entries_by_name self.now) result.0 d).0) name.now
            ≢ Less }
        ensures stands { IsTrue result.1 ↔ ((result.0 < length (entries_by_name self.now))
            × ((d : String Global × V)
            → string_bytes (get_or (entries_by_name self.now) result.0 d).0 ≡ name.now)) }
    {
        let entries = self.entries.as_slice();
        let mut at = from;
        while at < entries.len() {
            match entries[at].0.as_str().cmp(name) {
                Ordering::Less => at += 1,
                Ordering::Equal => return (at, true),
                Ordering::Greater => return (at, false),
            }
        }
        (at, false)
    }
}
