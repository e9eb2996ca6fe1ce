//! Hints: where in a list of keys a key may stand, by its hash.

ghost use Rattle.std.specs.Prelude.{◌≡◌, ℕ, false, IfNone, IfOk, IfSome, IsTrue, length};
ghost use Rattle.cedar_table.specs.Words.{AreHinted, LeadToAll, HintLeadsTo, hash_by, row_of, tag_of};

use cedar_ast::{M, QuickHash};
use std::alloc::Global;
use std::hash::{FoldHasher, Hasher};

/// How many rows are looked at for one hash.
const PROBES: usize = 64;

/// What hashes begin with: the first of these with which each key has a hint. Names that are
/// alike to the hash tables of std, or with one of these, are apart with the others.
const SEEDS: [u64; 4] = [
    0xb7e1_5162_8aed_2a6b,
    0x9d5c_1e83_46f0_b217,
    0x31a9_f4d2_c06b_7e85,
    0xe468_0bc7_5f12_d39d,
];

/// A row: that a key may stand at a place, or that the row is free.
///
/// That it is free is said by its place, since an option of a hint takes twelve bytes in place of
/// eight. A free row that is taken for a hint does no harm, since a hint counts by the key alone.
#[derive(Clone, Copy)]
pub(crate) struct Hint {
    /// The upper half of the hash of the key.
    tag: u32,
    /// The place of the key, or `FREE`.
    place: u32,
}

/// The place of a row that is free.
const FREE: u32 = u32::MAX;

/// Rows of hints, as many as a power of two. Each hint is in the first row that was free of those
/// that are looked at for its hash; where all of these were taken there is none.
#[derive(Drop)]
pub(crate) struct Hints {
    /// What hashes begin with, as a hasher that was given it.
    begun: FoldHasher,
    /// The rows.
    rows: Vec<Hint>,
    /// Whether a hint leads to each key, so that one to which none leads isn't there.
    pub(crate) complete: bool,
}

/// The hasher that was given a number.
fn begun_with(seed: u64) -> FoldHasher {
    let mut begun = FoldHasher::default();
    begun.write_u64(seed);
    begun
}

/// The hash of a key, as a hasher goes on with it.
fn hash_of<K: QuickHash>(begun: &FoldHasher, key: &K) -> u64
    ensures hash { result ≡ hash_by begun.now (K.quick_input key.now) }
    ensures alike { (other : K) → IsTrue (K.eq key.now other)
        → K.quick_input key.now ≡ K.quick_input other }
{
    let mut state = *begun;
    key.quick_hash(&mut state);
    state.finish()
}

/// The part of a hash that a hint keeps.
fn hash_tag(hash: u64) -> u32
    ensures { result ≡ tag_of hash }
{
    (hash >> 32) as u32
}

/// The row that is looked at for a hash in a step.
fn row_at(rows: &[Hint], hash: u64, step: usize) -> usize
    ensures { result ≡ row_of (length rows.now) hash step }
{
    (hash as usize).wrapping_add(step) & rows.len().saturating_sub(1)
}

/// The place to which a hint leads, if one does.
fn place_hinted(rows: &[Hint], hash: u64) -> Option<usize>
    ensures found { IfSome result (HintLeadsTo rows.now hash) }
    ensures lacking { IfNone result ((place : ℕ) → ¬ HintLeadsTo rows.now hash place) }
{
    let tag = hash_tag(hash);
    for step in 0..PROBES {
        let hint = rows.get(row_at(rows, hash, step))?;
        if hint.tag == tag {
            return Some(hint.place as usize);
        }
        if hint.place == FREE {
            return None;
        }
    }
    None
}

/// Puts a hint into the first free row for its hash, where no earlier one has its tag.
fn put_hint(rows: &mut [Hint], hash: u64, place: usize) {
    let tag = hash_tag(hash);
    let Ok(place) = u32::try_from(place) else {
        return;
    };
    for step in 0..PROBES {
        let row = row_at(rows, hash, step);
        match rows.get_mut(row) {
            Some(free) if free.place == FREE => {
                *free = Hint { tag, place };
                return;
            }
            Some(hint) if hint.tag != tag => {}
            _ => return,
        }
    }
}

/// How many rows there are for so many keys: a power of two, and four times as many as there are
/// keys that may have a hint, at least.
fn rows_for(keys: usize) -> usize {
    (4 * keys.min(u32::MAX as usize)).next_power_of_two()
}

/// Rows with hints to keys. Out of memory is the only refusal.
fn hint_rows<K: QuickHash>(alloc: Global, begun: &FoldHasher, keys: &[K]) -> M<Vec<Hint>> {
    let mut rows = vec![in alloc; Hint {
        tag: 0,
        place: FREE
    }; rows_for(keys.len())]?;
    for (place, key) in keys.iter().enumerate() {
        put_hint(&mut rows, hash_of(begun, key), place);
    }
    Ok(rows)
}

/// Whether a hint leads to each key.
fn lead_to_all<K: QuickHash>(rows: &[Hint], begun: &FoldHasher, keys: &[K]) -> bool
    ensures { IsTrue result → LeadToAll K.quick_input begun.now rows.now keys.now }
{
    for (place, key) in keys.iter().enumerate() {
        if place_hinted(rows, hash_of(begun, key)) != Some(place) {
            return false;
        }
    }
    true
}

impl Hints {
    /// No hints.
    pub(crate) fn new(alloc: Global) -> Self
        ensures { result.complete ≡ false }
    {
        Hints {
            begun: FoldHasher::default(),
            rows: Vec::new(alloc),
            complete: false,
        }
    }

    /// Hints to the keys of a list. Out of memory is the only refusal.
    pub(crate) fn of<K: QuickHash>(alloc: Global, keys: &[K]) -> M<Self>
        ensures { IfOk result (λ hints. AreHinted K.quick_input hints keys.now) }
    {
        for seed in SEEDS {
            let begun = begun_with(seed);
            let rows = hint_rows(alloc, &begun, keys)?;
            if lead_to_all(&rows, &begun, keys) {
                return Ok(Hints {
                    begun,
                    rows,
                    complete: true,
                });
            }
        }
        let begun = begun_with(SEEDS[0]);
        Ok(Hints {
            begun,
            rows: hint_rows(alloc, &begun, keys)?,
            complete: false,
        })
    }

    /// Where a key may stand, if there is a hint.
    pub(crate) fn guess<K: QuickHash>(&self, key: &K) -> Option<usize>
        ensures found { IfSome result (HintLeadsTo self.now.rows.items
            (hash_by self.now.begun (K.quick_input key.now))) }
        ensures lacking { IfNone result ((place : ℕ) → ¬ HintLeadsTo self.now.rows.items
            (hash_by self.now.begun (K.quick_input key.now)) place) }
        ensures alike { (other : K) → IsTrue (K.eq key.now other)
            → K.quick_input key.now ≡ K.quick_input other }
    {
        place_hinted(&self.rows, hash_of(&self.begun, key))
    }
}
