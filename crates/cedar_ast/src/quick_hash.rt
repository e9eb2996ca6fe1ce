//! Hashing of names and uids by fewer writes than `Hash` makes.

ghost use Rattle.std.specs.Prelude.{◌≡◌, IsTrue};
ghost use Rattle.std.specs.Hash as fed;
ghost use Rattle.std.specs.Hash.{HashWrites};
ghost use Rattle.std.specs.List.{fold};

use std::hash::Hasher;

/// What is told to a hasher by few writes, for tables whose hashes nobody else sees.
///
/// `Hash` writes each part of a name, and what ends it. A short name without a path is known by the
/// number that it begins with, which takes one write.
///
/// The ghost member is what is written.
pub trait QuickHash: Eq {
    ghost quick_input: { Self → HashWrites };

    /// Tells the value to a hasher, as each value is told that is equal to it.
    fn quick_hash<H: Hasher>(&self, state: &mut H)
        ensures told { state.new ≡ fold H.write state.old (quick_input self.now) }
        ensures alike { (other : Self) → IsTrue (Self.eq self.now other)
            → quick_input self.now ≡ quick_input other };
}

impl QuickHash for u32 {
    ghost quick_input = { fed.u32 };

    fn quick_hash<H: Hasher>(&self, state: &mut H) {
        state.write_u32(*self);
    }
}
