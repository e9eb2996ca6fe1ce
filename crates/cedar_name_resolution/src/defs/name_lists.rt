//! The names that fragments declare, which are listed first and then made sets at once.

ghost use Rattle.std.specs.Prelude.{◌≡◌, [], IfOk, OnOk};
ghost use Rattle.std.specs.BTreeSet.{IsFromIterResult};
ghost use Rattle.cedar_name_resolution.specs.Words.{HoldsAlso, HoldsJust, Names, held_names, listed_names, names_together};

use crate::defs::all_defs::AllDefs;
use cedar_ast::{EntityUID, InternalName, M};
use std::alloc::Global;
use std::collections::BTreeSet;

/// The names that fragments declare, in lists: each as often as it is declared. They are listed
/// fragment by fragment, and made sets once all are listed.
#[derive(Debug, Drop)]
pub struct NameLists {
    /// The names of common types.
    pub common: Vec<InternalName>,
    /// The names of entity types.
    pub entities: Vec<InternalName>,
    /// The uids of actions.
    pub actions: Vec<EntityUID>,
    /// Where the lists have their memory.
    pub alloc: Global,
}

/// What declares names, as a fragment does: the names of common types and of entity types, and the
/// uids of actions.
///
/// The ghost member says which.
pub trait DeclaresNames {
    ghost names: { Self → Names };

    /// Adds what it itself declares. Out of memory is the only refusal.
    fn list_names(&self, lists: &mut NameLists) -> M<()>
        ensures { OnOk result (HoldsAlso (listed_names lists.new) (listed_names lists.old)
            (names self.now)) };
}

/// The set of some items. Of equal ones it has the first.
fn set_of<K: Ord + Drop>(alloc: Global, mut items: Vec<K>) -> M<BTreeSet<K>>
    ensures { IfOk result (IsFromIterResult K.cmp items.items) }
{
    // `from_iter` keeps the last of equal items.
    items.reverse();
    Ok(BTreeSet::from_iter(alloc, items)?)
}

impl NameLists {
    /// No names.
    pub fn none(alloc: Global) -> Self
        ensures common { (listed_names result).common ≡ [] }
        ensures entities { (listed_names result).entities ≡ [] }
        ensures actions { (listed_names result).actions ≡ [] }
    {
        NameLists {
            common: Vec::new(alloc),
            entities: Vec::new(alloc),
            actions: Vec::new(alloc),
            alloc,
        }
    }

    /// No names, with room for this many entity types and as many actions. Out of memory is the
    /// only refusal.
    pub fn with_room(alloc: Global, room: usize) -> M<Self>
        ensures common { IfOk result (λ names. (listed_names names).common ≡ []) }
        ensures entities { IfOk result (λ names. (listed_names names).entities ≡ []) }
        ensures actions { IfOk result (λ names. (listed_names names).actions ≡ []) }
    {
        Ok(NameLists {
            common: Vec::new(alloc),
            entities: Vec::with_capacity(alloc, room)?,
            actions: Vec::with_capacity(alloc, room)?,
            alloc,
        })
    }

    /// Adds what something declares. Out of memory is the only refusal.
    pub fn add_fragment<F: DeclaresNames>(&mut self, fragment: &F) -> M<()>
        ensures { OnOk result (HoldsAlso (listed_names self.new) (listed_names self.old)
            (F.names fragment.now)) }
    {
        fragment.list_names(self)
    }

    /// The sets of these names. Out of memory is the only refusal.
    pub fn into_defs(self) -> M<AllDefs>
        ensures { IfOk result (λ defs. HoldsJust (held_names defs) (listed_names self)) }
    {
        let NameLists {
            common,
            entities,
            actions,
            alloc,
        } = self;
        Ok(AllDefs {
            entity_defs: set_of(alloc, entities)?,
            common_defs: set_of(alloc, common)?,
            action_defs: set_of(alloc, actions)?,
            alloc,
        })
    }
}

impl AllDefs {
    /// What the fragments themselves declare, without types of actions, built-in types and
    /// aliases. Out of memory is the only refusal.
    pub fn new<F: DeclaresNames>(alloc: Global, fragments: &[F]) -> M<Self>
        ensures { IfOk result (λ defs.
            HoldsJust (held_names defs) (names_together F.names fragments.now)) }
    {
        let mut names = NameLists::none(alloc);
        for fragment in fragments {
            names.add_fragment(fragment)?;
        }
        names.into_defs()
    }

    /// What one fragment itself declares. Out of memory is the only refusal.
    pub fn single_fragment<F: DeclaresNames>(alloc: Global, fragment: &F) -> M<Self>
        ensures { IfOk result (λ defs. HoldsJust (held_names defs) (F.names fragment.now)) }
    {
        let mut names = NameLists::none(alloc);
        names.add_fragment(fragment)?;
        names.into_defs()
    }
}
