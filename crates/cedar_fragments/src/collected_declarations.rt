//! What fragments declare, gathered from one after another.

ghost use Rattle.std.specs.Prelude.{[], ◌∷◌, ◌++◌, IfOk, List};
ghost use Rattle.cedar_fragments.specs.Words.{AreCollectedDeclarations, ValidatorSchemaFragment as Fragment};

use crate::collecting::{add_fragment, empty_with_room};
use crate::declarations::Declarations;
use crate::namespace::ValidatorSchemaFragment;
use cedar_ast::M;
use cedar_name_resolution::defs::{NameLists, WrittenName};
use std::alloc::Global;

/// What some fragments declare, gathered from one after another, so that each is gone over while
/// it is at hand. A name that is declared twice stands there twice.
#[derive(Debug, Drop)]
pub struct CollectedDeclarations<N> {
    /// The names, in lists.
    pub names: NameLists,
    /// The declarations, in the order of the fragments.
    pub declarations: Declarations<N>,
}

impl<N: WrittenName + Drop> CollectedDeclarations<N> {
    /// What no fragments declare, with room for this many entity types and as many actions. Out of
    /// memory is the only refusal.
    pub fn with_room(alloc: Global, room: usize) -> M<Self>
        ensures { IfOk result (AreCollectedDeclarations N N.refer []) }
    {
        Ok(CollectedDeclarations {
            names: NameLists::with_room(alloc, room)?,
            declarations: empty_with_room(alloc, room)?,
        })
    }

    /// What was gathered, and then also what a fragment declares, moved out of it. Out of memory
    /// is the only refusal.
    pub fn with(self, fragment: ValidatorSchemaFragment<N, N>) -> M<Self>
        ensures { IfOk result (λ it. (fragments : List (Fragment N N))
            → AreCollectedDeclarations N N.refer fragments self
            → AreCollectedDeclarations N N.refer (fragments ++ fragment ∷ []) it) }
    {
        let CollectedDeclarations {
            names,
            declarations,
        } = self;
        let mut names = names;
        names.add_fragment(&fragment)?;
        Ok(CollectedDeclarations {
            names,
            declarations: add_fragment(declarations, fragment)?,
        })
    }
}
