//! Fragments that are taken over, one after another, to be built.

ghost use Rattle.std.specs.Prelude.{[], ◌∷◌, ◌++◌, IfOk, List};
ghost use Rattle.cedar_schema.specs.Words.{AreCollectedFragments, ValidatorSchemaFragment as Fragment};

use crate::collecting::Located;
use cedar_ast::M;
use cedar_fragments::CollectedDeclarations;
use cedar_fragments::namespace::ValidatorSchemaFragment;
use cedar_name_resolution::defs::WrittenName;
use std::alloc::Global;

/// What is taken over of some fragments. All that is wanted of one is taken at once, while it is at
/// hand.
#[derive(Debug, Drop)]
pub(crate) struct CollectedFragments<N> {
    /// What a schema shows of them.
    pub(crate) located: Located,
    /// What they declare.
    pub(crate) gathered: CollectedDeclarations<N>,
}

impl<N: WrittenName + Drop> CollectedFragments<N> {
    /// What there is of no fragments, with room for this many entity types and as many actions. Out
    /// of memory is the only refusal.
    pub(crate) fn with_room(alloc: Global, room: usize) -> M<Self>
        ensures { IfOk result (AreCollectedFragments N N.refer []) }
    {
        Ok(CollectedFragments {
            located: Located::built_in(alloc)?,
            gathered: CollectedDeclarations::with_room(alloc, room)?,
        })
    }

    /// What was taken over, and then also what there is of a fragment. Out of memory is the only
    /// refusal.
    pub(crate) fn with(self, alloc: Global, fragment: ValidatorSchemaFragment<N, N>) -> M<Self>
        ensures { IfOk result (λ it. (fragments : List (Fragment N N))
            → AreCollectedFragments N N.refer fragments self
            → AreCollectedFragments N N.refer (fragments ++ fragment ∷ []) it) }
    {
        let CollectedFragments { located, gathered } = self;
        Ok(CollectedFragments {
            located: located.with(alloc, &fragment)?,
            gathered: gathered.with(fragment)?,
        })
    }
}
