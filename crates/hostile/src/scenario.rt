//! What the program may be asked to do.

/// What is asked of a schema that was put together by hand.
#[derive(Clone, Copy)]
pub(crate) enum Question {
    /// The entity types in the first.
    TypesIn,
    /// The actions in a set.
    ActionsIn,
    /// The entities of the actions.
    ActionEntities,
    /// The leaves of all types, after which nothing more may come.
    Leaves,
    /// The attributes that are known of a union of two entity types.
    KnownAttributes,
    /// A copy of it.
    Copy,
}

/// What the program may be asked to do.
#[derive(Clone, Copy)]
pub(crate) enum Scenario {
    /// To copy a fragment as it is written.
    CopyFragment,
    /// To copy a fragment whose references say what they may stand for.
    CopyQualified,
    /// To validate a chain of entity types.
    Validate,
    /// To ask something of that chain.
    Ask(Question),
    /// To reduce four entity types to their union.
    Reduce,
    /// To find the core type of a record.
    CoreType,
    /// To close a chain of nodes.
    Close,
    /// To add edges to a node.
    AddEdge,
    /// To mark names as those of entity types.
    MarkEntityTypes,
    /// To mark names as those of common types.
    MarkCommonTypes,
}

/// The scenarios, each after the word that asks for it.
pub(crate) const SCENARIOS: &[(&str, Scenario)] = &[
    ("validate", Scenario::Validate),
    ("reduce", Scenario::Reduce),
    ("core-type", Scenario::CoreType),
    ("known-attributes", Scenario::Ask(Question::KnownAttributes)),
    ("close", Scenario::Close),
    ("add-edge", Scenario::AddEdge),
    ("leaves", Scenario::Ask(Question::Leaves)),
    ("types-in", Scenario::Ask(Question::TypesIn)),
    ("actions-in", Scenario::Ask(Question::ActionsIn)),
    ("action-entities", Scenario::Ask(Question::ActionEntities)),
    ("mark-entity-types", Scenario::MarkEntityTypes),
    ("mark-common-types", Scenario::MarkCommonTypes),
    ("copy", Scenario::Ask(Question::Copy)),
    ("copy-fragment", Scenario::CopyFragment),
    ("copy-qualified", Scenario::CopyQualified),
];

/// The scenario of a word, if there is one.
pub(crate) fn scenario_of(word: &str) -> Option<Scenario> {
    for &(name, scenario) in SCENARIOS {
        if name == word {
            return Some(scenario);
        }
    }
    None
}
