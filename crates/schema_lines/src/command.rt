//! What the words of the program ask for.

ghost use Rattle.std.specs.Prelude.{◌≡◌, ◌↔◌, IsSome, IsTrue, codes, is_some, map, string_bytes};
ghost use Rattle.schema_lines.specs.Words.{IsCommand, case_names, is_among, mode_names, row_name, stated_names, type_names};

use cedar_schema::below::ValidationMode;

/// A built-in case.
#[derive(Clone, Copy)]
pub enum Case {
    /// An entity type that is named as a built-in type.
    Alias,
    /// A name that is declared as a common type and as an entity type.
    Both,
    /// Common types that form a cycle.
    Cycle,
    /// No fragments.
    Empty,
    /// An entity type that is external in one fragment, and defined in another.
    Linked,
    /// Users in groups, photos in albums, and the action of viewing a photo.
    Photos,
    /// Two entity types, each below the other.
    Ring,
    /// A common type in a namespace, of the name of an entity type in the empty one.
    Shadow,
    /// Entity types with attributes of several types.
    Shapes,
    /// What `Photos` declares, each declaration in a fragment of its own.
    Split,
    /// An external entity type below an enumerated one.
    Tint,
}

/// The built-in cases by name.
const CASES: &[(&str, Case)] = &[
    ("alias", Case::Alias),
    ("both", Case::Both),
    ("cycle", Case::Cycle),
    ("empty", Case::Empty),
    ("linked", Case::Linked),
    ("photos", Case::Photos),
    ("ring", Case::Ring),
    ("shadow", Case::Shadow),
    ("shapes", Case::Shapes),
    ("split", Case::Split),
    ("tint", Case::Tint),
];

/// What stands first under a name, if anything does.
fn named<T: Copy>(rows: &[(&str, T)], name: &str) -> Option<T>
    ensures { is_some result ≡ is_among name.now (map row_name rows.now) }
{
    for row in rows {
        if name == row.0 {
            return Some(row.1);
        }
    }
    None
}

/// The case of a name, if it is one of a built-in case.
fn case_named(name: &str) -> Option<Case>
    ensures { is_some result ≡ is_among name.now case_names }
{
    named(CASES, name)
}

/// A type that the program separates from others: no `Never` stands in it, and each attribute in it
/// is required.
#[derive(Clone, Copy)]
pub enum StatedType {
    /// The value true.
    True,
    /// The value false.
    False,
    /// Both truth values.
    Bool,
    /// Whole numbers.
    Long,
    /// Texts.
    String,
    /// Sets of whatever elements.
    AnySet,
    /// Sets of truth values.
    SetOfBool,
    /// Sets of whole numbers.
    SetOfLong,
    /// Entities of any type.
    AnyEntity,
    /// Entities of the type `Foo`.
    Foo,
    /// Entities of the type `Bar`.
    Bar,
    /// The open record without attributes.
    AnyRecord,
    /// The closed record without attributes.
    Unit,
    /// The closed record `{bar: Long, foo: False}`.
    BarAndFalse,
    /// The closed record `{bar: Long, foo: String}`.
    BarAndString,
    /// The closed record `{bar: Long}`.
    BarAlone,
}

/// A type that the program joins.
#[derive(Clone, Copy)]
pub enum SampleType {
    /// No value.
    Never,
    /// The closed record `{y?: Long}`.
    Optional,
    /// A type that is separated from others too.
    Stated(StatedType),
}

/// The types that are separated by name.
const STATED: &[(&str, StatedType)] = &[
    ("true", StatedType::True),
    ("false", StatedType::False),
    ("bool", StatedType::Bool),
    ("long", StatedType::Long),
    ("string", StatedType::String),
    ("any-set", StatedType::AnySet),
    ("set-bool", StatedType::SetOfBool),
    ("set-long", StatedType::SetOfLong),
    ("any-entity", StatedType::AnyEntity),
    ("foo", StatedType::Foo),
    ("bar", StatedType::Bar),
    ("any-record", StatedType::AnyRecord),
    ("unit", StatedType::Unit),
    ("r1", StatedType::BarAndFalse),
    ("r2", StatedType::BarAndString),
    ("r3", StatedType::BarAlone),
];

/// The type of a name, if it is one of those that are separated.
fn stated_named(name: &str) -> Option<StatedType>
    ensures { is_some result ≡ is_among name.now stated_names }
{
    named(STATED, name)
}

/// The type of a name, if it is one of those that are joined.
fn type_named(name: &str) -> Option<SampleType>
    ensures { is_some result ≡ is_among name.now type_names }
{
    match name {
        "never" => Some(SampleType::Never),
        "opt" => Some(SampleType::Optional),
        _ => Some(SampleType::Stated(stated_named(name)?)),
    }
}

/// The modes by name.
const MODES: &[(&str, ValidationMode)] = &[
    ("strict", ValidationMode::Strict),
    ("permissive", ValidationMode::Permissive),
];

/// The mode of a name, if it is one of a mode.
fn mode_named(name: &str) -> Option<ValidationMode>
    ensures { is_some result ≡ is_among name.now mode_names }
{
    named(MODES, name)
}

/// What the program is asked to do.
#[derive(Clone, Copy)]
pub enum Command {
    /// To print the names of the built-in cases.
    List,
    /// To build a case and print its lines.
    Show(Case),
    /// To print the join of two types in a mode.
    Join(ValidationMode, SampleType, SampleType),
    /// To tell whether a value separates two types.
    Separate(StatedType, StatedType),
}

/// The command of one word.
fn list_command(word: &str) -> Option<Command>
    ensures { IsSome result ↔ (word.now ≡ codes "list") }
{
    match word {
        "list" => Some(Command::List),
        _ => None,
    }
}

/// The command of a word and the name of a case.
fn show_command(word: &str, case: &str) -> Option<Command>
    ensures { IsSome result ↔ ((word.now ≡ codes "show") × IsTrue (is_among case.now case_names)) }
{
    match word {
        "show" => Some(Command::Show(case_named(case)?)),
        _ => None,
    }
}

/// The command of a word, the name of a mode, and those of two types.
fn join_command(word: &str, mode: &str, first: &str, second: &str) -> Option<Command>
    ensures { IsSome result ↔ ((word.now ≡ codes "join") × IsTrue (is_among mode.now mode_names)
        × IsTrue (is_among first.now type_names) × IsTrue (is_among second.now type_names)) }
{
    match word {
        "join" => Some(Command::Join(mode_named(mode)?, type_named(first)?, type_named(second)?)),
        _ => None,
    }
}

/// The command of a word and the names of two types.
fn separate_command(word: &str, first: &str, second: &str) -> Option<Command>
    ensures { IsSome result ↔ ((word.now ≡ codes "separate")
        × IsTrue (is_among first.now stated_names)
        × IsTrue (is_among second.now stated_names)) }
{
    match word {
        "separate" => Some(Command::Separate(stated_named(first)?, stated_named(second)?)),
        _ => None,
    }
}

/// The command that some words give, compared exactly, or None where they give none.
pub fn command_of(words: &[String]) -> Option<Command>
    ensures { IsSome result ↔ IsCommand (map string_bytes words.now) }
{
    match words {
        [list] => list_command(list.as_str()),
        [show, case] => show_command(show.as_str(), case.as_str()),
        [separate, first, second] => separate_command(
            separate.as_str(),
            first.as_str(),
            second.as_str(),
        ),
        [join, mode, first, second] => join_command(
            join.as_str(),
            mode.as_str(),
            first.as_str(),
            second.as_str(),
        ),
        _ => None,
    }
}
