//! The pieces of work that are measured.

ghost use Rattle.std.specs.Prelude.{◌≡◌, is_some, map};
ghost use Rattle.bench.specs.Words.{is_among, piece_name, piece_names};

use crate::declared::Declared;
use crate::graphs::Shape;
use crate::names::Letters;
use cedar_schema::OpenTag;
use cedar_schema::below::ValidationMode;

/// What is asked of one type.
#[derive(Clone, Copy)]
pub(crate) enum OfOne {
    /// Its text.
    Print,
    /// A copy of it.
    Copy,
}

/// What is asked of two types.
#[derive(Clone, Copy)]
pub(crate) enum OfTwo {
    /// Whether the first is a subtype of the second.
    Subtype(ValidationMode),
    /// Whether they are equal.
    Equality,
    /// Whether no value has both.
    Disjointness,
    /// Their join.
    Join(ValidationMode),
    /// A value that the first has and the second hasn't.
    Separation,
}

/// What is asked of a schema.
#[derive(Clone, Copy)]
pub(crate) enum OfSchema {
    /// The environments of its requests.
    Environments,
    /// The fragment that it is converted back as.
    ConvertBack,
    /// A copy of it.
    Copy,
}

/// What is asked of a text.
#[derive(Clone, Copy)]
pub(crate) enum OfText {
    /// Its value.
    Parse,
    /// The fragment that it describes as JSON.
    Read,
    /// The fragment that it is in Cedar's syntax.
    ReadSyntax,
}

/// A piece of work.
#[derive(Clone, Copy)]
pub(crate) enum Piece {
    /// What is asked of two equal records of as many attributes.
    EqualRecords(OfTwo, OpenTag),
    /// Look-up of one attribute of as many.
    LookUp,
    /// Membership of a value of a record of as many attributes.
    Membership,
    /// What is asked of a record of as many attributes.
    Record(OfOne),
    /// Inclusion of a union in one of as many entity types.
    UnionInclusion,
    /// Disjointness of two unions of as many entity types.
    UnionDisjointness,
    /// As many entity types joined one after another.
    UnionJoins,
    /// The strict join of two records of as many attributes.
    JoinStrict,
    /// The permissive join of two records of as many attributes, half of which both have.
    JoinPermissive,
    /// A value of a record of as many attributes that another record hasn't.
    Separation,
    /// A schema of as many declarations, built.
    Build(Declared),
    /// A graph of as many entity types, closed.
    Close(Shape),
    /// An entity type and an action looked up among as many of each.
    SchemaLookUp,
    /// An entity type and an action that aren't among them.
    LookUpLacking,
    /// The look-up that `SchemaLookUp` is, in two hash maps of std.
    LookUpHashed,
    /// An entity type looked up among as many whose names begin with the same letters.
    LookUpLettered(Letters),
    /// The environments of requests of as many principals on as many resources, each looked at.
    Environments,
    /// What is known of the attributes of a union of as many entity types.
    KnownAttributes,
    /// A schema of as many entity types and actions that was put together by hand, validated.
    Validate,
    /// What is asked of a schema of as many entity types and actions.
    Schema(OfSchema),
    /// A schema of as many entity types and actions, compared with another version.
    Compare(Declared),
    /// What is asked of the text of a fragment of as many entity types and actions.
    Text(OfText),
    /// The same, written from the fragment.
    WriteJson,
}

const STRICT: ValidationMode = ValidationMode::Strict;

const PERMISSIVE: ValidationMode = ValidationMode::Permissive;

const CLOSED_RECORD: OpenTag = OpenTag::ClosedAttributes;

const OPEN_RECORD: OpenTag = OpenTag::OpenAttributes;

/// Sizes at which a piece is timed, each with how often a run does it.
type Sizes = &'static [(usize, u32)];

/// The sizes of what takes a nanosecond or so an attribute.
const QUICK: Sizes = &[(10, 100_000), (100, 10_000), (1000, 1000)];

/// The sizes of what takes as long at any size, or nearly.
const CONSTANT: Sizes = &[(10, 1_000_000), (100, 1_000_000), (1000, 1_000_000)];

/// The sizes of what goes over attributes and makes something of each.
const LINEAR: Sizes = &[(10, 10_000), (100, 1000), (1000, 100)];

/// The sizes of what goes over whole schemas.
const OF_SCHEMAS: Sizes = &[(100, 50), (1000, 5), (5000, 1)];

/// The sizes of what closes wide hierarchies.
const CLOSED: Sizes = &[(50, 1000), (500, 100), (5000, 5)];

/// The sizes of look-ups in schemas.
const LOOKED_UP: Sizes = &[(100, 100_000), (1000, 100_000), (5000, 100_000)];

/// The sizes of look-ups among names of eight digits.
const FLOOD: Sizes = &[(1000, 100_000), (20_000, 100_000)];

/// The sizes of building of names of eight digits.
const BUILT_FLOOD: Sizes = &[(1000, 1), (20_000, 1)];

/// The sizes of texts of JSON.
const JSON: Sizes = &[(20, 100), (200, 10), (2000, 3), (20_000, 1)];

/// The name that asks for a piece, the piece, and the sizes at which it is timed; the smallest,
/// which is the first, is also done once.
pub(crate) type Row = (&'static str, Piece, Sizes);

/// The pieces, in the order in which they are measured.
const ROWS: &[Row] = &[
    (
        "subtype-closed-strict",
        Piece::EqualRecords(OfTwo::Subtype(STRICT), CLOSED_RECORD),
        QUICK,
    ),
    (
        "subtype-closed-permissive",
        Piece::EqualRecords(OfTwo::Subtype(PERMISSIVE), CLOSED_RECORD),
        QUICK,
    ),
    (
        "subtype-open-strict",
        Piece::EqualRecords(OfTwo::Subtype(STRICT), OPEN_RECORD),
        QUICK,
    ),
    (
        "subtype-open-permissive",
        Piece::EqualRecords(OfTwo::Subtype(PERMISSIVE), OPEN_RECORD),
        QUICK,
    ),
    ("look-up", Piece::LookUp, CONSTANT),
    ("membership", Piece::Membership, LINEAR),
    ("print", Piece::Record(OfOne::Print), LINEAR),
    (
        "equality",
        Piece::EqualRecords(OfTwo::Equality, CLOSED_RECORD),
        QUICK,
    ),
    ("copy", Piece::Record(OfOne::Copy), CONSTANT),
    ("union-inclusion", Piece::UnionInclusion, QUICK),
    ("union-disjointness", Piece::UnionDisjointness, QUICK),
    (
        "union-joins",
        Piece::UnionJoins,
        &[(30, 1000), (100, 100), (300, 10)],
    ),
    ("join-strict", Piece::JoinStrict, LINEAR),
    ("join-permissive", Piece::JoinPermissive, LINEAR),
    ("separation", Piece::Separation, LINEAR),
    ("build-whole", Piece::Build(Declared::Whole), OF_SCHEMAS),
    ("build-split", Piece::Build(Declared::Split), OF_SCHEMAS),
    (
        "build-common-chain",
        Piece::Build(Declared::CommonChain),
        &[(10, 1000), (1000, 10), (100_000, 1)],
    ),
    (
        "close-chain",
        Piece::Close(Shape::Chain),
        &[(50, 200), (150, 20), (500, 2)],
    ),
    (
        "close-ring",
        Piece::Close(Shape::Ring),
        &[(30, 500), (100, 50), (300, 5)],
    ),
    ("close-star", Piece::Close(Shape::Star), CLOSED),
    ("close-trees", Piece::Close(Shape::Trees), CLOSED),
    ("schema-look-up", Piece::SchemaLookUp, LOOKED_UP),
    ("look-up-lacking", Piece::LookUpLacking, LOOKED_UP),
    ("look-up-hashed", Piece::LookUpHashed, LOOKED_UP),
    (
        "look-up-flood",
        Piece::LookUpLettered(Letters::AlikeInTables),
        FLOOD,
    ),
    (
        "look-up-apart",
        Piece::LookUpLettered(Letters::Apart),
        FLOOD,
    ),
    (
        "environments",
        Piece::Environments,
        &[(10, 10_000), (30, 1000), (100, 100)],
    ),
    (
        "known-attributes",
        Piece::KnownAttributes,
        &[(10, 10_000), (30, 1000), (100, 1000)],
    ),
    ("validate", Piece::Validate, OF_SCHEMAS),
    (
        "write-back",
        Piece::Schema(OfSchema::ConvertBack),
        OF_SCHEMAS,
    ),
    (
        "build-environments",
        Piece::Build(Declared::Crossing),
        &[(30, 100), (100, 10), (300, 1), (1000, 1)],
    ),
    (
        "build-flood",
        Piece::Build(Declared::EightDigits(Letters::Alike)),
        BUILT_FLOOD,
    ),
    (
        "build-table-flood",
        Piece::Build(Declared::EightDigits(Letters::AlikeInTables)),
        BUILT_FLOOD,
    ),
    (
        "build-apart",
        Piece::Build(Declared::EightDigits(Letters::Apart)),
        BUILT_FLOOD,
    ),
    (
        "copy-schema",
        Piece::Schema(OfSchema::Copy),
        &[(1000, 10), (10_000, 1)],
    ),
    ("compare-same", Piece::Compare(Declared::Whole), OF_SCHEMAS),
    (
        "compare-changed",
        Piece::Compare(Declared::Changed),
        OF_SCHEMAS,
    ),
    (
        "scale",
        Piece::Build(Declared::Whole),
        &[(10_000, 1), (30_000, 1), (100_000, 1), (200_000, 1)],
    ),
    ("parse-json", Piece::Text(OfText::Parse), JSON),
    ("read-json", Piece::Text(OfText::Read), JSON),
    ("read-text", Piece::Text(OfText::ReadSyntax), JSON),
    ("write-json", Piece::WriteJson, JSON),
];

/// The pieces, in the order in which they are measured.
pub(crate) fn rows() -> &'static [Row]
    ensures { map piece_name result.now ≡ piece_names }
{
    ROWS
}

/// The first of some rows of a name, if there is one.
fn row_among(rows: &'static [Row], name: &str) -> Option<&'static Row>
    ensures { is_some result ≡ is_among name.now (map piece_name rows.now) }
{
    for row in rows {
        if name == row.0 {
            return Some(row);
        }
    }
    None
}

/// The row of the piece of a name, if there is one.
pub(crate) fn row_named(name: &str) -> Option<&'static Row>
    ensures { is_some result ≡ is_among name.now piece_names }
{
    row_among(rows(), name)
}
