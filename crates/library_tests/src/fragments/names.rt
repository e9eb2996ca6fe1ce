//! Names and uids that are read from texts, and copies of them.

use crate::asked::{Question, Rows, check, told};
use crate::fragments::shown::is_alike;
use crate::types::test_values::{PLACE, text};
use cedar_ast::{
    Eid, EntityType, EntityUID, Extensions, Id, InternalName, M, Name, NameFault, UnreservedId,
};
use cedar_schema_ast::below::Memory;
use cedar_schema_ast::json_schema::{
    CommonTypeId, ConditionalName, FragmentName, QualifyError, RawName, ReferenceType,
};
use checked::names::{entity_type, internal_name, name, raw, uid, unreserved_id};
use checked::{holds, same, sample_extensions};
use std::alloc::Global;
use std::collections::BTreeMap;
use std::fmt::{Debug, Display};
use std::test::Fail;

/// What is asked about a text.
#[derive(Clone, Copy)]
enum Asked {
    /// What it is as a name that may be reserved.
    Internal,
    /// As a name of a fragment.
    Raw,
    /// As a name.
    Name,
    /// As an entity type.
    EntityType,
    /// As an identifier.
    Id,
    /// As an identifier that isn't reserved.
    UnreservedId,
    /// As the base name of a common type.
    CommonType,
    /// Whether it is an identifier, and one that isn't reserved.
    IsId,
    /// Of which id it is the uid.
    Uid,
    /// Whether the names in it may be those of extension types.
    ExtensionTypes,
    /// What is an extension type or a function of that name.
    Extension,
}

/// What was read, as it prints, or the fault.
fn read<T: Display + Drop>(alloc: Global, read: Result<T, NameFault>) -> Result<String, Fail> {
    match read {
        Ok(name) => Ok(format!(in alloc; "{name}")?),
        Err(fault) => Ok(format!(in alloc; "{fault:?}")?),
    }
}

/// Whether a text is reported to be an identifier, and one that isn't the reserved word.
fn is_reported(alloc: Global, word: &str) -> Result<String, Fail> {
    let is_id = Id::new(text(alloc, word)?).is_some();
    let is_unreserved = UnreservedId::new(text(alloc, word)?).is_some();
    Ok(format!(in alloc; "{is_id} {is_unreserved}")?)
}

/// The id of a uid, which has to print as the text that it is read from.
fn eid(alloc: Global, text: &str) -> Result<String, Fail> {
    match EntityUID::from_str(alloc, text) {
        Ok(uid) => {
            same(text, uid.to_string(alloc)?.as_str(), text)?;
            Ok(String::from_str(alloc, uid.eid().as_str())?)
        }
        Err(fault) => Ok(format!(in alloc; "{fault:?}")?),
    }
}

/// What is answered of extensions with types of the names between blanks, and without functions.
fn extension_types(alloc: Global, words: &str) -> Result<String, Fail> {
    let mut names = Vec::new(alloc);
    for word in words.split_whitespace() {
        names.push(Name::from_str(alloc, word)?)?;
    }
    match Extensions::try_new(names, BTreeMap::new(alloc)) {
        Ok(extensions) => Ok(format!(in alloc; "they fit: {}", extensions.type_names_fit())?),
        Err(fault) => Ok(fault.to_string(alloc)?),
    }
}

/// Whether a name is that of an extension type, and what is said of the function of that name.
fn extension(alloc: Global, text: &str) -> Result<String, Fail> {
    let extensions = sample_extensions(alloc)?;
    let name = name(alloc, text)?;
    let is_type = extensions.has_type(&name);
    match extensions.func(&name) {
        Ok(function) => Ok(format!(in alloc; "{is_type}, {}", function.arg_types.len())?),
        Err(error) => Ok(format!(in alloc; "{is_type}, {error}")?),
    }
}

impl Question for Asked {
    fn answer(self, alloc: Global, text: &str) -> Result<String, Fail> {
        match self {
            Asked::Internal => read(alloc, InternalName::from_str(alloc, text)),
            Asked::Raw => read(alloc, RawName::from_str(alloc, text)),
            Asked::Name => read(alloc, Name::from_str(alloc, text)),
            Asked::EntityType => read(alloc, EntityType::from_str(alloc, text)),
            Asked::Id => read(alloc, Id::from_str(alloc, text)),
            Asked::UnreservedId => read(alloc, UnreservedId::from_str(alloc, text)),
            Asked::CommonType => read(alloc, CommonTypeId::from_str(alloc, text)),
            Asked::IsId => is_reported(alloc, text),
            Asked::Uid => eid(alloc, text),
            Asked::ExtensionTypes => extension_types(alloc, text),
            Asked::Extension => extension(alloc, text),
        }
    }
}

/// Texts that are no names, each with the byte at which it stops being one.
const NO_NAMES: Rows = &[
    ("", "NotAName(0)"),
    (":", "NotAName(0)"),
    ("::", "NotAName(0)"),
    (" ", "NotAName(0)"),
    (" a", "NotAName(0)"),
    ("9a", "NotAName(0)"),
    ("é", "NotAName(0)"),
    ("a ", "NotAName(1)"),
    ("a-b", "NotAName(1)"),
    ("aé", "NotAName(1)"),
    ("a ::b", "NotAName(1)"),
    ("a:", "NotAName(2)"),
    ("a:b", "NotAName(2)"),
    ("a::", "NotAName(3)"),
    ("a:: b", "NotAName(3)"),
    ("a::9", "NotAName(3)"),
    ("a:::b", "NotAName(3)"),
    ("a::b ", "NotAName(4)"),
    ("a::b::", "NotAName(6)"),
];

/// Names, as they print.
const NAMES: Rows = &[
    ("a", "a"),
    ("_", "_"),
    ("if", "if"),
    ("Bool", "Bool"),
    ("a::b::c_9", "a::b::c_9"),
    ("__cedar_::a", "__cedar_::a"),
];

/// Reserved names, as they print.
const RESERVED: Rows = &[
    ("__cedar", "__cedar"),
    ("a::__cedar", "a::__cedar"),
    ("__cedar::a", "__cedar::a"),
];

/// The same, as they are refused.
const REFUSED: Rows = &[
    ("__cedar", "Reserved"),
    ("a::__cedar", "Reserved"),
    ("__cedar::a", "Reserved"),
];

/// Identifiers, as they print.
const IDS: Rows = &[
    ("a", "a"),
    ("_9", "_9"),
    ("a9_", "a9_"),
    ("if", "if"),
    ("bool", "bool"),
    ("__cedar1", "__cedar1"),
    ("Foo", "Foo"),
    ("Strings", "Strings"),
    ("Int", "Int"),
];

/// The reserved word as an identifier.
const RESERVED_AS_ID: Rows = &[("__cedar", "__cedar")];

/// Identifiers that can't be declared as they are.
const RESERVED_ID: Rows = &[("__cedar", "Reserved")];

/// Words of Cedar's own, as they print.
const WORDS: Rows = &[
    ("Bool", "Bool"),
    ("Boolean", "Boolean"),
    ("Entity", "Entity"),
    ("Extension", "Extension"),
    ("Long", "Long"),
    ("Record", "Record"),
    ("Set", "Set"),
    ("String", "String"),
];

/// The same, as they are refused.
const REFUSED_WORDS: Rows = &[
    ("Bool", "NoCommonType"),
    ("Boolean", "NoCommonType"),
    ("Entity", "NoCommonType"),
    ("Extension", "NoCommonType"),
    ("Long", "NoCommonType"),
    ("Record", "NoCommonType"),
    ("Set", "NoCommonType"),
    ("String", "NoCommonType"),
];

/// Texts that are no identifiers, each with the byte at which it stops being one.
const NO_IDS: Rows = &[
    ("", "NotAName(0)"),
    ("9a", "NotAName(0)"),
    ("é", "NotAName(0)"),
    ("::", "NotAName(0)"),
    ("a b", "NotAName(1)"),
    ("a-b", "NotAName(1)"),
    ("a::b", "NotAName(1)"),
    ("aé", "NotAName(1)"),
];

/// Texts, each with whether it is an identifier, and one that isn't reserved.
const ARE_IDS: Rows = &[
    ("a", "true true"),
    ("_9", "true true"),
    ("if", "true true"),
    ("Long", "true true"),
    ("__cedar1", "true true"),
    ("__cedar", "true false"),
    ("", "false false"),
    ("9a", "false false"),
    ("é", "false false"),
    ("::", "false false"),
    ("a b", "false false"),
    ("a-b", "false false"),
    ("a::b", "false false"),
    ("aé", "false false"),
];

/// The texts of uids, each with the id; and texts that no uid prints as, each with the byte at
/// which it stops being a uid's.
const UIDS: Rows = &[
    ("A::B::\"\"", ""),
    ("A::B::\"x y\"", "x y"),
    ("A::B::\"it's\"", "it's"),
    ("A::B::\"\\\"\"", "\""),
    ("A::B::\"\\\\\"", "\\"),
    ("A::B::\"\\n\\r\\t\\0\"", "\n\r\t\0"),
    ("A::B::\"\\u{7}\\u{1f}\"", "\u{7}\u{1f}"),
    ("A::B::\"\\u{7f}\\u{85}\"", "\u{7f}\u{85}"),
    ("A::B::\"é😀\u{a0}\"", "é😀\u{a0}"),
    ("", "NotAName(0)"),
    ("\"x\"", "NotAName(0)"),
    ("::\"x\"", "NotAName(0)"),
    ("A", "NotAName(1)"),
    ("A\"x\"", "NotAName(1)"),
    ("A:\"x\"", "NotAName(2)"),
    ("A::", "NotAName(3)"),
    ("A:: \"x\"", "NotAName(3)"),
    ("A::B", "NotAName(4)"),
    ("A::::\"x\"", "NotAName(3)"),
    ("A::\"x", "NotAName(5)"),
    ("A::\"x\" ", "NotAName(6)"),
    ("A::\"x\"y\"", "NotAName(6)"),
    ("A::\"\\x41\"", "NotAName(5)"),
    ("A::\"\\'\"", "NotAName(5)"),
    ("A::\"\t\"", "NotAName(4)"),
    ("A::\"é\u{85}\"", "NotAName(6)"),
    ("A::\"\\u{41}\"", "NotAName(8)"),
    ("A::\"\\u{07}\"", "NotAName(7)"),
    ("A::\"\\u{1F}\"", "NotAName(8)"),
    ("A::\"\\u{9}\"", "NotAName(8)"),
    ("A::\"\\\"", "NotAName(6)"),
    ("__cedar::\"", "NotAName(10)"),
    ("__cedar::A::\"x\"", "Reserved"),
];

/// Names of extension types between blanks, each with what is answered of them.
const EXTENSION_TYPES: Rows = &[
    ("", "they fit: true"),
    ("ipaddr decimal", "they fit: true"),
    ("string long", "they fit: true"),
    (
        "ipaddr N::decimal",
        "the extension type N::decimal is qualified",
    ),
    (
        "ipaddr decimal ipaddr",
        "the extension type ipaddr stands twice",
    ),
    (
        "Long ipaddr",
        "the extension type Long has the name of a core type",
    ),
    (
        "decimal Bool",
        "the extension type Bool has the name of a core type",
    ),
    (
        "String",
        "the extension type String has the name of a core type",
    ),
];

/// Names, and what is reported of them.
const EXTENSIONS: Rows = &[
    ("ip@1", "false, 1"),
    ("ipaddr@1", "true, no extension function is named ipaddr"),
    ("A::ip", "false, no extension function is named A::ip"),
];

/// All rows.
const ROWS: &[(Asked, Rows)] = &[
    (Asked::Internal, NO_NAMES),
    (Asked::Raw, NO_NAMES),
    (Asked::EntityType, NO_NAMES),
    (Asked::Internal, NAMES),
    (Asked::Raw, NAMES),
    (Asked::Name, NAMES),
    (Asked::EntityType, NAMES),
    (Asked::Internal, RESERVED),
    (Asked::Raw, RESERVED),
    (Asked::Name, REFUSED),
    (Asked::EntityType, REFUSED),
    (Asked::Id, IDS),
    (Asked::Id, RESERVED_AS_ID),
    (Asked::UnreservedId, IDS),
    (Asked::CommonType, IDS),
    (Asked::UnreservedId, RESERVED_ID),
    (Asked::CommonType, RESERVED_ID),
    (Asked::Id, WORDS),
    (Asked::UnreservedId, WORDS),
    (Asked::CommonType, REFUSED_WORDS),
    (Asked::Id, NO_IDS),
    (Asked::CommonType, NO_IDS),
    (Asked::IsId, ARE_IDS),
    (Asked::Uid, UIDS),
    (Asked::ExtensionTypes, EXTENSION_TYPES),
    (Asked::Extension, EXTENSIONS),
];

#[test]
fn names_are_read_or_refused(rt: HostRuntime) -> Result<(), Fail> {
    check(rt.alloc(), ROWS)
}

/// How many bytes a long text has: 1 MiB.
const LONG: usize = 1_048_576;

/// A text of that many letters.
fn long(alloc: Global) -> M<String> {
    let mut long = String::new(alloc);
    for _ in 0..LONG {
        long.push('a')?;
    }
    Ok(long)
}

#[test]
fn long_texts_are_read(rt: HostRuntime) -> Result<(), Fail> {
    let alloc = rt.alloc();
    let mut long = long(alloc)?;
    let name = InternalName::from_str(alloc, long.as_str())?;
    holds(name.basename().as_str() == long.as_str(), "a long name")?;
    long.push_str("::")?;
    let fault = InternalName::from_str(alloc, long.as_str()).err();
    holds(fault == Some(NameFault::NotAName(LONG + 2)), "a long text")
}

/// Whether a copy of an entity type, and of its name, is equal to it, before it is shared and
/// after.
fn is_type_kept(ty: &EntityType, name: &Name) -> M<bool> {
    let shared = ty.clone()?.into_shared()?;
    Ok(shared.clone()? == *ty && name.clone()?.into_shared()? == *name && *shared.name() == *name)
}

#[test]
fn copies_of_entity_types_are_equal_and_shared_ones_too(rt: HostRuntime) -> Result<(), Fail> {
    let alloc = rt.alloc();
    for text in &["A@1", "N::M::A@1"] {
        let is_kept = is_type_kept(&entity_type(alloc, text)?, &name(alloc, text)?)?;
        holds(is_kept, text)?;
    }
    Ok(())
}

/// The uid `N::A::"b c"` at a place.
fn located_uid(alloc: Global) -> Result<EntityUID, Fail> {
    let eid = Eid(text(alloc, "b c")?);
    Ok(EntityUID::new(entity_type(alloc, "N::A")?, eid, Some(PLACE)))
}

#[test]
fn copies_of_uids_are_equal_wherever_they_were_written(rt: HostRuntime) -> Result<(), Fail> {
    let located = located_uid(rt.alloc())?.into_shared()?;
    let elsewhere = uid(rt.alloc(), "N::A::b c")?.clone()?;
    holds(
        located == elsewhere && located.loc() == Some(PLACE),
        "a uid",
    )
}

/// Whether the copy of a name, by the call of the trait, is shown alike.
fn is_copied<N: FragmentName + Debug + Drop>(alloc: Global, name: &N) -> bool {
    is_alike(alloc, name.copied(), name)
}

/// A name that isn't resolved, and has two possibilities.
fn unresolved(alloc: Global) -> Result<ConditionalName, Fail> {
    let inside = internal_name(alloc, "N@2")?;
    let kind = ReferenceType::Common;
    Ok(raw(alloc, "T@1")?.conditionally_qualify_with(alloc, Some(&inside), kind)?)
}

#[test]
fn copies_of_names_are_shown_alike(rt: HostRuntime) -> Result<(), Fail> {
    let alloc = rt.alloc();
    let name = "N::T@1";
    holds(
        is_copied::<EntityType>(alloc, &entity_type(alloc, name)?),
        "an entity type",
    )?;
    holds(is_copied(alloc, &raw(alloc, name)?), "a raw name")?;
    holds(
        is_copied(alloc, &internal_name(alloc, name)?),
        "a full name",
    )?;
    holds(
        is_copied(alloc, &unresolved(alloc)?),
        "a name that isn't resolved",
    )
}

/// Whether the id of a common type, its copy, copies of the identifier that it is, and their texts
/// are the word.
fn spells(alloc: Global, word: &str) -> Result<bool, Fail> {
    let id = CommonTypeId::new(unreserved_id(alloc, word)?.clone()?).ok_or("a common type")?;
    let copy = id.clone()?;
    let is_spelled = id.as_str() == word && id.as_id().as_str() == word && copy == id;
    let identifier = copy.into_id().into_id().clone()?;
    Ok(is_spelled && identifier.as_str() == word)
}

/// Whether a raw name is equal to its copy, with its location, as it is of no other name, and how
/// long its path is.
fn path_of(name: RawName, other: &RawName) -> M<Option<usize>> {
    let copy = name.clone()?;
    let is_alike = copy == name && copy.loc() == name.loc() && copy != *other;
    let is_base = name.as_internal().basename().as_str() == "User";
    let length = name.into_internal().path().len();
    Ok(if is_alike && is_base {
        Some(length)
    } else {
        None
    })
}

#[test]
fn names_of_fragments_are_kept(rt: HostRuntime) -> Result<(), Fail> {
    let alloc = rt.alloc();
    for word in &["Foo", "bool", "Strings", "Int"] {
        holds(spells(alloc, word)?, word)?;
    }
    for &(text, length) in &[("Shop::User@1", 1usize), ("User", 0usize)] {
        let path = path_of(raw(alloc, text)?, &raw(alloc, "Other")?)?;
        holds(path == Some(length), text)?;
    }
    Ok(())
}

/// The reference to `Shop::User` of a kind.
fn unconditional(alloc: Global, kind: ReferenceType) -> Result<ConditionalName, Fail> {
    let name = internal_name(alloc, "Shop::User@1")?;
    Ok(ConditionalName::unconditional(alloc, name, kind))
}

/// Whether a name has one possibility at a place, and its copy is equal to it.
fn is_single(name: &ConditionalName) -> M<bool> {
    let possible = name.possibilities();
    let is_single = possible.tail.is_empty() && possible.head.loc().is_some();
    Ok(is_single && name.clone()? == *name)
}

#[test]
fn unconditional_names_have_one_possibility(rt: HostRuntime) -> Result<(), Fail> {
    let alloc = rt.alloc();
    let entity = unconditional(alloc, ReferenceType::Entity)?;
    let is_entity = *entity.reference_type() == ReferenceType::Entity;
    holds(is_entity && is_single(&entity)?, "a copy")?;
    let other = unconditional(alloc, ReferenceType::CommonOrEntity)?;
    holds(other != entity, "another kind")?;
    same("a text", entity.to_string(alloc)?.as_str(), "Shop::User")
}

#[test]
fn out_of_memory_is_an_error(rt: HostRuntime) -> Result<(), Fail> {
    let refused: Result<RawName, QualifyError> = Err(QualifyError::from(Memory));
    same(
        "memory",
        told(rt.alloc(), refused)?.as_str(),
        "out of memory",
    )
}
