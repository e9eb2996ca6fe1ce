//! Why no schema is built.

ghost use Rattle.std.specs.Fmt.{WritesOnOk};
ghost use Rattle.std.specs.Prelude.{◌≡◌, Some, codes, map, string_bytes};
ghost use Rattle.cedar_schema_semantics.specs.Words.{action_not_defined, action_reference_text, carried_action, context_or_shape_fault, each_after, fault_of, fault_text, feature_fault, items_of, joined, kind_text, name_text, out_of_memory, qualify_fault, quoted_text, type_name, undeclared_entity_types};

use cedar_ast::{EntityType, EntityUID, InternalName, Memory, Name, NonEmpty, Quoted};
use cedar_schema_ast::json_schema::{
    ActionEntityUID, ConditionalName, QualifyError, TypeNotDefinedError,
};
use std::alloc::{AllocError, AllocFailed};
use std::error::Error;
use std::fmt;

/// A feature of schemas that is not supported.
#[derive(Debug, Drop)]
pub enum UnsupportedFeature {
    /// Actions of these ids, in order, are declared with attributes.
    ActionAttributes(Vec<String>),
    /// A record type admits attributes that it doesn't list.
    OpenRecordsAndEntities,
}

/// A place where a record type has to stand.
#[derive(Debug, Drop)]
pub enum ContextOrShape {
    /// The shape of an entity type.
    EntityTypeShape(EntityType),
    /// The context of an action.
    ActionContext(EntityUID),
}

/// Why no schema is built: one fault of the declarations, or out of memory.
#[derive(Drop)]
pub enum SchemaError {
    /// An action is declared with attributes, or a record type that counts admits attributes that
    /// it doesn't list (the Cedar reference on schemas).
    UnsupportedFeature(UnsupportedFeature),
    /// These types of actions stand where an entity type has to, as a parent, a principal or a
    /// resource; or a schema that was put together by hand names these and has no such entity types
    /// (the Cedar reference on schemas).
    UndeclaredEntityTypes(NonEmpty<EntityType>),
    /// These references to types resolve to nothing that is declared (RFC 24).
    TypeNotDefined(TypeNotDefinedError),
    /// These parents of actions resolve to no declared action (the Cedar reference on schemas).
    ActionNotDefined(NonEmpty<ActionEntityUID<ConditionalName>>),
    /// The first type is declared in the empty namespace, and the second, of the same base name, in
    /// one that isn't reserved (RFC 70).
    TypeShadowing(InternalName, InternalName),
    /// The first action is declared in the empty namespace, and the second, of the same id, in
    /// another (RFC 70).
    ActionShadowing(EntityUID, EntityUID),
    /// The entity type has two definitions (the Cedar reference on schemas).
    DuplicateEntityType(EntityType),
    /// The common type has two definitions, or one beside that which is built in (the Cedar
    /// reference on schemas).
    DuplicateCommonType(InternalName),
    /// The action has two definitions (the Cedar reference on schemas).
    DuplicateAction(EntityUID),
    /// The action is among its own ancestors (the Cedar reference on schemas).
    CycleInActionHierarchy(EntityUID),
    /// The definition of the common type refers to it, in one step or more (the Cedar reference on
    /// schemas).
    CycleInCommonTypeReferences(InternalName),
    /// The entity type has the base name `Action`, which only types of actions have (the Cedar
    /// reference on schemas).
    ActionEntityTypeDeclared(InternalName),
    /// The shape of the entity type, or the context of the action, is no record type (the Cedar
    /// reference on schemas).
    ContextOrShapeNotRecord(ContextOrShape),
    /// The extension type is named where it counts and wasn't handed in (the Cedar reference on
    /// schemas).
    UnknownExtensionType(Name),
    /// An entity type or an action is declared in a reserved namespace, or a principal or a
    /// resource resolves to a reserved name; of an action this is the name of its type (RFC 52).
    ReservedName(InternalName),
    /// The first entity type is external and has the second, an enumerated one, among its ancestors
    /// (RFC 53 and RFC 116).
    ExternalWithEnumAncestor(EntityType, EntityType),
    /// The first entity type is enumerated and has the second among its ancestors (RFC 53).
    EnumEntityInHierarchy(EntityType, EntityType),
    /// The action is a descendant in a schema that was put together by hand, and isn't an action of
    /// it (the Cedar reference on schemas).
    UndeclaredActionsDescendant(EntityUID),
    /// The action has, in a schema that was put together by hand, a type whose base name isn't
    /// `Action` (the Cedar reference on schemas).
    InvalidActionType(EntityUID),
    /// A reference to a common type was left. This never comes.
    CommonTypeInvariantViolation,
    /// A reference to an action was left. This never comes.
    ActionInvariantViolation,
    /// A growth was refused.
    Memory(Memory),
}

impl Error for SchemaError {}

/// Writes ids in quotes, each with `, ` before it.
fn write_other_ids<W: fmt::Write>(ids: &[String], f: &mut fmt::Formatter<W>) -> fmt::Result
    ensures { WritesOnOk W.write_str_gives f.old result
        (each_after (codes ", ") (map quoted_text (map string_bytes ids.now))) f.new }
{
    for id in ids {
        write!(f, ", {}", Quoted(id.as_str()))?;
    }
    Ok(())
}

/// Writes ids in quotes, with `, ` between them.
fn write_ids<W: fmt::Write>(ids: &[String], f: &mut fmt::Formatter<W>) -> fmt::Result
    ensures { WritesOnOk W.write_str_gives f.old result
        (joined (codes ", ") (map quoted_text (map string_bytes ids.now))) f.new }
{
    match ids.split_first() {
        None => Ok(()),
        Some((first, others)) => {
            write!(f, "{}", Quoted(first.as_str()))?;
            write_other_ids(others, f)
        }
    }
}

impl fmt::Display for UnsupportedFeature {
    ghost output = { λ feature. Some (fault_text (feature_fault feature)) };

    fn fmt<W: fmt::Write>(&self, f: &mut fmt::Formatter<W>) -> fmt::Result {
        match self {
            UnsupportedFeature::ActionAttributes(ids) => {
                f.write_str("attributes of actions are not supported: ")?;
                write_ids(ids.as_slice(), f)
            }
            UnsupportedFeature::OpenRecordsAndEntities => {
                f.write_str(
                    "records that admit more than their listed attributes are not supported",
                )
            }
        }
    }
}

/// Writes entity types, each with `, or as ` before it.
fn write_other_types<W: fmt::Write>(types: &[EntityType], f: &mut fmt::Formatter<W>) -> fmt::Result
    ensures { WritesOnOk W.write_str_gives f.old result
        (each_after (codes ", or as ") (map name_text (map type_name types.now))) f.new }
{
    for ty in types {
        write!(f, ", or as {ty}")?;
    }
    Ok(())
}

/// Writes that these entity types aren't declared.
fn write_undeclared_types<W: fmt::Write>(
    types: &NonEmpty<EntityType>,
    f: &mut fmt::Formatter<W>,
) -> fmt::Result
    ensures { WritesOnOk W.write_str_gives f.old result
        (fault_text (undeclared_entity_types (map type_name (items_of types.now)))) f.new }
{
    write!(f, "no entity type is declared as {}", types.head)?;
    write_other_types(types.tail.as_slice(), f)
}

/// Writes references to actions, each with `, or as ` before it.
fn write_other_actions<W: fmt::Write>(
    actions: &[ActionEntityUID<ConditionalName>],
    f: &mut fmt::Formatter<W>,
) -> fmt::Result
    ensures { WritesOnOk W.write_str_gives f.old result
        (each_after (codes ", or as ")
        (map (λ it. action_reference_text it.0 it.1) (map carried_action actions.now))) f.new }
{
    for action in actions {
        write!(f, ", or as {action}")?;
    }
    Ok(())
}

/// Writes that these references to actions resolve to none.
fn write_undeclared_actions<W: fmt::Write>(
    actions: &NonEmpty<ActionEntityUID<ConditionalName>>,
    f: &mut fmt::Formatter<W>,
) -> fmt::Result
    ensures { WritesOnOk W.write_str_gives f.old result
        (fault_text (action_not_defined (map carried_action (items_of actions.now)))) f.new }
{
    write!(f, "no action is declared as {}", actions.head)?;
    write_other_actions(actions.tail.as_slice(), f)
}

/// Writes that a shape or a context is no record type.
fn write_no_record<W: fmt::Write>(place: &ContextOrShape, f: &mut fmt::Formatter<W>) -> fmt::Result
    ensures { WritesOnOk W.write_str_gives f.old result
        (fault_text (context_or_shape_fault place.now)) f.new }
{
    match place {
        ContextOrShape::EntityTypeShape(ty) => {
            write!(f, "the shape of the entity type {ty} is no record type")
        }
        ContextOrShape::ActionContext(uid) => {
            write!(f, "the context of the action {uid} is no record type")
        }
    }
}

/// Prints the fault with all that it names: names and uids in full, ids in quotes, and lists in
/// their order.
impl fmt::Display for SchemaError {
    ghost output = { λ error. Some (fault_text (fault_of error)) };

    fn fmt<W: fmt::Write>(&self, f: &mut fmt::Formatter<W>) -> fmt::Result {
        match self {
            SchemaError::UnsupportedFeature(feature) => feature.fmt(f),
            SchemaError::UndeclaredEntityTypes(types) => write_undeclared_types(types, f),
            SchemaError::TypeNotDefined(error) => error.fmt(f),
            SchemaError::ActionNotDefined(actions) => write_undeclared_actions(actions, f),
            SchemaError::TypeShadowing(plain, qualified) => {
                write!(f, "the type {qualified} would shadow the type {plain}")
            }
            SchemaError::ActionShadowing(plain, qualified) => {
                write!(f, "the action {qualified} would shadow the action {plain}")
            }
            SchemaError::DuplicateEntityType(ty) => {
                write!(f, "the entity type {ty} is declared twice")
            }
            SchemaError::DuplicateCommonType(name) => {
                write!(f, "the common type {name} is declared twice")
            }
            SchemaError::DuplicateAction(uid) => write!(f, "the action {uid} is declared twice"),
            SchemaError::CycleInActionHierarchy(uid) => {
                write!(f, "the action {uid} is its own ancestor")
            }
            SchemaError::CycleInCommonTypeReferences(name) => {
                write!(
                    f,
                    "the definition of the common type {name} leads back to it"
                )
            }
            SchemaError::ActionEntityTypeDeclared(name) => {
                write!(f, "the entity type {name} has the name of an action type")
            }
            SchemaError::ContextOrShapeNotRecord(place) => write_no_record(place, f),
            SchemaError::UnknownExtensionType(name) => {
                write!(f, "the extension type {name} is not known")
            }
            SchemaError::ReservedName(name) => write!(f, "the name {name} is reserved"),
            SchemaError::ExternalWithEnumAncestor(lower, upper) => {
                write!(
                    f,
                    "the external type {lower} is below the enumerated type {upper}"
                )
            }
            SchemaError::EnumEntityInHierarchy(lower, upper) => {
                write!(f, "the enumerated type {lower} is below the type {upper}")
            }
            SchemaError::UndeclaredActionsDescendant(uid) => {
                write!(f, "the action {uid} is a descendant, but not declared")
            }
            SchemaError::InvalidActionType(uid) => {
                write!(f, "the action {uid} has no action type")
            }
            SchemaError::CommonTypeInvariantViolation => {
                f.write_str("a reference to a common type was left")
            }
            SchemaError::ActionInvariantViolation => {
                f.write_str("a reference to an action was left")
            }
            SchemaError::Memory(_) => f.write_str("out of memory"),
        }
    }
}

/// Prints the kind, and in parentheses what `Display` prints.
impl fmt::Debug for SchemaError {
    fn fmt<W: fmt::Write>(&self, f: &mut fmt::Formatter<W>) -> fmt::Result {
        write!(f, "{}({self})", self.kind())
    }
}

impl From<Memory> for SchemaError {
    ghost from_gives = { λ _ error. fault_of error ≡ out_of_memory };

    fn from(refused: Memory) -> Self {
        SchemaError::Memory(refused)
    }
}

impl From<AllocError> for SchemaError {
    ghost from_gives = { λ _ error. fault_of error ≡ out_of_memory };

    fn from(_refused: AllocError) -> Self {
        SchemaError::Memory(Memory)
    }
}

impl<T: Drop> From<AllocFailed<T>> for SchemaError {
    ghost from_gives = { λ _ error. fault_of error ≡ out_of_memory };

    fn from(_refused: AllocFailed<T>) -> Self {
        SchemaError::Memory(Memory)
    }
}

impl From<QualifyError> for SchemaError {
    ghost from_gives = { λ refused error. fault_of error ≡ qualify_fault refused };

    fn from(refused: QualifyError) -> Self {
        match refused {
            QualifyError::TypeNotDefined(error) => SchemaError::TypeNotDefined(error),
            QualifyError::Memory(memory) => SchemaError::Memory(memory),
        }
    }
}

impl SchemaError {
    /// The name of the kind of refusal.
    pub fn kind(&self) -> &'static str
        ensures { result.now ≡ kind_text (fault_of self.now) }
    {
        match self {
            SchemaError::UnsupportedFeature(_) => "UnsupportedFeature",
            SchemaError::UndeclaredEntityTypes(_) => "UndeclaredEntityTypes",
            SchemaError::TypeNotDefined(_) => "TypeNotDefined",
            SchemaError::ActionNotDefined(_) => "ActionNotDefined",
            SchemaError::TypeShadowing(_, _) => "TypeShadowing",
            SchemaError::ActionShadowing(_, _) => "ActionShadowing",
            SchemaError::DuplicateEntityType(_) => "DuplicateEntityType",
            SchemaError::DuplicateCommonType(_) => "DuplicateCommonType",
            SchemaError::DuplicateAction(_) => "DuplicateAction",
            SchemaError::CycleInActionHierarchy(_) => "CycleInActionHierarchy",
            SchemaError::CycleInCommonTypeReferences(_) => "CycleInCommonTypeReferences",
            SchemaError::ActionEntityTypeDeclared(_) => "ActionEntityTypeDeclared",
            SchemaError::ContextOrShapeNotRecord(_) => "ContextOrShapeNotRecord",
            SchemaError::UnknownExtensionType(_) => "UnknownExtensionType",
            SchemaError::ReservedName(_) => "ReservedName",
            SchemaError::ExternalWithEnumAncestor(_, _) => "ExternalWithEnumAncestor",
            SchemaError::EnumEntityInHierarchy(_, _) => "EnumEntityInHierarchy",
            SchemaError::UndeclaredActionsDescendant(_) => "UndeclaredActionsDescendant",
            SchemaError::InvalidActionType(_) => "InvalidActionType",
            SchemaError::CommonTypeInvariantViolation => "CommonTypeInvariantViolation",
            SchemaError::ActionInvariantViolation => "ActionInvariantViolation",
            SchemaError::Memory(_) => "Memory",
        }
    }
}
