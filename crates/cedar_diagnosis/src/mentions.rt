//! What stands in the types of a declaration, and at its positions of entity types.

ghost use Rattle.std.specs.Prelude.{◌≡◌, ◌⊎◌, ◌↔◌, IfOk, IsTrue, OnOk};
ghost use Rattle.cedar_ast.specs.Words.{unreserved_id_text};
ghost use Rattle.cedar_diagnosis.specs.Lent.{declaration_of};
ghost use Rattle.cedar_diagnosis.specs.Mentioned.{AddsCounted, AddsMentions, IsMentioned};
ghost use Rattle.cedar_schema_ast.specs.Words.{action, action_body, entity_type, extension_expr, named, namespace_name, raw_entity_body, raw_expr, raw_record, raw_reference, raw_variant};
ghost use Rattle.cedar_schema_ast.specs.declared.json_schema.raw_name.RawName.{RawName as Raw};

use crate::lent::{Lent, LentBody};
use cedar_ast::{InternalName, M, UnreservedId};
use cedar_schema_ast::json_schema::{
    ActionType, EntityType, EntityTypeKind, RawName, RecordType, ReferenceType, Type, TypeVariant,
};
use std::alloc::Global;

/// A reference to a type, where it is written.
#[derive(Clone, Copy)]
pub(crate) struct WrittenReference<'a> {
    /// The name.
    pub(crate) name: &'a RawName,
    /// What it may name.
    pub(crate) kind: ReferenceType,
    /// The namespace that it is written in, None being the empty one.
    pub(crate) namespace: Option<&'a InternalName>,
}

/// What stands in types.
#[derive(Drop)]
pub(crate) struct Mentions<'a> {
    /// The references.
    pub(crate) references: Vec<WrittenReference<'a>>,
    /// The extension types, by base name.
    pub(crate) extensions: Vec<&'a UnreservedId>,
    /// Whether a record type admits attributes that it doesn't list.
    pub(crate) has_open_record: bool,
}

/// Adds a reference.
fn add_reference<'a>(
    name: &'a RawName,
    kind: ReferenceType,
    namespace: Option<&'a InternalName>,
    mentions: &mut Mentions<'a>,
) -> M<()>
    ensures { OnOk result (AddsMentions
        (named (raw_reference (namespace_name namespace.entry) kind name.now))
        mentions.old mentions.new) }
{
    mentions.references.push(WrittenReference {
        name,
        kind,
        namespace,
    })?;
    Ok(())
}

/// Adds an extension type.
fn add_extension<'a>(name: &'a UnreservedId, mentions: &mut Mentions<'a>) -> M<()>
    ensures { OnOk result (AddsMentions (extension_expr (unreserved_id_text name.now))
        mentions.old mentions.new) }
{
    mentions.extensions.push(name)?;
    Ok(())
}

/// Notes whether a record type is open.
fn note_open(is_open: bool, mentions: &mut Mentions)
    ensures open_record { IsTrue mentions.new.has_open_record
        ↔ (IsTrue mentions.old.has_open_record ⊎ IsTrue is_open) }
    ensures references { mentions.new.references.items ≡ mentions.old.references.items }
    ensures extensions { mentions.new.extensions.items ≡ mentions.old.extensions.items }
{
    if is_open {
        mentions.has_open_record = true;
    }
}

/// Adds what stands in a type variant that is written in a namespace.
#[cycle(add)]
fn add_variant<'a>(
    ty: &'a TypeVariant<RawName>,
    namespace: Option<&'a InternalName>,
    mentions: &mut Mentions<'a>,
) -> M<()>
    ensures { OnOk result (AddsMentions (raw_variant (namespace_name namespace.entry) ty.now)
        mentions.old mentions.new) }
{
    match ty {
        TypeVariant::Set { element } => add_type(element, namespace, mentions),
        TypeVariant::Record(record_type) => add_record(record_type, namespace, mentions),
        TypeVariant::Entity { name } => {
            add_reference(name, ReferenceType::Entity, namespace, mentions)
        }
        TypeVariant::EntityOrCommon { type_name } => {
            add_reference(
                type_name,
                ReferenceType::CommonOrEntity,
                namespace,
                mentions,
            )
        }
        TypeVariant::Extension { name } => add_extension(name, mentions),
        TypeVariant::String => Ok(()),
        TypeVariant::Long => Ok(()),
        TypeVariant::Boolean => Ok(()),
    }
}

/// Adds what stands in a record type that is written in a namespace.
#[cycle(add)]
fn add_record<'a>(
    record_type: &'a RecordType<RawName>,
    namespace: Option<&'a InternalName>,
    mentions: &mut Mentions<'a>,
) -> M<()>
    ensures { OnOk result (AddsMentions
        (raw_record (namespace_name namespace.entry) record_type.now)
        mentions.old mentions.new) }
{
    for (_, attribute) in &record_type.attributes {
        add_type(&attribute.ty, namespace, mentions)?;
    }
    note_open(record_type.additional_attributes, mentions);
    Ok(())
}

/// Adds what stands in a type that is written in a namespace.
#[cycle(add)]
fn add_type<'a>(
    ty: &'a Type<RawName>,
    namespace: Option<&'a InternalName>,
    mentions: &mut Mentions<'a>,
) -> M<()>
    ensures { OnOk result (AddsMentions (raw_expr (namespace_name namespace.entry) ty.now)
        mentions.old mentions.new) }
{
    match ty {
        Type::Plain { ty, .. } => add_variant(ty, namespace, mentions),
        Type::CommonTypeRef { type_name, .. } => {
            add_reference(type_name, ReferenceType::Common, namespace, mentions)
        }
    }
}

/// Adds what stands in the shape and in the type of the tags of an entity type.
fn add_entity_type<'a>(
    declared: &'a EntityType<RawName>,
    namespace: Option<&'a InternalName>,
    mentions: &mut Mentions<'a>,
) -> M<()>
    ensures { OnOk result (AddsCounted
        (entity_type (raw_entity_body (namespace_name namespace.entry) declared.now))
        mentions.old mentions.new) }
{
    if declared.external {
        return Ok(());
    }
    let EntityTypeKind::Standard(standard) = &declared.kind else {
        return Ok(());
    };
    add_type(&standard.shape.0, namespace, mentions)?;
    match &standard.tags {
        Some(tags) => add_type(tags, namespace, mentions),
        None => Ok(()),
    }
}

/// Adds what stands in the context of an action.
fn add_action<'a>(
    declared: &'a ActionType<RawName>,
    namespace: Option<&'a InternalName>,
    mentions: &mut Mentions<'a>,
) -> M<()>
    ensures { OnOk result (AddsCounted
        (action (action_body Raw (raw_reference (namespace_name namespace.entry))
        (namespace_name namespace.entry) declared.now))
        mentions.old mentions.new) }
{
    if declared.external {
        return Ok(());
    }
    match &declared.applies_to {
        Some(requests) => add_type(&requests.context.0, namespace, mentions),
        None => Ok(()),
    }
}

/// Adds what stands in the types of a declaration that count.
fn add_counted<'a>(it: &Lent<'a>, mentions: &mut Mentions<'a>) -> M<()>
    ensures { OnOk result (AddsCounted (declaration_of it.now).body mentions.old mentions.new) }
{
    let namespace = it.namespace();
    match it.body {
        LentBody::CommonType { declared, .. } => add_type(&declared.ty, namespace, mentions),
        LentBody::EntityType { declared, .. } => add_entity_type(declared, namespace, mentions),
        LentBody::Action { declared, .. } => add_action(declared, namespace, mentions),
    }
}

/// What stands in the types of a declaration that count.
pub(crate) fn mentions_of<'a>(alloc: Global, it: &Lent<'a>) -> M<Mentions<'a>>
    ensures { IfOk result (IsMentioned (declaration_of it.now).body) }
{
    let mut mentions = Mentions {
        references: Vec::new(alloc),
        extensions: Vec::new(alloc),
        has_open_record: false,
    };
    add_counted(it, &mut mentions)?;
    Ok(mentions)
}
