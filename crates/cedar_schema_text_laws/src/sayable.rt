//! What each fragment of the library holds to, so that a text can say all that texts say of it.
//!
//! Each of these functions does nothing: it goes over a part of a fragment for what its contract
//! says of the part.

ghost use Rattle.std.specs.BTreeMap.{IsOrdered};
ghost use Rattle.std.specs.List.{AllByRecursion};
ghost use Rattle.std.specs.Prelude.{None};
ghost use Rattle.cedar_schema_ast.specs.Words.{raw_attribute, raw_expr, raw_record, raw_variant};
ghost use Rattle.cedar_schema_text_laws.specs.Sayable.{Sayable, SayableFragment, SayableIf, SayableKind, SayableRequests};

use cedar_schema_ast::json_schema::{
    ActionType, ApplySpec, CommonType, EntityType, EntityTypeKind, Fragment, NamespaceDefinition,
    RawName, RecordType, Type, TypeOfAttribute, TypeVariant,
};
use std::collections::BTreeMap;

/// A type.
#[cycle(sayable_types)]
fn type_holds(ty: &Type<RawName>)
    ensures { Sayable (raw_expr None ty.now) }
{
    match ty {
        Type::Plain { ty, .. } => variant_holds(ty),
        Type::CommonTypeRef { .. } => {}
    }
}

/// A type variant.
#[cycle(sayable_types)]
fn variant_holds(ty: &TypeVariant<RawName>)
    ensures { Sayable (raw_variant None ty.now) }
{
    match ty {
        TypeVariant::String => {}
        TypeVariant::Long => {}
        TypeVariant::Boolean => {}
        TypeVariant::Set { element } => type_holds(element),
        TypeVariant::Record(record_type) => record_holds(record_type),
        TypeVariant::Entity { .. } => {}
        TypeVariant::EntityOrCommon { .. } => {}
        TypeVariant::Extension { .. } => {}
    }
}

/// A record type.
#[cycle(sayable_types)]
fn record_holds(record_type: &RecordType<RawName>)
    ensures { Sayable (raw_record None record_type.now) }
{
    for (_name, attribute) in &record_type.attributes {
        attribute_holds(attribute);
    }
}

/// An attribute.
#[cycle(sayable_types)]
fn attribute_holds(attribute: &TypeOfAttribute<RawName>)
    ensures { Sayable (raw_attribute None attribute.now).1 }
{
    type_holds(&attribute.ty)
}

/// What is declared under an id, or in a namespace.
///
/// The ghost member says what holds of it.
trait Declared {
    ghost Holds: { Self → Type 0 };

    /// It holds.
    fn holds(&self)
        ensures { Holds self.now };
}

impl Declared for CommonType<RawName> {
    ghost use Rattle.cedar_schema_text_laws.specs.Sayable.{SayableCommonType};

    ghost Holds = { SayableCommonType };

    fn holds(&self) {
        type_holds(&self.ty)
    }
}

/// The type of the tags, where there is one.
fn tags_hold(tags: &Option<Type<RawName>>)
    ensures { SayableIf tags.now }
{
    match tags {
        Some(ty) => type_holds(ty),
        None => {}
    }
}

/// What is declared of an entity type.
fn kind_holds(kind: &EntityTypeKind<RawName>)
    ensures { SayableKind kind.now }
{
    match kind {
        EntityTypeKind::Standard(it) => {
            type_holds(&it.shape.0);
            tags_hold(&it.tags);
        }
        EntityTypeKind::Enum { .. } => {}
    }
}

impl Declared for EntityType<RawName> {
    ghost use Rattle.cedar_schema_text_laws.specs.Sayable.{SayableEntityType};

    ghost Holds = { SayableEntityType };

    fn holds(&self) {
        kind_holds(&self.kind)
    }
}

/// The requests that an action is for, where they are declared.
fn requests_hold(it: &Option<ApplySpec<RawName>>)
    ensures { SayableRequests it.now }
{
    match it {
        Some(it) => type_holds(&it.context.0),
        None => {}
    }
}

impl Declared for ActionType<RawName> {
    ghost use Rattle.cedar_schema_text_laws.specs.Sayable.{SayableAction};

    ghost Holds = { SayableAction };

    fn holds(&self) {
        requests_hold(&self.applies_to)
    }
}

/// Each of some things under keys, which stand in order.
fn each_holds<K: Ord, T: Declared>(all: &BTreeMap<K, T>)
    ensures each { AllByRecursion (λ entry. T.Holds entry.1) all.now.entries }
    ensures ordered { IsOrdered K.cmp all.now }
{
    for (_key, it) in all {
        it.holds();
    }
}

impl Declared for NamespaceDefinition<RawName> {
    ghost use Rattle.cedar_schema_text_laws.specs.Sayable.{SayableDefinition};

    ghost Holds = { SayableDefinition };

    fn holds(&self) {
        each_holds(&self.common_types);
        each_holds(&self.entity_types);
        each_holds(&self.actions);
    }
}

/// A fragment.
pub(crate) fn fragment_holds(fragment: &Fragment<RawName>)
    ensures { SayableFragment fragment.now }
{
    each_holds(&fragment.0)
}
