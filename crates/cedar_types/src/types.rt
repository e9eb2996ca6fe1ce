//! Types of the validator.

ghost use Rattle.std.specs.Prelude.{◌≡◌, ◌↔◌, [], ◌∷◌, IsTrue, IfOk, Contains, if◌then◌else◌};
ghost use Rattle.std.specs.Iterator.{IsFiniteIterable};
ghost use Rattle.cedar_types.specs.Words.{HoldsOfAll, IsRecordOf, Text, any_entity, any_set, element_of, end, extension_of, last_named, listed_at, located_attributes, long, plain_attributes, plain_name, plain_required, primitive_words, record_of, set_of, text, truth, ty_of, type_name, union_of};
ghost use Rattle.cedar_type_rules.specs.declared.bool_type.BoolType.TheVariants as bool_type;

use crate::attributes::{AttributeType, Attributes};
use crate::entity_kind::EntityKind;
use crate::entity_lub::EntityLUB;
use cedar_ast::{EntityType, M, Name};
use cedar_type_rules::{BoolType, OpenTag};
use std::alloc::Global;
use std::rc::Rc;

/// A type of the validator: what is known of a value before a policy is run.
#[derive(Debug, Drop, PartialEq, Eq, PartialOrd, Ord, Hash)]
#[cycle(types)]
pub enum Type {
    /// The type without values.
    Never,
    /// Truth values.
    Bool(BoolType),
    /// Whole numbers.
    Long,
    /// Texts.
    String,
    /// Entities.
    Entity(EntityKind),
    /// Sets.
    Set {
        /// The type of the elements. None is the any-set, which every set has.
        element_type: Option<Rc<Type>>,
    },
    /// Records.
    Record {
        /// The listed attributes.
        attrs: Attributes,
        /// Whether attributes may be there that aren't listed.
        open_attributes: OpenTag,
    },
    /// Values of an extension type.
    ExtensionType {
        /// The extension type's name.
        name: Name,
    },
}

impl Type {
    /// The type of one truth value.
    pub fn singleton_boolean(value: bool) -> Self
        ensures { ty_of result ≡ truth (if value then bool_type.True else bool_type.False) }
    {
        Type::Bool(if value {
            BoolType::True
        } else {
            BoolType::False
        })
    }

    /// The type of both truth values.
    pub fn primitive_boolean() -> Self
        ensures { ty_of result ≡ truth bool_type.AnyBool }
    {
        Type::Bool(BoolType::AnyBool)
    }

    /// The type of whole numbers.
    pub fn primitive_long() -> Self
        ensures { ty_of result ≡ long }
    {
        Type::Long
    }

    /// The type of texts.
    pub fn primitive_string() -> Self
        ensures { ty_of result ≡ text }
    {
        Type::String
    }

    /// The type of sets whose elements have a type.
    pub fn set(element_type: Rc<Type>) -> Self
        ensures { ty_of result ≡ set_of (ty_of element_type.value) }
    {
        Type::Set {
            element_type: Some(element_type),
        }
    }

    /// The type that every set has.
    pub fn any_set() -> Self
        ensures { ty_of result ≡ any_set }
    {
        Type::Set { element_type: None }
    }

    /// The open record type without attributes, which every record has. Out of memory is the only
    /// refusal.
    pub fn any_record(alloc: Global) -> M<Self>
        ensures { IfOk result (λ ty. ty_of ty ≡ record_of end OpenTag.OpenAttributes) }
    {
        Ok(Type::Record {
            attrs: Attributes::empty(alloc)?,
            open_attributes: OpenTag::OpenAttributes,
        })
    }

    /// The type of entities of any type.
    pub fn any_entity_reference() -> Self
        ensures { ty_of result ≡ any_entity }
    {
        Type::Entity(EntityKind::AnyEntity)
    }

    /// The type of the entities of one entity type. Out of memory is the only refusal.
    pub fn named_entity_reference(alloc: Global, ty: EntityType) -> M<Self>
        ensures { IfOk result (λ entity. ty_of entity ≡ union_of (type_name ty ∷ [])) }
    {
        Ok(Type::Entity(EntityKind::Entity(EntityLUB::single_entity(alloc, ty)?)))
    }

    /// The type of the values of an extension type.
    pub fn extension(name: Name) -> Self
        ensures { ty_of result ≡ extension_of (plain_name name) }
    {
        Type::ExtensionType { name }
    }

    /// The record type of these attributes. Of repeated names the last wins. The items have to come
    /// to an end. Out of memory is the only refusal.
    pub fn record_with_attributes<I: IntoIterator<Item = (String, AttributeType)>>(
        alloc: Global,
        items: I,
        open_attributes: OpenTag,
    ) -> M<Self>
        requires { IsFiniteIterable I.into_iter_gives I.IntoIter.can_next
            I.IntoIter.remaining items }
        ensures { IfOk result (λ ty. HoldsOfAll I.into_iter_gives I.IntoIter.next_gives items
            (λ xs. IsRecordOf (plain_attributes xs) open_attributes (ty_of ty)
            × ((name : Text) → listed_at name ty ≡ last_named name (located_attributes xs)))) }
    {
        Ok(Type::Record {
            attrs: Attributes::with_attributes(alloc, items)?,
            open_attributes,
        })
    }

    /// The record type of these attributes, each of which has to be there. Of repeated names the
    /// last wins. The items have to come to an end. Out of memory is the only refusal.
    pub fn record_with_required_attributes<I: IntoIterator<Item = (String, Rc<Type>)>>(
        alloc: Global,
        items: I,
        open_attributes: OpenTag,
    ) -> M<Self>
        requires { IsFiniteIterable I.into_iter_gives I.IntoIter.can_next
            I.IntoIter.remaining items }
        ensures { IfOk result (λ ty. HoldsOfAll I.into_iter_gives I.IntoIter.next_gives items
            (λ xs. IsRecordOf (plain_required xs) open_attributes (ty_of ty))) }
    {
        Ok(Type::Record {
            attrs: Attributes::with_required_attributes(alloc, items)?,
            open_attributes,
        })
    }

    /// Whether a text is the name of a primitive type: `Bool`, `Long` or `String`.
    pub fn is_primitive(name: &str) -> bool
        ensures { IsTrue result ↔ Contains primitive_words name.now }
    {
        name == "Bool" || name == "Long" || name == "String"
    }

    /// An equal type, with the same locations of attributes. Out of memory is the only refusal.
    pub fn clone(&self) -> M<Self>
        ensures same { IfOk result (λ copy. ty_of copy ≡ ty_of self.now) }
        ensures listed { IfOk result (λ copy.
            (name : Text) → listed_at name copy ≡ listed_at name self.now) }
        ensures element { IfOk result (λ copy. element_of copy ≡ element_of self.now) }
    {
        Ok(match self {
            Type::Never => Type::Never,
            Type::Bool(known) => Type::Bool(known.clone()?),
            Type::Long => Type::Long,
            Type::String => Type::String,
            Type::Entity(kind) => Type::Entity(kind.clone()?),
            Type::Set { element_type: None } => Type::Set { element_type: None },
            Type::Set {
                element_type: Some(element),
            } => Type::Set {
                element_type: Some(element.clone()?),
            },
            Type::Record {
                attrs,
                open_attributes,
            } => Type::Record {
                attrs: attrs.clone()?,
                open_attributes: *open_attributes,
            },
            Type::ExtensionType { name } => Type::ExtensionType {
                name: name.clone()?,
            },
        })
    }
}
