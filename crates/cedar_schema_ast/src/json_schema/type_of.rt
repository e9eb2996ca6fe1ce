//! Types as a schema writes them.

use cedar_ast::{Loc, UnreservedId};
use std::collections::BTreeMap;

/// A type as a schema writes it: a form of type, or a reference to a common type.
#[derive(Debug, Drop)]
#[cycle(schema_type)]
pub enum Type<N> {
    /// A type that is written as what it is.
    Plain {
        /// The form of type.
        ty: TypeVariant<N>,
        /// Where it was written, if that is known.
        loc: Option<Loc>,
    },
    /// The type that a common type's declaration gives.
    CommonTypeRef {
        /// The common type's name.
        type_name: N,
        /// Where the reference was written, if that is known.
        loc: Option<Loc>,
    },
}

/// The forms of type that a schema can write.
#[derive(Debug, Drop)]
#[cycle(schema_type)]
pub enum TypeVariant<N> {
    /// Texts.
    String,
    /// Whole numbers.
    Long,
    /// Truth values.
    Boolean,
    /// Sets whose elements all have one type.
    Set {
        /// The type of the elements.
        element: Box<Type<N>>,
    },
    /// Records.
    Record(RecordType<N>),
    /// Entities of one type.
    Entity {
        /// The entity type's name.
        name: N,
    },
    /// A common type, or the entities of one type, whichever the name turns out to name: the common
    /// type where it names both.
    EntityOrCommon {
        /// The name of the common type or entity type.
        type_name: N,
    },
    /// Values of an extension type.
    Extension {
        /// The extension type's name.
        name: UnreservedId,
    },
}

/// A record type, given by its attributes.
#[derive(Debug, Drop)]
#[cycle(schema_type)]
pub struct RecordType<N> {
    /// The attributes that are listed, each under its name.
    pub attributes: BTreeMap<String, TypeOfAttribute<N>>,
    /// Whether a record may have attributes that aren't listed.
    pub additional_attributes: bool,
}

/// An attribute of a record type.
#[derive(Debug, Drop)]
#[cycle(schema_type)]
pub struct TypeOfAttribute<N> {
    /// The type of the attribute's values.
    pub ty: Type<N>,
    /// Whether a record has to have the attribute.
    pub required: bool,
    /// Where the attribute was written, if that is known.
    pub loc: Option<Loc>,
}
