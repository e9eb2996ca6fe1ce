//! How an entity type of a schema is declared.

ghost use Rattle.std.specs.Prelude.{◌≡◌, IfOk};
ghost use Rattle.cedar_schema_elements.specs.Words.{Text, fields_of, kind_attributes, kind_fields, kind_openness, kind_tags, located_at, option_copied, option_map, plain_kind, plain_standard, standard_attributes, standard_kind, standard_tags, ty_of};
ghost use Rattle.cedar_types.specs.declared.attributes.Attributes.{Attributes as AttributesOf};

use cedar_ast::{Eid, M, NonEmpty};
use cedar_types::{Attributes, OpenTag, Type};

/// How an entity type of a schema is declared.
#[derive(Debug, Drop, PartialEq, Eq)]
pub enum ValidatorEntityTypeKind {
    /// By its attributes and the type of its tags.
    Standard(StandardValidatorEntityType),
    /// By the ids of all its entities.
    Enum(NonEmpty<Eid>),
    /// Elsewhere.
    External,
}

/// The attributes of an entity type, and the type of its tags.
#[derive(Debug, Drop, PartialEq, Eq)]
pub struct StandardValidatorEntityType {
    attributes: Attributes,
    open_attributes: OpenTag,
    tags: Option<Type>,
}

impl ValidatorEntityTypeKind {
    /// An equal kind. Out of memory is the only refusal.
    pub fn clone(&self) -> M<Self>
        ensures kind { IfOk result (λ copy. plain_kind copy ≡ plain_kind self.now) }
        ensures located { IfOk result (λ copy. (others same : AttributesOf) (name : Text)
            → located_at name others ≡ located_at name same
            → located_at name (kind_attributes others copy)
            ≡ located_at name (kind_attributes same self.now)) }
    {
        Ok(match self {
            ValidatorEntityTypeKind::Standard(standard) => {
                ValidatorEntityTypeKind::Standard(standard.clone()?)
            }
            ValidatorEntityTypeKind::Enum(choices) => {
                ValidatorEntityTypeKind::Enum(choices.clone()?)
            }
            ValidatorEntityTypeKind::External => ValidatorEntityTypeKind::External,
        })
    }
}

impl StandardValidatorEntityType {
    /// An entity type with these attributes, and with tags of this type.
    pub(crate) fn new(attributes: Attributes, open_attributes: OpenTag, tags: Option<Type>) -> Self
        ensures standard { plain_standard result
            ≡ standard_kind (fields_of attributes) open_attributes (option_map ty_of tags) }
        ensures attributes { standard_attributes result ≡ attributes }
        ensures tags { standard_tags result ≡ tags }
    {
        StandardValidatorEntityType {
            attributes,
            open_attributes,
            tags,
        }
    }

    /// The attributes.
    pub(crate) fn attributes(&self) -> &Attributes
        ensures fields { fields_of result.now ≡ kind_fields (plain_standard self.now) }
        ensures attributes { result.now ≡ standard_attributes self.now }
    {
        &self.attributes
    }

    /// Whether entities may have attributes that aren't declared.
    pub(crate) fn open_attributes(&self) -> OpenTag
        ensures { result ≡ kind_openness (plain_standard self.now) }
    {
        self.open_attributes
    }

    /// The type of the tags, where entities of this type may have tags.
    pub fn tag_type(&self) -> Option<&Type>
        ensures ty { option_map ty_of (option_copied result) ≡ kind_tags (plain_standard self.now) }
        ensures tags { option_copied result ≡ standard_tags self.now }
    {
        self.tags.as_ref()
    }

    /// An equal entity type. Out of memory is the only refusal.
    pub fn clone(&self) -> M<Self>
        ensures standard { IfOk result (λ copy. plain_standard copy ≡ plain_standard self.now) }
        ensures located { IfOk result (λ copy. (name : Text)
            → located_at name (standard_attributes copy)
            ≡ located_at name (standard_attributes self.now)) }
    {
        let tags = match &self.tags {
            Some(ty) => Some(ty.clone()?),
            None => None,
        };
        Ok(StandardValidatorEntityType {
            attributes: self.attributes.clone()?,
            open_attributes: self.open_attributes,
            tags,
        })
    }
}
