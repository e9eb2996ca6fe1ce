//! Entity types of a schema.

ghost use Rattle.std.specs.Prelude.{◌≡◌, []};
ghost use Rattle.cedar_schema_elements.specs.Ascending.{TypesAscend, TypesAscend-prop as one_order};
ghost use Rattle.cedar_type_rules.specs.Fields.{field_names};
ghost use Rattle.cedar_types.specs.Meaning.{fields_of};

use crate::entity_type_kind::{StandardValidatorEntityType, ValidatorEntityTypeKind};
use crate::sets::copied_in_order;
use cedar_ast::{Eid, EntityType, Loc, M, NonEmpty};
use cedar_types::{AttributeType, Attributes, OpenTag, Type};
use std::alloc::Global;
use std::collections::BTreeSet;

/// An entity type of a schema.
///
/// Equality ignores the location.
#[derive(Drop)]
#[derive_where(Debug, PartialEq, Eq)]
pub struct ValidatorEntityType {
    pub(crate) name: EntityType,
    /// The entity types whose entities may stand below one of this type in the hierarchy.
    pub descendants: BTreeSet<EntityType>,
    /// How the entity type is declared.
    pub kind: ValidatorEntityTypeKind,
    /// Where the entity type was declared, if that is known.
    #[derive_where(skip(EqHashOrd))]
    pub loc: Option<Loc>,
    // What the kinds without attributes lend.
    #[derive_where(skip)]
    no_attributes: Attributes,
    // A set lends no allocator.
    #[derive_where(skip)]
    alloc: Global,
    ghost without_attributes: { field_names (fields_of no_attributes) ≡ [] },
    ghost in_order: { TypesAscend descendants.keys } by { one_order descendants.keys },
}

impl ValidatorEntityType {
    ghost use Rattle.std.specs.Prelude.{◌≡◌, ◌↔◌, [], ◌∷◌, map, IsTrue, IfOk, Contains};
    ghost use Rattle.cedar_schema_elements.specs.Words.{HoldsOfAll, IsEnumerated, IsFiniteIterable, SameItems, Text, attribute_of, attributes_of, descendant_names, eid_text, entity_type_of, enumerated_kind, external_kind, field_at, field_names, fields_of, kind_fields, kind_openness, kind_tags, located, located_at, name_loc, option_copied, option_map, standard_kind, tags_of, ty_of, type_loc, type_name};

    /// An entity type of some kind. The descendants have to come to an end.
    fn with_kind<I: IntoIterator<Item = EntityType>>(
        alloc: Global,
        name: EntityType,
        descendants: I,
        kind: ValidatorEntityTypeKind,
        loc: Option<Loc>,
    ) -> M<Self>
        requires { IsFiniteIterable I.into_iter_gives I.IntoIter.can_next
            I.IntoIter.remaining descendants }
        ensures name { IfOk result (λ ty. (entity_type_of ty).name ≡ type_name name) }
        ensures name_loc { IfOk result (λ ty. name_loc ty ≡ type_loc name) }
        ensures kind { IfOk result (λ ty. ty.kind ≡ kind) }
        ensures descendants { IfOk result (λ ty.
            HoldsOfAll I.into_iter_gives I.IntoIter.next_gives descendants
            (λ xs. SameItems (descendant_names ty) (map type_name xs))) }
        ensures loc { IfOk result (λ ty. ty.loc ≡ loc) }
    {
        Ok(ValidatorEntityType {
            name,
            descendants: BTreeSet::from_iter(alloc, descendants)?,
            kind,
            loc,
            no_attributes: Attributes::empty(alloc)?,
            alloc,
        })
    }

    /// A standard entity type: with attributes, and with tags if a type of tags is given. The
    /// descendants have to come to an end. Out of memory is the only refusal.
    pub fn new_standard<I: IntoIterator<Item = EntityType>>(
        alloc: Global,
        name: EntityType,
        descendants: I,
        attributes: Attributes,
        open_attributes: OpenTag,
        tags: Option<Type>,
        loc: Option<Loc>,
    ) -> M<Self>
        requires { IsFiniteIterable I.into_iter_gives I.IntoIter.can_next
            I.IntoIter.remaining descendants }
        ensures name { IfOk result (λ ty. (entity_type_of ty).name ≡ type_name name) }
        ensures name_loc { IfOk result (λ ty. name_loc ty ≡ type_loc name) }
        ensures kind { IfOk result (λ ty.
            (entity_type_of ty).kind ≡ standard_kind (fields_of attributes) open_attributes
            (option_map ty_of tags)) }
        ensures attributes { IfOk result (λ ty. attributes_of ty ≡ attributes) }
        ensures tags { IfOk result (λ ty. tags_of ty ≡ tags) }
        ensures descendants { IfOk result (λ ty.
            HoldsOfAll I.into_iter_gives I.IntoIter.next_gives descendants
            (λ xs. SameItems (descendant_names ty) (map type_name xs))) }
        ensures loc { IfOk result (λ ty. ty.loc ≡ loc) }
    {
        let kind = StandardValidatorEntityType::new(attributes, open_attributes, tags);
        let kind = ValidatorEntityTypeKind::Standard(kind);
        Self::with_kind(alloc, name, descendants, kind, loc)
    }

    /// A standard entity type, as [`ValidatorEntityType::new_standard`] makes it, without
    /// descendants. Of what an entity type without attributes lends it is given its share, which
    /// has no attributes, so that it takes no memory.
    pub fn new_standard_sharing(
        alloc: Global,
        name: EntityType,
        attributes: Attributes,
        open_attributes: OpenTag,
        tags: Option<Type>,
        no_attributes: Attributes,
        loc: Option<Loc>,
    ) -> Self
        requires { field_names (fields_of no_attributes) ≡ [] }
        ensures name { (entity_type_of result).name ≡ type_name name }
        ensures name_loc { name_loc result ≡ type_loc name }
        ensures kind { (entity_type_of result).kind
            ≡ standard_kind (fields_of attributes) open_attributes (option_map ty_of tags) }
        ensures attributes { attributes_of result ≡ attributes }
        ensures tags { tags_of result ≡ tags }
        ensures descendants { descendant_names result ≡ [] }
        ensures loc { result.loc ≡ loc }
    {
        let standard = StandardValidatorEntityType::new(attributes, open_attributes, tags);
        ValidatorEntityType {
            name,
            descendants: BTreeSet::new(alloc),
            kind: ValidatorEntityTypeKind::Standard(standard),
            loc,
            no_attributes,
            alloc,
        }
    }

    /// An enumerated entity type, whose only entities have these ids. The descendants have to come
    /// to an end. Out of memory is the only refusal.
    pub fn new_enum<I: IntoIterator<Item = EntityType>>(
        alloc: Global,
        name: EntityType,
        descendants: I,
        choices: NonEmpty<Eid>,
        loc: Option<Loc>,
    ) -> M<Self>
        requires { IsFiniteIterable I.into_iter_gives I.IntoIter.can_next
            I.IntoIter.remaining descendants }
        ensures name { IfOk result (λ ty. (entity_type_of ty).name ≡ type_name name) }
        ensures name_loc { IfOk result (λ ty. name_loc ty ≡ type_loc name) }
        ensures kind { IfOk result (λ ty.
            (entity_type_of ty).kind ≡ enumerated_kind
            (map eid_text (choices.head ∷ choices.tail.items))) }
        ensures descendants { IfOk result (λ ty.
            HoldsOfAll I.into_iter_gives I.IntoIter.next_gives descendants
            (λ xs. SameItems (descendant_names ty) (map type_name xs))) }
        ensures loc { IfOk result (λ ty. ty.loc ≡ loc) }
    {
        let kind = ValidatorEntityTypeKind::Enum(choices);
        Self::with_kind(alloc, name, descendants, kind, loc)
    }

    /// An external entity type, which is declared elsewhere. The descendants have to come to an
    /// end. Out of memory is the only refusal.
    pub fn new_external<I: IntoIterator<Item = EntityType>>(
        alloc: Global,
        name: EntityType,
        descendants: I,
        loc: Option<Loc>,
    ) -> M<Self>
        requires { IsFiniteIterable I.into_iter_gives I.IntoIter.can_next
            I.IntoIter.remaining descendants }
        ensures name { IfOk result (λ ty. (entity_type_of ty).name ≡ type_name name) }
        ensures name_loc { IfOk result (λ ty. name_loc ty ≡ type_loc name) }
        ensures kind { IfOk result (λ ty. (entity_type_of ty).kind ≡ external_kind) }
        ensures descendants { IfOk result (λ ty.
            HoldsOfAll I.into_iter_gives I.IntoIter.next_gives descendants
            (λ xs. SameItems (descendant_names ty) (map type_name xs))) }
        ensures loc { IfOk result (λ ty. ty.loc ≡ loc) }
    {
        Self::with_kind(
            alloc,
            name,
            descendants,
            ValidatorEntityTypeKind::External,
            loc,
        )
    }

    /// The entity type's name.
    pub fn name(&self) -> &EntityType
        ensures name { type_name result.now ≡ (entity_type_of self.now).name }
        ensures loc { type_loc result.now ≡ name_loc self.now }
    {
        &self.name
    }

    /// The declared attributes. Only standard entity types have some.
    pub fn attributes(&self) -> &Attributes
        ensures fields { fields_of result.now ≡ kind_fields (entity_type_of self.now).kind }
        ensures attributes { result.now ≡ attributes_of self.now }
    {
        match &self.kind {
            ValidatorEntityTypeKind::Standard(standard) => standard.attributes(),
            ValidatorEntityTypeKind::Enum(_) => &self.no_attributes,
            ValidatorEntityTypeKind::External => &self.no_attributes,
        }
    }

    /// The declared attribute of this name, if there is one.
    pub fn attr(&self, name: &str) -> Option<&AttributeType>
        ensures attribute { option_map attribute_of (option_copied result)
            ≡ field_at name.now (kind_fields (entity_type_of self.now).kind) }
        ensures located { option_map located (option_copied result)
            ≡ located_at name.now (attributes_of self.now) }
    {
        self.attributes().get_attr(name)
    }

    /// Whether an entity type is among the descendants.
    pub fn has_descendant_entity_type(&self, ty: &EntityType) -> bool
        ensures { IsTrue result ↔ Contains (descendant_names self.now) (type_name ty.now) }
    {
        self.descendants.contains(ty)
    }

    /// Whether the entity type is declared elsewhere.
    pub fn is_external(&self) -> bool
        ensures { IsTrue result ↔ ((entity_type_of self.now).kind ≡ external_kind) }
    {
        matches!(self.kind, ValidatorEntityTypeKind::External)
    }

    /// Whether the entity type is enumerated.
    pub fn is_enumerated(&self) -> bool
        ensures { IsTrue result ↔ IsEnumerated (entity_type_of self.now).kind }
    {
        matches!(self.kind, ValidatorEntityTypeKind::Enum(_))
    }

    /// Whether entities of this type may have attributes that aren't declared. Enumerated and
    /// external entity types are closed.
    pub fn open_attributes(&self) -> OpenTag
        ensures { result ≡ kind_openness (entity_type_of self.now).kind }
    {
        match &self.kind {
            ValidatorEntityTypeKind::Standard(standard) => standard.open_attributes(),
            ValidatorEntityTypeKind::Enum(_) => OpenTag::ClosedAttributes,
            ValidatorEntityTypeKind::External => OpenTag::ClosedAttributes,
        }
    }

    /// The type of the tags, where entities of this type may have tags.
    pub fn tag_type(&self) -> Option<&Type>
        ensures ty { option_map ty_of (option_copied result)
            ≡ kind_tags (entity_type_of self.now).kind }
        ensures tags { option_copied result ≡ tags_of self.now }
    {
        match &self.kind {
            ValidatorEntityTypeKind::Standard(standard) => standard.tag_type(),
            ValidatorEntityTypeKind::Enum(_) => None,
            ValidatorEntityTypeKind::External => None,
        }
    }

    /// An equal entity type, located alike, its name and its attributes too. Out of memory is the
    /// only refusal.
    pub fn clone(&self) -> M<Self>
        ensures entity_type { IfOk result (λ copy. entity_type_of copy ≡ entity_type_of self.now) }
        ensures name_loc { IfOk result (λ copy. name_loc copy ≡ name_loc self.now) }
        ensures located { IfOk result (λ copy. (name : Text)
            → located_at name (attributes_of copy) ≡ located_at name (attributes_of self.now)) }
        ensures descendants { IfOk result (λ copy.
            SameItems (descendant_names copy) (descendant_names self.now)) }
        ensures loc { IfOk result (λ copy. copy.loc ≡ self.now.loc) }
    {
        Ok(ValidatorEntityType {
            name: self.name.clone()?,
            descendants: copied_in_order(&self.descendants, EntityType::clone)?,
            kind: self.kind.clone()?,
            loc: self.loc,
            no_attributes: self.no_attributes.clone()?,
            alloc: self.alloc,
        })
    }
}
