//! Copies of common types and of entity types.

ghost use Rattle.std.specs.Prelude.{IfOk};
ghost use Rattle.cedar_fragments.specs.Words.{IsCommonTypeDefCopy, IsCommonTypeDefsCopy, IsEntityTypeDefCopy, IsEntityTypeFragmentCopy, IsEntityTypesDefCopy, IsTagsCopy};

use crate::namespace::common_types::{CommonTypeDef, CommonTypeDefs};
use crate::namespace::entity_type_def::EntityTypeDef;
use crate::namespace::entity_types::{EntityTypeFragment, EntityTypesDef};
use cedar_ast::{M, copied_items};
use cedar_schema_ast::json_schema::{AttributesOrContext, FragmentName, Type, copied_names};

/// An equal type of tags with the same locations, if there is one.
fn copied_tags<N: FragmentName + Drop>(tags: &Option<Type<N>>) -> M<Option<Type<N>>>
    ensures { IfOk result (IsTagsCopy N.is_alike tags.now) }
{
    match tags {
        None => Ok(None),
        Some(ty) => Ok(Some(ty.clone()?)),
    }
}

impl<N: FragmentName + Drop> CommonTypeDef<N> {
    /// An equal common type with the same locations. Out of memory is the only refusal.
    pub fn clone(&self) -> M<Self>
        ensures { IfOk result (IsCommonTypeDefCopy N.is_alike self.now) }
    {
        Ok(CommonTypeDef {
            name: self.name.clone()?,
            ty: self.ty.clone()?,
        })
    }
}

impl<N: FragmentName + Drop> CommonTypeDefs<N> {
    /// Equal common types with the same locations, in their order. Out of memory is the only
    /// refusal.
    pub fn clone(&self) -> M<Self>
        ensures { IfOk result (IsCommonTypeDefsCopy N.is_alike self.now) }
    {
        let defs = copied_items(&self.defs, CommonTypeDef::clone)?;
        Ok(CommonTypeDefs { defs })
    }
}

impl<N: FragmentName + Drop> EntityTypeFragment<N> {
    /// Equal declarations with the same locations. Out of memory is the only refusal.
    pub fn clone(&self) -> M<Self>
        ensures { IfOk result (IsEntityTypeFragmentCopy N.is_alike self.now) }
    {
        match self {
            EntityTypeFragment::Standard {
                attributes,
                parents,
                tags,
            } => Ok(EntityTypeFragment::Standard {
                attributes: AttributesOrContext(attributes.0.clone()?),
                parents: copied_names(parents)?,
                tags: copied_tags(tags)?,
            }),
            EntityTypeFragment::Enum(choices) => Ok(EntityTypeFragment::Enum(choices.clone()?)),
            EntityTypeFragment::External { parents } => {
                let parents = copied_names(parents)?;
                Ok(EntityTypeFragment::External { parents })
            }
        }
    }
}

impl<N: FragmentName + Drop> EntityTypeDef<N> {
    /// An equal entity type with the same locations. Out of memory is the only refusal.
    pub fn clone(&self) -> M<Self>
        ensures { IfOk result (IsEntityTypeDefCopy N.is_alike self.now) }
    {
        Ok(EntityTypeDef {
            name: self.name.clone()?,
            fragment: self.fragment.clone()?,
        })
    }
}

impl<N: FragmentName + Drop> EntityTypesDef<N> {
    /// Equal entity types with the same locations, in their order. Out of memory is the only
    /// refusal.
    pub fn clone(&self) -> M<Self>
        ensures { IfOk result (IsEntityTypesDefCopy N.is_alike self.now) }
    {
        let defs = copied_items(&self.defs, EntityTypeDef::clone)?;
        Ok(EntityTypesDef { defs })
    }
}
