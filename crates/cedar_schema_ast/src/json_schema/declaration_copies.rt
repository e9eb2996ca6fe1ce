//! Copies of declarations.

ghost use Rattle.std.specs.Prelude.{IfOk};
ghost use Rattle.cedar_schema_ast.specs.Words.{AreEntriesCopied, HoldsPairwise, IsActionReferenceCopy, IsActionTypeCopy, IsApplySpecCopy, IsCommonTypeCopy, IsDefinitionCopy, IsEntityTypeCopy, IsFragmentCopy, IsKindCopy, IsNamespaceCopy, IsStandardCopy, IsTextCopy, IsTypeCopy, IsValueCopy};

use crate::json_schema::action_type::{ActionEntityUID, ActionType, ApplySpec};
use crate::json_schema::common_type_id::CommonTypeId;
use crate::json_schema::entity_type::{
    AttributesOrContext, EntityType, EntityTypeKind, StandardEntityType,
};
use crate::json_schema::fragment::{CommonType, Fragment, NamespaceDefinition};
use crate::json_schema::fragment_name::FragmentName;
use crate::json_schema::type_of::Type;
use cedar_ast::{M, Name, UnreservedId, Value, copied_entries, copied_items, copied_option};
use std::collections::BTreeMap;

/// Equal names with the same locations, in their order. Out of memory is the only refusal.
pub fn copied_names<N: FragmentName + Drop>(names: &Vec<N>) -> M<Vec<N>>
    ensures { IfOk result (λ copies. HoldsPairwise N.is_alike names.now.items copies.items) }
{
    copied_items(names, N::copied)
}

/// An equal text.
fn copied_text(text: &String) -> M<String>
    ensures { IfOk result (IsTextCopy text.now) }
{
    Ok(text.clone()?)
}

impl<N: FragmentName + Drop> AttributesOrContext<N> {
    /// An equal type with the same locations. Out of memory is the only refusal.
    pub fn clone(&self) -> M<Self>
        ensures { IfOk result (λ copy. IsTypeCopy N N.is_alike self.now.0 copy.0) }
    {
        Ok(AttributesOrContext(self.0.clone()?))
    }
}

impl<N: FragmentName + Drop> CommonType<N> {
    /// An equal common type with the same locations. Out of memory is the only refusal.
    pub fn clone(&self) -> M<Self>
        ensures { IfOk result (IsCommonTypeCopy N N.is_alike self.now) }
    {
        Ok(CommonType {
            ty: self.ty.clone()?,
            loc: self.loc,
        })
    }
}

impl<N: FragmentName + Drop> StandardEntityType<N> {
    /// An equal declaration with the same locations. Out of memory is the only refusal.
    pub fn clone(&self) -> M<Self>
        ensures { IfOk result (IsStandardCopy N N.is_alike self.now) }
    {
        Ok(StandardEntityType {
            member_of_types: copied_names(&self.member_of_types)?,
            shape: self.shape.clone()?,
            tags: copied_option(&self.tags, Type::clone)?,
        })
    }
}

impl<N: FragmentName + Drop> EntityTypeKind<N> {
    /// An equal kind with the same locations. Out of memory is the only refusal.
    pub fn clone(&self) -> M<Self>
        ensures { IfOk result (IsKindCopy N N.is_alike self.now) }
    {
        match self {
            EntityTypeKind::Standard(standard) => Ok(EntityTypeKind::Standard(standard.clone()?)),
            EntityTypeKind::Enum { choices } => Ok(EntityTypeKind::Enum {
                choices: choices.clone()?,
            }),
        }
    }
}

impl<N: FragmentName + Drop> EntityType<N> {
    /// An equal entity type with the same locations. Out of memory is the only refusal.
    pub fn clone(&self) -> M<Self>
        ensures { IfOk result (IsEntityTypeCopy N N.is_alike self.now) }
    {
        Ok(EntityType {
            kind: self.kind.clone()?,
            external: self.external,
            loc: self.loc,
        })
    }
}

impl<N: FragmentName + Drop> ActionEntityUID<N> {
    /// An equal reference with the same locations. Out of memory is the only refusal.
    pub fn clone(&self) -> M<Self>
        ensures { IfOk result (IsActionReferenceCopy N N.is_alike self.now) }
    {
        Ok(ActionEntityUID {
            id: self.id.clone()?,
            ty: copied_option(&self.ty, N::copied)?,
            loc: self.loc,
        })
    }
}

impl<N: FragmentName + Drop> ApplySpec<N> {
    /// Equal requests with the same locations. Out of memory is the only refusal.
    pub fn clone(&self) -> M<Self>
        ensures { IfOk result (IsApplySpecCopy N N.is_alike self.now) }
    {
        Ok(ApplySpec {
            principal_types: copied_names(&self.principal_types)?,
            resource_types: copied_names(&self.resource_types)?,
            context: self.context.clone()?,
        })
    }
}

/// Equal attributes of an action, each under its name.
fn copied_attributes(attributes: &BTreeMap<String, Value>) -> M<BTreeMap<String, Value>>
    ensures { IfOk result (AreEntriesCopied IsTextCopy IsValueCopy attributes.now) }
{
    copied_entries(attributes, copied_text, Value::clone)
}

/// Equal references to groups of actions, in their order.
fn copied_groups<N: FragmentName + Drop>(
    groups: &Vec<ActionEntityUID<N>>,
) -> M<Vec<ActionEntityUID<N>>>
    ensures { IfOk result (λ copies.
        HoldsPairwise (IsActionReferenceCopy N N.is_alike) groups.now.items copies.items) }
{
    copied_items(groups, ActionEntityUID::clone)
}

impl<N: FragmentName + Drop> ActionType<N> {
    /// An equal action with the same locations. Out of memory is the only refusal.
    pub fn clone(&self) -> M<Self>
        ensures { IfOk result (IsActionTypeCopy N N.is_alike self.now) }
    {
        Ok(ActionType {
            attributes: copied_option(&self.attributes, copied_attributes)?,
            applies_to: copied_option(&self.applies_to, ApplySpec::clone)?,
            member_of: copied_option(&self.member_of, copied_groups)?,
            external: self.external,
            loc: self.loc,
            defn_loc: self.defn_loc,
        })
    }
}

impl<N: FragmentName + Drop> NamespaceDefinition<N> {
    /// Equal declarations with the same locations. Out of memory is the only refusal.
    pub fn clone(&self) -> M<Self>
        ensures { IfOk result (IsDefinitionCopy N N.is_alike self.now) }
    {
        Ok(NamespaceDefinition {
            common_types: copied_entries(
                &self.common_types,
                CommonTypeId::clone,
                CommonType::clone,
            )?,
            entity_types: copied_entries(
                &self.entity_types,
                UnreservedId::clone,
                EntityType::clone,
            )?,
            actions: copied_entries(&self.actions, copied_text, ActionType::clone)?,
            loc: self.loc,
        })
    }
}

/// An equal name of a namespace with the same location. None is the empty one.
fn copied_namespace(namespace: &Option<Name>) -> M<Option<Name>>
    ensures { IfOk result (IsNamespaceCopy namespace.now) }
{
    copied_option(namespace, Name::clone)
}

impl<N: FragmentName + Drop> Fragment<N> {
    /// An equal fragment with the same locations. Out of memory is the only refusal.
    pub fn clone(&self) -> M<Self>
        ensures { IfOk result (IsFragmentCopy N N.is_alike self.now) }
    {
        let definitions = copied_entries(&self.0, copied_namespace, NamespaceDefinition::clone)?;
        Ok(Fragment(definitions))
    }
}
