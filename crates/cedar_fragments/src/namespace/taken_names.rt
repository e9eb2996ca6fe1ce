//! Forms of names over which what is written is taken over.

ghost use Rattle.std.specs.Prelude.{◌≡◌, IfOk, map};
ghost use Rattle.cedar_fragments.specs.Words.{fragment_parent, namespace_name, raw_expr, raw_reference, type_expr};
ghost use Rattle.cedar_schema_ast.specs.declared.json_schema.raw_name.RawName.{RawName as Raw};
ghost use Rattle.cedar_schema_ast.specs.declared.json_schema.reference_type.ReferenceType.TheVariants.{Entity as entity};

use crate::namespace::actions::ActionParent;
use cedar_ast::{InternalName, M};
use cedar_name_resolution::defs::WrittenName;
use cedar_schema_ast::json_schema::{ConditionalName, RawName, ReferenceType, Type};
use std::alloc::Global;

/// A form of names over which what is written in a namespace is taken over: as it is written, or
/// with what each name may stand for.
pub(crate) trait TakenOver: WrittenName + Drop {
    /// The type over such names. Out of memory is the only refusal.
    fn taken_type(
        alloc: Global,
        namespace: Option<&InternalName>,
        ty: Type<RawName>,
    ) -> M<Type<Self>>
        ensures { IfOk result (λ it.
            type_expr Self (Self.refer (namespace_name namespace.entry)) it
            ≡ raw_expr (namespace_name namespace.entry) ty) };

    /// The names of entity types. Out of memory is the only refusal.
    fn taken_names(
        alloc: Global,
        namespace: Option<&InternalName>,
        names: Vec<RawName>,
    ) -> M<Vec<Self>>
        ensures { IfOk result (λ it.
            map (Self.refer (namespace_name namespace.entry) entity) it.items
            ≡ map (raw_reference (namespace_name namespace.entry) entity) names.items) };

    /// The parents of an action. Out of memory is the only refusal.
    fn taken_parents(
        alloc: Global,
        namespace: Option<&InternalName>,
        parents: Vec<ActionParent<RawName>>,
    ) -> M<Vec<ActionParent<Self>>>
        ensures { IfOk result (λ it.
            map (fragment_parent Self (Self.refer (namespace_name namespace.entry))) it.items
            ≡ map (fragment_parent Raw (raw_reference (namespace_name namespace.entry)))
            parents.items) };
}

impl TakenOver for RawName {
    fn taken_type(
        _alloc: Global,
        _namespace: Option<&InternalName>,
        ty: Type<RawName>,
    ) -> M<Type<RawName>> {
        Ok(ty)
    }

    fn taken_names(
        _alloc: Global,
        _namespace: Option<&InternalName>,
        names: Vec<RawName>,
    ) -> M<Vec<RawName>> {
        Ok(names)
    }

    fn taken_parents(
        _alloc: Global,
        _namespace: Option<&InternalName>,
        parents: Vec<ActionParent<RawName>>,
    ) -> M<Vec<ActionParent<RawName>>> {
        Ok(parents)
    }
}

impl TakenOver for ConditionalName {
    fn taken_type(
        alloc: Global,
        namespace: Option<&InternalName>,
        ty: Type<RawName>,
    ) -> M<Type<ConditionalName>> {
        ty.conditionally_qualify_type_references(alloc, namespace)
    }

    fn taken_names(
        alloc: Global,
        namespace: Option<&InternalName>,
        names: Vec<RawName>,
    ) -> M<Vec<ConditionalName>> {
        let mut references = Vec::with_capacity(alloc, names.len())?;
        for name in names {
            let kind = ReferenceType::Entity;
            references.push(name.conditionally_qualify_with(alloc, namespace, kind)?)?;
        }
        Ok(references)
    }

    fn taken_parents(
        alloc: Global,
        namespace: Option<&InternalName>,
        parents: Vec<ActionParent<RawName>>,
    ) -> M<Vec<ActionParent<ConditionalName>>> {
        let mut references = Vec::with_capacity(alloc, parents.len())?;
        for parent in parents {
            let ActionParent { id, ty, loc } = parent;
            let ty = ty.conditionally_qualify_with(alloc, namespace, ReferenceType::Entity)?;
            references.push(ActionParent { id, ty, loc })?;
        }
        Ok(references)
    }
}
