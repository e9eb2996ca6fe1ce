//! Common types and entity types over names that aren't resolved yet become those over full names.

ghost use Rattle.std.specs.Prelude.{◌≡◌, IfOk, IfErr, Some};
ghost use Rattle.std.specs.Option.{option_map};
ghost use Rattle.cedar_ast.specs.declared.internal_name.InternalName.{InternalName as Full};
ghost use Rattle.cedar_fragments.specs.Words.{Expr, HasToResolve, HasToResolveIn, IsRefusedAmong, Refers, ResolvesBag, ResolvesEntityBody, ResolvesTags, common_type_declarations, common_type_defs, common_types_locs, entity_fragment_locs, entity_type, entity_type_declarations, entity_types_locs, fragment_body, held_names, located_common_names, namespace_name, no_locs, positional_reference, resolved_expr, resolved_reference, tags_locs, type_expr};
ghost use Rattle.cedar_schema_ast.specs.declared.json_schema.conditional_name.ConditionalName.{ConditionalName as Conditional};

use crate::namespace::common_types::{CommonTypeDef, CommonTypeDefs};
use crate::namespace::entity_type_def::EntityTypeDef;
use crate::namespace::entity_types::{EntityTypeFragment, EntityTypesDef};
use crate::namespace::qualify_types::{qualify_entity_types, qualify_type};
use cedar_ast::InternalName;
use cedar_name_resolution::defs::{AllDefs, WrittenName};
use cedar_schema_ast::json_schema::{AttributesOrContext, ConditionalName, QualifyError, Type};

impl<N: WrittenName + Drop> CommonTypeDefs<N> {
    /// The same common types, where each name that is written in the namespace is that of what it
    /// resolves to.
    pub(crate) fn qualify_within(
        self,
        namespace: Option<&InternalName>,
        all_defs: &AllDefs,
    ) -> Result<CommonTypeDefs<InternalName>, QualifyError>
        ensures resolved { IfOk result (λ it. ResolvesBag (held_names all_defs.now)
            (common_type_declarations N (N.refer (namespace_name namespace.entry)) self)
            (common_type_declarations Full resolved_reference it)) }
        ensures located { IfOk result (λ it. located_common_names Full (common_type_defs Full it)
            ≡ located_common_names N (common_type_defs N self)) }
        ensures locs { IfOk result (λ it.
            common_types_locs Full no_locs it ≡ common_types_locs N no_locs self) }
        ensures refused { IfErr result (IsRefusedAmong (held_names all_defs.now)
            (HasToResolve
            (common_type_declarations N (N.refer (namespace_name namespace.entry)) self))) }
    {
        let mut defs = Vec::with_capacity(all_defs.alloc, self.defs.len())?;
        for def in self.defs {
            let CommonTypeDef { name, ty } = def;
            let ty = qualify_type(ty, namespace, all_defs)?;
            defs.push(CommonTypeDef { name, ty })?;
        }
        Ok(CommonTypeDefs { defs })
    }
}

impl CommonTypeDefs<ConditionalName> {
    /// The same common types, where each name is that of what it resolves to. They are refused
    /// with `TypeNotDefined` if a name resolves to nothing, or with `Memory` if memory runs out.
    pub fn fully_qualify_type_references(
        self,
        all_defs: &AllDefs,
    ) -> Result<CommonTypeDefs<InternalName>, QualifyError>
        ensures resolved { IfOk result (λ it. ResolvesBag (held_names all_defs.now)
            (common_type_declarations Conditional positional_reference self)
            (common_type_declarations Full resolved_reference it)) }
        ensures locs { IfOk result (λ it.
            common_types_locs Full no_locs it ≡ common_types_locs Conditional no_locs self) }
        ensures refused { IfErr result (IsRefusedAmong (held_names all_defs.now)
            (HasToResolve (common_type_declarations Conditional positional_reference self))) }
    {
        self.qualify_within(None, all_defs)
    }
}

/// The same type of tags, if there is one, where each name is that of what it resolves to.
fn qualify_tags<N: WrittenName + Drop>(
    tags: Option<Type<N>>,
    namespace: Option<&InternalName>,
    all_defs: &AllDefs,
) -> Result<Option<Type<InternalName>>, QualifyError>
    ensures resolved { IfOk result (λ it. ResolvesTags (held_names all_defs.now)
        (option_map (type_expr N (N.refer (namespace_name namespace.entry))) tags)
        (option_map resolved_expr it)) }
    ensures locs { IfOk result (λ it. tags_locs Full no_locs it ≡ tags_locs N no_locs tags) }
    ensures refused { IfErr result (IsRefusedAmong (held_names all_defs.now)
        (λ reference. (expr : Expr)
        × (option_map (type_expr N (N.refer (namespace_name namespace.entry))) tags ≡ Some expr)
        × Refers expr reference)) }
{
    match tags {
        None => Ok(None),
        Some(ty) => {
            let ty = qualify_type(ty, namespace, all_defs)?;
            Ok(Some(ty))
        }
    }
}

impl<N: WrittenName + Drop> EntityTypeFragment<N> {
    /// The same entity type, where each name that is written in the namespace is that of what it
    /// resolves to.
    pub(crate) fn qualify_within(
        self,
        namespace: Option<&InternalName>,
        all_defs: &AllDefs,
    ) -> Result<EntityTypeFragment<InternalName>, QualifyError>
        ensures resolved { IfOk result (λ it. ResolvesEntityBody (held_names all_defs.now)
            (fragment_body N (N.refer (namespace_name namespace.entry)) self)
            (fragment_body Full resolved_reference it)) }
        ensures locs { IfOk result (λ it.
            entity_fragment_locs Full no_locs it ≡ entity_fragment_locs N no_locs self) }
        ensures refused { IfErr result (IsRefusedAmong (held_names all_defs.now)
            (HasToResolveIn (entity_type
            (fragment_body N (N.refer (namespace_name namespace.entry)) self)))) }
    {
        match self {
            EntityTypeFragment::Standard {
                attributes,
                parents,
                tags,
            } => {
                let parents = qualify_entity_types(parents, namespace, all_defs)?;
                let attributes = qualify_type(attributes.0, namespace, all_defs)?;
                let tags = qualify_tags(tags, namespace, all_defs)?;
                Ok(EntityTypeFragment::Standard {
                    attributes: AttributesOrContext(attributes),
                    parents,
                    tags,
                })
            }
            EntityTypeFragment::Enum(choices) => Ok(EntityTypeFragment::Enum(choices)),
            EntityTypeFragment::External { parents } => {
                let parents = qualify_entity_types(parents, namespace, all_defs)?;
                Ok(EntityTypeFragment::External { parents })
            }
        }
    }
}

impl EntityTypeFragment<ConditionalName> {
    /// The same entity type, where each name is that of what it resolves to. It is refused with
    /// `TypeNotDefined` if a name resolves to nothing, or with `Memory` if memory runs out.
    pub fn fully_qualify_type_references(
        self,
        all_defs: &AllDefs,
    ) -> Result<EntityTypeFragment<InternalName>, QualifyError>
        ensures resolved { IfOk result (λ it. ResolvesEntityBody (held_names all_defs.now)
            (fragment_body Conditional positional_reference self)
            (fragment_body Full resolved_reference it)) }
        ensures locs { IfOk result (λ it.
            entity_fragment_locs Full no_locs it ≡ entity_fragment_locs Conditional no_locs self) }
        ensures refused { IfErr result (IsRefusedAmong (held_names all_defs.now)
            (HasToResolveIn (entity_type (fragment_body Conditional positional_reference self)))) }
    {
        self.qualify_within(None, all_defs)
    }
}

impl<N: WrittenName + Drop> EntityTypesDef<N> {
    /// The same entity types, where each name that is written in the namespace is that of what it
    /// resolves to.
    pub(crate) fn qualify_within(
        self,
        namespace: Option<&InternalName>,
        all_defs: &AllDefs,
    ) -> Result<EntityTypesDef<InternalName>, QualifyError>
        ensures resolved { IfOk result (λ it. ResolvesBag (held_names all_defs.now)
            (entity_type_declarations N (N.refer (namespace_name namespace.entry)) self)
            (entity_type_declarations Full resolved_reference it)) }
        ensures locs { IfOk result (λ it.
            entity_types_locs Full no_locs it ≡ entity_types_locs N no_locs self) }
        ensures refused { IfErr result (IsRefusedAmong (held_names all_defs.now)
            (HasToResolve
            (entity_type_declarations N (N.refer (namespace_name namespace.entry)) self))) }
    {
        let mut defs = Vec::with_capacity(all_defs.alloc, self.defs.len())?;
        for def in self.defs {
            let EntityTypeDef { name, fragment } = def;
            let fragment = fragment.qualify_within(namespace, all_defs)?;
            defs.push(EntityTypeDef { name, fragment })?;
        }
        Ok(EntityTypesDef { defs })
    }
}

impl EntityTypesDef<ConditionalName> {
    /// The same entity types, where each name is that of what it resolves to. They are refused
    /// with `TypeNotDefined` if a name resolves to nothing, or with `Memory` if memory runs out.
    pub fn fully_qualify_type_references(
        self,
        all_defs: &AllDefs,
    ) -> Result<EntityTypesDef<InternalName>, QualifyError>
        ensures resolved { IfOk result (λ it. ResolvesBag (held_names all_defs.now)
            (entity_type_declarations Conditional positional_reference self)
            (entity_type_declarations Full resolved_reference it)) }
        ensures locs { IfOk result (λ it.
            entity_types_locs Full no_locs it ≡ entity_types_locs Conditional no_locs self) }
        ensures refused { IfErr result (IsRefusedAmong (held_names all_defs.now)
            (HasToResolve (entity_type_declarations Conditional positional_reference self))) }
    {
        self.qualify_within(None, all_defs)
    }
}
