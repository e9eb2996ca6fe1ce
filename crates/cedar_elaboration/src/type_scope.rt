//! What is in scope as types are elaborated.

ghost use Rattle.std.specs.Prelude.{◌≡◌, ◌↔◌, ◌⊎◌, [], ◌∷◌, Contains, IfErr, IfOk, IsTrue, MatchOption, OnOk, map};
ghost use Rattle.cedar_elaboration.specs.Words.{IsReserved, MayNameCommon, elaborated_types, extension_name, extension_of, extensions_in_scope, fault_of, name_of, out_of_memory, reserved_name, ty_of, union_of, unknown_extension_type, unreserved_id_text};

use crate::shared_types::SharedTypes;
use cedar_ast::{EntityType, Extensions, InternalName, M, Name, UnreservedId};
use cedar_name_resolution::defs::AllDefs;
use cedar_schema_ast::json_schema::ReferenceType;
use cedar_schema_semantics::SchemaError;
use cedar_types::Type;
use std::alloc::Global;
use std::collections::BTreeMap;

/// What is in scope as types are elaborated.
#[derive(Clone, Copy)]
pub struct TypeScope<'a> {
    /// The common types that are elaborated, each under its full name.
    pub common: &'a BTreeMap<InternalName, Type>,
    /// The names that are defined.
    pub defs: &'a AllDefs,
    /// The extension types that may be named.
    pub extensions: &'a Extensions,
    /// The types that attributes share.
    pub shared: &'a SharedTypes,
}

/// Whether a reference of the kind may name a common type.
pub fn may_name_common(kind: ReferenceType) -> bool
    ensures { IsTrue result ↔ MayNameCommon kind }
{
    match kind {
        ReferenceType::Common | ReferenceType::CommonOrEntity => true,
        ReferenceType::Entity => false,
    }
}

/// The type of the entities of the entity type of a name, which must not be reserved.
pub(crate) fn entity_reference(alloc: Global, name: InternalName) -> Result<Type, SchemaError>
    ensures ty { IfOk result (λ ty. ty_of ty ≡ union_of (name_of name ∷ [])) }
    ensures fault { IfErr result (λ error. (fault_of error ≡ out_of_memory)
        ⊎ ((fault_of error ≡ reserved_name (name_of name)) × IsReserved (name_of name))) }
{
    match EntityType::from_internal(name) {
        Ok(ty) => Ok(Type::named_entity_reference(alloc, ty)?),
        Err(name) => Err(SchemaError::ReservedName(name)),
    }
}

impl TypeScope<'_> {
    /// What the common type of a name was elaborated as, if a reference of the kind may name one
    /// and there is one.
    pub(crate) fn common_type(&self, name: &InternalName, kind: ReferenceType) -> M<Option<Type>>
        ensures { IfOk result (λ found. MatchOption found
            (MayNameCommon kind → ¬ Contains
            (map (λ it. it.0) (elaborated_types self.now.common.now)) (name_of name.now))
            (λ ty. MayNameCommon kind × Contains (elaborated_types self.now.common.now)
            (name_of name.now, ty_of ty))) }
    {
        if !may_name_common(kind) {
            return Ok(None);
        }
        match self.common.get(name) {
            Some(ty) => Ok(Some(ty.clone()?)),
            None => Ok(None),
        }
    }

    /// The type of the values of the extension type of a name, which must be known.
    pub(crate) fn extension_type(
        &self,
        alloc: Global,
        name: &UnreservedId,
    ) -> Result<Type, SchemaError>
        ensures ty { IfOk result (λ ty.
            ty_of ty ≡ extension_of (extension_name (unreserved_id_text name.now))) }
        ensures known { OnOk result (Contains (extensions_in_scope self.now)
            (extension_name (unreserved_id_text name.now))) }
        ensures fault { IfErr result (λ error. (fault_of error ≡ out_of_memory)
            ⊎ ((fault_of error ≡ unknown_extension_type
            (extension_name (unreserved_id_text name.now)))
            × ¬ Contains (extensions_in_scope self.now)
            (extension_name (unreserved_id_text name.now)))) }
    {
        let name = InternalName::new(name.clone()?.into_id(), Vec::new(alloc), None);
        match Name::new(name) {
            Some(name) => {
                if self.extensions.has_type(&name) {
                    Ok(Type::extension(name))
                } else {
                    Err(SchemaError::UnknownExtensionType(name))
                }
            }
            None => unreachable!(),
        }
    }
}
