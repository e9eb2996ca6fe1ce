//! Whether declarations can be written.

ghost use Rattle.std.specs.Option.{option_map};
ghost use Rattle.std.specs.Prelude.{◌≡◌, Err, IfOk, Option, Some};
ghost use Rattle.cedar_ast.specs.Words.{PlainName, plain_name};
ghost use Rattle.cedar_schema_text_writer.specs.Flaws.{Checks, Id, IsFaultOf, Judges, applies_to_flaw, declared_flaw, definition_flaw, entity_kind_flaw, found_in, id_of, tags_flaw};
ghost use Rattle.cedar_schema_text_writer.specs.Names.{First};
ghost use Rattle.cedar_schema_text_writer.specs.Scope.{first_in, namespace_in};
ghost use Rattle.cedar_schema_text_writer.specs.declared.stop.Flaw.{Flaw};
ghost use Rattle.cedar_schema_ast.specs.declared.json_schema.entity_type.EntityTypeKind.TheVariants as kind;

use crate::check_types::{check_context, check_shape, check_type};
use crate::fault::{Declared, Part, Place, TextWriteFault, Unwritable};
use crate::scope::Scope;
use crate::stop::{Flaw, Stop, refused};
use cedar_ast::{M, Name, UnreservedId};
use cedar_schema_ast::json_schema::{
    ActionType, ApplySpec, CommonType, CommonTypeId, EntityType, EntityTypeKind,
    NamespaceDefinition, RawName, StandardEntityType, Type,
};
use std::collections::BTreeMap;

/// What may be declared under an id.
///
/// The ghost members say what of it can't be written, and what is declared under which id.
pub(crate) trait Checked<K> {
    ghost flaw: { First → Option PlainName → Self → Option Flaw };

    ghost named: { K → Id };

    /// Whether the declaration can be written.
    fn check(&self, scope: Scope<'_>) -> Result<(), Stop>
        ensures { Checks (flaw (first_in scope.entry) (namespace_in scope.entry) self.now) result };

    /// What is declared, with its id.
    fn declared(id: &K) -> M<Declared>
        ensures { IfOk result (λ it. id_of it ≡ named id.now) };
}

impl Checked<CommonTypeId> for CommonType<RawName> {
    ghost use Rattle.cedar_schema_ast.specs.Words.{common_type_text};
    ghost use Rattle.cedar_schema_text_writer.specs.Flaws.{common_id, common_type_flaw};

    ghost flaw = { common_type_flaw };

    ghost named = { λ id. common_id (common_type_text id) };

    fn check(&self, scope: Scope<'_>) -> Result<(), Stop> {
        check_type(scope, Part::Definition, &self.ty)
    }

    fn declared(id: &CommonTypeId) -> M<Declared> {
        Ok(Declared::CommonType(id.clone()?))
    }
}

/// Whether the type of the tags can be written, where there is one.
fn check_tags(scope: Scope<'_>, tags: &Option<Type<RawName>>) -> Result<(), Stop>
    ensures { Checks (tags_flaw (first_in scope.entry) (namespace_in scope.entry) tags.now) result }
{
    match tags {
        Some(ty) => check_type(scope, Part::Tags, ty),
        None => Ok(()),
    }
}

/// Whether what is declared of an entity type that lists no ids can be written.
fn check_standard(scope: Scope<'_>, it: &StandardEntityType<RawName>) -> Result<(), Stop>
    ensures { Checks (entity_kind_flaw (first_in scope.entry) (namespace_in scope.entry)
        (kind.Standard it.now)) result }
{
    check_shape(scope, &it.shape.0)?;
    check_tags(scope, &it.tags)
}

impl Checked<UnreservedId> for EntityType<RawName> {
    ghost use Rattle.cedar_schema_ast.specs.Words.{unreserved_id_text};
    ghost use Rattle.cedar_schema_text_writer.specs.Flaws.{entity_id, entity_type_flaw};

    ghost flaw = { entity_type_flaw };

    ghost named = { λ id. entity_id (unreserved_id_text id) };

    fn check(&self, scope: Scope<'_>) -> Result<(), Stop> {
        match &self.kind {
            EntityTypeKind::Standard(it) => check_standard(scope, it),
            EntityTypeKind::Enum { .. } => Ok(()),
        }
    }

    fn declared(id: &UnreservedId) -> M<Declared> {
        Ok(Declared::EntityType(id.clone()?))
    }
}

/// Whether the requests that an action is for can be written, where they are declared.
fn check_applies_to(scope: Scope<'_>, it: &Option<ApplySpec<RawName>>) -> Result<(), Stop>
    ensures { Checks (applies_to_flaw (first_in scope.entry) (namespace_in scope.entry) it.now)
        result }
{
    match it {
        Some(it) => check_context(scope, &it.context.0),
        None => Ok(()),
    }
}

impl Checked<String> for ActionType<RawName> {
    ghost use Rattle.std.specs.Prelude.{string_bytes};
    ghost use Rattle.cedar_schema_text_writer.specs.Flaws.{action_flaw, action_id};

    ghost flaw = { action_flaw };

    ghost named = { λ id. action_id (string_bytes id) };

    fn check(&self, scope: Scope<'_>) -> Result<(), Stop> {
        if self.attributes.is_some() {
            return refused(Unwritable::Attributes, Part::Attributes);
        }
        check_applies_to(scope, &self.applies_to)
    }

    fn declared(id: &String) -> M<Declared> {
        Ok(Declared::Action(id.clone()?))
    }
}

/// An equal name of a namespace.
fn copy_of(namespace: &Option<Name>) -> M<Option<Name>>
    ensures { IfOk result (λ it. option_map plain_name it ≡ option_map plain_name namespace.now) }
{
    match namespace {
        Some(name) => Ok(Some(name.clone()?)),
        None => Ok(None),
    }
}

/// The refusal for what a check of what is declared found.
fn refusal_of(namespace: &Option<Name>, declared: Declared, flaw: Flaw) -> TextWriteFault
    ensures { IsFaultOf
        (found_in (option_map plain_name namespace.now) (id_of declared) (Some flaw)) result }
{
    match copy_of(namespace) {
        Ok(namespace) => TextWriteFault::Unwritable {
            what: flaw.what,
            place: Place {
                namespace,
                declared,
                part: flaw.part,
            },
        },
        Err(_) => TextWriteFault::Memory,
    }
}

/// The refusal for why a check of what is declared stopped.
fn fault_at(namespace: &Option<Name>, declared: Declared, stop: Stop) -> TextWriteFault
    ensures { (flaw : Option Flaw) → Checks flaw (Err stop)
        → IsFaultOf (found_in (option_map plain_name namespace.now) (id_of declared) flaw) result }
{
    match stop {
        Stop::Flaw(flaw) => refusal_of(namespace, declared, flaw),
        Stop::Memory => TextWriteFault::Memory,
    }
}

/// Whether what is declared under an id can be written.
fn check_one<K, T: Checked<K>>(scope: Scope<'_>, id: &K, it: &T) -> Result<(), TextWriteFault>
    ensures { Judges (found_in (namespace_in scope.entry) (T.named id.now)
        (T.flaw (first_in scope.entry) (namespace_in scope.entry) it.now)) result }
{
    match it.check(scope) {
        Ok(()) => Ok(()),
        Err(stop) => Err(fault_at(scope.namespace, T::declared(id)?, stop)),
    }
}

/// Whether the declarations of one kind can be written.
fn check_all<K: Ord, T: Checked<K>>(
    scope: Scope<'_>,
    all: &BTreeMap<K, T>,
) -> Result<(), TextWriteFault>
    ensures { Judges (declared_flaw (namespace_in scope.entry) T.named
        (T.flaw (first_in scope.entry) (namespace_in scope.entry)) all.now.entries) result }
{
    for (id, it) in all {
        check_one(scope, id, it)?;
    }
    Ok(())
}

/// Whether the declarations of a definition can be written.
pub(crate) fn check_definition(
    scope: Scope<'_>,
    it: &NamespaceDefinition<RawName>,
) -> Result<(), TextWriteFault>
    ensures { Judges (definition_flaw (first_in scope.entry) (namespace_in scope.entry) it.now)
        result }
{
    check_all(scope, &it.common_types)?;
    check_all(scope, &it.entity_types)?;
    check_all(scope, &it.actions)
}
