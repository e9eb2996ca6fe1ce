//! The types that are declared, listed with their figures.

ghost use Rattle.std.specs.Prelude.{◌≡◌, ◌++◌, List, OnOk, map};
ghost use Rattle.cedar_written_out.specs.Words.{Defined, Expr, KnowsAll, ListsAlso, PlainName, common_expr, context_exprs, declared_loc, entity_exprs, exprs_of_actions, exprs_of_entities, raw_reference, type_name, uid_of, written_action_body, written_actions, written_common, written_entities, written_entity_body, RawName as Raw};

use crate::figure::Figure;
use crate::measuring::{FigureScope, measure};
use cedar_ast::{EntityType, EntityUID, InternalName, Loc, M};
use cedar_fragments::namespace::{ActionFragment, EntityTypeFragment};
use cedar_fragments::{DeclaredAction, DeclaredEntityType};
use cedar_name_resolution::{DeclaredCommonType, Written};
use cedar_schema_ast::json_schema::RawName;

/// A type that is declared, by what it is of. The name is located where its declaration was
/// written.
#[derive(Debug, Drop)]
pub enum DeclaredType {
    /// The definition of the common type of this name.
    CommonType(InternalName),
    /// The shape of this entity type.
    Shape(EntityType),
    /// The type of the tags of this entity type.
    Tags(EntityType),
    /// The context of this action.
    Context(EntityUID),
}

impl DeclaredType {
    /// Where the declaration was written, if that is known.
    pub fn loc(&self) -> Option<Loc>
        ensures { result ≡ declared_loc self.now }
    {
        match self {
            DeclaredType::CommonType(name) => name.loc(),
            DeclaredType::Shape(ty) | DeclaredType::Tags(ty) => ty.loc(),
            DeclaredType::Context(uid) => uid.loc(),
        }
    }
}

/// A type that is declared, with its figure once common types are written out.
#[derive(Debug, Drop)]
pub struct Measured {
    /// What the type is of.
    pub declared: DeclaredType,
    /// How deep and how large it is, or None where it can't be written out: it leads to a name
    /// that isn't defined, or to a cycle of common types.
    pub figure: Option<Figure>,
}

/// Adds the common types that are declared, which stand before all others.
pub(crate) fn list_common_types(
    listed: &mut Vec<Measured>,
    declared: &[DeclaredCommonType<RawName>],
    scope: &FigureScope,
) -> M<()>
    ensures { OnOk result ((defined : Defined) → KnowsAll defined scope.now
        → (after : List (PlainName × Expr))
        → defined.common ≡ written_common Raw raw_reference declared.now ++ after
        → ListsAlso defined (map common_expr (written_common Raw raw_reference declared.now))
        listed.old.items listed.new.items) }
{
    for (item_index, item) in declared.iter().enumerate() {
        listed.push(Measured {
            declared: DeclaredType::CommonType(item.0.clone()?),
            figure: scope.figure_at(item_index),
        })?;
    }
    Ok(())
}

/// Adds the shape of an entity type and the type of its tags, if there is one.
fn list_entity_type(
    listed: &mut Vec<Measured>,
    name: &EntityType,
    written: &Written<EntityTypeFragment<RawName>>,
    scope: &FigureScope,
) -> M<()>
    ensures { OnOk result ((defined : Defined) → KnowsAll defined scope.now
        → ListsAlso defined (entity_exprs (type_name name.now)
        (written_entity_body Raw raw_reference written.now))
        listed.old.items listed.new.items) }
{
    let EntityTypeFragment::Standard {
        attributes,
        tags,
        ..
    } = &written.declared
    else {
        return Ok(());
    };
    listed.push(Measured {
        declared: DeclaredType::Shape(name.clone()?),
        figure: measure(&attributes.0, written.namespace(), scope)?,
    })?;
    if let Some(ty) = tags {
        listed.push(Measured {
            declared: DeclaredType::Tags(name.clone()?),
            figure: measure(ty, written.namespace(), scope)?,
        })?;
    }
    Ok(())
}

/// Adds the shapes of entity types and the types of their tags.
pub(crate) fn list_entity_types(
    listed: &mut Vec<Measured>,
    types: &[DeclaredEntityType<RawName>],
    scope: &FigureScope,
) -> M<()>
    ensures { OnOk result ((defined : Defined) → KnowsAll defined scope.now
        → ListsAlso defined (exprs_of_entities (written_entities Raw raw_reference types.now))
        listed.old.items listed.new.items) }
{
    for item in types {
        list_entity_type(listed, &item.0, &item.1, scope)?;
    }
    Ok(())
}

/// Adds the context of an action, unless it is defined elsewhere.
fn list_action(
    listed: &mut Vec<Measured>,
    uid: &EntityUID,
    written: &Written<ActionFragment<RawName, RawName>>,
    scope: &FigureScope,
) -> M<()>
    ensures { OnOk result ((defined : Defined) → KnowsAll defined scope.now
        → ListsAlso defined (context_exprs (uid_of uid.now)
        (written_action_body Raw raw_reference written.now).applies_to)
        listed.old.items listed.new.items) }
{
    let Some(requests) = &written.declared.requests else {
        return Ok(());
    };
    listed.push(Measured {
        declared: DeclaredType::Context(uid.clone()?),
        figure: measure(&requests.context, written.namespace(), scope)?,
    })?;
    Ok(())
}

/// Adds the contexts of actions.
pub(crate) fn list_actions(
    listed: &mut Vec<Measured>,
    actions: &[DeclaredAction<RawName>],
    scope: &FigureScope,
) -> M<()>
    ensures { OnOk result ((defined : Defined) → KnowsAll defined scope.now
        → ListsAlso defined (exprs_of_actions (written_actions Raw raw_reference actions.now))
        listed.old.items listed.new.items) }
{
    for item in actions {
        list_action(listed, &item.0, &item.1, scope)?;
    }
    Ok(())
}
