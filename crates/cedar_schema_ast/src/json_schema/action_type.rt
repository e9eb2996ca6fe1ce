//! Declarations of actions.

ghost use Rattle.std.specs.Fmt.{WritesOnOk};
ghost use Rattle.std.specs.Option.{option_map};
ghost use Rattle.std.specs.Prelude.{string_bytes};
ghost use Rattle.cedar_schema_ast.specs.Words.{action_reference_text, conditional_reference, written_type_text};

use crate::json_schema::conditional_name::{ConditionalName, write_possibilities};
use crate::json_schema::entity_type::AttributesOrContext;
use cedar_ast::{Loc, Quoted, Value};
use std::collections::BTreeMap;
use std::fmt;

/// The declaration of an action.
#[derive(Debug, Drop)]
pub struct ActionType<N> {
    /// The action's attributes, each a value under its name, or None where none are written.
    pub attributes: Option<BTreeMap<String, Value>>,
    /// The `appliesTo` part: the requests that the action is for. None where it isn't written, and
    /// then the action is for no request.
    pub applies_to: Option<ApplySpec<N>>,
    /// The `memberOf` part: the groups of actions that the action is directly in, or None where
    /// none are written.
    pub member_of: Option<Vec<ActionEntityUID<N>>>,
    /// Whether the declaration is external: the action is defined elsewhere, and only its name and
    /// its groups count here.
    pub external: bool,
    /// Where the action's name was written, if that is known.
    pub loc: Option<Loc>,
    /// Where the whole declaration was written, if that is known.
    pub defn_loc: Option<Loc>,
}

/// The requests that an action is for: those whose principal and resource have listed types, and
/// whose context has the given type.
#[derive(Debug, Drop)]
pub struct ApplySpec<N> {
    /// The entity types that the principal may have.
    pub principal_types: Vec<N>,
    /// The entity types that the resource may have.
    pub resource_types: Vec<N>,
    /// The record type of the context.
    pub context: AttributesOrContext<N>,
}

/// A reference to an action.
#[derive(Debug, Drop)]
pub struct ActionEntityUID<N> {
    /// The action's id.
    pub id: String,
    /// The name of the action's type, or None for a type that is written as `Action`.
    pub ty: Option<N>,
    /// Where the reference was written, if that is known.
    pub loc: Option<Loc>,
}

/// Writes what the type of an action may stand for, behind the action's id.
fn write_type<W: fmt::Write>(ty: &Option<ConditionalName>, f: &mut fmt::Formatter<W>) -> fmt::Result
    ensures { WritesOnOk W.write_str_gives f.old result
        (written_type_text (option_map conditional_reference ty.now)) f.new }
{
    match ty {
        Some(ty) => {
            f.write_str(" of type ")?;
            write_possibilities(ty, f)
        }
        None => f.write_str(" of no written type"),
    }
}

/// Prints the id in quotes, and the names that its type may stand for, in order, as
/// `"view" of type N::Action or Action`.
impl fmt::Display for ActionEntityUID<ConditionalName> {
    ghost use Rattle.std.specs.Prelude.{Some};

    ghost output = { λ it. Some (action_reference_text (string_bytes it.id)
        (option_map conditional_reference it.ty)) };

    fn fmt<W: fmt::Write>(&self, f: &mut fmt::Formatter<W>) -> fmt::Result {
        write!(f, "{}", Quoted(self.id.as_str()))?;
        write_type(&self.ty, f)
    }
}
