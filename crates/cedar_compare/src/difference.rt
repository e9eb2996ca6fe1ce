//! Differences between two versions of a schema.

ghost use Rattle.std.specs.Prelude.{◌≡◌};
ghost use Rattle.std.specs.Option.{option_map};
ghost use Rattle.cedar_compare.specs.Words.{plain_cause, steps_of, uid_of, values_apart};

use cedar_ast::{Entity, EntityType, EntityUID, Value};
use cedar_counterexample::Step;

/// A request: its principal, its action and its resource, and its context.
#[derive(Debug, Drop)]
pub struct Request {
    /// The uid of the principal.
    pub principal: EntityUID,
    /// The uid of the action.
    pub action: EntityUID,
    /// The uid of the resource.
    pub resource: EntityUID,
    /// The context. It is a record wherever the type of the action's context is one.
    pub context: Value,
}

/// A part of an entity or of a request that has values.
#[derive(Clone, Copy, Debug, Drop, PartialEq, Eq)]
pub enum Part {
    /// The attributes of an entity.
    Attributes,
    /// The tags of an entity.
    Tags,
    /// The context of a request.
    Context,
}

/// Why a schema lacks an entity or a request of another.
#[derive(Debug, Drop)]
pub enum Cause {
    /// It has no such entity type, action or environment, or has the entity type of another sort:
    /// the one standard and the other enumerated.
    Gone,
    /// This uid isn't one of the choices of its type, which is enumerated there. It is that of the
    /// entity, of one of its ancestors, or of the principal or the resource of the request.
    Choice(EntityUID),
    /// This entity type isn't above that of the entity any more.
    AncestorType(EntityType),
    /// This action is above that of the entity in one of the two schemas alone.
    AncestorAction(EntityUID),
    /// The type of the attributes isn't included in that of the other: at the end of these steps a
    /// part of the one has values that the other's hasn't, or an attribute is lacking or required
    /// in one of them alone.
    Attributes(Vec<Step>),
    /// The same of the types of the tags, or the other has none.
    Tags(Vec<Step>),
    /// The same of the types of the context.
    Context(Vec<Step>),
    /// Values of this part may name this uid, which exists in the one schema and not in the other:
    /// it is no longer a choice of its type, or an action. Whatever they name, each value of the
    /// one type is one of the other's; the steps lead down to where they may name it.
    NoSuchEntity {
        /// The part.
        part: Part,
        /// The steps down its type.
        steps: Vec<Step>,
        /// The uid.
        uid: EntityUID,
    },
}

/// Why values of a part are lost: at the end of these steps the types part, or, where there is a
/// uid, they lead to where it may be named.
pub(crate) fn part_cause(part: Part, steps: Vec<Step>, lost: Option<EntityUID>) -> Cause
    ensures { plain_cause result ≡ values_apart part (steps_of steps) (option_map uid_of lost) }
{
    if let Some(uid) = lost {
        return Cause::NoSuchEntity { part, steps, uid };
    }
    match part {
        Part::Attributes => Cause::Attributes(steps),
        Part::Tags => Cause::Tags(steps),
        Part::Context => Cause::Context(steps),
    }
}

/// Something that one schema admits and another doesn't, and why.
#[derive(Debug, Drop)]
pub enum Difference {
    /// An entity of an entity type, which is the type in its uid.
    EntityType {
        /// The entity.
        witness: Entity,
        /// Why the other schema lacks it.
        cause: Cause,
    },
    /// The entity of the action of its uid.
    Action {
        /// The entity.
        witness: Entity,
        /// Why the other schema lacks it.
        cause: Cause,
    },
    /// A request of the environment of the types of its principal and resource, and of its action.
    Environment {
        /// The request.
        witness: Request,
        /// Why the other schema lacks it.
        cause: Cause,
    },
}
