//! Values whose uids are exchanged for such as exist.

ghost use Rattle.std.specs.Prelude.{◌<◌, IfOk, length};
ghost use Rattle.cedar_counterexample.specs.Words.{AreExchanged, EntriesAreExchanged, IsExchanged, StandsFor, entries_of, tree_of, trees_of, uid_of};

use crate::fresh::longer_type;
use crate::putting::put;
use crate::scope::Scope;
use cedar_ast::{Eid, EntityUID, M, RestrictedExpr};
use std::alloc::Global;
use std::collections::BTreeMap;

/// What uids are exchanged by: which uids exist, and a length that the names of entity types are to
/// have at least where another type has to do.
#[derive(Drop)]
pub(crate) struct Exchange<'a, S> {
    pub(crate) alloc: Global,
    pub(crate) scope: &'a S,
    pub(crate) longest: usize,
}

/// A uid that exists, of an entity type with a longer name than is given.
fn other_uid<S: Scope>(exchange: &Exchange<'_, S>) -> M<EntityUID>
    ensures { IfOk result (λ uid. S.ExistsInOld exchange.now.scope.now (uid_of uid)
        × (exchange.now.longest < length (uid_of uid).ty.base)) }
{
    let ty = longer_type(exchange.alloc, exchange.longest)?;
    let uid = EntityUID::new(ty, Eid(String::new(exchange.alloc)), None);
    match exchange.scope.existing(&uid)? {
        Some(uid) => Ok(uid),
        None => unreachable!(),
    }
}

/// The uid that stands for another: one of the same type that exists, if there is one.
fn exchanged_uid<S: Scope>(exchange: &Exchange<'_, S>, uid: &EntityUID) -> M<EntityUID>
    ensures { IfOk result (λ it. StandsFor (S.ExistsInOld exchange.now.scope.now)
        exchange.now.longest (uid_of uid.now) (uid_of it)) }
{
    match exchange.scope.existing(uid)? {
        Some(uid) => Ok(uid),
        None => other_uid(exchange),
    }
}

/// Values whose uids are exchanged, in their order.
#[cycle(exchange)]
fn exchanged_each<S: Scope>(
    exchange: &Exchange<'_, S>,
    values: &[RestrictedExpr],
) -> M<Vec<RestrictedExpr>>
    ensures { IfOk result (λ others. AreExchanged (StandsFor (S.ExistsInOld exchange.now.scope.now)
        exchange.now.longest) (trees_of values.now) (trees_of others.items)) }
{
    let mut others = Vec::new(exchange.alloc);
    for value in values {
        others.push(exchanged_value(exchange, value)?)?;
    }
    Ok(others)
}

/// The values of a record whose uids are exchanged, each under its name.
#[cycle(exchange)]
pub(crate) fn exchanged_entries<S: Scope>(
    exchange: &Exchange<'_, S>,
    values: &BTreeMap<String, RestrictedExpr>,
) -> M<BTreeMap<String, RestrictedExpr>>
    ensures { IfOk result (λ others. EntriesAreExchanged
        (StandsFor (S.ExistsInOld exchange.now.scope.now) exchange.now.longest)
        (entries_of values.now) (entries_of others)) }
{
    let mut others = BTreeMap::new(exchange.alloc);
    for (name, value) in values {
        let other = exchanged_value(exchange, value)?;
        put(&mut others, name.clone()?, other)?;
    }
    Ok(others)
}

/// A value whose uids are exchanged for such as exist: of the same types where there are some, and
/// else of one with a longer name than is given.
#[cycle(exchange)]
pub(crate) fn exchanged_value<S: Scope>(
    exchange: &Exchange<'_, S>,
    expr: &RestrictedExpr,
) -> M<RestrictedExpr>
    ensures { IfOk result (λ other. IsExchanged
        (StandsFor (S.ExistsInOld exchange.now.scope.now) exchange.now.longest)
        (tree_of expr.now) (tree_of other)) }
{
    match expr {
        RestrictedExpr::EntityUid(uid) => {
            Ok(RestrictedExpr::EntityUid(exchanged_uid(exchange, uid)?))
        }
        RestrictedExpr::Set(values) => Ok(RestrictedExpr::Set(exchanged_each(exchange, values)?)),
        RestrictedExpr::Record(values) => {
            Ok(RestrictedExpr::Record(exchanged_entries(exchange, values)?))
        }
        _ => expr.clone(),
    }
}
