//! Copies of actions.

ghost use Rattle.std.specs.Prelude.{IfOk, Some};
ghost use Rattle.cedar_fragments.specs.Words.{IsActionDefCopy, IsActionFragmentCopy, IsActionParentCopy, IsActionsDefCopy, IsRequestsCopy};

use crate::namespace::action_def::ActionDef;
use crate::namespace::actions::{ActionFragment, ActionParent, ActionRequests, ActionsDef};
use cedar_ast::{M, copied_items};
use cedar_schema_ast::json_schema::{FragmentName, copied_names};

impl<N: FragmentName + Drop> ActionRequests<N> {
    /// Equal requests with the same locations. Out of memory is the only refusal.
    pub fn clone(&self) -> M<Self>
        ensures { IfOk result (λ copy.
            IsRequestsCopy N.is_alike (Some self.now) (Some copy)) }
    {
        Ok(ActionRequests {
            principals: copied_names(&self.principals)?,
            resources: copied_names(&self.resources)?,
            context: self.context.clone()?,
        })
    }
}

/// Equal requests with the same locations, or none where the action is external.
fn copied_requests<N: FragmentName + Drop>(
    requests: &Option<ActionRequests<N>>,
) -> M<Option<ActionRequests<N>>>
    ensures { IfOk result (IsRequestsCopy N.is_alike requests.now) }
{
    match requests {
        None => Ok(None),
        Some(requests) => Ok(Some(requests.clone()?)),
    }
}

impl<A: FragmentName + Drop> ActionParent<A> {
    /// An equal parent with the same locations. Out of memory is the only refusal.
    pub fn clone(&self) -> M<Self>
        ensures { IfOk result (IsActionParentCopy A.is_alike self.now) }
    {
        Ok(ActionParent {
            id: self.id.clone()?,
            ty: self.ty.copied()?,
            loc: self.loc,
        })
    }
}

impl<N: FragmentName + Drop, A: FragmentName + Drop> ActionFragment<N, A> {
    /// Equal declarations with the same locations. Out of memory is the only refusal.
    pub fn clone(&self) -> M<Self>
        ensures { IfOk result (IsActionFragmentCopy N.is_alike A.is_alike self.now) }
    {
        Ok(ActionFragment {
            requests: copied_requests(&self.requests)?,
            parents: copied_items(&self.parents, ActionParent::clone)?,
            loc: self.loc,
        })
    }
}

impl<N: FragmentName + Drop, A: FragmentName + Drop> ActionDef<N, A> {
    /// An equal action with the same locations. Out of memory is the only refusal.
    pub fn clone(&self) -> M<Self>
        ensures { IfOk result (IsActionDefCopy N.is_alike A.is_alike self.now) }
    {
        Ok(ActionDef {
            uid: self.uid.clone()?,
            fragment: self.fragment.clone()?,
        })
    }
}

impl<N: FragmentName + Drop, A: FragmentName + Drop> ActionsDef<N, A> {
    /// Equal actions with the same locations, in their order. Out of memory is the only refusal.
    pub fn clone(&self) -> M<Self>
        ensures { IfOk result (IsActionsDefCopy N.is_alike A.is_alike self.now) }
    {
        let defs = copied_items(&self.defs, ActionDef::clone)?;
        Ok(ActionsDef { defs })
    }
}
