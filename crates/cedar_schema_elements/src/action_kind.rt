//! How an action of a schema is declared.

ghost use Rattle.std.specs.Prelude.{◌≡◌, IfOk};
ghost use Rattle.cedar_schema_elements.specs.ActionKind.{plain_kind};

use crate::type_set::TypeSet;
use cedar_ast::{EntityUID, M};
use cedar_types::Type;
use std::rc::Rc;

/// The requests that an action is for: each of these principals with each of these resources, whose
/// context is of this type. Copies of the action share them, and so do their environments.
///
/// Equality ignores the action, whose uid an action has besides.
#[derive_where(Debug, PartialEq, Eq)]
pub(crate) struct DefinedRequests {
    #[derive_where(skip(EqHashOrd))]
    pub(crate) action: EntityUID,
    pub(crate) principals: TypeSet,
    pub(crate) resources: TypeSet,
    pub(crate) context: Type,
}

// Written out: proofs of what holds requests then see one call, and nothing of their parts.
impl Drop for DefinedRequests {
    fn drop(self) {
        let DefinedRequests {
            action: _action,
            principals: _principals,
            resources: _resources,
            context: _context,
        } = self;
    }
}

impl DefinedRequests {
    ghost use Rattle.std.specs.Prelude.{◌≡◌, IfOk};
    ghost use Rattle.cedar_schema_elements.specs.Words.{kind_of_requests, uid_of};

    /// The same requests under this uid. Out of memory is the only refusal.
    pub(crate) fn under(&self, uid: &EntityUID) -> M<Self>
        ensures action { IfOk result (λ it. uid_of it.action ≡ uid_of uid.now) }
        ensures kind { IfOk result (λ it. kind_of_requests it ≡ kind_of_requests self.now) }
    {
        Ok(DefinedRequests {
            action: uid.clone()?,
            principals: self.principals.clone()?,
            resources: self.resources.clone()?,
            context: self.context.clone()?,
        })
    }
}

/// How an action of a schema is declared.
#[derive(Debug, Drop, PartialEq, Eq)]
pub(crate) enum ValidatorActionKind {
    /// By the requests that it is for.
    Defined { requests: Rc<DefinedRequests> },
    /// Elsewhere.
    External,
}

impl ValidatorActionKind {
    /// The same kind. Its requests are shared.
    pub(crate) fn clone(&self) -> M<Self>
        ensures { IfOk result (λ copy. plain_kind copy ≡ plain_kind self.now) }
    {
        Ok(match self {
            ValidatorActionKind::Defined { requests } => ValidatorActionKind::Defined {
                requests: requests.clone()?,
            },
            ValidatorActionKind::External => ValidatorActionKind::External,
        })
    }
}
