//! An action that a definition declares.

ghost use Rattle.cedar_ast.specs.Words.{IsActionType, uid_of};

use crate::namespace::actions::ActionFragment;
use cedar_ast::EntityUID;

/// An action under its uid, whose location is that of the whole declaration.
#[derive(Debug, Drop)]
pub struct ActionDef<N, A> {
    /// The uid.
    pub uid: EntityUID,
    /// What is declared of the action.
    pub fragment: ActionFragment<N, A>,
    pub ghost is_action: { IsActionType (uid_of uid).ty },
}
