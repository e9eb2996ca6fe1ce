//! Values and the expressions that they are given by.

ghost use Rattle.std.specs.Prelude.{◌≡◌, IfOk};
ghost use Rattle.cedar_ast.specs.Words.{IsCopy, tree_of, value_expr};

use crate::entity_uid::EntityUID;
use crate::memory::M;
use crate::name::Name;
use crate::value_copies::copy_of;
use std::collections::BTreeMap;

/// A value as it is written: a literal, a set, a record, or a call of an extension function.
#[derive(Debug, Drop)]
pub enum RestrictedExpr {
    /// A truth value.
    Bool(bool),
    /// A whole number.
    Long(i64),
    /// A text.
    String(String),
    /// A reference to an entity.
    EntityUid(EntityUID),
    /// A set, seen as the set of its elements: their order and repeats don't matter.
    Set(Vec<RestrictedExpr>),
    /// A record: a value for each of its attributes.
    Record(BTreeMap<String, RestrictedExpr>),
    /// A call of an extension function.
    ExtensionCall {
        /// The function's name.
        function: Name,
        /// The arguments, in order.
        args: Vec<RestrictedExpr>,
    },
}

impl RestrictedExpr {
    /// An expression that stands for the same value. Out of memory is the only refusal.
    pub fn clone(&self) -> M<Self>
        ensures { IfOk result (λ copy. IsCopy (tree_of self.now) (tree_of copy)) }
    {
        copy_of(self)
    }
}

/// A value, given by an expression that stands for it.
#[derive(Debug)]
pub struct Value {
    expr: RestrictedExpr,
}

// Written out: proofs of what holds values then see one call, and nothing of the expression.
impl Drop for Value {
    fn drop(self) {
        let Value { expr: _expr } = self;
    }
}

impl Value {
    /// The value that an expression stands for.
    pub fn new(expr: RestrictedExpr) -> Self
        ensures { value_expr result ≡ expr }
    {
        Value { expr }
    }

    /// An expression that stands for the value.
    pub fn expr(&self) -> &RestrictedExpr
        ensures { result.now ≡ value_expr self.now }
    {
        &self.expr
    }

    /// The same value. Out of memory is the only refusal.
    pub fn clone(&self) -> M<Self>
        ensures { IfOk result (λ copy.
            IsCopy (tree_of (value_expr self.now)) (tree_of (value_expr copy))) }
    {
        Ok(Value::new(self.expr.clone()?))
    }
}
