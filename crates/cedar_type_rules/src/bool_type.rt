//! What is known of a truth value.

ghost use Rattle.std.specs.Prelude.{◌≡◌};

use cedar_ast::M;
use std::fmt;

/// What is known of a truth value.
#[derive(Debug, Drop, PartialEq, Eq, PartialOrd, Ord, Hash)]
pub enum BoolType {
    /// It may be true or false.
    AnyBool,
    /// It is true.
    True,
    /// It is false.
    False,
}

impl BoolType {
    /// An equal value. It takes no memory, so it is never refused.
    pub fn clone(&self) -> M<Self>
        ensures { result ≡ Ok self.now }
    {
        Ok(match self {
            BoolType::AnyBool => BoolType::AnyBool,
            BoolType::True => BoolType::True,
            BoolType::False => BoolType::False,
        })
    }
}

impl fmt::Display for BoolType {
    ghost use Rattle.cedar_type_rules.specs.Words.{Some, bool_text};

    ghost output = { λ known. Some (bool_text known) };

    fn fmt<W: fmt::Write>(&self, f: &mut fmt::Formatter<W>) -> fmt::Result {
        f.write_str(match self {
            BoolType::AnyBool => "Bool",
            BoolType::True => "__cedar::internal::True",
            BoolType::False => "__cedar::internal::False",
        })
    }
}
