//! Laws of declarations: what a bag declares, and when two bags declare the same.
//!
//! [`theorems`] has them, and there is no other code. A bag that isn't ill-formed declares one
//! schema and only one, whose types have just the declared values. Resolving its references changes
//! nothing, and neither do the order and the split of its declarations. A schema that is converted
//! back as declarations is declared by them again.
#![tactic(auto)]

pub mod theorems;
