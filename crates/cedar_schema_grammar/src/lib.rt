//! The grammar of Cedar's schema text (Cedar reference, "Schema format").
//!
//! [`read`] gives the [`Member`]s of a schema, namespaces and declarations as they are written,
//! each with its place, from the tokens of a text. A [`GrammarFault`] says at which token no
//! schema goes on, or where types nest too deep.
#![tactic(auto)]

mod cursor;
mod fault;
mod reading;
mod tree;

pub use fault::GrammarFault;
pub use reading::schema::{one_reading, read};
pub use tree::{
    Applies, Attribute, Body, Declaration, Item, Member, Name, Parent, Part, Path, Says, Type,
};
