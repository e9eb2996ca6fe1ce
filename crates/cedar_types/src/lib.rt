//! The types of the Cedar validator.
//!
//! [`Type`] is a type: a truth value, a number, a text, entities ([`EntityKind`], [`EntityLUB`]), a
//! set, a record ([`Attributes`]) or an extension type. It has subtyping (`is_subtype`), least
//! upper bounds (`least_upper_bound`, `reduce_to_least_upper_bound`), membership of values
//! (`typecheck_value`) and printing. [`core_type_of`] gives the core type of a type. Contracts cite
//! the rules of `cedar_type_rules`, of which [`theorems`] has the laws over these types.
#![tactic(auto)]

pub use attributes::{AttributeType, Attributes};
pub use cedar_name_map::{Entries, Names};
pub use cedar_type_rules::{
    BoolType, CoreTypeFault, JoinError, JoinOrder, LubHelp, OpenTag, reduce,
};
pub use core_type::core_type_of;
pub use entity_kind::EntityKind;
pub use entity_lub::EntityLUB;
pub use types::Type;

mod attributes;
mod clean;
mod consistent;
mod core_type;
mod entity_kind;
mod entity_lub;
mod entries_left;
mod join;
mod join_order;
mod member;
mod show;
mod stated;
mod subtype;
pub mod theorems;
mod type_queries;
mod types;
