//! Schema fragments, written as Cedar's schema text (Cedar reference, schema format).
//!
//! [`fragment_to_text`] writes a fragment beside the others of its schema. What the format can't
//! say is refused ([`TextWriteFault`]), with what it is ([`Unwritable`]) and where ([`Place`]).
#![tactic(auto)]

mod actions;
mod check_declarations;
mod check_types;
mod declarations;
mod entity_types;
mod fault;
mod known;
mod lists;
mod names;
mod pieces;
mod scope;
mod stop;
mod text;
mod types;

pub use fault::{Declared, Part, Place, TextWriteFault, Unwritable};
pub use scope::Standing;
pub use text::fragment_to_text;
