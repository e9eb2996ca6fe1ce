//! Tables: values by key that don't change, in the order of their keys.
//!
//! [`Table`] is made of a map, and finds a value by a hint from its key's hash. Contracts speak of
//! the list alone.
#![tactic(auto)]

pub use copying::copied_table;
pub use iter::{Column, Iter, Keys, Values};
pub use table::Table;
pub use table_keys::TableKeys;

mod comparing;
mod copying;
mod hints;
mod iter;
mod search;
mod table;
mod table_keys;
