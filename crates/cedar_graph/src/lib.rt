//! Graphs: nodes closed over chains of edges, and numbers in topological order.
//!
//! [`compute_tc`] gives each node of a map ([`TCNode`]) an edge to all that a chain of edges
//! reaches, or names a node on a cycle ([`TcError`]); [`compute_tc_counted`] counts its work too.
//! [`close_table`] closes a table in the same way, and [`link_table`] gives the nodes of one the
//! edges that chains of a list of edges lead to, or they say what is at fault ([`TableFault`]).
//! [`topo_sort`] orders numbers, each after those that it leads to ([`Ordered`]), and
//! [`lowest_first`] does so too, but passes over cycles.
//!
//! To close a map, keys and targets of edges are numbered, and each key has a list of the numbers
//! of its targets. What a key reaches is gathered from list to list, each number once, and becomes
//! edges again. A target without a node has a number and no list, so it leads no further.
#![tactic(auto)]

pub use closure::{compute_tc, compute_tc_counted};
pub use ordering::{Ordered, lowest_first, topo_sort};
pub use table_closing::close_table;
pub use table_fault::TableFault;
pub use table_linking::link_table;
pub use tc_error::TcError;
pub use tc_node::TCNode;

mod closing;
mod closure;
mod list_edges;
mod numbering;
mod ordering;
mod places;
mod table_closing;
mod table_fault;
mod table_linking;
mod targets;
mod tc_error;
mod tc_node;
