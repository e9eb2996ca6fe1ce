//! The traits of what has joins and of the nodes of a graph, with their laws, and the calls over
//! them.

pub use cedar_graph::{TCNode, TcError, compute_tc, compute_tc_counted};
pub use cedar_types::{JoinOrder, reduce};
