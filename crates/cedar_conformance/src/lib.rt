//! Requests, held against a schema.
//!
//! [`check_request`] accepts exactly the requests of a schema, and else names what is at fault: of a
//! context with the steps down to the part that doesn't fit. Nothing is copied where nothing is at
//! fault.
#![tactic(auto)]

pub use request::{Request, check_request};
pub use request_fault::RequestFault;
pub use value_fault::{ValueFault, ValueFaultKind, ValueStep};

mod checking;
mod mismatch;
mod naming;
mod request;
mod request_fault;
mod value_fault;
