//! Core types of types: those that extension functions are typed by.

pub use cedar_types::{CoreTypeFault, core_type_of};
