//! Cedar's schema text means what it was written of.
//!
//! [`theorems`] has the laws, and there is no other code. Schema text can't say all that the data
//! types say: a built-in type is written as a name, and a reference doesn't say of which kind it
//! is. So what reads back of a fragment is its text form. Where the fragments of a schema can be
//! written beside each other, they are refused exactly where their text forms are, and otherwise
//! both build the same schema.
#![tactic(auto)]

pub mod theorems;
