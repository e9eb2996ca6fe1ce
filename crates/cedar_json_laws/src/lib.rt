//! A schema that goes through Cedar's JSON schema format comes back.
//!
//! [`theorems`] has the law, and there is no other code: what is written of a built schema, and
//! read and built again, is an equal schema, or memory runs out. The calls are `to_json_schema` and
//! `from_schema_frag` of `cedar_schema`, `fragment_to_json` of `cedar_json_writer` and
//! `fragment_from_json` of `cedar_json`; what each of them promises is all that the law rests on.
//!
//! It stands in a crate of its own so that neither the writer nor the schema has to wait for the
//! other.
#![tactic(auto)]

pub mod theorems;
