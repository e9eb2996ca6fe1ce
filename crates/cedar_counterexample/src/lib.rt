//! Values that separate two types: the first type has such a value, and the second hasn't.
//!
//! `outside` decides whether each value of one type is a value of another, and says where the two
//! part if not; `attributes_outside` does the same of attributes, and `value_outside` gives the
//! value alone. `separating_value` decides whether one type is below another, where that is the
//! same. `sample_value` and `sample_attributes` give some value of a type. `outside_between` and
//! `attributes_outside_between` do the same between two versions of a schema, whose [`Scope`] says
//! which uids exist in them, and `existing_value` and `existing_attributes` give values that name
//! what exists.
#![tactic(auto)]

pub use between::{
    AttributesOutsideBetween, OutsideBetween, attributes_outside_between, existing_attributes,
    existing_value, outside_between,
};
pub use divergence::{attributes_outside, outside, separating_value, value_outside};
pub use found::{AttributesOutside, Outside};
pub use record_shape::RecordShape;
pub use sampling::{sample_attributes, sample_value};
pub use scope::Scope;
pub use steps::Step;

mod between;
mod divergence;
mod exchange;
mod found;
mod fresh;
mod leaves;
mod named;
mod naming;
mod putting;
mod record_shape;
mod samples;
mod sampling;
mod scope;
mod search;
mod separating;
mod steps;
mod unions;
