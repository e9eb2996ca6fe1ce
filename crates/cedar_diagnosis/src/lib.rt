//! Every fault of some fragments at once.
//!
//! [`faults`] goes over what fragments declare, which is lent to it, and tells what the builder
//! would refuse them for, each fault once.
#![tactic(auto)]

pub use diagnosis::faults;

mod action_attributes;
mod action_cycles;
mod action_entity_types;
mod common_type_cycles;
mod cycles;
mod defined;
mod diagnosis;
mod duplicates;
mod enumerated;
mod finding;
mod lent;
mod listing;
mod mentions;
mod named_action;
mod names;
mod open_records;
mod parent_key;
mod positions;
mod reference_key;
mod repeated;
mod shadowing;
mod type_pair;
mod undeclared_types;
mod undefined_parents;
mod undefined_types;
mod unknown_extensions;
