//! Tests of types, of entity types and of actions.

mod actions;
mod attributes;
mod between;
mod copies;
mod core_types;
mod divergence;
mod edges;
mod entity_types;
mod joins;
mod large;
mod pairs;
mod requests;
mod separate;
pub(crate) mod test_values;
mod types;
