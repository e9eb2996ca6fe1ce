//! Schemas of the Cedar policy language: declarations in, a schema or a refusal out.
//!
//! [`ValidatorSchema`] is a schema. It is built from fragments, by `from_raw_fragments` and the
//! calls beside it, or put together by hand and checked by `try_validate`. It answers what it
//! declares (`get_entity_type`, `ancestors`, `unlinked_request_envs` and others), and is converted
//! back as a fragment by `to_json_schema`. [`SchemaError`] says why there is none. [`Type`] is a
//! type of the validator, with subtyping, joins and membership of values; [`compute_tc`] closes a
//! graph. Fragments are the plain data of [`json_schema`], which the crate `cedar_json` reads from
//! text.
//!
//! ```ignore
//! let extensions = cedar_extensions(alloc)?;
//! let fragment = fragment_from_json(alloc, text, 0)?;
//! let schema = ValidatorSchema::from_schema_frag(alloc, fragment, &extensions)?;
//! for env in schema.unlinked_request_envs(ValidationMode::Strict) {
//!     println!(rt; "{} {} {}", env.principal, env.action, env.resource)?;
//! }
//! ```
//!
//! What isn't at the root stands in modules: [`below`] (names, uids, values, extensions), [`defs`]
//! and [`namespace`] (fragments on the way to full names), [`lookup`] (what a schema knows of
//! types), [`member`] (values that tell two types apart), and [`theorems`] (laws of schemas). The
//! modules [`types`], [`show`], [`laws`], [`entity_type`], [`action`] and [`schema`] give items of
//! the root by subject.
#![tactic(auto)]

pub use cedar_counterexample as member;
pub use cedar_fragments::namespace;
pub use cedar_graph::{TCNode, TcError, compute_tc, compute_tc_counted};
pub use cedar_name_resolution::defs;
pub use cedar_queries::{
    ActionGroups, ActionsFor, Ancestors, ApplicableTypes, CompleteError, IncompleteSchemaError,
    RequestEnvs, TypeIterator, UnresolvedDeclaration, UnresolvedDeclarations,
};
pub use cedar_schema_ast::{below, json_schema};
pub use cedar_schema_elements::{
    RequestEnv, RequestTypes, StandardValidatorEntityType, TypeSet, UnlinkedRequestEnv,
    ValidatorActionId, ValidatorApplySpec, ValidatorEntityType, ValidatorEntityTypeKind,
};
pub use cedar_schema_semantics::{ContextOrShape, SchemaError, UnsupportedFeature};
pub use cedar_schema_writer::WriteBackFault;
pub use cedar_types::{
    AttributeType, Attributes, BoolType, CoreTypeFault, EntityKind, EntityLUB, Entries, JoinError,
    JoinOrder, LubHelp, Names, OpenTag, Type, core_type_of, reduce,
};
pub use iterators::{ActionIds, Actions, EntityTypeNames, EntityTypes, Namespaces};
pub use located_common_type::LocatedCommonType;
pub use located_namespace::LocatedNamespace;
pub use located_type::LocatedType;
pub use schema::ValidatorSchema;

pub mod action;
mod building;
mod collected_fragments;
mod collecting;
mod common_types;
mod converted_back;
pub mod entity_type;
mod existing;
mod iterators;
pub mod laws;
mod located;
mod located_common_type;
mod located_namespace;
mod located_type;
pub mod lookup;
mod namespaces;
mod queries;
mod raw;
pub mod schema;
mod shared;
pub mod show;
pub mod theorems;
mod type_locations;
pub mod types;
