//! Schema fragments as plain data: what a schema declares, before its names are resolved.
//!
//! The parameter `N` of most types is the form of a reference to a type: a name as it was written,
//! or one of the forms that the name takes as it is resolved.

pub use action_type::{ActionEntityUID, ActionType, ApplySpec};
pub use common_type_id::CommonTypeId;
pub use conditional_name::ConditionalName;
pub use declaration_copies::copied_names;
pub use entity_type::{AttributesOrContext, EntityType, EntityTypeKind, StandardEntityType};
pub use fragment::{CommonType, Fragment, NamespaceDefinition};
pub use fragment_name::FragmentName;
pub use qualify_error::{QualifyError, TypeNotDefinedError};
pub use raw_name::RawName;
pub use reference_type::ReferenceType;
pub use type_of::{RecordType, Type, TypeOfAttribute, TypeVariant};

mod action_type;
mod common_type_id;
mod conditional_name;
mod copying;
mod declaration_copies;
mod entity_type;
mod fragment;
mod fragment_name;
mod nesting;
mod qualify;
mod qualify_error;
mod raw_name;
mod reference_type;
mod references_fit;
mod type_of;
