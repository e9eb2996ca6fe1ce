//! The two modes of validation: strict and permissive.

/// How far types may differ and still be related.
#[derive(Clone, Copy, Debug, PartialEq, Eq)]
pub enum ValidationMode {
    /// Types are related only where they agree in attributes, flags and entity types.
    Strict,
    /// Types may differ in what is required, in entity types, and in what an open record does not
    /// list.
    Permissive,
}
