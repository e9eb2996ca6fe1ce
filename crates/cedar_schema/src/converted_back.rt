//! A schema converted back as a fragment.

use crate::schema::ValidatorSchema;
use cedar_schema_ast::json_schema::{Fragment, RawName};
use cedar_schema_writer::{WriteBackFault, json_schema};
use std::alloc::Global;

impl ValidatorSchema {
    ghost use Rattle.std.specs.Prelude.{IfErr, IfOk, OnOk};
    ghost use Rattle.cedar_schema.specs.Words.{AreProper, IsConvertedBack, IsWritable, Refuses, raw_fragment, schema_of};

    /// The fragment that declares the schema again: one declaration for each entity type and each
    /// action, with a definition for each namespace that has one. Common types are unfolded, names
    /// are written in full, parents are all that have the name among their descendants, and an
    /// action has an `appliesTo` part exactly if it is defined.
    ///
    /// It answers `Unwritable` exactly where no fragment would say the same: a type is none that a
    /// schema can write (`True`, `False`, `Never`, the any-set, any entity, a union of two entity
    /// types, an open record, an extension type with a namespace), a descendant isn't in the schema
    /// or is enumerated, the uid of an action isn't one of an action, or a name without a namespace
    /// is written in a namespace that has another of that base name. Of a built schema only the
    /// last can be. `Memory` is that memory ran out.
    pub fn to_json_schema(&self, alloc: Global) -> Result<Fragment<RawName>, WriteBackFault>
        ensures writable { OnOk result (IsWritable (schema_of self.now)) }
        ensures written { IfOk result (λ fragment.
            IsConvertedBack (schema_of self.now) (raw_fragment fragment)) }
        ensures definitions { IfOk result (λ fragment. AreProper fragment.0.entries) }
        ensures refusal { IfErr result (Refuses (¬ IsWritable (schema_of self.now))) }
    {
        json_schema(
            alloc,
            &self.content().tables.entity_types,
            &self.content().tables.actions,
        )
    }
}
