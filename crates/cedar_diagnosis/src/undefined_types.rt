//! References that name nothing.

ghost use Rattle.std.specs.Prelude.{◌≡◌, ◌∷◌, [], IfOk, OnOk, map};
ghost use Rattle.cedar_diagnosis.specs.Adding.{Adds, SomeGives};
ghost use Rattle.cedar_diagnosis.specs.Finding.{FindsUndefinedType, IsUndefinedType};
ghost use Rattle.cedar_diagnosis.specs.KeyTies.{undefined_types_tie};
ghost use Rattle.cedar_diagnosis.specs.Mentioned.{reference_of};
ghost use Rattle.cedar_diagnosis.specs.ReferenceKeys.{key_reference};
ghost use Rattle.cedar_name_resolution.specs.Words.{held_names};
ghost use Rattle.cedar_schema_semantics.specs.Words.{fault_of, type_not_defined};

use crate::finding::{FaultKind, Finds, add_key};
use crate::lent::Lent;
use crate::mentions::{WrittenReference, mentions_of};
use crate::positions::positions_of;
use crate::reference_key::{ReferenceKey, reference_key};
use cedar_ast::{M, NonEmpty};
use cedar_name_resolution::defs::{AllDefs, WrittenName};
use cedar_schema_ast::json_schema::TypeNotDefinedError;
use cedar_schema_semantics::SchemaError;
use std::alloc::Global;
use std::collections::BTreeSet;

/// References that have to name something and don't.
#[derive(Clone, Copy)]
pub(crate) struct UndefinedTypes<'a> {
    /// The names that are defined.
    pub(crate) defs: &'a AllDefs,
}

impl FaultKind for UndefinedTypes<'_> {
    type Key = ReferenceKey;

    ghost fault = { λ key. type_not_defined (key_reference key ∷ []) };

    fn error(alloc: Global, key: ReferenceKey) -> M<SchemaError>
        ensures { IfOk result (λ error. fault_of error
            ≡ type_not_defined (key_reference key ∷ [])) }
    {
        let head = key.into_reference(alloc)?;
        Ok(SchemaError::TypeNotDefined(TypeNotDefinedError {
            undefined_types: NonEmpty {
                head,
                tail: Vec::new(alloc),
            },
        }))
    }

    ghost ties = { undefined_types_tie };
}

impl UndefinedTypes<'_> {
    /// Adds a reference, if it names nothing.
    fn add(&self, alloc: Global, it: &WrittenReference, keys: &mut BTreeSet<ReferenceKey>) -> M<()>
        ensures { OnOk result (Adds
            (IsUndefinedType (held_names self.now.defs.now) (reference_of it.now))
            (map (λ key. type_not_defined (key_reference key ∷ [])) keys.old.keys)
            (map (λ key. type_not_defined (key_reference key ∷ [])) keys.new.keys)) }
    {
        let found = it.name.resolved_within(it.kind, it.namespace, self.defs)?;
        if found.is_some() {
            return Ok(());
        }
        add_key::<UndefinedTypes>(keys, reference_key(alloc, it)?)
    }

    /// Adds those of some references that name nothing.
    fn add_all(
        &self,
        alloc: Global,
        references: &[WrittenReference],
        keys: &mut BTreeSet<ReferenceKey>,
    ) -> M<()>
        ensures { OnOk result (Adds
            (SomeGives (IsUndefinedType (held_names self.now.defs.now))
            (map reference_of references.now))
            (map (λ key. type_not_defined (key_reference key ∷ [])) keys.old.keys)
            (map (λ key. type_not_defined (key_reference key ∷ [])) keys.new.keys)) }
    {
        for it in references {
            self.add(alloc, it, keys)?;
        }
        Ok(())
    }
}

impl Finds for UndefinedTypes<'_> {
    ghost finds = { λ self it. FindsUndefinedType (held_names self.defs.now) it };

    fn find(&self, alloc: Global, it: &Lent, keys: &mut BTreeSet<ReferenceKey>) -> M<()> {
        let mentions = mentions_of(alloc, it)?;
        let positions = positions_of(alloc, it)?;
        self.add_all(alloc, &mentions.references, keys)?;
        self.add_all(alloc, &positions, keys)
    }
}
