//! Record types that admit attributes which they don't list.

ghost use Rattle.std.proofs.Common.{refl};
ghost use Rattle.std.specs.Prelude.{◌≡◌};
ghost use Rattle.cedar_diagnosis.specs.Mentioned.{HasOpenIn};
ghost use Rattle.cedar_schema_semantics.specs.Words.{open_record};

use crate::finding::{FaultKind, Finds, add_key};
use crate::lent::Lent;
use crate::mentions::mentions_of;
use cedar_ast::M;
use cedar_schema_semantics::{SchemaError, UnsupportedFeature};
use std::alloc::Global;
use std::collections::BTreeSet;

/// Record types that admit attributes which they don't list. All are one fault.
pub(crate) struct OpenRecords;

impl FaultKind for OpenRecords {
    type Key = ();

    ghost fault = { λ _. open_record };

    fn error(_alloc: Global, _key: ()) -> M<SchemaError> {
        Ok(SchemaError::UnsupportedFeature(UnsupportedFeature::OpenRecordsAndEntities))
    }

    ghost ties = { λ _ _. (λ _. refl, λ _. refl) };
}

impl Finds for OpenRecords {
    ghost finds = { λ _ it fault. HasOpenIn it.body × (open_record ≡ fault) };

    fn find(&self, alloc: Global, it: &Lent, keys: &mut BTreeSet<()>) -> M<()> {
        let mentions = mentions_of(alloc, it)?;
        if mentions.has_open_record {
            return add_key::<OpenRecords>(keys, ());
        }
        Ok(())
    }
}
