//! Actions that are declared with attributes.

ghost use Rattle.std.proofs.Common.{refl};
ghost use Rattle.std.specs.Prelude.{[], ◌∷◌, string_bytes};
ghost use Rattle.cedar_ast.proofs.Texts.{text_cmp-Equal};
ghost use Rattle.cedar_diagnosis.specs.Ties.{id_told, tie_through};
ghost use Rattle.cedar_diagnosis.specs.Finding.{FindsAttributes};
ghost use Rattle.cedar_schema_semantics.specs.Words.{action_attributes};

use crate::finding::{FaultKind, Finds, add_key};
use crate::lent::{Lent, LentBody};
use cedar_ast::M;
use cedar_schema_semantics::{SchemaError, UnsupportedFeature};
use std::alloc::Global;
use std::collections::BTreeSet;

/// Actions that are declared with attributes, by their ids.
pub(crate) struct ActionAttributes;

impl FaultKind for ActionAttributes {
    type Key = String;

    ghost fault = { λ key. action_attributes (string_bytes key ∷ []) };

    fn error(alloc: Global, key: String) -> M<SchemaError> {
        let ids = vec![in alloc; key]?;
        Ok(SchemaError::UnsupportedFeature(UnsupportedFeature::ActionAttributes(ids)))
    }

    ghost ties = { tie_through _ string_bytes
        (λ a b. text_cmp-Equal (string_bytes a) (string_bytes b))
        (λ id. action_attributes (id ∷ [])) id_told (λ _. refl) };
}

impl Finds for ActionAttributes {
    ghost finds = { λ _ it. FindsAttributes it };

    fn find(&self, _alloc: Global, it: &Lent, keys: &mut BTreeSet<String>) -> M<()> {
        let LentBody::Action { id, declared } = it.body else {
            return Ok(());
        };
        if declared.attributes.is_some() {
            return add_key::<ActionAttributes>(keys, id.clone()?);
        }
        Ok(())
    }
}
