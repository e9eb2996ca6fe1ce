//! Extension types that weren't handed in.

ghost use Rattle.std.proofs.Common.{refl};
ghost use Rattle.std.specs.Prelude.{◌≡◌, IfOk, OnOk, map};
ghost use Rattle.cedar_ast.proofs.Names.{name_ord-Equal};
ghost use Rattle.cedar_ast.specs.Words.{plain_name, unreserved_id_text};
ghost use Rattle.cedar_diagnosis.specs.Ties.{name_told, tie_through};
ghost use Rattle.cedar_diagnosis.specs.Adding.{Adds, SomeGives};
ghost use Rattle.cedar_diagnosis.specs.Finding.{FindsUnknownExtension, IsUnknownExtension};
ghost use Rattle.cedar_schema_semantics.specs.Words.{alias_name, fault_of, unknown_extension_type};

use crate::finding::{FaultKind, Finds, add_key};
use crate::lent::Lent;
use crate::mentions::mentions_of;
use cedar_ast::{Extensions, InternalName, M, Name, UnreservedId};
use cedar_schema_semantics::SchemaError;
use std::alloc::Global;
use std::collections::BTreeSet;

/// Extension types that are named where it counts and aren't among those that were handed in.
#[derive(Clone, Copy)]
pub(crate) struct UnknownExtensions<'a> {
    /// Those that were handed in.
    pub(crate) extensions: &'a Extensions,
}

impl FaultKind for UnknownExtensions<'_> {
    type Key = Name;

    ghost fault = { λ key. unknown_extension_type (plain_name key) };

    fn error(_alloc: Global, key: Name) -> M<SchemaError>
        ensures { IfOk result (λ error. fault_of error
            ≡ unknown_extension_type (plain_name key)) }
    {
        Ok(SchemaError::UnknownExtensionType(key))
    }

    ghost ties = { tie_through _ plain_name name_ord-Equal unknown_extension_type name_told
        (λ _. refl) };
}

/// The name of the extension type of a base name.
fn extension_name(alloc: Global, id: &UnreservedId) -> M<Name>
    ensures { IfOk result (λ name. plain_name name ≡ alias_name (unreserved_id_text id.now)) }
{
    let name = InternalName::new(id.clone()?.into_id(), Vec::new(alloc), None);
    match Name::new(name) {
        Some(name) => Ok(name),
        None => unreachable!(),
    }
}

impl UnknownExtensions<'_> {
    /// Adds an extension type, if it is unknown.
    fn add(&self, alloc: Global, id: &UnreservedId, keys: &mut BTreeSet<Name>) -> M<()>
        ensures { OnOk result (Adds
            (IsUnknownExtension self.now.extensions.now (unreserved_id_text id.now))
            (map (λ key. unknown_extension_type (plain_name key)) keys.old.keys)
            (map (λ key. unknown_extension_type (plain_name key)) keys.new.keys)) }
    {
        let name = extension_name(alloc, id)?;
        if self.extensions.has_type(&name) {
            return Ok(());
        }
        add_key::<UnknownExtensions>(keys, name)
    }

    /// Adds those of some extension types that are unknown.
    fn add_all(&self, alloc: Global, ids: &[&UnreservedId], keys: &mut BTreeSet<Name>) -> M<()>
        ensures { OnOk result (Adds
            (SomeGives (IsUnknownExtension self.now.extensions.now)
            (map (λ id. unreserved_id_text id.now) ids.now))
            (map (λ key. unknown_extension_type (plain_name key)) keys.old.keys)
            (map (λ key. unknown_extension_type (plain_name key)) keys.new.keys)) }
    {
        for id in ids {
            self.add(alloc, *id, keys)?;
        }
        Ok(())
    }
}

impl Finds for UnknownExtensions<'_> {
    ghost finds = { λ self it. FindsUnknownExtension self.extensions.now it };

    fn find(&self, alloc: Global, it: &Lent, keys: &mut BTreeSet<Name>) -> M<()> {
        let mentions = mentions_of(alloc, it)?;
        self.add_all(alloc, &mentions.extensions, keys)
    }
}
