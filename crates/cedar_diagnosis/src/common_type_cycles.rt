//! Common types whose definitions refer to themselves.

ghost use Rattle.std.proofs.Common.{refl};
ghost use Rattle.std.specs.Prelude.{◌≡◌, ◌↔◌, [], IfOk, IsTrue, OnOk, map};
ghost use Rattle.cedar_ast.proofs.Names.{internal_name_ord-Equal};
ghost use Rattle.cedar_ast.specs.Words.{name_of};
ghost use Rattle.cedar_diagnosis.specs.Adding.{Adds, SomeGives};
ghost use Rattle.cedar_diagnosis.specs.Finding.{LinksCommonType, LinksToCommon, RefersAcross};
ghost use Rattle.cedar_diagnosis.specs.Links.{link_told};
ghost use Rattle.cedar_diagnosis.specs.Mentioned.{reference_of};
ghost use Rattle.cedar_diagnosis.specs.Ties.{name_told, tie_through};
ghost use Rattle.cedar_name_resolution.specs.Words.{held_names};
ghost use Rattle.cedar_schema_semantics.specs.Words.{MayNameCommon, common_type_cycle, fault_of};

use crate::cycles::{Link, Links};
use crate::finding::FaultKind;
use crate::lent::Lent;
use crate::mentions::{WrittenReference, mentions_of};
use cedar_ast::{InternalName, M};
use cedar_name_resolution::defs::{AllDefs, WrittenName};
use cedar_schema_ast::json_schema::ReferenceType;
use cedar_schema_semantics::SchemaError;
use std::alloc::Global;

/// Common types whose definitions refer to themselves, in one step or more.
#[derive(Clone, Copy)]
pub(crate) struct CommonTypeCycles<'a> {
    /// The names that are defined.
    pub(crate) defs: &'a AllDefs,
}

impl FaultKind for CommonTypeCycles<'_> {
    type Key = InternalName;

    ghost fault = { λ key. common_type_cycle (name_of key) };

    fn error(_alloc: Global, key: InternalName) -> M<SchemaError>
        ensures { IfOk result (λ error. fault_of error ≡ common_type_cycle (name_of key)) }
    {
        Ok(SchemaError::CycleInCommonTypeReferences(key))
    }

    ghost ties = { tie_through _ name_of internal_name_ord-Equal common_type_cycle name_told
        (λ _. refl) };
}

/// Whether a reference of the kind may name common types.
fn may_name_common(kind: ReferenceType) -> bool
    ensures { IsTrue result ↔ MayNameCommon kind }
{
    match kind {
        ReferenceType::Common => true,
        ReferenceType::Entity => false,
        ReferenceType::CommonOrEntity => true,
    }
}

impl CommonTypeCycles<'_> {
    /// Adds a link to what has a name, if it is a common type and references of the kind may name
    /// those.
    fn add_link(
        &self,
        lower: &InternalName,
        kind: ReferenceType,
        to: InternalName,
        links: &mut Vec<Link<InternalName>>,
    ) -> M<()>
        ensures { OnOk result (Adds (LinksToCommon (held_names self.now.defs.now)
            (name_of lower.now) kind (name_of to))
            (map (link_told (λ key. common_type_cycle (name_of key))) links.old.items)
            (map (link_told (λ key. common_type_cycle (name_of key))) links.new.items)) }
    {
        if !may_name_common(kind) {
            return Ok(());
        }
        if !self.defs.is_defined_as_common(&to) {
            return Ok(());
        }
        let from = lower.clone()?;
        links.push(Link { from, to })?;
        Ok(())
    }

    /// Adds a link to the common type that a reference names, if it names one.
    fn add(
        &self,
        lower: &InternalName,
        it: &WrittenReference,
        links: &mut Vec<Link<InternalName>>,
    ) -> M<()>
        ensures { OnOk result (Adds (RefersAcross (held_names self.now.defs.now)
            (name_of lower.now) (reference_of it.now))
            (map (link_told (λ key. common_type_cycle (name_of key))) links.old.items)
            (map (link_told (λ key. common_type_cycle (name_of key))) links.new.items)) }
    {
        match it.name.resolved_within(it.kind, it.namespace, self.defs)? {
            Some(to) => self.add_link(lower, it.kind, to, links),
            None => Ok(()),
        }
    }

    /// Adds links to the common types that some references name.
    fn add_all(
        &self,
        lower: &InternalName,
        references: &[WrittenReference],
        links: &mut Vec<Link<InternalName>>,
    ) -> M<()>
        ensures { OnOk result (Adds (SomeGives (RefersAcross (held_names self.now.defs.now)
            (name_of lower.now)) (map reference_of references.now))
            (map (link_told (λ key. common_type_cycle (name_of key))) links.old.items)
            (map (link_told (λ key. common_type_cycle (name_of key))) links.new.items)) }
    {
        for it in references {
            self.add(lower, it, links)?;
        }
        Ok(())
    }
}

impl Links for CommonTypeCycles<'_> {
    ghost linked = { λ self it. LinksCommonType (held_names self.defs.now) it };

    fn copy(key: &InternalName) -> M<InternalName>
        ensures { IfOk result (λ copy. common_type_cycle (name_of copy)
            ≡ common_type_cycle (name_of key.now)) }
    {
        key.clone()
    }

    fn link(&self, alloc: Global, it: &Lent, links: &mut Vec<Link<InternalName>>) -> M<()> {
        let Some(lower) = it.common_name(alloc)? else {
            return Ok(());
        };
        let mentions = mentions_of(alloc, it)?;
        self.add_all(&lower, &mentions.references, links)
    }
}
