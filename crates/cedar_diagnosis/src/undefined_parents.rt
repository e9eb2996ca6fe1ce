//! Parents of actions that name no action.

ghost use Rattle.std.specs.Prelude.{◌≡◌, IfOk, OnOk, map};
ghost use Rattle.cedar_diagnosis.specs.Adding.{Adds, SomeGives};
ghost use Rattle.cedar_diagnosis.specs.Finding.{FindsUndefinedParent, IsUndefinedParent};
ghost use Rattle.cedar_diagnosis.specs.KeyTies.{undefined_parents_tie};
ghost use Rattle.cedar_diagnosis.specs.Mentioned.{reference_of};
ghost use Rattle.cedar_diagnosis.specs.ReferenceKeys.{parent_told};
ghost use Rattle.cedar_name_resolution.specs.Words.{held_names};
ghost use Rattle.cedar_schema_ast.specs.Words.{namespace_name, parent_action, parent_type, plain_action_type, raw_name, raw_reference};
ghost use Rattle.cedar_schema_ast.specs.declared.json_schema.raw_name.RawName.{RawName as Raw};
ghost use Rattle.cedar_schema_semantics.specs.Words.{fault_of};

use crate::finding::{FaultKind, Finds, add_key};
use crate::lent::{Lent, LentBody};
use crate::mentions::WrittenReference;
use crate::named_action::{named_action, parent_key};
use crate::parent_key::ParentKey;
use cedar_ast::{InternalName, M, NonEmpty, identifier};
use cedar_name_resolution::defs::AllDefs;
use cedar_schema_ast::json_schema::{ActionEntityUID, RawName, ReferenceType};
use cedar_schema_semantics::SchemaError;
use std::alloc::Global;
use std::collections::BTreeSet;

/// Parents of actions that name no action.
#[derive(Clone, Copy)]
pub(crate) struct UndefinedParents<'a> {
    /// The names that are defined.
    pub(crate) defs: &'a AllDefs,
}

impl FaultKind for UndefinedParents<'_> {
    type Key = ParentKey;

    ghost fault = { parent_told };

    fn error(alloc: Global, key: ParentKey) -> M<SchemaError>
        ensures { IfOk result (λ error. fault_of error ≡ parent_told key) }
    {
        let ParentKey { id, reference } = key;
        let loc = reference.first.loc();
        let ty = Some(reference.into_reference(alloc)?);
        Ok(SchemaError::ActionNotDefined(NonEmpty {
            head: ActionEntityUID { id, ty, loc },
            tail: Vec::new(alloc),
        }))
    }

    ghost ties = { undefined_parents_tie };
}

/// The reference that the type of a parent is, where this is the name of a type that isn't written.
pub(crate) fn parent_reference<'a>(
    parent: &'a ActionEntityUID<RawName>,
    unwritten: &'a RawName,
    namespace: Option<&'a InternalName>,
) -> WrittenReference<'a>
    requires { raw_name unwritten.now ≡ plain_action_type }
    ensures { reference_of result
        ≡ parent_type Raw (raw_reference (namespace_name namespace.entry))
        (namespace_name namespace.entry) parent.now.ty }
{
    let name = match &parent.ty {
        Some(name) => name,
        None => unwritten,
    };
    WrittenReference {
        name,
        kind: ReferenceType::Entity,
        namespace,
    }
}

impl UndefinedParents<'_> {
    /// Adds a parent, if it names no action, where this is the name of a type that isn't written.
    fn add(
        &self,
        alloc: Global,
        parent: &ActionEntityUID<RawName>,
        unwritten: &RawName,
        namespace: Option<&InternalName>,
        keys: &mut BTreeSet<ParentKey>,
    ) -> M<()>
        requires { raw_name unwritten.now ≡ plain_action_type }
        ensures { OnOk result (Adds (IsUndefinedParent (held_names self.now.defs.now).actions
            (parent_action Raw (raw_reference (namespace_name namespace.entry))
            (namespace_name namespace.entry) parent.now))
            (map parent_told keys.old.keys) (map parent_told keys.new.keys)) }
    {
        let key = parent_key(alloc, parent, unwritten, namespace)?;
        if named_action(alloc, &key, self.defs)?.is_some() {
            return Ok(());
        }
        add_key::<UndefinedParents>(keys, key)
    }

    /// Adds those of some parents that name no action.
    fn add_all(
        &self,
        alloc: Global,
        parents: &[ActionEntityUID<RawName>],
        unwritten: &RawName,
        namespace: Option<&InternalName>,
        keys: &mut BTreeSet<ParentKey>,
    ) -> M<()>
        requires { raw_name unwritten.now ≡ plain_action_type }
        ensures { OnOk result (Adds
            (SomeGives (IsUndefinedParent (held_names self.now.defs.now).actions)
            (map (parent_action Raw (raw_reference (namespace_name namespace.entry))
            (namespace_name namespace.entry)) parents.now))
            (map parent_told keys.old.keys) (map parent_told keys.new.keys)) }
    {
        for parent in parents {
            self.add(alloc, parent, unwritten, namespace, keys)?;
        }
        Ok(())
    }
}

/// The base name of all types of actions, as it might be written.
pub(crate) fn unwritten_type(alloc: Global) -> M<RawName>
    ensures { IfOk result (λ name. raw_name name ≡ plain_action_type) }
{
    let id = identifier(alloc, "Action")?;
    Ok(RawName::new(InternalName::new(id, Vec::new(alloc), None)))
}

impl Finds for UndefinedParents<'_> {
    ghost finds = { λ self it. FindsUndefinedParent (held_names self.defs.now).actions it };

    fn find(&self, alloc: Global, it: &Lent, keys: &mut BTreeSet<ParentKey>) -> M<()> {
        let LentBody::Action { declared, .. } = it.body else {
            return Ok(());
        };
        let Some(parents) = &declared.member_of else {
            return Ok(());
        };
        let unwritten = unwritten_type(alloc)?;
        self.add_all(alloc, parents, &unwritten, it.namespace(), keys)
    }
}
