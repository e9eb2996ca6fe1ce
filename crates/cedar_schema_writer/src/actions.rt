//! Actions, converted back as declarations.

ghost use Rattle.std.specs.Prelude.{◌≡◌, ◌↔◌, Contains, IfErr, IfOk, OnOk, Option, false, map};
ghost use Rattle.cedar_schema_writer.specs.Words.{ActionBody, AppliesIfDefined, AreProper, ArePut, AreRequestsWritten, IsActionDeclaration, IsActionWritten, IsSoundAction, IsSoundActionEntry, IsAncestor, ListsDescendantAction, PlainName, PlainUid, Refuses, SchemaAction, Text, action_body, action_declared, action_of, definitions_bag, known_names, known_schema, parent_action, plain_namespace, raw_reference, requests_written, uid_of, written_uid};
ghost use Rattle.cedar_ast.specs.declared.entity_uid.EntityUID.{EntityUID as Key};

use crate::definitions::{Definitions, put_action};
use crate::known::Known;
use crate::names::namespace_of;
use crate::parents::{check_descendants, write_parents};
use crate::types::{plain, to_json_type};
use crate::write_back_fault::WriteBackFault;
use cedar_ast::{EntityUID, Name};
use cedar_schema_ast::json_schema::{
    ActionEntityUID, ActionType, ApplySpec, AttributesOrContext, RawName,
};
use cedar_schema_elements::{Ancestors, ValidatorActionId};

/// The requests of an action, as they are declared in the namespace; none for an external one.
fn write_requests(
    known: &Known,
    namespace: &Option<Name>,
    action: &ValidatorActionId,
) -> Result<Option<ApplySpec<RawName>>, WriteBackFault>
    ensures written { IfOk result (λ it.
        AreRequestsWritten (plain_namespace namespace.now) (action_of action.now).kind
        (requests_written (plain_namespace namespace.now) it)) }
    ensures sound { OnOk result (IsSoundAction (known_names known.now)
        (plain_namespace namespace.now) (action_of action.now).kind) }
    ensures refusal { IfErr result
        (Refuses (¬ IsSoundAction (known_names known.now) (plain_namespace namespace.now)
        (action_of action.now).kind)) }
{
    let Some(context) = action.context() else {
        return Ok(None);
    };
    let principal_types = known.write_names(namespace, action.principals())?;
    let resource_types = known.write_names(namespace, action.resources())?;
    let context = to_json_type(known, namespace, context)?;
    Ok(Some(ApplySpec {
        principal_types,
        resource_types,
        context: AttributesOrContext(plain(context)),
    }))
}

/// An action with these parents, for these requests; an external one where there are none.
fn action_type(
    applies_to: Option<ApplySpec<RawName>>,
    parents: Vec<ActionEntityUID<RawName>>,
) -> ActionType<RawName>
    ensures body { (namespace : Option PlainName)
        → action_body RawName (raw_reference namespace) namespace result
        ≡ record {
          has_attributes = false;
          parents = map (parent_action RawName (raw_reference namespace) namespace) parents.items;
          applies_to = requests_written namespace applies_to;
        } }
    ensures applies { AppliesIfDefined result }
{
    ActionType {
        attributes: None,
        external: applies_to.is_none(),
        applies_to,
        member_of: Some(parents),
        loc: None,
        defn_loc: None,
    }
}

/// An action with these parents, as it is declared in the namespace.
fn write_action(
    known: &Known,
    namespace: &Option<Name>,
    parents: Vec<ActionEntityUID<RawName>>,
    action: &ValidatorActionId,
) -> Result<ActionType<RawName>, WriteBackFault>
    ensures written { IfOk result (λ it.
        IsActionWritten (plain_namespace namespace.now) (map written_uid parents.items)
        (action_of action.now).kind
        (action_body RawName (raw_reference (plain_namespace namespace.now))
        (plain_namespace namespace.now) it)) }
    ensures applies { IfOk result AppliesIfDefined }
    ensures sound { OnOk result (IsSoundAction (known_names known.now)
        (plain_namespace namespace.now) (action_of action.now).kind) }
    ensures refusal { IfErr result
        (Refuses (¬ IsSoundAction (known_names known.now) (plain_namespace namespace.now)
        (action_of action.now).kind)) }
{
    let applies_to = write_requests(known, namespace, action)?;
    Ok(action_type(applies_to, parents))
}

/// Declares each action in its namespace.
pub(crate) fn write_actions(
    known: &Known,
    ancestors: &Ancestors<EntityUID>,
    definitions: &mut Definitions,
) -> Result<(), WriteBackFault>
    requires ancestors { (key : Key) (above : PlainUid)
        → IsAncestor ⟦<EntityUID as Ord>⟧.cmp uid_of ancestors.now key above
        ↔ ListsDescendantAction (known_schema known.now) (uid_of key) above }
    requires none { (namespace : Option PlainName) (id : Text) (body : ActionBody)
        → ¬ Contains (definitions_bag definitions.old.entries) (action_declared namespace id body) }
    ensures put { OnOk result (ArePut (IsActionDeclaration (known_schema known.now))
        (known_schema known.now).actions
        (definitions_bag definitions.old.entries) (definitions_bag definitions.new.entries)) }
    ensures proper { OnOk result (AreProper definitions.old.entries
        → AreProper definitions.new.entries) }
    ensures sound { OnOk result ((it : PlainUid × SchemaAction)
        → Contains (known_schema known.now).actions it
        → IsSoundActionEntry known.now it) }
    ensures refusal { IfErr result
        (Refuses ((it : PlainUid × SchemaAction) × Contains (known_schema known.now).actions it
        × ¬ IsSoundActionEntry known.now it)) }
{
    for (uid, action) in known.actions {
        if !uid.is_action() {
            return Err(WriteBackFault::Unwritable);
        }
        check_descendants(known.actions, action)?;
        let namespace = namespace_of(known.alloc, uid.entity_type().name())?;
        let id = uid.eid().clone()?;
        let parents = write_parents(known, &namespace, ancestors, uid)?;
        let declared = write_action(known, &namespace, parents, action)?;
        put_action(known.alloc, definitions, namespace, id.0, declared)?;
    }
    Ok(())
}
