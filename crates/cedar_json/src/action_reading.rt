//! Reading declarations of actions.

ghost use Rattle.std.specs.Prelude.{false};
ghost use Rattle.cedar_json.specs.Words.{Requests, Tree, WrittenAction, WrittenParent, action_of, parent_of, requests_of, tree_of, value_expr, value_of, written_action, written_parent, written_requests};

use crate::annotations::check_declaration;
use crate::entity_reading::shape_field;
use crate::fault::{Fault, Row};
use crate::fields::{check_fields, flag_field};
use crate::from_json::{Described, FromJson, described_field, optional_field};
use crate::from_json_owned::{FromJsonOwned, taken_unless_null};
use crate::place_table::Cursor;
use crate::value_reading::read_expr;
use cedar_ast::{Eid, Value as CedarValue};
use cedar_schema_ast::json_schema::{ActionEntityUID, ActionType, ApplySpec, RawName};
use json::Value;
use std::alloc::Global;
use std::collections::BTreeMap;

impl Described for ActionEntityUID<RawName> {
    ghost Plain = { WrittenParent };

    ghost describes = { parent_of };

    ghost shown = { written_parent };
}

impl FromJson for ActionEntityUID<RawName> {
    /// The parent that a value describes.
    fn read(
        alloc: Global,
        value: &Value<'_>,
        cursor: Cursor<'_>,
    ) -> Result<ActionEntityUID<RawName>, Fault> {
        check_fields(alloc, value, Row::OfParent)?;
        let Eid(id) = described_field(alloc, value, "id", cursor)?;
        let ty = optional_field(alloc, value, "type", cursor)?;
        Ok(ActionEntityUID {
            id,
            ty,
            loc: cursor.loc(),
        })
    }
}

impl Described for ApplySpec<RawName> {
    ghost Plain = { Requests };

    ghost describes = { requests_of };

    ghost shown = { written_requests };
}

impl FromJson for ApplySpec<RawName> {
    /// The requests that a value describes.
    fn read(
        alloc: Global,
        value: &Value<'_>,
        cursor: Cursor<'_>,
    ) -> Result<ApplySpec<RawName>, Fault> {
        check_fields(alloc, value, Row::OfAppliesTo)?;
        let principal_types = described_field(alloc, value, "principalTypes", cursor)?;
        let resource_types = described_field(alloc, value, "resourceTypes", cursor)?;
        let context = shape_field(alloc, value, "context", cursor)?;
        Ok(ApplySpec {
            principal_types,
            resource_types,
            context,
        })
    }
}

impl Described for CedarValue {
    ghost Plain = { Tree };

    ghost describes = { value_of };

    ghost shown = { λ it. tree_of (value_expr it) };
}

impl FromJsonOwned for CedarValue {
    /// The value of an attribute that a JSON value describes.
    fn take(
        alloc: Global,
        value: &mut Value<'_>,
        _cursor: Cursor<'_>,
    ) -> Result<CedarValue, Fault> {
        let expr = read_expr(alloc, value)?;
        Ok(CedarValue::new(expr))
    }
}

impl Described for ActionType<RawName> {
    ghost Plain = { WrittenAction };

    ghost describes = { action_of };

    ghost shown = { written_action };
}

impl FromJsonOwned for ActionType<RawName> {
    /// The declaration of an action that a value describes.
    fn take(
        alloc: Global,
        value: &mut Value<'_>,
        cursor: Cursor<'_>,
    ) -> Result<ActionType<RawName>, Fault> {
        check_declaration(alloc, value, Row::OfAction)?;
        let external = flag_field(alloc, value, "external", false)?;
        let attributes = taken_unless_null(alloc, value, "attributes", cursor)?;
        let member_of = optional_field(alloc, value, "memberOf", cursor)?;
        let applies_to = optional_field(alloc, value, "appliesTo", cursor)?;
        Ok(ActionType {
            attributes,
            applies_to,
            member_of,
            external,
            loc: cursor.key_loc(),
            defn_loc: cursor.loc(),
        })
    }
}
