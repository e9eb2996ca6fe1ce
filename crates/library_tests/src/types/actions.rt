//! Actions of a schema.

use crate::types::test_values::PLACE;
use cedar_schema_elements::{TypeSet, ValidatorActionId};
use cedar_types::Type;
use checked::holds;
use checked::names::{entity_types, uid, uids};
use std::alloc::Global;
use std::test::Fail;

/// The action `view` of two types on another, above `peek`, with whole numbers for its context.
pub(crate) fn view(alloc: Global) -> Result<ValidatorActionId, Fail> {
    let name = uid(alloc, "Action::view")?;
    let below = uids(alloc, "Action::peek")?;
    let principals = entity_types(alloc, "User,Admin,User")?;
    let resources = entity_types(alloc, "Photo")?;
    let (context, loc) = (Type::Long, Some(PLACE));
    Ok(ValidatorActionId::new_defined(alloc, name, principals, resources, below, context, loc)?)
}

/// The action `view`, made of what it applies to.
fn view_of_requests(alloc: Global) -> Result<ValidatorActionId, Fail> {
    let name = uid(alloc, "Action::view")?;
    let below = uids(alloc, "Action::peek")?;
    let principals = TypeSet::of(entity_types(alloc, "User,Admin,User")?);
    let resources = TypeSet::of(entity_types(alloc, "Photo")?);
    let (context, loc) = (Type::Long, Some(PLACE));
    Ok(ValidatorActionId::for_requests(alloc, name, principals, resources, below, context, loc)?)
}

/// The external action `look`, above `peek`.
pub(crate) fn look(alloc: Global) -> Result<ValidatorActionId, Fail> {
    let name = uid(alloc, "Action::look")?;
    let below = uids(alloc, "Action::peek")?;
    Ok(ValidatorActionId::new_external(alloc, name, below, None)?)
}

#[test]
fn actions_are_made_of_what_they_apply_to(rt: HostRuntime) -> Result<(), Fail> {
    let alloc = rt.alloc();
    let (view, same) = (view(alloc)?, view_of_requests(alloc)?);
    let are_alike = view == same && view.loc() == same.loc();
    holds(are_alike && same.principals().count() == 2, "view")
}
