//! Tests of the types of a request.

use cedar_ast::M;
use cedar_schema_elements::{RequestEnv, UnlinkedRequestEnv};
use cedar_types::Type;
use checked::names::{entity_type, uid};
use checked::same;
use std::alloc::Global;
use std::test::Fail;

/// The types of requests of a `User` for a `Photo`.
fn of_users(alloc: Global) -> Result<UnlinkedRequestEnv, Fail> {
    let (user, photo) = (entity_type(alloc, "User")?, entity_type(alloc, "Photo")?);
    let view = uid(alloc, "Action::view")?;
    Ok(UnlinkedRequestEnv::new(alloc, user, view, photo, Type::Long)?)
}

/// The types that an owner lends one by one, in words.
fn words_of(alloc: Global, owned: &UnlinkedRequestEnv) -> M<String> {
    let (principal, action) = (owned.principal(), owned.action());
    let (resource, context) = (owned.resource(), owned.context());
    Ok(format!(in alloc; "{principal} {action} {resource} {context}")?)
}

/// Those that it lends together.
fn lent_words(alloc: Global, owned: &UnlinkedRequestEnv) -> M<String> {
    let RequestEnv {
        principal,
        action,
        resource,
        context,
    } = owned.as_request_env();
    Ok(format!(in alloc; "{principal} {action} {resource} {context}")?)
}

/// The words for all of these.
const WORDS: &str = "User Action::\"view\" Photo Long";

#[test]
fn the_types_of_a_request_are_copied_and_borrowed(rt: HostRuntime) -> Result<(), Fail> {
    let alloc = rt.alloc();
    let owned = of_users(alloc)?;
    let copy = owned.clone()?;
    same("one by one", words_of(alloc, &owned)?.as_str(), WORDS)?;
    same("together", lent_words(alloc, &owned)?.as_str(), WORDS)?;
    same("a copy", lent_words(alloc, &copy)?.as_str(), WORDS)
}

#[test]
fn the_types_of_a_request_print_as_they_are_lent(rt: HostRuntime) -> Result<(), Fail> {
    let alloc = rt.alloc();
    let owned = of_users(alloc)?;
    let lent = format!(in alloc; "Unlinked{:?}", owned.as_request_env())?;
    same("Debug", &format!(in alloc; "{owned:?}")?, &lent)
}
