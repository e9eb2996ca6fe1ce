//! A schema that a text declares, and what it answers.
#![tactic(auto)]

use cedar_json::{cedar_extensions, fragment_from_json};
use cedar_schema::below::{EntityType, ValidationMode};
use cedar_schema::{SchemaError, Type, ValidatorSchema};
use std::test::Fail;

/// Users in groups, who view photos.
const PHOTOS: &str = r#"{"": {"commonTypes": {"Person": {"type": "Entity", "name": "User"}},
  "entityTypes": {"Group": {}, "Photo": {}, "User": {"memberOfTypes": ["Group"], "shape": {
    "type": "Record", "attributes": {"boss": {"type": "Person"},
      "team": {"type": "Entity", "name": "Group"}}}}},
  "actions": {"view": {"appliesTo": {"principalTypes": ["User"], "resourceTypes": ["Photo"]}}}}}"#;

/// Shows what a schema answers of users.
fn show(rt: &HostRuntime, schema: &ValidatorSchema, user: &EntityType) -> Result<(), Fail> {
    for ancestor in schema.ancestors(user).ok_or("no user")? {
        println!(rt; "{user} in {ancestor}")?;
    }
    let ty = schema.get_entity_type(user).ok_or("no user")?;
    let (Some(boss), Some(team)) = (ty.attr("boss"), ty.attr("team")) else {
        return Err(Fail::from("no boss or no team"));
    };
    let (boss, team) = (&boss.attr_type, &team.attr_type);
    let either = Type::least_upper_bound(rt.alloc(), boss, team, ValidationMode::Permissive)?;
    println!(rt; "boss: {boss}, boss or team: {either}")?;
    for env in schema.unlinked_request_envs(ValidationMode::Strict) {
        println!(rt; "{} {} {}", env.principal, env.action, env.resource)?;
    }
    Ok(())
}

/// Shows the schema that a text declares, or which type it names that isn't there.
fn show_text(rt: &HostRuntime, text: &str) -> Result<(), Fail> {
    let alloc = rt.alloc();
    let extensions = cedar_extensions(alloc)?;
    let fragment = fragment_from_json(alloc, text, 0)?;
    match ValidatorSchema::from_schema_frag(alloc, fragment, &extensions) {
        Ok(schema) => show(rt, &schema, &EntityType::from_str(alloc, "User")?),
        Err(SchemaError::TypeNotDefined(error)) => Ok(println!(rt; "refused: {error}")?),
        Err(error) => Err(error.into()),
    }
}

fn main(rt: HostRuntime) -> Result<(), Fail> {
    show_text(&rt, PHOTOS)?;
    let teams = r#"{"": {"entityTypes": {"User": {"memberOfTypes": ["Team"]}}, "actions": {}}}"#;
    show_text(&rt, teams)
}
