//! Questions of where things were written, and their answers as texts: what stands there, behind it
//! an `@` and the number of the text, or `nowhere`.

use crate::questions::known::type_of;
use crate::schemas::{Texts, schema_of, validated_copy};
use cedar_schema::below::{Loc, M};
use cedar_schema::json_schema::{NamespaceDefinition, RawName, Type as WrittenType, TypeVariant};
use cedar_schema::lookup::SchemaLookup;
use cedar_schema::{Type, ValidatorActionId, ValidatorEntityType, ValidatorSchema};
use checked::names::{entity_type, uid};
use checked::{fragments_of, one_of, sample_extensions};
use std::alloc::Global;
use std::test::Fail;

/// What stands at a location in one of some texts.
fn place_text(alloc: Global, texts: Texts, loc: Option<Loc>) -> M<String> {
    let Some(loc) = loc else {
        return Ok(String::from_str(alloc, "nowhere")?);
    };
    let text = texts.get(loc.source as usize).copied().unwrap_or("");
    let place = text
        .get(loc.start as usize..loc.stop as usize)
        .unwrap_or("");
    Ok(format!(in alloc; "{place}@{}", loc.source)?)
}

/// Where an attribute of a record type was written.
fn in_record(ty: Option<&Type>, name: &str) -> Option<Loc> {
    match ty? {
        Type::Record { attrs, .. } => attrs.get_attr(name)?.loc,
        _ => None,
    }
}

/// Where an entity type, its attribute `a`, or the attribute `a` of its tags was written.
fn in_type(declared: &ValidatorEntityType, thing: &str) -> Option<Loc> {
    match thing {
        "type" => declared.loc,
        "attribute" => declared.attr("a")?.loc,
        _ => in_record(declared.tag_type(), "a"),
    }
}

/// Where an action, its uid, or the attribute `a` of its context was written.
fn in_action(declared: &ValidatorActionId, thing: &str) -> Option<Loc> {
    match thing {
        "action" => declared.loc(),
        "uid" => declared.name().loc(),
        _ => in_record(declared.context(), "a"),
    }
}

/// Where the attribute `a` was written that is listed of types.
fn listed(alloc: Global, schema: &ValidatorSchema, types: &str) -> Result<Option<Loc>, Fail> {
    let listed = type_of(alloc, types)?.all_attributes(alloc, schema)?;
    Ok(listed.get_attr("a").ok_or("no attribute")?.loc)
}

/// Where a thing was written of what a text names.
fn place(
    alloc: Global,
    schema: &ValidatorSchema,
    thing: &str,
    of: &str,
) -> Result<Option<Loc>, Fail> {
    match thing {
        "listed" => listed(alloc, schema, of),
        "type" | "attribute" | "tags" => {
            let ty = entity_type(alloc, of)?;
            Ok(in_type(schema.get_entity_type(&ty).ok_or("no type")?, thing))
        }
        _ => {
            let uid = uid(alloc, of)?;
            Ok(in_action(schema.get_action_id(&uid).ok_or("no action")?, thing))
        }
    }
}

/// A name, and what stands at two locations.
fn placed(
    alloc: Global,
    texts: Texts,
    name: &str,
    first: Option<Loc>,
    second: Option<Loc>,
) -> M<String> {
    let first = place_text(alloc, texts, first)?;
    let second = place_text(alloc, texts, second)?;
    Ok(format!(in alloc; "{name} {first} {second}")?)
}

/// The common types of a schema: each with its base name and its full name, where it was declared,
/// and where its type was written.
fn common_types(alloc: Global, schema: &ValidatorSchema, texts: Texts) -> M<String> {
    let mut shown = Vec::new(alloc);
    for it in schema.common_types() {
        let name = format!(in alloc; "{} {}", it.name, it.full_name)?;
        shown.push(placed(alloc, texts, name.as_str(), it.name_loc, it.type_loc)?)?;
    }
    Ok(shown.join(alloc, "; ")?)
}

/// The namespaces of a schema: each with its name, where that was written, and where the namespace
/// was defined.
fn namespaces(alloc: Global, schema: &ValidatorSchema, texts: Texts) -> M<String> {
    let mut shown = Vec::new(alloc);
    for it in schema.namespaces() {
        shown.push(placed(alloc, texts, it.name.as_str(), it.name_loc, it.def_loc)?)?;
    }
    Ok(shown.join(alloc, "; ")?)
}

/// The answer to a question of where something was written.
fn answer(
    alloc: Global,
    schema: &ValidatorSchema,
    texts: Texts,
    question: &str,
) -> Result<String, Fail> {
    match question {
        "common types" => Ok(common_types(alloc, schema, texts)?),
        "namespaces" => Ok(namespaces(alloc, schema, texts)?),
        _ => {
            let (thing, of) = question.split_once(' ').ok_or("no question")?;
            let loc = place(alloc, schema, thing, of)?;
            Ok(place_text(alloc, texts, loc)?)
        }
    }
}

/// Questions of where things are, each with its answer, or with those that are allowed.
type Places = &'static [(&'static str, &'static str)];

/// Compares the answers to questions of a schema with the wanted ones.
fn check(
    alloc: Global,
    schema: &ValidatorSchema,
    texts: Texts,
    places: Places,
) -> Result<(), Fail> {
    for (question, wanted) in places {
        let answer = answer(alloc, schema, texts, question)?;
        one_of(question, answer.as_str(), wanted)?;
    }
    Ok(())
}

/// Compares the answers of the schema of texts with the wanted ones, and so those of its copy and of
/// what validation gives of it.
fn check_kept(alloc: Global, texts: Texts, places: Places) -> Result<(), Fail> {
    let schema = schema_of(alloc, texts)?;
    check(alloc, &schema, texts, places)?;
    let validated = validated_copy(alloc, &schema)?;
    let _gone = schema;
    check(alloc, &validated, texts, places)
}

/// Texts, and where things of theirs are.
const ROWS: &[(Texts, Places)] = &[
    (
        &["entity U { a: Long }; action view;"],
        &[
            ("type U", "U@0"),
            ("attribute U", "a@0"),
            ("action Action::view", "view@0"),
            ("uid Action::view", "action view;@0"),
        ],
    ),
    (
        &["type S = { a: Long };", "entity U tags S;"],
        &[
            ("type U", "U@1"),
            ("tags U", "a@0"),
            ("common types", "S S S@0 { a: Long }@0"),
        ],
    ),
    (
        &["external entity U; external action view;"],
        &[
            ("type U", "U@0"),
            ("action Action::view", "view@0"),
            ("uid Action::view", "external action view;@0"),
        ],
    ),
    (
        &["entity U { a: Long };", "entity V { a: Long };"],
        &[
            ("listed U", "a@0"),
            ("listed V", "a@1"),
            ("listed U,V", "nowhere"),
        ],
    ),
    (
        &[
            "entity U tags { a: Long }; \
           action view appliesTo { principal: [], resource: [], context: { a: Long } };",
        ],
        &[("tags U", "a@0"), ("context Action::view", "a@0")],
    ),
    (
        &[],
        &[
            ("namespaces", "__cedar nowhere nowhere"),
            ("common types", ""),
        ],
    ),
    (
        &["namespace N {}", "", "namespace N { }", "namespace N::M {}"],
        &[(
            "namespaces",
            "N::M N::M@3 {}@3; N N@2 { }@2; __cedar nowhere nowhere",
        )],
    ),
    (
        &[
            "namespace N { type T = Long; }",
            "namespace M { type T = Set<Long>; type S = N::T; }",
        ],
        &[(
            "common types",
            "T N::T T@0 Long@0; S M::S S@1 N::T@1; T M::T T@1 Long@1",
        )],
    ),
    (
        &["entity U; namespace N { type A = {}; type B = U; type C = ipaddr; type D = String; }"],
        &[(
            "common types",
            "A N::A A@0 {}@0; B N::B B@0 U@0; C N::C C@0 ipaddr@0; D N::D D@0 String@0",
        )],
    ),
    (
        &[
            "external entity U; external action view;",
            "entity U; action view;",
        ],
        &[
            ("type U", "U@1"),
            ("action Action::view", "view@1"),
            ("uid Action::view", "action view;@1"),
        ],
    ),
    (
        &[
            "entity U; action view;",
            "external entity U; external action view;",
        ],
        &[
            ("type U", "U@0"),
            ("action Action::view", "view@0"),
            ("uid Action::view", "action view;@0"),
        ],
    ),
    (
        &[
            "external entity U; external action view;",
            "external entity U; external action view;",
        ],
        &[
            ("type U", "U@0 or else U@1"),
            ("action Action::view", "view@0 or else view@1"),
            (
                "uid Action::view",
                "external action view;@0 or else external action view;@1",
            ),
        ],
    ),
];

#[test]
fn things_are_where_they_were_written(rt: HostRuntime) -> Result<(), Fail> {
    for (texts, places) in ROWS {
        check_kept(rt.alloc(), texts, places)?;
    }
    Ok(())
}

/// Takes the places of declarations of entity types away.
fn forget_types(definition: &mut NamespaceDefinition<RawName>) {
    for declared in definition.entity_types.values_mut() {
        declared.loc = None;
    }
}

/// Takes the places of declarations of actions away.
fn forget_actions(definition: &mut NamespaceDefinition<RawName>) {
    for declared in definition.actions.values_mut() {
        (declared.loc, declared.defn_loc) = (None, None);
    }
}

/// Takes the places of declarations of common types away. Of one whose type is a name it takes the
/// place of that name instead.
fn forget_common_types(definition: &mut NamespaceDefinition<RawName>) {
    for declared in definition.common_types.values_mut() {
        match &mut declared.ty {
            WrittenType::Plain {
                ty: TypeVariant::EntityOrCommon { .. },
                loc,
            } => *loc = None,
            _ => declared.loc = None,
        }
    }
}

/// The schema of texts of which one, by its number, is taken without the places of its declarations.
fn schema_without(alloc: Global, texts: Texts, number: usize) -> Result<ValidatorSchema, Fail> {
    let extensions = sample_extensions(alloc)?;
    let mut fragments = fragments_of(alloc, texts)?;
    let fragment = fragments.get_mut(number).ok_or("no text")?;
    let definition = fragment.0.get_mut(&None).ok_or("no definition")?;
    forget_types(definition);
    forget_actions(definition);
    forget_common_types(definition);
    Ok(ValidatorSchema::from_raw_fragments(alloc, fragments, &extensions)?)
}

/// An external declaration and the definition in either order, the number of the text that is taken
/// without places, and where the definition is.
const UNPLACED: &[(Texts, usize, Places)] = &[
    (
        &[
            "external entity U; external action view;",
            "entity U; action view;",
        ],
        0,
        &[("type U", "U@1"), ("uid Action::view", "action view;@1")],
    ),
    (
        &[
            "external entity U; external action view;",
            "entity U; action view;",
        ],
        1,
        &[
            ("type U", "nowhere"),
            ("action Action::view", "nowhere"),
            ("uid Action::view", "nowhere"),
        ],
    ),
    (
        &[
            "entity U; action view;",
            "external entity U; external action view;",
        ],
        0,
        &[
            ("type U", "nowhere"),
            ("action Action::view", "nowhere"),
            ("uid Action::view", "nowhere"),
        ],
    ),
    (
        &["type A = Set<Long>; type B = Long;", "type C = Long;"],
        0,
        &[("common types", "B B B@0 nowhere; C C C@1 Long@1")],
    ),
];

#[test]
fn places_are_those_of_the_definition(rt: HostRuntime) -> Result<(), Fail> {
    for (texts, number, places) in UNPLACED {
        let schema = schema_without(rt.alloc(), texts, *number)?;
        check(rt.alloc(), &schema, texts, places)?;
    }
    Ok(())
}
