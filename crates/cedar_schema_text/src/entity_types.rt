//! Entity types.

ghost use Rattle.std.specs.Prelude.{◌≡◌, ◌++◌, [], map, option_map, IfOk, IfErr, OnOk};
ghost use Rattle.std.specs.List.{flat_map};
ghost use Rattle.cedar_ast.specs.Words.{eid_text, items_of};
ghost use Rattle.cedar_schema_grammar.specs.Plain.{body_of, name_of, path_of, type_of};
ghost use Rattle.cedar_schema_grammar.specs.Tree.{choices, standard};
ghost use Rattle.cedar_schema_text.specs.Faults.{IsAmong, body_faults, if_there, name_faults, type_faults};
ghost use Rattle.cedar_schema_text.specs.Meaning.{kind_meant, shape_meant, type_meant};
ghost use Rattle.cedar_schema_text.specs.Shown.{kind_shown, type_shown};

use crate::fault::MeaningFault;
use crate::names::references;
use crate::types::{no_attributes, type_of};
use cedar_ast::{Eid, Loc, M, NonEmpty};
use cedar_schema_ast::json_schema::{
    AttributesOrContext, EntityTypeKind, RawName, StandardEntityType, Type,
};
use cedar_schema_grammar as text;
use std::alloc::Global;

/// The entity ids that some texts are.
fn eids(alloc: Global, texts: &[text::Name]) -> M<Vec<Eid>>
    ensures { IfOk result (λ all.
        map eid_text all.items ≡ map (λ x. x.text) (map name_of texts.now)) }
{
    let mut all = Vec::with_capacity(alloc, texts.len())?;
    for text in texts {
        all.push(Eid(String::from_str(alloc, text.text.as_str())?))?;
    }
    Ok(all)
}

/// The entity ids that some texts are, repeats kept. There is one at least in each text.
fn choices(alloc: Global, texts: &[text::Name], loc: Loc) -> Result<NonEmpty<Eid>, MeaningFault>
    ensures meant { IfOk result (λ all.
        map eid_text (items_of all) ≡ map (λ x. x.text) (map name_of texts.now)) }
    ensures none { OnOk result (body_faults loc (choices (map name_of texts.now)) ≡ []) }
    ensures fault { IfErr result (IsAmong (body_faults loc (choices (map name_of texts.now)))) }
{
    let [first, others @ ..] = texts else {
        return Err(MeaningFault::Reserved(loc));
    };
    let tail = eids(alloc, others)?;
    Ok(NonEmpty {
        head: Eid(String::from_str(alloc, first.text.as_str())?),
        tail,
    })
}

/// The shape of an entity type.
fn shape(
    alloc: Global,
    written: &Option<text::Type>,
) -> Result<AttributesOrContext<RawName>, MeaningFault>
    ensures meant { IfOk result (λ it.
        type_shown it.0 ≡ shape_meant (option_map type_of written.now)) }
    ensures none { OnOk result (if_there type_faults (option_map type_of written.now) ≡ []) }
    ensures fault { IfErr result
        (IsAmong (if_there type_faults (option_map type_of written.now))) }
{
    match written {
        Some(shape) => Ok(AttributesOrContext(type_of(alloc, shape)?)),
        None => Ok(no_attributes(alloc)),
    }
}

/// The type of the tags of an entity type.
fn tags(alloc: Global, written: &Option<text::Type>) -> Result<Option<Type<RawName>>, MeaningFault>
    ensures meant { IfOk result (λ it.
        option_map type_shown it ≡ option_map type_meant (option_map type_of written.now)) }
    ensures none { OnOk result (if_there type_faults (option_map type_of written.now) ≡ []) }
    ensures fault { IfErr result
        (IsAmong (if_there type_faults (option_map type_of written.now))) }
{
    match written {
        Some(tags) => Ok(Some(type_of(alloc, tags)?)),
        None => Ok(None),
    }
}

/// What an entity type without listed ids says.
fn standard(
    alloc: Global,
    parents: &[text::Path],
    of_shape: &Option<text::Type>,
    of_tags: &Option<text::Type>,
) -> Result<StandardEntityType<RawName>, MeaningFault>
    ensures meant { IfOk result (λ it. kind_shown (EntityTypeKind.Standard it)
        ≡ kind_meant (standard (map path_of parents.now) (option_map type_of of_shape.now)
        (option_map type_of of_tags.now))) }
    ensures none { OnOk result (flat_map name_faults (map path_of parents.now)
        ++ if_there type_faults (option_map type_of of_shape.now)
        ++ if_there type_faults (option_map type_of of_tags.now) ≡ []) }
    ensures fault { IfErr result (IsAmong (flat_map name_faults (map path_of parents.now)
        ++ if_there type_faults (option_map type_of of_shape.now)
        ++ if_there type_faults (option_map type_of of_tags.now))) }
{
    let member_of_types = references(alloc, parents)?;
    let shape = shape(alloc, of_shape)?;
    Ok(StandardEntityType {
        member_of_types,
        shape,
        tags: tags(alloc, of_tags)?,
    })
}

/// What the body of an entity type says, which is that of one name at this place.
pub(crate) fn kind(
    alloc: Global,
    body: &text::Body,
    loc: Loc,
) -> Result<EntityTypeKind<RawName>, MeaningFault>
    ensures meant { IfOk result (λ it. kind_shown it ≡ kind_meant (body_of body.now)) }
    ensures none { OnOk result (body_faults loc (body_of body.now) ≡ []) }
    ensures fault { IfErr result (IsAmong (body_faults loc (body_of body.now))) }
{
    match body {
        text::Body::Choices(texts) => Ok(EntityTypeKind::Enum {
            choices: choices(alloc, texts, loc)?,
        }),
        text::Body::Standard {
            parents,
            shape,
            tags,
        } => Ok(EntityTypeKind::Standard(standard(alloc, parents, shape, tags)?)),
    }
}
