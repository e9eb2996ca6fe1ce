//! Types.

ghost use Rattle.std.specs.Prelude.{◌≡◌, ◌++◌, Some, None, [], map, IfOk, IfErr, OnOk};
ghost use Rattle.cedar_schema_grammar.specs.Plain.{attribute_of, name_of, type_of};
ghost use Rattle.cedar_ast.specs.Words.{text_cmp};
ghost use Rattle.cedar_schema_grammar.specs.Tree.{attributes_from, record_of};
ghost use Rattle.cedar_schema_text.specs.Faults.{IsAmong, attributes_faults, repeats, type_faults};
ghost use Rattle.cedar_schema_text.specs.Meaning.{attribute_at, attributes_meant, context_type, empty_type, in_order, type_loc, type_meant};
ghost use Rattle.cedar_schema_text.specs.Named.{named};
ghost use Rattle.cedar_schema_text.specs.Shown.{attribute_shown, attributes_shown, type_shown};
ghost use Rattle.cedar_schema_text.specs.declared.fault.Repeated.TheVariants as repeated;

use crate::fault::{MeaningFault, Repeated};
use crate::names::reference;
use crate::once::{Named, check_annotations, check_once};
use cedar_ast::{Loc, M, put};
use cedar_schema_ast::json_schema::{
    AttributesOrContext, RawName, RecordType, Type, TypeOfAttribute, TypeVariant,
};
use cedar_schema_grammar as text;
use std::alloc::Global;
use std::collections::BTreeMap;

/// Where a type stands: a set where its element does.
fn type_loc(ty: &text::Type) -> Loc
    ensures { result ≡ type_loc (type_of ty.now) }
{
    match ty {
        text::Type::Path(path) => path.loc,
        text::Type::Set(element) => type_loc(element),
        text::Type::Record(_, loc) => *loc,
    }
}

/// The type that is written: a name is that of a common type or of an entity type, whichever it
/// turns out to be.
#[cycle(meaning)]
pub(crate) fn type_of(alloc: Global, ty: &text::Type) -> Result<Type<RawName>, MeaningFault>
    ensures meant { IfOk result (λ it. type_shown it ≡ type_meant (type_of ty.now)) }
    ensures none { OnOk result (type_faults (type_of ty.now) ≡ []) }
    ensures fault { IfErr result (IsAmong (type_faults (type_of ty.now))) }
{
    match ty {
        text::Type::Path(path) => {
            let type_name = reference(alloc, path)?;
            Ok(Type::Plain {
                ty: TypeVariant::EntityOrCommon { type_name },
                loc: Some(path.loc),
            })
        }
        text::Type::Set(inner) => {
            let element = Box::new(alloc, type_of(alloc, inner)?)?;
            Ok(Type::Plain {
                ty: TypeVariant::Set { element },
                loc: Some(type_loc(inner)),
            })
        }
        text::Type::Record(written, loc) => record(alloc, written, *loc),
    }
}

/// The names of some attributes.
fn attribute_names<'a>(
    alloc: Global,
    written: &'a [text::Attribute<text::Type>],
) -> M<Vec<Named<'a>>>
    ensures { IfOk result (λ all.
        map named all.items ≡ map (λ a. name_of a.name) written.now) }
{
    let mut all = Vec::with_capacity(alloc, written.len())?;
    for attribute in written {
        all.push(Named {
            text: attribute.name.text.as_str(),
            loc: attribute.name.loc,
        })?;
    }
    Ok(all)
}

/// The closed record type of some attributes, of which no two may have one name.
#[cycle(meaning)]
fn record(
    alloc: Global,
    written: &[text::Attribute<text::Type>],
    loc: Loc,
) -> Result<Type<RawName>, MeaningFault>
    ensures meant { IfOk result (λ it. type_shown it
        ≡ type_meant (record_of (attributes_from (map attribute_of written.now)) loc)) }
    ensures none { OnOk result
        (type_faults (record_of (attributes_from (map attribute_of written.now)) loc) ≡ []) }
    ensures fault { IfErr result
        (IsAmong (type_faults (record_of (attributes_from (map attribute_of written.now)) loc))) }
{
    check_once(
        alloc,
        Repeated::Attribute,
        &attribute_names(alloc, written)?,
    )?;
    let record = RecordType {
        attributes: attributes(alloc, written)?,
        additional_attributes: false,
    };
    Ok(Type::Plain {
        ty: TypeVariant::Record(record),
        loc: Some(loc),
    })
}

/// Some attributes, each under its name.
#[cycle(meaning)]
fn attributes(
    alloc: Global,
    written: &[text::Attribute<text::Type>],
) -> Result<BTreeMap<String, TypeOfAttribute<RawName>>, MeaningFault>
    ensures meant { IfOk result (λ all. attributes_shown all
        ≡ in_order text_cmp (attributes_meant (attributes_from (map attribute_of written.now)))) }
    ensures none { OnOk result
        (attributes_faults (attributes_from (map attribute_of written.now)) ≡ []) }
    ensures fault { IfErr result
        (IsAmong (attributes_faults (attributes_from (map attribute_of written.now)))) }
{
    let mut all = BTreeMap::new(alloc);
    for one in written {
        let meaning = attribute(alloc, one)?;
        put(
            &mut all,
            String::from_str(alloc, one.name.text.as_str())?,
            meaning,
        )?;
    }
    Ok(all)
}

/// An attribute.
#[cycle(meaning)]
fn attribute(
    alloc: Global,
    written: &text::Attribute<text::Type>,
) -> Result<TypeOfAttribute<RawName>, MeaningFault>
    ensures meant { IfOk result (λ it. attribute_shown it ≡ attribute_at (name_of written.now.name)
        written.now.is_required (type_meant (type_of written.now.of))) }
    ensures none { OnOk result (repeats repeated.Annotation (map name_of
        written.now.annotations.items) ++ type_faults (type_of written.now.of) ≡ []) }
    ensures fault { IfErr result (IsAmong (repeats repeated.Annotation (map name_of
        written.now.annotations.items) ++ type_faults (type_of written.now.of))) }
{
    check_annotations(alloc, &written.annotations)?;
    Ok(TypeOfAttribute {
        ty: type_of(alloc, &written.of)?,
        required: written.is_required,
        loc: Some(written.name.loc),
    })
}

/// The context that is written: a name is that of a common type.
pub(crate) fn context(alloc: Global, ty: &text::Type) -> Result<Type<RawName>, MeaningFault>
    ensures meant { IfOk result (λ it. type_shown it ≡ context_type (type_of ty.now)) }
    ensures none { OnOk result (type_faults (type_of ty.now) ≡ []) }
    ensures fault { IfErr result (IsAmong (type_faults (type_of ty.now))) }
{
    match ty {
        text::Type::Path(path) => Ok(Type::CommonTypeRef {
            type_name: reference(alloc, path)?,
            loc: Some(path.loc),
        }),
        text::Type::Set(_) => type_of(alloc, ty),
        text::Type::Record(_, _) => type_of(alloc, ty),
    }
}

/// The closed record type without attributes, which isn't written.
pub(crate) fn no_attributes(alloc: Global) -> AttributesOrContext<RawName>
    ensures { type_shown result.0 ≡ empty_type }
{
    let record = RecordType {
        attributes: BTreeMap::new(alloc),
        additional_attributes: false,
    };
    AttributesOrContext(Type::Plain {
        ty: TypeVariant::Record(record),
        loc: None,
    })
}
