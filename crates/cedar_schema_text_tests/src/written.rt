//! Fragments that are written beside others, or can't be.
//!
//! A fragment is given as JSON with `'` in the place of each `"`, as the text is.

use cedar_json::fragment_from_json;
use cedar_schema_ast::json_schema::{Fragment, RawName};
use cedar_schema_text_writer::{TextWriteFault, fragment_to_text};
use checked::same;
use std::alloc::Global;
use std::test::Fail;

/// The fragment that a row gives.
fn read(alloc: Global, row: &str) -> Result<Fragment<RawName>, Fail> {
    let text = row.replace(alloc, '\'', "\"")?;
    Ok(fragment_from_json(alloc, text.as_str(), 0)?)
}

/// What is written, or why it isn't.
fn answer(alloc: Global, written: Result<String, TextWriteFault>) -> Result<String, Fail> {
    match written {
        Ok(text) => Ok(text),
        Err(fault) => Ok(format!(in alloc; "! {fault}")?),
    }
}

/// What is written of a fragment beside another.
fn written(alloc: Global, row: &str, beside: &str) -> Result<String, Fail> {
    let others = vec![in alloc; read(alloc, beside)?]?;
    let written = fragment_to_text(alloc, &read(alloc, row)?, others.as_slice());
    answer(alloc, written)
}

/// Rows: fragments, each with one beside it, and what is written of it, or why it isn't.
const BESIDE: &[(&str, &str, &str)] = &[
    (
        "{'N': {'entityTypes': {'E': {'tags': {'type': 'Long'}}}, 'actions': {}}}",
        "{'N': {'entityTypes': {}, 'actions': {}, 'commonTypes': {'Long2': {'type': 'Long'}}}}",
        "namespace N {\n  entity E tags Long;\n}",
    ),
    (
        "{'N': {'entityTypes': {'E': {'tags': {'type': 'Long'}}}, 'actions': {}}}",
        "{'N': {'entityTypes': {'Long': {}}, 'actions': {}}}",
        "namespace N {\n  entity E tags __cedar::Long;\n}",
    ),
    (
        "{'N': {'entityTypes': {'E': {'tags': {'type': 'Boolean'}}}, 'actions': {}}}",
        "{'': {'entityTypes': {'Bool': {}}, 'actions': {}}}",
        "namespace N {\n  entity E tags __cedar::Bool;\n}",
    ),
    (
        "{'N': {'entityTypes': {'E': {'tags': {'type': 'Entity', 'name': 'T'}}}, 'actions': {}}}",
        "{'': {'entityTypes': {}, 'actions': {}, 'commonTypes': {'T': {'type': 'Long'}}}}",
        "! a reference to an entity type would be one to the common type of that name, in the tags \
            of the entity type E in the namespace N",
    ),
    (
        "{'N': {'entityTypes': {'E': {'tags': {'type': 'Entity', 'name': 'T'}}}, 'actions': {}}}",
        "{'': {'entityTypes': {}, 'actions': {}, 'commonTypes': {'T': {'type': 'Long'}}}, 'N': \
            {'entityTypes': {'T': {}}, 'actions': {}}}",
        "namespace N {\n  entity E tags T;\n}",
    ),
    (
        "{'N': {'entityTypes': {'E': {'tags': {'type': 'Entity', 'name': 'T'}}}, 'actions': {}}}",
        "{'N': {'entityTypes': {'T': {}}, 'actions': {}, 'commonTypes': {'T': {'type': 'Long'}}}}",
        "! a reference to an entity type would be one to the common type of that name, in the tags \
            of the entity type E in the namespace N",
    ),
    (
        "{'N': {'entityTypes': {'E': {'tags': {'type': 'Action'}}}, 'actions': {}}}",
        "{'N': {'entityTypes': {}, 'actions': {'a': {}}}}",
        "! a reference to a common type would be one to the entity type of that name, in the tags \
            of the entity type E in the namespace N",
    ),
    (
        "{'N': {'entityTypes': {'E': {'tags': {'type': 'Action'}}}, 'actions': {}}}",
        "{'M': {'entityTypes': {}, 'actions': {'a': {}}}}",
        "namespace N {\n  entity E tags Action;\n}",
    ),
];

#[test]
fn fragments_are_written_beside_others(rt: HostRuntime) -> Result<(), Fail> {
    let alloc = rt.alloc();
    for (row, beside, expected) in BESIDE {
        same(row, written(alloc, row, beside)?.as_str(), expected)?;
    }
    Ok(())
}
