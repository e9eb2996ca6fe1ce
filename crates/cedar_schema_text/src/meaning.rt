//! What the members of a text stand for.

ghost use Rattle.std.specs.Prelude.{◌≡◌, ◌++◌, [], codes, map, string_bytes, Some, IfOk, IfErr, OnOk};
ghost use Rattle.cedar_ast.specs.Joined.{joined};
ghost use Rattle.cedar_schema_grammar.specs.Plain.{declaration_of, member_of, name_of};
ghost use Rattle.cedar_schema_text.specs.Faults.{IsAmong, block_name, blocks_faults, definition_faults, faults_in, repeats};
ghost use Rattle.cedar_schema_text.specs.Here.{block_here, empty_shown, lent};
ghost use Rattle.cedar_schema_text.specs.Meaning.{alone_in, alone_of, block_meant, blocks_in, blocks_of, definition_meant, empty_namespace, fragment_meant, in_order, namespace_cmp};
ghost use Rattle.cedar_schema_text.specs.Shown.{definition_shown, fragment_shown, namespaces_shown};
ghost use Rattle.cedar_schema_text.specs.Placed.{FragmentAt};
ghost use Rattle.cedar_schema_text.specs.declared.fault.Repeated.TheVariants as repeated;

use crate::definition::definition;
use crate::fault::{MeaningFault, Repeated};
use crate::names::namespace;
use crate::once::{check_annotations, check_names};
use cedar_ast::{Loc, M, Name as Namespace, put};
use cedar_schema_ast::json_schema::{Fragment, NamespaceDefinition, RawName};
use cedar_schema_grammar::{Declaration, Member, Name, Path};
use std::alloc::Global;
use std::collections::BTreeMap;

/// The block of a namespace.
#[derive(Clone, Copy)]
struct Block<'a> {
    annotations: &'a Vec<Name>,
    path: &'a Path,
    declarations: &'a Vec<Declaration>,
    loc: Loc,
}

/// Puts the block that a member is behind others.
fn push_block<'a>(all: &mut Vec<Block<'a>>, member: &'a Member) -> M<()>
    ensures { OnOk result (map block_here all.new.items
        ≡ map block_here all.old.items ++ blocks_of (member_of member.now)) }
{
    match member {
        Member::Namespace {
            annotations,
            path,
            declarations,
            loc,
        } => Ok(all.push(Block {
            annotations,
            path,
            declarations,
            loc: *loc,
        })?),
        Member::Alone(_) => Ok(()),
    }
}

/// The blocks of namespaces.
fn blocks_in(alloc: Global, members: &[Member]) -> M<Vec<Block<'_>>>
    ensures { IfOk result (λ all.
        map block_here all.items ≡ blocks_in (map member_of members.now)) }
{
    let mut all = Vec::new(alloc);
    for member in members {
        push_block(&mut all, member)?;
    }
    Ok(all)
}

/// Puts the declaration that a member is behind others.
fn push_alone<'a>(all: &mut Vec<&'a Declaration>, member: &'a Member) -> M<()>
    ensures { OnOk result (map lent all.new.items
        ≡ map lent all.old.items ++ alone_of (member_of member.now)) }
{
    match member {
        Member::Alone(declaration) => Ok(all.push(declaration)?),
        Member::Namespace { .. } => Ok(()),
    }
}

/// The declarations outside of blocks.
fn alone_in(alloc: Global, members: &[Member]) -> M<Vec<&Declaration>>
    ensures { IfOk result (λ all.
        map lent all.items ≡ alone_in (map member_of members.now)) }
{
    let mut all = Vec::new(alloc);
    for member in members {
        push_alone(&mut all, member)?;
    }
    Ok(all)
}

/// The declarations one by one.
fn each(alloc: Global, declarations: &[Declaration]) -> M<Vec<&Declaration>>
    ensures { IfOk result (λ all.
        map lent all.items ≡ map declaration_of declarations.now) }
{
    let mut all = Vec::with_capacity(alloc, declarations.len())?;
    for declaration in declarations {
        all.push(declaration)?;
    }
    Ok(all)
}

/// The text of a path.
fn path_text(alloc: Global, ids: &[String]) -> M<String>
    ensures { IfOk result (λ text.
        string_bytes text ≡ joined (codes "::") (map string_bytes ids.now)) }
{
    let [first, others @ ..] = ids else {
        return Ok(String::new(alloc));
    };
    let mut text = String::from_str(alloc, first.as_str())?;
    for id in others {
        text.push_str("::")?;
        text.push_str(id.as_str())?;
    }
    Ok(text)
}

/// The names of the namespaces of some blocks.
fn block_names(alloc: Global, blocks: &[Block<'_>]) -> M<Vec<Name>>
    ensures { IfOk result (λ all.
        map name_of all.items ≡ map block_name (map block_here blocks.now)) }
{
    let mut all = Vec::with_capacity(alloc, blocks.len())?;
    for block in blocks {
        all.push(Name {
            text: path_text(alloc, &block.path.ids)?,
            loc: block.path.loc,
        })?;
    }
    Ok(all)
}

/// Refuses blocks of which two have one namespace.
fn check_blocks(alloc: Global, blocks: &[Block<'_>]) -> Result<(), MeaningFault>
    ensures none { OnOk result
        (repeats repeated.Namespace (map block_name (map block_here blocks.now)) ≡ []) }
    ensures fault { IfErr result
        (IsAmong (repeats repeated.Namespace (map block_name (map block_here blocks.now)))) }
{
    check_names(alloc, Repeated::Namespace, &block_names(alloc, blocks)?)
}

/// The definition of the namespace of a block.
fn block_definition(
    alloc: Global,
    block: &Block<'_>,
) -> Result<NamespaceDefinition<RawName>, MeaningFault>
    ensures meant { IfOk result (λ it. definition_shown it ≡ definition_meant
        (block_here block.now).declarations (Some block.now.loc)) }
    ensures none { OnOk result
        (definition_faults (block_here block.now).declarations ≡ []) }
    ensures fault { IfErr result
        (IsAmong (definition_faults (block_here block.now).declarations)) }
{
    definition(alloc, &each(alloc, block.declarations)?, Some(block.loc))
}

/// The definitions of the namespaces of some blocks.
fn namespaces(
    alloc: Global,
    blocks: &[Block<'_>],
) -> Result<BTreeMap<Option<Namespace>, NamespaceDefinition<RawName>>, MeaningFault>
    ensures meant { IfOk result (λ all. namespaces_shown all
        ≡ in_order namespace_cmp (map block_meant (map block_here blocks.now))) }
    ensures none { OnOk result (blocks_faults (map block_here blocks.now) ≡ []) }
    ensures fault { IfErr result (IsAmong (blocks_faults (map block_here blocks.now))) }
{
    check_blocks(alloc, blocks)?;
    let mut all = BTreeMap::new(alloc);
    for block in blocks {
        check_annotations(alloc, block.annotations)?;
        let name = namespace(alloc, block.path)?;
        let definition = block_definition(alloc, block)?;
        put(&mut all, Some(name), definition)?;
    }
    Ok(all)
}

/// The definitions of the namespaces that have blocks.
fn namespaces_in(
    alloc: Global,
    members: &[Member],
) -> Result<BTreeMap<Option<Namespace>, NamespaceDefinition<RawName>>, MeaningFault>
    ensures meant { IfOk result (λ all. namespaces_shown all
        ≡ in_order namespace_cmp (map block_meant (blocks_in (map member_of members.now)))) }
    ensures none { OnOk result (blocks_faults (blocks_in (map member_of members.now)) ≡ []) }
    ensures fault { IfErr result
        (IsAmong (blocks_faults (blocks_in (map member_of members.now)))) }
{
    namespaces(alloc, &blocks_in(alloc, members)?)
}

/// The definition of the empty namespace, where anything is declared in it.
fn empty_namespace(
    alloc: Global,
    alone: &[&Declaration],
) -> Result<Option<NamespaceDefinition<RawName>>, MeaningFault>
    ensures meant { IfOk result (λ it.
        empty_shown it ≡ empty_namespace (map lent alone.now)) }
    ensures none { OnOk result (definition_faults (map lent alone.now) ≡ []) }
    ensures fault { IfErr result (IsAmong (definition_faults (map lent alone.now))) }
{
    let it = definition(alloc, alone, None)?;
    if alone.is_empty() {
        return Ok(None);
    }
    Ok(Some(it))
}

/// The definition of the empty namespace, where anything stands outside of blocks.
fn empty_namespace_in(
    alloc: Global,
    members: &[Member],
) -> Result<Option<NamespaceDefinition<RawName>>, MeaningFault>
    ensures meant { IfOk result (λ it.
        empty_shown it ≡ empty_namespace (alone_in (map member_of members.now))) }
    ensures none { OnOk result
        (definition_faults (alone_in (map member_of members.now)) ≡ []) }
    ensures fault { IfErr result
        (IsAmong (definition_faults (alone_in (map member_of members.now)))) }
{
    empty_namespace(alloc, &alone_in(alloc, members)?)
}

/// Definitions of namespaces, and that of the empty one behind them.
fn with_empty(
    definitions: BTreeMap<Option<Namespace>, NamespaceDefinition<RawName>>,
    empty: Option<NamespaceDefinition<RawName>>,
) -> M<BTreeMap<Option<Namespace>, NamespaceDefinition<RawName>>>
    ensures { IfOk result (λ all. (before : FragmentAt)
        → namespaces_shown definitions ≡ in_order namespace_cmp before
        → namespaces_shown all ≡ in_order namespace_cmp (before ++ empty_shown empty)) }
{
    let mut all = definitions;
    match empty {
        None => Ok(all),
        Some(it) => {
            put(&mut all, None, it)?;
            Ok(all)
        }
    }
}

/// The fragment that the members of a text stand for: a definition for each block of a namespace,
/// and one for the empty namespace, of all that stands outside of blocks, where anything does. It
/// is refused exactly where something is at fault, or out of memory.
///
/// Source: Cedar reference, "Schema format".
pub fn fragment_of(alloc: Global, members: &[Member]) -> Result<Fragment<RawName>, MeaningFault>
    // The fragment says what is written, and where.
    ensures meant { IfOk result (λ fragment.
        fragment_shown fragment ≡ fragment_meant (map member_of members.now)) }
    // Nothing is at fault in what is taken.
    ensures none { OnOk result (faults_in (map member_of members.now) ≡ []) }
    // The fault that is named is there.
    ensures fault { IfErr result (IsAmong (faults_in (map member_of members.now))) }
{
    let definitions = namespaces_in(alloc, members)?;
    let empty = empty_namespace_in(alloc, members)?;
    Ok(Fragment(with_empty(definitions, empty)?))
}
