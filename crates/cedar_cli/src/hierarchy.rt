//! What stands right below what, by the texts of names.

ghost use Rattle.std.specs.Prelude.{◌<◌, Any, IsTrue};
ghost use Rattle.std.specs.BTreeSet.{contains_text};
ghost use Rattle.std.specs.Bool.{OnFalse};

use cedar_ast::{M, Memory};
use cedar_schema::ValidatorSchema;
use schema_lines::escaped;
use std::alloc::Global;
use std::collections::{BTreeMap, BTreeSet, btree_set};
use std::fmt::Display;

/// The text of a name, with escapes for what would control a terminal.
pub(crate) fn text_of<T: Display>(alloc: Global, name: &T) -> M<String> {
    escaped(alloc, format!(in alloc; "{name}")?.as_str())
}

/// The texts of some names.
fn texts<T: Display>(alloc: Global, names: btree_set::Iter<'_, T>) -> M<BTreeSet<String>> {
    let mut texts = BTreeSet::new(alloc);
    for name in names {
        texts.insert(text_of(alloc, name)?)?;
    }
    Ok(texts)
}

/// What stands below each of some names, in steps of any number. Where memory runs out, that is
/// remembered, and reported where edges are asked for.
#[derive(Drop)]
pub(crate) struct Hierarchy {
    /// The names, each with those below it.
    pub(crate) below: BTreeMap<String, BTreeSet<String>>,
    /// Whether memory ran out.
    is_refused: bool,
}

/// How many names a name and those below it are: the same number for names on one cycle, and a
/// greater one for what else stands above them.
fn weight_of(name: &str, below: &BTreeSet<String>) -> usize {
    let others = below.len();
    if below.contains(name) {
        others
    } else {
        others.saturating_add(1)
    }
}

/// A name with its weight. The lighter comes first.
#[derive(Clone, Copy, PartialEq, Eq, PartialOrd, Ord, Drop)]
struct Weighed<'a> {
    weight: usize,
    name: &'a str,
}

/// A name that stands right above another. They are in the order of the upper names.
#[derive(Clone, Copy, PartialEq, Eq, PartialOrd, Ord, Drop)]
pub(crate) struct Edge<'a> {
    /// The one above.
    pub(crate) upper: &'a str,
    /// The one below.
    pub(crate) lower: &'a str,
}

/// A name, as far as those above it were gone through, the lightest first.
#[derive(Drop)]
struct Node<'a> {
    /// The weight of the name.
    weight: usize,
    /// Those right above it.
    above: Vec<Weighed<'a>>,
}

impl Node<'_> {
    /// Whether none of those right above the name stands between it and one of a weight that has
    /// these below it.
    fn is_right_below(&self, upper: usize, below: &BTreeSet<String>) -> bool
        ensures { OnFalse result (Any (λ middle.
            (self.now.weight < middle.weight) × (middle.weight < upper)
            × IsTrue (contains_text below.now middle.name.now)) self.now.above.items) }
    {
        for &Weighed { weight, name } in &self.above {
            if weight >= upper {
                return true;
            }
            if weight > self.weight && below.contains(name) {
                return false;
            }
        }
        true
    }
}

/// The edges of names, as far as they were gone through, the lightest first. Where memory runs out,
/// that is remembered, and reported at the end.
#[derive(Drop)]
struct Edges<'a> {
    /// The names.
    nodes: BTreeMap<&'a str, Node<'a>>,
    /// The edges that were found.
    found: Vec<Edge<'a>>,
    /// Whether memory ran out.
    is_refused: bool,
}

impl<'a> Edges<'a> {
    /// No edges yet between some names.
    fn new(alloc: Global, names: &[Weighed<'a>]) -> Self {
        let mut edges = Edges {
            nodes: BTreeMap::new(alloc),
            found: Vec::new(alloc),
            is_refused: false,
        };
        for name in names {
            edges.push_node(alloc, *name);
        }
        edges
    }

    /// Adds a name.
    fn push_node(&mut self, alloc: Global, it: Weighed<'a>) {
        let node = Node {
            weight: it.weight,
            above: Vec::new(alloc),
        };
        self.is_refused |= self.nodes.insert(it.name, node).is_err();
    }

    /// Adds an edge between two names, if no two others make it.
    fn push_edge(&mut self, upper: Weighed<'a>, lower: &'a str, below: &BTreeSet<String>) {
        if let Some(node) = self.nodes.get_mut(lower)
            && node.is_right_below(upper.weight, below)
        {
            let edge = Edge {
                upper: upper.name,
                lower,
            };
            self.is_refused |= node.above.push(upper).is_err();
            self.is_refused |= self.found.push(edge).is_err();
        }
    }

    /// The edges, in order, where memory sufficed for them.
    fn whole(mut self) -> M<Vec<Edge<'a>>> {
        if self.is_refused || self.found.sort().is_err() {
            return Err(Memory);
        }
        Ok(self.found)
    }

    /// Goes on by a name: adds an edge to it from each name that stands right below it.
    fn push_edges(&mut self, upper: Weighed<'a>, below: &'a BTreeSet<String>) {
        for lower in below {
            self.push_edge(upper, lower.as_str(), below);
        }
    }
}

impl Hierarchy {
    /// No names yet.
    fn new(alloc: Global) -> Self {
        Hierarchy {
            below: BTreeMap::new(alloc),
            is_refused: false,
        }
    }

    /// Adds a name with those below it.
    fn push<T: Display>(&mut self, alloc: Global, name: &T, below: btree_set::Iter<'_, T>) {
        match text_of(alloc, name) {
            Ok(name) => self.push_text(name, texts(alloc, below)),
            Err(Memory) => self.is_refused = true,
        }
    }

    /// Adds the text of a name with those below it.
    fn push_text(&mut self, name: String, below: M<BTreeSet<String>>) {
        match below {
            Ok(below) => self.is_refused |= self.below.insert(name, below).is_err(),
            Err(Memory) => self.is_refused = true,
        }
    }

    /// The names, each with its weight, the lightest first.
    fn by_weight(&self, alloc: Global) -> M<Vec<Weighed<'_>>> {
        let mut names = Vec::new(alloc);
        let mut is_refused = false;
        for (name, below) in &self.below {
            let name = name.as_str();
            let weight = weight_of(name, below);
            is_refused |= names.push(Weighed { weight, name }).is_err();
        }
        if is_refused || names.sort().is_err() {
            return Err(Memory);
        }
        Ok(names)
    }

    /// The edges between all names, which are given the lightest first.
    fn between<'a>(&'a self, alloc: Global, names: &[Weighed<'a>]) -> Edges<'a> {
        let mut edges = Edges::new(alloc, names);
        for name in names {
            if let Some(below) = self.below.get(name.name) {
                edges.push_edges(*name, below);
            }
        }
        edges
    }

    /// Each edge that no two others make, in order. On a cycle each name has an edge to each.
    pub(crate) fn edges(&self, alloc: Global) -> M<Vec<Edge<'_>>> {
        if self.is_refused {
            return Err(Memory);
        }
        let names = self.by_weight(alloc)?;
        self.between(alloc, &names).whole()
    }
}

/// The hierarchy of entity types, each under its name.
pub(crate) fn entity_types(alloc: Global, schema: &ValidatorSchema) -> Hierarchy {
    let mut hierarchy = Hierarchy::new(alloc);
    for ty in schema.entity_types() {
        hierarchy.push(alloc, ty.name(), ty.descendants.iter());
    }
    hierarchy
}

/// The hierarchy of actions, each under its uid.
pub(crate) fn actions(alloc: Global, schema: &ValidatorSchema) -> Hierarchy {
    let mut hierarchy = Hierarchy::new(alloc);
    for action in schema.action_ids() {
        hierarchy.push(alloc, action.name(), action.descendants());
    }
    hierarchy
}
