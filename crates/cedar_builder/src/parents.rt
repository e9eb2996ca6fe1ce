//! The parents of what is declared, as edges.

ghost use Rattle.std.specs.Prelude.{◌≡◌, ◌⊎◌, ◌++◌, IfErr, IfOk, List, OnOk, map};
ghost use Rattle.cedar_builder.specs.Words.{Fault, HoldsPairwise, IsEdgeOf, IsParentFault, Names, fault_of, held_names, named, out_of_memory, parents_in};

use cedar_ast::M;
use cedar_name_resolution::defs::AllDefs;
use cedar_schema_semantics::SchemaError;
use std::alloc::Global;

/// A declaration with parents, which keys stand for.
///
/// The ghost members are what contracts speak of: the name that a key stands for, what a parent
/// refers to where the declaration is written, the parents of a declaration, what a reference
/// resolves to, and why a parent is refused.
pub(crate) trait HasParents<K> {
    type Parent;

    ghost Name: { Type 0 };

    ghost key_name: { K → Name };

    ghost Reference: { Type 0 };

    ghost reference_of: { Self → Self.Parent → Reference };

    ghost parents_of: { Self → List Reference };

    ghost Resolves: { Names → Reference → Name → Type 0 };

    ghost Refuses: { Names → Reference → Fault → Type 0 };

    /// The parents that are declared.
    fn parents(&self) -> &[Self::Parent]
        ensures { map (reference_of self.now) result.now ≡ parents_of self.now };

    /// The key of what a parent stands for. It errs where it stands for nothing or is refused, or
    /// memory runs out.
    fn parent_key(
        &self,
        alloc: Global,
        parent: &Self::Parent,
        defs: &AllDefs,
    ) -> Result<K, SchemaError>
        ensures key { IfOk result (λ key. Resolves (held_names defs.now)
            (reference_of self.now parent.now) (key_name key)) }
        ensures fault { IfErr result (λ error. (fault_of error ≡ out_of_memory)
            ⊎ Refuses (held_names defs.now) (reference_of self.now parent.now)
            (fault_of error)) };

    /// An equal key. Out of memory is the only refusal.
    fn copy_key(key: &K) -> M<K>
        ensures { IfOk result (λ copy. key_name copy ≡ key_name key.now) };
}

/// Adds an edge from each of the parents.
fn add_parents<K: Drop, D: HasParents<K>>(
    alloc: Global,
    edges: &mut Vec<(K, K)>,
    lower: &K,
    declaration: &D,
    defs: &AllDefs,
) -> Result<(), SchemaError>
    ensures added { OnOk result ((parents : List (D.Name × D.Reference))
        → HoldsPairwise (IsEdgeOf D.key_name (D.Resolves (held_names defs.now)))
        edges.old.items parents
        → HoldsPairwise (IsEdgeOf D.key_name (D.Resolves (held_names defs.now)))
        edges.new.items (parents
        ++ map (λ reference. (D.key_name lower.now, reference)) (D.parents_of declaration.now))) }
    ensures fault { IfErr result (λ error.
        IsParentFault (D.Refuses (held_names defs.now)) (map (λ reference.
        (D.key_name lower.now, reference)) (D.parents_of declaration.now)) (fault_of error)) }
{
    for parent in declaration.parents() {
        let upper = declaration.parent_key(alloc, parent, defs)?;
        edges.push((upper, D::copy_key(lower)?))?;
    }
    Ok(())
}

/// An edge to what each declaration is of from what each of its parents stands for.
pub(crate) fn parent_edges<K: Drop, D: HasParents<K>>(
    alloc: Global,
    declared: &[Box<(K, D)>],
    defs: &AllDefs,
) -> Result<Vec<(K, K)>, SchemaError>
    ensures edges { IfOk result (λ edges.
        HoldsPairwise (IsEdgeOf D.key_name (D.Resolves (held_names defs.now))) edges.items
        (parents_in (map (named D.key_name D.parents_of) declared.now))) }
    ensures fault { IfErr result (λ error.
        IsParentFault (D.Refuses (held_names defs.now))
        (parents_in (map (named D.key_name D.parents_of) declared.now)) (fault_of error)) }
{
    let mut edges = Vec::with_capacity(alloc, declared.len())?;
    for item in declared {
        let (lower, declaration) = &**item;
        add_parents(alloc, &mut edges, lower, declaration, defs)?;
    }
    Ok(edges)
}
