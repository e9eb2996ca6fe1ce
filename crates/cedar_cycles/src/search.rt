//! Which numbers chains of targets lead back to.

ghost use Rattle.std.specs.Prelude.{◌≡◌, ◌≢◌, ◌⊎◌, ◌↔◌, ◌++◌, ◌<◌, ◌≤◌, ℕ, List, [], ◌∷◌, Contains, IfOk, OnOk, length, map, slice_index, slice_index_or, true, false, vec_len};
ghost use Rattle.cedar_ast.specs.Chain.{Chain};
ghost use Rattle.cedar_graph.specs.Numbered.{IsTarget};
ghost use Rattle.cedar_cycles.specs.Search.{AreInOrder, IsLast, IsMarkOf, IsMarked, IsMet, IsNext, IsSearching, KeepsMet, cost_left, is_on_cycle, mark_of};

use cedar_ast::M;
use std::alloc::Global;

/// How far a number is gone through.
#[derive(Clone, Copy)]
pub(crate) enum Mark {
    /// It wasn't met yet.
    Fresh,
    /// It stands on the path at this place.
    Open(usize),
    /// It is gone through, and is on no cycle.
    Passed,
    /// It is gone through, and is on a cycle.
    OnCycle,
}

/// Where a group of numbers that reach one another begins. It ends where the next one begins.
#[derive(Clone, Copy)]
pub(crate) struct Group {
    /// Where its numbers begin on the path.
    pub(crate) path: usize,
    /// Where their targets begin that are to be gone to.
    pub(crate) pending: usize,
}

/// A search for numbers on cycles.
#[derive(Drop)]
pub(crate) struct Search {
    /// How far each number is gone through.
    pub(crate) marks: Vec<Mark>,
    /// The numbers that are gone through now, in the order in which they were met.
    pub(crate) path: Vec<usize>,
    /// Targets of these that are to be gone to.
    pub(crate) pending: Vec<usize>,
    /// The groups of the numbers on the path.
    pub(crate) groups: Vec<Group>,
}

/// Enters a number: it becomes the last of the path and a group of its own.
fn enter(search: &mut Search, targets: &Vec<Vec<usize>>, number: usize) -> M<()>
    requires under_way { IsSearching targets.now.items (number ∷ []) search.old }
    requires fresh { mark_of search.old.marks.items number ≡ Mark.Fresh }
    requires has_list { number < vec_len targets.now }
    requires next { (i : ℕ) → i < vec_len search.old.path
        → IsNext targets.now.items search.old.path.items search.old.groups.items number }
    ensures under_way { OnOk result (IsSearching targets.now.items [] search.new) }
    ensures less { OnOk result
        (cost_left targets.now.items search.new ≤ cost_left targets.now.items search.old) }
    ensures met { OnOk result (IsMet search.new.marks.items number) }
    ensures keeps { OnOk result (KeepsMet search.old.marks.items search.new.marks.items) }
{
    search.marks[number] = Mark::Open(search.path.len());
    search.groups.push(Group {
        path: search.path.len(),
        pending: search.pending.len(),
    })?;
    search.path.push(number)?;
    search.pending.extend_from_slice(&targets[number])?;
    Ok(())
}

/// Makes one group of that which the place on the path is in and those after it.
fn merge(groups: &mut Vec<Group>, place: usize)
    requires { AreInOrder groups.old.items }
    ensures merged { (rest : List Group) × (groups.old.items ≡ groups.new.items ++ rest)
        × ((group : Group) → Contains rest group → place < group.path) }
    ensures kept { (group : Group) → Contains groups.new.items group → group.path ≤ place }
{
    let mut kept = groups.len();
    while kept > 0 && groups[kept - 1].path > place {
        kept -= 1;
    }
    groups.truncate(kept);
}

/// Goes to the last target that is pending, which is one of the last group.
fn follow(search: &mut Search, targets: &Vec<Vec<usize>>) -> M<()>
    requires under_way { IsSearching targets.now.items [] search.old }
    requires within { (i j : ℕ) → IsTarget targets.now.items i j → j < vec_len targets.now }
    requires some { 0 < vec_len search.old.pending }
    requires of_last { (group : Group) → Contains search.old.groups.items group
        → group.pending < vec_len search.old.pending }
    ensures under_way { OnOk result (IsSearching targets.now.items [] search.new) }
    ensures less { OnOk result
        (cost_left targets.now.items search.new < cost_left targets.now.items search.old) }
    ensures keeps { OnOk result (KeepsMet search.old.marks.items search.new.marks.items) }
{
    let Some(number) = search.pending.pop() else {
        unreachable!();
    };
    match search.marks[number] {
        Mark::Fresh => enter(search, targets, number),
        Mark::Open(place) => {
            merge(&mut search.groups, place);
            Ok(())
        }
        Mark::Passed | Mark::OnCycle => Ok(()),
    }
}

/// What the numbers on the path are from a place on, where these are a group that is gone through.
fn group_mark(path: &[usize], start: usize, targets: &Vec<Vec<usize>>) -> Mark
    requires within { start < length path.now }
    requires has_list { slice_index_or path.now start 0 < vec_len targets.now }
    ensures { IsMarkOf targets.now.items path.now start result }
{
    let first = path[start];
    if path.len() - start > 1 || targets[first].contains(&first) {
        return Mark::OnCycle;
    }
    Mark::Passed
}

/// Takes the numbers from a place on off the path, and marks them.
fn close(marks: &mut Vec<Mark>, path: &mut Vec<usize>, start: usize, mark: Mark)
    requires within { start ≤ vec_len path.old }
    requires opened { (place : ℕ) → place < vec_len path.old
        → mark_of marks.old.items (slice_index_or path.old.items place 0) ≡ Mark.Open place }
    requires on_path { (number place : ℕ) → mark_of marks.old.items number ≡ Mark.Open place
        → (place < vec_len path.old) × (slice_index_or path.old.items place 0 ≡ number) }
    ensures len { vec_len path.new ≡ start }
    ensures front { (rest : List ℕ) × (path.old.items ≡ path.new.items ++ rest) }
    ensures marked { IsMarked mark start marks.old.items marks.new.items }
{
    while path.len() > start {
        let Some(number) = path.pop() else {
            unreachable!();
        };
        marks[number] = mark;
    }
}

/// Leaves the last group, which is gone through.
fn leave(search: &mut Search, targets: &Vec<Vec<usize>>)
    requires under_way { IsSearching targets.now.items [] search.old }
    requires within { (i j : ℕ) → IsTarget targets.now.items i j → j < vec_len targets.now }
    requires some { 0 < vec_len search.old.groups }
    requires done { (group : Group) → IsLast search.old.groups.items group
        → vec_len search.old.pending ≤ group.pending }
    ensures under_way { IsSearching targets.now.items [] search.new }
    ensures less { cost_left targets.now.items search.new < cost_left targets.now.items search.old }
    ensures keeps { KeepsMet search.old.marks.items search.new.marks.items }
{
    let Some(group) = search.groups.pop() else {
        unreachable!();
    };
    let mark = group_mark(&search.path, group.path, targets);
    close(&mut search.marks, &mut search.path, group.path, mark);
}

/// Goes through all that a number reaches that isn't gone through yet.
fn visit(search: &mut Search, targets: &Vec<Vec<usize>>, start: usize) -> M<()>
    requires under_way { IsSearching targets.now.items [] search.old }
    requires within { (i j : ℕ) → IsTarget targets.now.items i j → j < vec_len targets.now }
    requires at_rest { vec_len search.old.path ≡ 0 }
    requires fresh { mark_of search.old.marks.items start ≡ Mark.Fresh }
    requires has_list { start < vec_len targets.now }
    ensures under_way { OnOk result (IsSearching targets.now.items [] search.new) }
    ensures at_rest { OnOk result (vec_len search.new.path ≡ 0) }
    ensures met { OnOk result (IsMet search.new.marks.items start) }
    ensures keeps { OnOk result (KeepsMet search.old.marks.items search.new.marks.items) }
{
    enter(search, targets, start)?;
    while let Some(group) = search.groups.last() {
        if search.pending.len() > group.pending {
            follow(search, targets)?;
        } else {
            leave(search, targets);
        }
    }
    Ok(())
}

/// Which marks say that their numbers are on cycles.
fn flags(alloc: Global, marks: &[Mark]) -> M<Vec<bool>>
    ensures { IfOk result (λ flags. flags.items ≡ map is_on_cycle marks.now) }
{
    let mut flags = Vec::with_capacity(alloc, marks.len())?;
    for mark in marks {
        flags.push(matches!(mark, Mark::OnCycle))?;
    }
    Ok(flags)
}

/// Tells of each number whether a chain of targets leads from it back to it.
///
/// Each target has a list of its own. It takes time linear in the lengths of the lists together,
/// and no recursion. Out of memory is the only refusal.
pub fn on_cycles(alloc: Global, targets: &Vec<Vec<usize>>) -> M<Vec<bool>>
    requires { (i j : ℕ) → IsTarget targets.now.items i j → j < vec_len targets.now }
    ensures len { IfOk result (λ flags. vec_len flags ≡ vec_len targets.now) }
    ensures flags { IfOk result (λ flags. (number : ℕ) → number < vec_len targets.now
        → (slice_index_or flags.items number false ≡ true)
        ↔ Chain (IsTarget targets.now.items) number number) }
{
    let mut search = Search {
        marks: vec![in alloc; Mark::Fresh; targets.len()]?,
        path: Vec::new(alloc),
        pending: Vec::new(alloc),
        groups: Vec::new(alloc),
    };
    for start in 0..targets.len() {
        if matches!(search.marks[start], Mark::Fresh) {
            visit(&mut search, targets, start)?;
        }
    }
    flags(alloc, &search.marks)
}
