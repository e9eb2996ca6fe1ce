//! What chains of targets reach from each number that has a list of them.

ghost use Rattle.std.specs.Prelude.{◌≡◌, ◌≢◌, ◌++◌, ℕ, ◌*◌, ◌<◌, ◌≤◌, ◌↔◌, All, Contains, IfNone, IfOk, IfSome, IsTrue, List, OnOk, false, length, vec_len};
ghost use Rattle.cedar_graph.specs.Words.{AreClosed, AreGathered, AreReached, Chain, Done, Fresh, GathersMore, IsTarget, mark_of};

use cedar_ast::M;
use std::alloc::Global;

/// How far a number is gone through while what one number reaches is gathered.
#[derive(Clone, Copy)]
pub(crate) enum Mark {
    /// It isn't gathered.
    Fresh,
    /// It is gathered, and what it leads to may not be.
    Met,
    /// It is gathered, and so is all that it leads to, once the numbers at hand are.
    Done,
}

/// Gathers the number, unless it is gathered already, and marks it, unless it is done.
fn gather(found: &mut Vec<usize>, marks: &mut Vec<Mark>, number: usize, mark: Mark) -> M<()>
    requires gathered { AreGathered marks.old.items found.old.items }
    requires in_range { number < vec_len marks.old }
    requires not_fresh { mark ≢ Fresh }
    ensures { OnOk result (GathersMore mark (λ passes. passes ≡ number) marks.old.items
        found.old.items marks.new.items found.new.items) }
{
    match marks[number] {
        Mark::Fresh => {
            found.push(number)?;
            marks[number] = mark;
            Ok(())
        }
        Mark::Met => {
            marks[number] = mark;
            Ok(())
        }
        Mark::Done => Ok(()),
    }
}

/// Gathers each of the numbers.
fn gather_all(found: &mut Vec<usize>, marks: &mut Vec<Mark>, numbers: &[usize], mark: Mark) -> M<()>
    requires gathered { AreGathered marks.old.items found.old.items }
    requires within { All (λ number. number < vec_len marks.old) numbers.now }
    requires not_fresh { mark ≢ Fresh }
    ensures { OnOk result (GathersMore mark (Contains numbers.now) marks.old.items
        found.old.items marks.new.items found.new.items) }
{
    for number in numbers {
        gather(found, marks, *number, mark)?;
    }
    Ok(())
}

/// The numbers to be gathered for a number that has a list, and how far these are gone through
/// then: all that it reaches, if that is known, else its targets.
fn following<'a>(
    closed: &'a Vec<Vec<usize>>,
    targets: &'a Vec<Vec<usize>>,
    number: usize,
) -> (&'a Vec<usize>, Mark)
    requires closed { AreClosed targets.now.items closed.now.items }
    requires has_list { number < vec_len targets.now }
    ensures sound { (to : ℕ) → Contains result.0.now.items to
        → Chain (IsTarget targets.now.items) number to }
    ensures complete { (to : ℕ) → IsTarget targets.now.items number to
        → Contains result.0.now.items to }
    ensures done { result.1 ≡ Done → (via to : ℕ) → Contains result.0.now.items via
        → IsTarget targets.now.items via to → Contains result.0.now.items to }
    ensures not_fresh { result.1 ≢ Fresh }
{
    match closed.get(number) {
        Some(reached) => (reached, Mark::Done),
        None => (&targets[number], Mark::Met),
    }
}

/// Whether the number leads to others and isn't done.
fn leads_on(targets: &Vec<Vec<usize>>, marks: &Vec<Mark>, number: usize) -> bool
    requires { number < vec_len marks.now }
    ensures yes { IsTrue result → (number < vec_len targets.now)
        × (mark_of marks.now.items number ≢ Done) }
    ensures no { (result ≡ false) → (to : ℕ) → IsTarget targets.now.items number to
        → mark_of marks.now.items number ≡ Done }
{
    if number >= targets.len() || targets[number].is_empty() {
        return false;
    }
    !matches!(marks[number], Mark::Done)
}

/// Gathers what a number leads to that is gathered itself.
fn follow(
    closed: &Vec<Vec<usize>>,
    targets: &Vec<Vec<usize>>,
    from: usize,
    number: usize,
    found: &mut Vec<usize>,
    marks: &mut Vec<Mark>,
) -> M<()>
    requires closed { AreClosed targets.now.items closed.now.items }
    requires within { (i j : ℕ) → IsTarget targets.now.items i j → j < vec_len marks.old }
    requires reached { AreReached targets.now.items from marks.old.items found.old.items }
    requires has_list { number < vec_len targets.now }
    requires gathered { Contains found.old.items number }
    ensures len { OnOk result (length marks.new.items ≡ length marks.old.items) }
    ensures reached { OnOk result
        (AreReached targets.now.items from marks.new.items found.new.items) }
    ensures grown { OnOk result
        ((rest : List ℕ) × (found.new.items ≡ found.old.items ++ rest)) }
    ensures stays { OnOk result ((other : ℕ) → mark_of marks.old.items other ≡ Done
        → mark_of marks.new.items other ≡ Done) }
    ensures done { OnOk result (mark_of marks.new.items number ≡ Done) }
{
    let (numbers, mark) = following(closed, targets, number);
    gather_all(found, marks, numbers, mark)?;
    marks[number] = Mark::Done;
    Ok(())
}

/// All that chains of targets reach from a number, each once, and how many lists were gone through
/// for it.
fn reached(
    alloc: Global,
    closed: &Vec<Vec<usize>>,
    targets: &Vec<Vec<usize>>,
    from: usize,
    marks: &mut Vec<Mark>,
) -> M<(Vec<usize>, usize)>
    requires closed { AreClosed targets.now.items closed.now.items }
    requires within { (i j : ℕ) → IsTarget targets.now.items i j → j < vec_len marks.old }
    requires fresh { (number : ℕ) → mark_of marks.old.items number ≡ Fresh }
    requires has_list { from < vec_len targets.now }
    ensures len { OnOk result (length marks.new.items ≡ length marks.old.items) }
    ensures gathered { IfOk result (λ found. AreGathered marks.new.items found.0.items) }
    ensures reached { IfOk result (λ found. (to : ℕ) → Contains found.0.items to
        ↔ Chain (IsTarget targets.now.items) from to) }
    ensures count { IfOk result (λ found. found.1 ≤ vec_len targets.now) }
{
    let mut found = Vec::new(alloc);
    let mut place = 0;
    let mut joins = 0;
    gather_all(&mut found, marks, &targets[from], Mark::Met)?;
    while place < found.len() {
        let number = found[place];
        place += 1;
        if leads_on(targets, marks, number) {
            follow(closed, targets, from, number, &mut found, marks)?;
            joins += 1;
        }
    }
    Ok((found, joins))
}

/// Marks the numbers that were gathered as fresh again.
fn forget(marks: &mut Vec<Mark>, numbers: &[usize])
    requires { AreGathered marks.old.items numbers.now }
    ensures len { length marks.new.items ≡ length marks.old.items }
    ensures fresh { (number : ℕ) → mark_of marks.new.items number ≡ Fresh }
{
    for number in numbers {
        marks[*number] = Mark::Fresh;
    }
}

/// All that chains of targets reach from each number that has a list, and how many lists were gone
/// through for that.
///
/// What a number reaches is gathered from list to list, as long as there are numbers whose list
/// wasn't gone through. In place of the targets of an earlier number stands all that it reaches,
/// which is known then.
pub(crate) fn closed_lists(
    alloc: Global,
    targets: &Vec<Vec<usize>>,
    columns: usize,
) -> M<(Vec<Vec<usize>>, u128)>
    requires within { (i j : ℕ) → IsTarget targets.now.items i j → j < columns }
    ensures len { IfOk result (λ closed. vec_len closed.0 ≡ vec_len targets.now) }
    ensures closed { IfOk result (λ closed. (i j : ℕ)
        → IsTarget closed.0.items i j ↔ Chain (IsTarget targets.now.items) i j) }
    ensures count { IfOk result (λ closed. closed.1 ≤ vec_len targets.now * vec_len targets.now) }
{
    let mut marks = vec![in alloc; Mark::Fresh; columns]?;
    let mut closed = Vec::with_capacity(alloc, targets.len())?;
    let mut joins = 0;
    for from in 0..targets.len() {
        let (found, lists) = reached(alloc, &closed, targets, from, &mut marks)?;
        forget(&mut marks, &found);
        closed.push(found)?;
        joins += lists as u128;
    }
    Ok((closed, joins))
}
