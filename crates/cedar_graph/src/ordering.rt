//! Numbers in an order in which each comes after those that it leads to, or in one that passes over
//! cycles.

ghost use Rattle.std.specs.Prelude.{◌≡◌, ◌++◌, ◌<◌, ℕ, Contains, IfNone, IfOk, IfSome, IsTrue, OnOk, map};
ghost use Rattle.cedar_graph.specs.Words.{Chain, Enter, IsLowestFirst, IsOrdered, IsTarget, IsWalked, Leave};

use cedar_ast::M;
use std::alloc::Global;

/// Some numbers in order, or why there is none.
#[derive(Debug, Drop)]
pub enum Ordered {
    /// Each number once, after those that it leads to.
    Order(Vec<usize>),
    /// There is no order: this number is on a cycle.
    Cycle(usize),
}

/// How far a number is gone through.
#[derive(Clone, Copy)]
enum Mark {
    /// It wasn't met yet.
    Fresh,
    /// What it leads to is gone through now.
    Open,
    /// It stands in the order.
    Done,
}

/// What is to be done with a number.
#[derive(Clone, Copy)]
enum Step {
    /// To go through what it leads to, if it wasn't met yet.
    Enter(usize),
    /// To put it into the order, since what it leads to is gone through.
    Leave(usize),
}

/// What is found as numbers are gone through.
#[derive(Drop)]
struct Walk {
    /// Each number once, after those that it leads to, but for those that lead back to themselves.
    order: Vec<usize>,
    /// The first number found on a cycle, None where there is none.
    on_cycle: Option<usize>,
}

/// Adds that each of the numbers is to be entered.
fn enter_all(steps: &mut Vec<Step>, numbers: &[usize]) -> M<()>
    ensures { OnOk result (steps.new.items ≡ steps.old.items ++ map Enter numbers.now) }
{
    for number in numbers {
        steps.push(Step::Enter(*number))?;
    }
    Ok(())
}

/// Steps that enter each number below the bound.
fn enter_below(alloc: Global, bound: usize) -> M<Vec<Step>>
    ensures each { IfOk result (λ steps.
        (number : ℕ) → number < bound → Contains steps.items (Enter number)) }
    ensures only { IfOk result (λ steps. (number : ℕ) → ¬ Contains steps.items (Leave number)) }
{
    let mut steps = Vec::new(alloc);
    for number in 0..bound {
        steps.push(Step::Enter(number))?;
    }
    Ok(steps)
}

/// Goes through the numbers that have a list, each once and after those of its list, but for those
/// that lead back to themselves.
fn walk_through(alloc: Global, targets: &Vec<Vec<usize>>) -> M<Walk>
    ensures { IfOk result (IsWalked targets.now.items) }
{
    let mut marks = vec![in alloc; Mark::Fresh; targets.len()]?;
    let mut steps = enter_below(alloc, targets.len())?;
    let mut order = Vec::new(alloc);
    let mut on_cycle = None;
    while let Some(step) = steps.pop() {
        match step {
            Step::Leave(number) => {
                order.push(number)?;
                marks[number] = Mark::Done;
            }
            Step::Enter(number) if number < marks.len() => match marks[number] {
                Mark::Fresh => {
                    marks[number] = Mark::Open;
                    steps.push(Step::Leave(number))?;
                    enter_all(&mut steps, &targets[number])?;
                }
                Mark::Open => on_cycle = on_cycle.or(Some(number)),
                Mark::Done => {}
            },
            Step::Enter(_) => {}
        }
    }
    Ok(Walk { order, on_cycle })
}

/// Each number that has a list, once, after those of its list, but for those that lead back to
/// themselves.
///
/// It takes time linear in the lengths of the lists together, and no recursion. Out of memory is
/// the only refusal.
pub fn lowest_first(alloc: Global, targets: &Vec<Vec<usize>>) -> M<Vec<usize>>
    ensures { IfOk result (λ order. IsLowestFirst targets.now.items order.items) }
{
    let Walk {
        order,
        on_cycle: _on_cycle,
    } = walk_through(alloc, targets)?;
    Ok(order)
}

/// Orders the numbers of the lists, so that each comes after those of its list, or finds one that
/// its list leads back to. A number without a list has no place in the order.
///
/// It takes time linear in the lengths of the lists together, and no recursion. Out of memory is
/// the only refusal.
pub fn topo_sort(alloc: Global, targets: &Vec<Vec<usize>>) -> M<Ordered>
    ensures { IfOk result (IsOrdered targets.now.items) }
{
    let Walk { order, on_cycle } = walk_through(alloc, targets)?;
    match on_cycle {
        Some(number) => Ok(Ordered::Cycle(number)),
        None => Ok(Ordered::Order(order)),
    }
}

/// Where no chain may lead back, a number that one leads back to. It takes no more time than an
/// order does, whatever chains reach together.
pub(crate) fn number_on_cycle(
    alloc: Global,
    targets: &Vec<Vec<usize>>,
    enforce_dag: bool,
) -> M<Option<usize>>
    ensures found { IfOk result (λ found. IfSome found (λ number.
        IsTrue enforce_dag × Chain (IsTarget targets.now.items) number number)) }
    ensures none { IfOk result (λ found. IfNone found (IsTrue enforce_dag
        → (number : ℕ) → ¬ Chain (IsTarget targets.now.items) number number)) }
{
    if !enforce_dag {
        return Ok(None);
    }
    match topo_sort(alloc, targets)? {
        Ordered::Order(_order) => Ok(None),
        Ordered::Cycle(number) => Ok(Some(number)),
    }
}
