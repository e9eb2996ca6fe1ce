//! Numbers in order: chains of any length, what leads nowhere, and rings.

use cedar_ast::M;
use cedar_graph::{Ordered, lowest_first, topo_sort};
use checked::{one_of, same};
use std::alloc::Global;
use std::test::Fail;

/// For each number below the count the list of what the edges lead it to.
fn lists(alloc: Global, count: usize, edges: &[(usize, usize)]) -> M<Vec<Vec<usize>>> {
    let mut targets = Vec::new(alloc);
    for number in 0..count {
        let mut list = Vec::new(alloc);
        for (from, to) in edges {
            if *from == number {
                list.push(*to)?;
            }
        }
        targets.push(list)?;
    }
    Ok(targets)
}

/// Each number below the count leads to the next.
fn chain(alloc: Global, count: usize) -> M<Vec<Vec<usize>>> {
    let mut targets = Vec::new(alloc);
    for number in 0..count {
        let mut list = Vec::new(alloc);
        list.push(number + 1)?;
        targets.push(list)?;
    }
    Ok(targets)
}

/// What is said of an order: how many numbers it has, the first and the last; or who is on a cycle.
fn shown(alloc: Global, targets: &Vec<Vec<usize>>) -> Result<String, Fail> {
    match topo_sort(alloc, targets)? {
        Ordered::Order(order) => {
            let (count, first, last) = (order.len(), order.first(), order.last());
            Ok(format!(in alloc; "{count} from {first:?} to {last:?}")?)
        }
        Ordered::Cycle(number) => Ok(format!(in alloc; "a cycle through {number}")?),
    }
}

/// Graphs: how many numbers and which edges they have, and what may be said of their order.
const ORDERS: &[(usize, &[(usize, usize)], &str)] = &[
    (0, &[], "0 from None to None"),
    (2, &[(0, 1)], "2 from Some(1) to Some(0)"),
    (2, &[(1, 0), (0, 7)], "2 from Some(0) to Some(1)"),
    (
        4,
        &[(3, 1), (1, 0), (3, 2), (2, 0), (0, 9)],
        "4 from Some(0) to Some(3)",
    ),
    (1, &[(0, 0)], "a cycle through 0"),
    (3, &[(0, 1), (1, 1), (1, 2)], "a cycle through 1"),
    (
        5,
        &[(0, 1), (1, 2), (2, 3), (3, 1), (3, 4)],
        "a cycle through 1 or else a cycle through 2 or else a cycle through 3",
    ),
];

#[test]
fn numbers_come_after_those_that_they_lead_to(rt: HostRuntime) -> Result<(), Fail> {
    let alloc = rt.alloc();
    for &(count, edges, allowed) in ORDERS {
        let shown = shown(alloc, &lists(alloc, count, edges)?)?;
        one_of(allowed, shown.as_str(), allowed)?;
    }
    Ok(())
}

/// Graphs, and how their numbers may stand where cycles are passed over.
const LOWEST: &[(usize, &[(usize, usize)], &str)] = &[
    (0, &[], "[]"),
    (2, &[(0, 1)], "[1, 0]"),
    (2, &[(1, 0), (0, 7)], "[0, 1]"),
    (1, &[(0, 0)], "[0]"),
    (3, &[(0, 1), (1, 1), (1, 2)], "[2, 1, 0]"),
    (
        4,
        &[(0, 1), (1, 2), (2, 1), (2, 3)],
        "[3, 1, 2, 0] or else [3, 2, 1, 0]",
    ),
];

#[test]
fn what_is_lowest_comes_first_beside_cycles(rt: HostRuntime) -> Result<(), Fail> {
    let alloc = rt.alloc();
    for &(count, edges, allowed) in LOWEST {
        let order = lowest_first(alloc, &lists(alloc, count, edges)?)?;
        let shown = format!(in alloc; "{order:?}")?;
        one_of(allowed, shown.as_str(), allowed)?;
    }
    Ok(())
}

#[test]
fn a_long_chain_takes_no_stack(rt: HostRuntime) -> Result<(), Fail> {
    let alloc = rt.alloc();
    let shown = shown(alloc, &chain(alloc, 100_000)?)?;
    same(
        "a chain",
        shown.as_str(),
        "100000 from Some(99999) to Some(0)",
    )
}
