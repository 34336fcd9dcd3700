//! Operations that are drawn by numbers.
use super::deed::{Deed, op_of};
use super::pair::Pair;
use graph_meaning::ClassGraph;
use graph_terms::TableFault;
use std::alloc::Global;

/// The operation of a kind over two terms.
fn drawn(kind: u32, ends: &[u32; 2]) -> Deed {
    let [left, right] = *ends;
    match kind {
        0 => Deed::Push,
        1 => Deed::Pop,
        2 => Deed::Differ(left, right),
        3 => Deed::Live(left, &[1]),
        4 | 5 => Deed::Merge(left, right),
        6 => Deed::Add(2 + left % 2, &[]),
        7 => Deed::Add(5, ends),
        _ => Deed::Add(4, &ends[..1]),
    }
}

/// Does one operation that a number stands for where it is allowed, and tells whether the graphs agree on it and after it.
fn draw(pair: &mut Pair, alloc: Global, number: u32) -> Result<bool, TableFault> {
    let terms = pair.graph.len().max(1);
    let ends = [number / 16 % terms, number / 4096 % terms];
    let op = op_of(alloc, drawn(number % 10, &ends))?;
    let Some(allowed) = pair.allows(&op) else {
        return Ok(false);
    };
    if allowed {
        pair.mark()?;
        pair.lead(&op)?;
        pair.follow(op)?;
    }
    Ok(pair.agrees())
}

/// Does so many operations, and tells whether the graphs agree on each and after it.
pub fn draw_list(alloc: Global, first: u64, count: u32) -> Result<bool, TableFault> {
    let mut pair = Pair::new(alloc, 40)?;
    let mut seed = first;
    for _operation in 0..count {
        seed = seed
            .wrapping_mul(6_364_136_223_846_793_005)
            .wrapping_add(1_442_695_040_888_963_407);
        if !draw(&mut pair, alloc, (seed >> 33) as u32)? {
            return Ok(false);
        }
    }
    Ok(true)
}
