//! Operations as the tables of the tests write them.
use graph_meaning::Op;
use graph_terms::{Memory, Numbers};
use graph_trigger::{PatternRow, PatternRows, Trigger};
use std::alloc::Global;

/// An operation. The symbols 2 and 3 are constants, 4 is `f` and 5 is `g`.
#[derive(Clone, Copy, Debug)]
pub enum Deed<'a> {
    Add(u32, &'a [u32]),
    Merge(u32, u32),
    Differ(u32, u32),
    /// A trigger of the forall with this number, over the rows `x` and `f(x)`, with these roots.
    Live(u32, &'a [u32]),
    Push,
    Pop,
}

/// A trigger of a forall, over the rows `x` and `f(x)`, with these roots.
pub fn trigger(alloc: Global, forall: u32, roots: &[u32]) -> Result<Trigger, Memory> {
    let mut rows = PatternRows::new(alloc);
    rows.push(PatternRow::Var { index: 0 })?;
    rows.push(PatternRow::App {
        symbol: 4,
        args: Numbers::from_slice(alloc, &[0])?,
    })?;
    Ok(Trigger {
        forall,
        place: 0,
        variables: 1,
        rows,
        roots: Numbers::from_slice(alloc, roots)?,
    })
}

/// The operation itself.
pub fn op_of(alloc: Global, deed: Deed) -> Result<Op, Memory> {
    Ok(match deed {
        Deed::Add(symbol, args) => Op::Add {
            symbol,
            args: Numbers::from_slice(alloc, args)?,
        },
        Deed::Merge(left, right) => Op::Merge { left, right },
        Deed::Differ(left, right) => Op::Differ { left, right },
        Deed::Live(forall, roots) => Op::Live {
            trigger: trigger(alloc, forall, roots)?,
        },
        Deed::Push => Op::Push,
        Deed::Pop => Op::Pop,
    })
}
