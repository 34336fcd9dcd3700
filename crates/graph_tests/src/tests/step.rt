//! The steps of the tests.
use super::calls::{adds, call, finds};
use super::deed::{Deed, op_of};
use super::fact::{Fact, holds};
use super::pair::Pair;
use graph_terms::TableFault;
use std::alloc::Global;

/// What is done with two graphs, and what has to come of it.
#[derive(Clone, Copy, Debug)]
pub enum Step<'a> {
    /// Both graphs allow the operation, and do it by `apply`.
    Do(Deed<'a>),
    /// Both graphs do the operation, the one with a trail by its own call, which lists these unions.
    Call(Deed<'a>, &'a [(u32, u32)]),
    /// The row stands as this term, and adding it does nothing.
    Find(u32, &'a [u32], u32),
    /// The row is allowed and there is no place for it, and adding it does nothing.
    Full(u32, &'a [u32]),
    /// Neither graph allows the operation.
    Refuse(Deed<'a>),
    /// The graph with a trail does the operation alone, is another one by it, and takes it back.
    TakeBack(Deed<'a>),
    /// The front of the graphs is kept under the next number.
    Mark,
    /// The front that was kept under this number still stands.
    Stands(usize),
    /// The front that was kept under this number stands no more.
    Falls(usize),
    /// The graph with a trail answers this.
    See(Fact),
}

/// Whether both graphs allow the operation, which they then do by `apply`.
fn does(pair: &mut Pair, alloc: Global, deed: Deed) -> Result<bool, TableFault> {
    let op = op_of(alloc, deed)?;
    Ok(pair.lead(&op)? && pair.follow(op)?)
}

/// Whether both graphs do the operation, the one with a trail by its own call, with these unions.
fn calls(
    pair: &mut Pair,
    alloc: Global,
    deed: Deed,
    unions: &[(u32, u32)],
) -> Result<bool, TableFault> {
    let op = op_of(alloc, deed)?;
    Ok(pair.follow(op)? && call(&mut pair.graph, alloc, deed, unions)?)
}

/// Whether a row found no place.
fn is_full(answer: Result<bool, TableFault>) -> Result<bool, TableFault> {
    match answer {
        Ok(_) => Ok(false),
        Err(TableFault::Full) => Ok(true),
        Err(TableFault::Memory) => Err(TableFault::Memory),
    }
}

/// Whether the row finds no place in either graph, by any call.
fn fills(pair: &mut Pair, alloc: Global, symbol: u32, args: &[u32]) -> Result<bool, TableFault> {
    let op = op_of(alloc, Deed::Add(symbol, args))?;
    Ok(
        is_full(pair.lead(&op))?
            && is_full(pair.follow(op))?
            && is_full(adds(&mut pair.graph, symbol, args, &[]))?,
    )
}

/// Whether both graphs refuse the operation.
fn refuses(pair: &Pair, alloc: Global, deed: Deed) -> Result<bool, TableFault> {
    let op = op_of(alloc, deed)?;
    Ok(pair.allows(&op) == Some(false))
}

/// Whether the graph with a trail does the operation, is another one by it, and takes it back.
fn takes_back(pair: &mut Pair, alloc: Global, deed: Deed) -> Result<bool, TableFault> {
    let op = op_of(alloc, deed)?;
    Ok(pair.lead(&op)? && !pair.agrees() && pair.go_back())
}

/// Does the step, and tells whether what had to come of it came.
fn act(pair: &mut Pair, alloc: Global, step: Step) -> Result<bool, TableFault> {
    match step {
        Step::Do(deed) => does(pair, alloc, deed),
        Step::Call(deed, unions) => calls(pair, alloc, deed, unions),
        Step::Find(symbol, args, term) => finds(&mut pair.graph, symbol, args, term),
        Step::Full(symbol, args) => fills(pair, alloc, symbol, args),
        Step::Refuse(deed) => refuses(pair, alloc, deed),
        Step::TakeBack(deed) => takes_back(pair, alloc, deed),
        Step::Mark => {
            pair.mark()?;
            Ok(true)
        }
        Step::Stands(number) => Ok(pair.stands(number) == Some(true)),
        Step::Falls(number) => Ok(pair.stands(number) == Some(false)),
        Step::See(fact) => Ok(holds(&pair.graph, fact)),
    }
}

/// Does the step, and tells whether what had to come of it came and the graphs agree after it.
pub fn passes(pair: &mut Pair, alloc: Global, step: Step) -> Result<bool, TableFault> {
    Ok(act(pair, alloc, step)? && pair.agrees())
}
