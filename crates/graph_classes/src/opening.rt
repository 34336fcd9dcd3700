//! The parts of a graph of true and false alone.
ghost use Rattle.std.specs.Prelude.{◌≡◌, ◌≤◌, ◌∷◌, [], IfOk};
ghost use Rattle.graph_classes.specs.First.{first_parts};
ghost use Rattle.graph_classes.specs.History.{now};
ghost use Rattle.graph_classes.specs.Standing.{IsGood};

use crate::classes::Classes;
use crate::lists::Lists;
use crate::log::Log;
use crate::parts::Parts;
use crate::place::Place;
use crate::signatures::Signatures;
use crate::term_list::TermList;
use graph_terms::{Memory, TermTable};
use graph_trail::Trail;
use std::alloc::Global;

/// A list of one term.
fn list_of(alloc: Global, term: u32) -> Result<TermList, Memory>
    ensures { IfOk result (λ list. list ≡ term ∷ []) }
{
    let mut list = TermList::new(alloc);
    list.push(term)?;
    Ok(list)
}

/// The signature of a symbol without arguments.
fn symbol_key(alloc: Global, symbol: u32) -> Result<Vec<u32>, Memory>
    ensures { IfOk result (λ key. key.items ≡ symbol ∷ []) }
{
    let mut key = Vec::new(alloc);
    key.push(symbol)?;
    Ok(key)
}

/// The signatures of true and false.
fn first_signatures(alloc: Global) -> Result<Signatures, Memory>
    ensures { IfOk result (λ table. table ≡ (0 ∷ [], 0) ∷ (1 ∷ [], 1) ∷ []) }
{
    let mut table = Signatures::new(alloc);
    table.enter(symbol_key(alloc, 0)?, 0)?;
    table.enter(symbol_key(alloc, 1)?, 1)?;
    Ok(table)
}

/// The numbers of true and false.
fn first_numbers(alloc: Global) -> Result<Vec<u32>, Memory>
    ensures { IfOk result (λ numbers. numbers.items ≡ 0 ∷ 1 ∷ []) }
{
    let mut numbers = Vec::new(alloc);
    numbers.push(0)?;
    numbers.push(1)?;
    Ok(numbers)
}

/// True and false, each alone.
fn first_members(alloc: Global) -> Result<Vec<TermList>, Memory>
    ensures { IfOk result (λ members. members.items ≡ (0 ∷ []) ∷ (1 ∷ []) ∷ []) }
{
    let mut members = Vec::new(alloc);
    members.push(list_of(alloc, 0)?)?;
    members.push(list_of(alloc, 1)?)?;
    Ok(members)
}

/// No uses of true and false.
fn first_uses(alloc: Global) -> Result<Vec<TermList>, Memory>
    ensures { IfOk result (λ uses. uses.items ≡ [] ∷ [] ∷ []) }
{
    let mut uses = Vec::new(alloc);
    uses.push(TermList::new(alloc))?;
    uses.push(TermList::new(alloc))?;
    Ok(uses)
}

impl Classes {
    /// The terms true and false, in no list yet.
    fn unlisted(alloc: Global, limit: u32) -> Result<Classes, Memory>
        requires { 2 ≤ limit }
        ensures { IfOk result (λ classes. now classes ≡ first_parts limit) }
    {
        let rows = TermTable::new(alloc, limit)?;
        let labels = first_numbers(alloc)?;
        let members = first_members(alloc)?;
        let uses = first_uses(alloc)?;
        let table = first_signatures(alloc)?;
        let leaders = first_numbers(alloc)?;
        let lists = Lists::new(alloc);
        let log = Log::new(alloc);
        Ok(Classes {
            parts: Parts {
                rows,
                labels,
                members,
                uses,
                table,
                leaders,
                lists,
                log,
            },
            trail: Trail::new(alloc),
        })
    }

    /// The terms true and false.
    pub fn new(alloc: Global, limit: u32) -> Result<Classes, Memory>
        requires { 2 ≤ limit }
        ensures log { IfOk result (λ classes. (now classes).log ≡ []) }
        ensures limit { IfOk result (λ classes. (now classes).limit ≡ limit) }
        ensures good { IfOk result (λ classes. IsGood (now classes)) }
    {
        let mut classes = Classes::unlisted(alloc, limit)?;
        classes.list_term(Place::Symbol { symbol: 0 }, 0)?;
        classes.list_member(0)?;
        classes.list_term(Place::Symbol { symbol: 1 }, 1)?;
        classes.list_member(1)?;
        Ok(classes)
    }
}
