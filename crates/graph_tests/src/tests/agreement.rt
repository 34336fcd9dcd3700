//! Whether two graphs answer alike.
ghost use Rattle.std.specs.Prelude.{◌<◌, length};
ghost use Rattle.graph_meaning.specs.Standing.{terms_of, triggers_of};

use graph_meaning::{ClassGraph, Front};

/// The symbols that the tests use are below it.
const SYMBOLS: u32 = 6;

/// Whether they have the row of a term alike, under its number, and the leader of its class.
fn agree_on_row<G: ClassGraph, H: ClassGraph>(left: &G, right: &H, term: u32) -> bool
    requires left { term < length (terms_of (G.standing left.now)) }
    requires right { term < length (terms_of (H.standing right.now)) }
{
    let row = left.row(term);
    row.symbol == right.row(term).symbol
        && right.find(row.symbol, row.args.as_slice()) == Some(term)
        && left.find(row.symbol, row.args.as_slice()) == Some(term)
        && left.leader(term) == right.leader(term)
}

/// Whether they list alike what has a symbol at a place of a list: terms, members of the class, and parents of it.
fn agree_on_lists<G: ClassGraph, H: ClassGraph>(
    left: &G,
    right: &H,
    term: u32,
    symbol: u32,
    k: u32,
) -> bool
    requires left { term < length (terms_of (G.standing left.now)) }
    requires right { term < length (terms_of (H.standing right.now)) }
{
    left.with_symbol(symbol, k) == right.with_symbol(symbol, k)
        && left.in_class(term, symbol, k) == right.in_class(term, symbol, k)
        && left.parent(term, symbol, 0, k) == right.parent(term, symbol, 0, k)
        && left.parent(term, symbol, 1, k) == right.parent(term, symbol, 1, k)
}

/// Whether they answer alike what speaks of a term and a symbol.
fn agree_on_symbol<G: ClassGraph, H: ClassGraph>(
    left: &G,
    right: &H,
    term: u32,
    symbol: u32,
) -> bool
    requires left { term < length (terms_of (G.standing left.now)) }
    requires right { term < length (terms_of (H.standing right.now)) }
{
    left.find(symbol, &[term]) == right.find(symbol, &[term])
        && (0..4).all(|k| agree_on_lists(left, right, term, symbol, k))
}

/// Whether they take a term and each other one as equal or not alike.
fn agree_on_pairs<G: ClassGraph, H: ClassGraph>(left: &G, right: &H, term: u32) -> bool
    requires left { term < length (terms_of (G.standing left.now)) }
    requires right { term < length (terms_of (H.standing right.now)) }
{
    if left.len() != right.len() {
        return false;
    }
    for other in 0..left.len() {
        if left.same(term, other) != right.same(term, other) {
            return false;
        }
    }
    true
}

/// Whether they answer alike all that speaks of a term.
fn agree_on_term<G: ClassGraph, H: ClassGraph>(left: &G, right: &H, term: u32) -> bool
    requires left { term < length (terms_of (G.standing left.now)) }
    requires right { term < length (terms_of (H.standing right.now)) }
{
    for symbol in 0..SYMBOLS {
        if !agree_on_symbol(left, right, term, symbol) {
            return false;
        }
    }
    agree_on_row(left, right, term) && agree_on_pairs(left, right, term)
}

/// Whether they have as many terms, and answer alike all that speaks of one.
fn agree_on_terms<G: ClassGraph, H: ClassGraph>(left: &G, right: &H) -> bool {
    if left.len() != right.len() {
        return false;
    }
    for term in 0..left.len() {
        if !agree_on_term(left, right, term) {
            return false;
        }
    }
    true
}

/// Whether they have the live trigger with a number alike.
fn agree_on_trigger<G: ClassGraph, H: ClassGraph>(left: &G, right: &H, n: u32) -> bool
    requires left { n < length (triggers_of (G.standing left.now)) }
    requires right { n < length (triggers_of (H.standing right.now)) }
{
    left.trigger(n).forall == right.trigger(n).forall
        && left.trigger(n).variables == right.trigger(n).variables
}

/// Whether they have the same live triggers.
fn agree_on_triggers<G: ClassGraph, H: ClassGraph>(left: &G, right: &H) -> bool {
    if left.triggers() != right.triggers() {
        return false;
    }
    for n in 0..left.triggers() {
        if !agree_on_trigger(left, right, n) {
            return false;
        }
    }
    true
}

/// Whether they have done as many operations, have the same front, and tell alike which of these fronts still stand.
fn agree_on_fronts<G: ClassGraph, H: ClassGraph>(left: &G, right: &H, fronts: &[Front]) -> bool {
    for front in fronts {
        if left.still_front(front) != right.still_front(front) {
            return false;
        }
    }
    left.version() == right.version() && left.front() == right.front()
}

/// Whether they answer each call alike.
pub fn agree<G: ClassGraph, H: ClassGraph>(left: &G, right: &H, fronts: &[Front]) -> bool {
    agree_on_fronts(left, right, fronts)
        && agree_on_triggers(left, right)
        && agree_on_terms(left, right)
}
