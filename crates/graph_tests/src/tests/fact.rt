//! What a graph answers, as the tables of the tests write it.
use graph_congruence::{Clash, Graph};
use graph_meaning::ClassGraph;

/// What a graph has to answer.
#[derive(Clone, Copy, Debug)]
pub enum Fact {
    /// So many terms may stand.
    Limit(u32),
    /// So many terms stand.
    Terms(u32),
    /// So many levels are open.
    Depth(u32),
    /// So many operations were done.
    Version(u64),
    /// Each term from the first number on has the second for its leader.
    Led(u32, u32),
    /// The two terms are equal.
    Equal(u32, u32),
    /// The two terms are not equal.
    Apart(u32, u32),
    /// The two terms are the first that are kept apart and equal.
    Clashes(u32, u32),
    /// No terms that are kept apart are equal.
    NoClash,
    /// The last operation can be taken back.
    Fresh,
    /// The last operation cannot be taken back.
    Fixed,
}

/// Whether each term from a number on has this leader.
fn are_led(graph: &Graph, first: u32, leader: u32) -> bool {
    (first..graph.len()).all(|term| graph.leader(term) == leader)
}

/// Whether two terms stand and are equal, or not.
fn are_same(graph: &Graph, left: u32, right: u32) -> Option<bool> {
    if left < graph.len() && right < graph.len() {
        return Some(graph.same(left, right));
    }
    None
}

/// Whether the graph answers this.
pub fn holds(graph: &Graph, fact: Fact) -> bool {
    match fact {
        Fact::Limit(limit) => graph.limit() == limit,
        Fact::Terms(terms) => graph.len() == terms,
        Fact::Depth(depth) => graph.depth() == depth,
        Fact::Version(version) => graph.version() == version,
        Fact::Led(first, leader) => are_led(graph, first, leader),
        Fact::Equal(left, right) => are_same(graph, left, right) == Some(true),
        Fact::Apart(left, right) => are_same(graph, left, right) == Some(false),
        Fact::Clashes(left, right) => graph.clash() == Some(Clash { left, right }),
        Fact::NoClash => graph.clash().is_none(),
        Fact::Fresh => graph.can_take_back(),
        Fact::Fixed => !graph.can_take_back(),
    }
}
