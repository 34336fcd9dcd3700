//! What an open list goes on with.

use smt_names::{Arg, Bound, Head};

/// What an open list goes on with.
#[derive(Drop)]
pub enum Work {
    /// An application: the token of its head, what the head stands for, and the arguments so far.
    Apply {
        called: u32,
        head: Head,
        args: Vec<Arg>,
    },
    /// A `let` in which the term of a binding is under way: the token of its name, the bindings before it, and where the
    /// next binding and the body stand.
    Let {
        name: u32,
        done: Vec<Bound>,
        next: u32,
        body: u32,
    },
    /// A list whose value is that of the tree under way, and how many names are bound round it.
    Pass {
        bound: usize,
    },
}
