//! What a thread knows of a deque.
use std::collections::LinkedList;

/// The numbers that a thread has put into a deque and those that it took out, and its parts of the right to know the
/// whole. It stands in proofs alone: no value of it is made.
pub struct Share {
    pub parts: u64,
    pub pushed: LinkedList<u32>,
    pub taken: LinkedList<u32>,
}
