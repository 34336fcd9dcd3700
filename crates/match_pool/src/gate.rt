//! What is told of the work of the matchers while it goes on.

/// It is called by matchers in threads of their own, so it is shared. It may hold the thread that calls it.
pub trait Gate {
    /// The matcher is about to run the item with the number.
    fn at_item(&self, worker: u32, number: u32);

    /// Operations were published while matchers run. The calls of this crate publish none.
    fn at_publish(&self);
}

/// A gate that holds nothing.
#[derive(Clone, Copy, Debug)]
pub struct NoGate;

impl Gate for NoGate {
    fn at_item(&self, _worker: u32, _number: u32) {}

    fn at_publish(&self) {}
}
