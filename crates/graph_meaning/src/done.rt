//! An operation that was done.
ghost use Rattle.std.specs.Prelude.{◌≡◌, length};
ghost use Rattle.std.specs.Option.{option_copied};
ghost use Rattle.graph_meaning.specs.Standing.{is_push, live_trigger, merged_ends, rows_added};

use crate::op::Op;
use graph_trigger::Trigger;

/// An operation that was done, with its serial number: its place among all that were done, counted from 0.
#[derive(Debug, Drop)]
pub struct Done {
    pub serial: u64,
    pub op: Op,
}

impl Done {
    /// The trigger that it makes live, or `None` where it is another operation.
    pub fn live_trigger(&self) -> Option<&Trigger>
        ensures { option_copied result ≡ live_trigger self.now }
    {
        match &self.op {
            Op::Live { trigger } => Some(trigger),
            _ => None,
        }
    }

    /// Whether it opens a level.
    pub fn is_push(&self) -> bool
        ensures { result ≡ is_push self.now }
    {
        match self.op {
            Op::Push => true,
            _ => false,
        }
    }

    /// How many terms it adds: 1 for an Add, and 0 for each other operation.
    pub fn terms_added(&self) -> u32
        ensures { result ≡ length (rows_added self.now.op) }
    {
        match self.op {
            Op::Add { .. } => 1,
            _ => 0,
        }
    }

    /// The two terms of the equation that it adds, or `None` where it is another operation.
    pub fn merged_ends(&self) -> Option<(u32, u32)>
        ensures { result ≡ merged_ends self.now }
    {
        match self.op {
            Op::Merge { left, right } => Some((left, right)),
            _ => None,
        }
    }
}
