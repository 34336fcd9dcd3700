//! The changes of chains, with what undoes each.

/// What was there before a change of chains.
#[derive(Drop)]
pub enum Link {
    /// There was one term less.
    Added,
    /// A list had so many items.
    Grown { slot: u32, len: u32 },
    /// A leader had another list.
    Led { leader: u32, slot: u32 },
}
