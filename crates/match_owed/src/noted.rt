//! Events as a log keeps them.
use crate::event::Event;

/// An event, with the place of the event of the same claim before it.
#[derive(Clone, Copy, Debug)]
pub struct Noted {
    pub event: Event,
    pub before: Option<usize>,
}
