//! Steps of a climb.

/// A step up: from a class to the terms with the symbol whose argument at the place is in it, along the link of a node.
#[derive(Clone, Copy, Debug)]
pub struct Step {
    pub symbol: u32,
    pub place: u32,
    pub node: u32,
}
