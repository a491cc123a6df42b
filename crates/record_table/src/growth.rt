//! What becomes of a node's tree that takes a row more.

/// A side of a node.
#[derive(Clone, Copy, Debug, PartialEq, Eq)]
pub enum Side {
    Left,
    Right,
}

/// What becomes of a tree when a row is added.
#[derive(Clone, Copy, Debug)]
pub enum Growth {
    /// It has as many levels as before.
    Counted,
    /// It has one more level.
    Grew,
    /// It would have a level more, and the node above is the one to turn it: its sides are balanced, the outer one is the higher,
    /// and its size and its levels are not written down.
    Over,
}
