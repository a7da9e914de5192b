//! The table of nodes of a model that is laid out.

/// A row of the table of nodes, which are in preorder.
#[derive(Clone, Copy)]
pub struct NodeRow {
    /// The number of the node above; 0 at the root.
    pub up: u32,
    /// The number of the part to which the step down leads; 0 for the body of a repetition and at the root.
    pub part: u32,
    /// The number of the node's task in the task list.
    pub task: u32,
    /// How many entries the spaces of all repetitions around the node have.
    pub around: u32,
    /// How many points these spaces have, which are the instances of the node.
    pub instances: u64,
}

/// Where a leaf stands: the number of its node, and the number of its reshape; 0 for an elementary leaf.
#[derive(Clone, Copy)]
pub struct LeafSpot {
    pub node: u32,
    pub reshape: u32,
}
