use aol_shape::{Items, Name, Shape};
use aol_tiler::Tiler;

/// The numbers of one main input, in order of rank.
#[derive(Drop)]
pub struct InputArray {
    pub name: Name,
    pub nums: Items<i64>,
}

#[derive(Drop)]
pub struct PaveArgs {
    pub outer: Shape,
    pub block: Shape,
}

#[derive(Drop)]
pub struct Pick {
    pub to: Name,
    pub from: Name,
    pub tiler: Tiler,
}

#[derive(Drop)]
pub struct FuseArgs {
    pub first: Name,
    pub second: Name,
    pub block: Shape,
    pub tiler: Tiler,
    pub picks: Items<Pick>,
}

/// A proposed transformation.
#[derive(Drop)]
pub enum Step {
    Tile {
        task: Name,
        outer: Shape,
        block: Shape,
    },
    Pave {
        task: Name,
        args: PaveArgs,
    },
    Skew {
        task: Name,
        outer: Shape,
        block: Shape,
    },
    Fuse {
        task: Name,
        args: FuseArgs,
    },
}

/// The placement of one leaf's instances.
#[derive(Drop)]
pub struct Entry {
    pub leaf: Name,
    pub processors: Shape,
    pub space: Shape,
    pub pattern: Shape,
    pub from: Tiler,
    pub to: Tiler,
}

#[derive(Drop)]
pub struct Job {
    /// In byte order of names.
    pub input: Items<InputArray>,
    pub transform: Items<Step>,
    pub allocate: Items<Entry>,
}
