use aol_shape::Items;

/// For each instance of a changed model, the number of the old instance that it comes from.
#[derive(Drop)]
pub struct Remap {
    pub old_of: Items<u32>,
}
