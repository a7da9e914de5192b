use crate::flat::Flat;
use crate::leaf::{Leaf, LeafKind};
use crate::view::{End, Read, Reader, Writer};

fn is_shared<T: Send + Sync>() {}

/// The types of this crate can be sent to threads and shared among them.
pub fn types_are_shared() {
    is_shared::<Flat>();
    is_shared::<Leaf>();
    is_shared::<LeafKind>();
    is_shared::<Read>();
    is_shared::<Reader>();
    is_shared::<End>();
    is_shared::<Writer>();
}
