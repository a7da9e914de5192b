use crate::cause::{PlaceCause, PlaceRefused};
use crate::placed::Placed;

fn is_shared<T: Send + Sync>() {}

/// The types of this crate can be sent to threads and shared among them.
pub fn types_are_shared() {
    is_shared::<Placed>();
    is_shared::<PlaceCause>();
    is_shared::<PlaceRefused>();
}
