use crate::level_list::Levels;
use crate::refused::DependRefused;

fn is_shared<T: Send + Sync>() {}

/// The types of this crate can be sent to threads and shared among them.
pub fn types_are_shared() {
    is_shared::<Levels>();
    is_shared::<DependRefused>();
}
