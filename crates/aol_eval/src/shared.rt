use crate::resolution::Resolved;

fn is_shared<T: Send + Sync>() {}

/// The types of this crate can be sent to threads and shared among them.
pub fn types_are_shared() {
    is_shared::<Resolved>();
}
