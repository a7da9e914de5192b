use crate::int_vec::IntVec;
use crate::limit::LimitName;
use crate::memory::NoMemory;
use crate::name::Name;
use crate::point::Point;
use crate::shape::{Shape, ShapeRefused};
use sqlite_items::Items;

fn is_sent<T: Send>() {}

fn is_shared<T: Sync>() {}

fn is_both<T: Send + Sync>() {}

/// The types of this crate can be sent to threads and shared among them.
pub fn types_are_shared() {
    is_both::<Shape>();
    is_both::<Point>();
    is_both::<IntVec>();
    is_both::<Name>();
    is_both::<LimitName>();
    is_both::<NoMemory>();
    is_both::<ShapeRefused>();
}

/// A list can be sent to a thread where its items can.
pub fn lists_are_sent<T: Send>() {
    is_sent::<Items<T>>();
}

/// A list can be shared among threads where its items can.
pub fn lists_are_shared<T: Sync>() {
    is_shared::<Items<T>>();
}
