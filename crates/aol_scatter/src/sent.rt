//! What can be sent to a thread, and what threads can share.

use crate::lending::{Field, Rest, Share};

fn is_sent<T: Send>() {}

fn is_shared<T: Sync>() {}

/// A share can be sent to a thread where its values can.
pub fn shares_are_sent<T: Copy + Send>() {
    is_sent::<Share<T>>();
}

/// A share can be read by several threads where its values can.
pub fn shares_are_shared<T: Copy + Sync>() {
    is_shared::<Share<T>>();
}

/// A rest can be sent to a thread where its values can.
pub fn rests_are_sent<T: Copy + Send>() {
    is_sent::<Rest<T>>();
}

/// A rest can be read by several threads where its values can.
pub fn rests_are_shared<T: Copy + Sync>() {
    is_shared::<Rest<T>>();
}

/// A field can be sent to a thread where its values can.
pub fn fields_are_sent<T: Copy + Send>() {
    is_sent::<Field<T>>();
}

/// A field can be read by several threads where its values can.
pub fn fields_are_shared<T: Copy + Sync>() {
    is_shared::<Field<T>>();
}
