use crate::document::{DocRefused, Document, Misfit, Model};
use crate::job::{Entry, FuseArgs, InputArray, Job, PaveArgs, Pick, Step};
use crate::place::{Key, Path, Place, PlaceStep};
use crate::task::{
    Compound, Copied, Elementary, Hook, OutPort, Part, Plain, Repeated, Task, TilerOn,
};

fn is_shared<T: Send + Sync>() {}

/// The types of this crate can be sent to threads and shared among them.
pub fn types_are_shared() {
    is_shared::<DocRefused>();
    is_shared::<Misfit>();
    is_shared::<Entry>();
    is_shared::<FuseArgs>();
    is_shared::<InputArray>();
    is_shared::<Job>();
    is_shared::<PaveArgs>();
    is_shared::<Pick>();
    is_shared::<Step>();
    is_shared::<Key>();
    is_shared::<Path>();
    is_shared::<Place>();
    is_shared::<PlaceStep>();
    is_shared::<Compound>();
    is_shared::<Copied>();
    is_shared::<Elementary>();
    is_shared::<Hook>();
    is_shared::<OutPort>();
    is_shared::<Part>();
    is_shared::<Plain>();
    is_shared::<Repeated>();
    is_shared::<Task>();
    is_shared::<TilerOn>();
}

/// So can models and documents.
pub fn documents_are_shared() {
    is_shared::<Model>();
    is_shared::<Document>();
}
