//! What all tasks share.
use crate::touched::Touched;
use enc_objects::Objects;

/// What all tasks share: the objects, with the values of statics, and the types that were touched.
#[derive(Drop)]
pub(crate) struct Shared {
    pub objects: Objects,
    pub touched: Touched,
}
