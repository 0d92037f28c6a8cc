//! What is made ready for an index, so that it follows its module.
use crate::dispatch::Dispatch;
use crate::growth::Growth;

/// What `Dispatch::prepare` or `Dispatch::prepare_changed` made ready.
#[derive(Drop)]
pub struct NewDispatch {
    pub(crate) change: Change,
}

/// How an index comes to stand for the newer module.
#[derive(Drop)]
pub enum Change {
    /// Another takes its place.
    Whole(Dispatch),
    /// It grows.
    More(Growth),
}
