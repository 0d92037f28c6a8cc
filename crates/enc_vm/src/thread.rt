//! The frames of a task that goes on.
use enc_frames::{Callers, Flight, Frame};
use std::marker::Model;

/// The frames of a task that goes on, and the object that is on its way to a handler, if any.
#[derive(Drop)]
pub(crate) struct Thread {
    pub(crate) top: Frame,
    pub(crate) below: Callers,
    pub(crate) flight: Option<Flight>,
}

impl Model for Thread {
    ghost use Rattle.enc_versions.specs.Version.{Version};
    ghost use Rattle.enc_frames.specs.Machine.{Thread as TheThread};

    ghost Value = { TheThread Version };

    ghost view = { λ t. record { top = t.top; below = t.below; flight = t.flight } };
}
