// A controller as the stepping thread has it.
use controller_turns::{Controller, Turns, TurnsPromise};
use post_box::Poster;
use published_frames::FrameReader;
use std::thread::PromisedHandle;

/// A controller whose turns are taken here, and the number of the frame of its last turn, if it had one.
#[derive(Drop)]
pub(crate) struct Steered {
    pub(crate) controller: Controller,
    pub(crate) poster: Poster,
    pub(crate) reader: Option<FrameReader>,
    pub(crate) last: Option<u32>,
}

/// Where a controller's turns are taken: on a thread of its own, or on the stepping thread.
#[derive(Drop)]
pub(crate) enum Steering {
    OnThread(PromisedHandle<Turns, TurnsPromise>),
    Here(Steered),
}
