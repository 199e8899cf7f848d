// What the stepping thread has.
use crowd_data::Post;
use fixed_vec::List;
use frame_step::Stepper;
use published_frames::FrameWriter;
use std::snapshot::Snapshot;

pub(crate) struct Desk<T> {
    pub(crate) out: T,
    // The sink as it was when the run began.
    pub(crate) start: Snapshot<T>,
    pub(crate) stepper: Stepper,
    pub(crate) writer: FrameWriter,
    // The posts of the next frame.
    pub(crate) posts: List<Post>,
    // Where its scripted posts begin among all scripted posts.
    pub(crate) place: usize,
}
