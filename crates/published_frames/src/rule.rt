// The rule of the frames, and the steps that the writer and its readers take under it.
use crate::shown::ShownFrame;
use crate::view::FrameView;
use atomic_table::{Join, Split};
use crossbeam_utils::rule::{Outcome, Protocol};

/// The frame that is shown is the last one of one legal history, of which each view is a beginning.
pub struct FrameRule;

impl Protocol<ShownFrame, FrameView> for FrameRule {
    ghost use Rattle.published_frames.specs.Rule.{IsKept, no_view};

    ghost holds = { IsKept };

    ghost first = { no_view };
}

/// A reader enters.
pub(crate) struct Entering;

impl Outcome<ShownFrame, FrameView> for Entering {
    ghost use Rattle.published_frames.specs.Rule.{Enters};

    ghost then = { Enters };
}

/// The writer publishes.
pub(crate) struct Publishing;

impl Outcome<ShownFrame, FrameView> for Publishing {
    ghost use Rattle.published_frames.specs.Rule.{Publishes};

    ghost then = { Publishes };
}

/// The writer shares its view with a new reader.
pub(crate) struct Sharing;

impl Split<FrameView> for Sharing {
    ghost left = { λ view. view };

    ghost right = { λ view. view };
}

impl Join<FrameView> for Sharing {
    ghost use Rattle.published_frames.specs.Rule.{no_view};

    ghost both = { λ own shared. shared };

    ghost spent = { no_view };
}
