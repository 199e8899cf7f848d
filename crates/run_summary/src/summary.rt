// What a run's bodies add up to.
ghost use Rattle.std.specs.Prelude.{◌≡◌, ◌≤◌, ◌<◌, [], ◌∷◌, ◌++◌, List, length};
ghost use Rattle.crowd_data.specs.Run.{Snapshot, snapshot_of};
ghost use Rattle.crowd_data.specs.declared.limits.TheConstants.{MOST_AGENTS, MOST_STEPS};
ghost use Rattle.run_summary.specs.Summary.{tally_of, with_frame};

use crate::counts::{count_of, greatest_relief};
use crowd_data::{Frame, Mark};
use std::marker::Model;

/// How many bodies of some frames have each mark, and the greatest relief among them: at most 100,000
/// frames of at most 10,000 bodies.
#[derive(Drop)]
pub struct Summary {
    pub(crate) frames: u32,
    pub(crate) feasible: u32,
    pub(crate) fallback: u32,
    pub(crate) stopped: u32,
    pub(crate) crowded: u32,
    pub(crate) relief: u32,
}

impl Model for Summary {
    ghost use Rattle.run_summary.specs.Summary.{IsWithinLimits, Tally};

    ghost Value = { Tally };

    ghost view = { λ s. record { frames = s.frames; feasible = s.feasible; fallback = s.fallback; stopped = s.stopped; crowded = s.crowded; relief = s.relief } };

    ghost invariant = { λ s. IsWithinLimits (record { frames = s.frames; feasible = s.feasible; fallback = s.fallback; stopped = s.stopped; crowded = s.crowded; relief = s.relief }) };
}

impl Summary {
    /// The summary of no frames.
    pub fn empty() -> Self
        ensures { result ≡ tally_of [] }
    {
        Summary {
            frames: 0,
            feasible: 0,
            fallback: 0,
            stopped: 0,
            crowded: 0,
            relief: 0,
        }
    }

    /// Takes in one more frame, of at most 10,000 bodies, after fewer than 100,000. It takes no memory.
    pub fn add(&mut self, frame: &Frame)
        requires frames { self.old.frames < MOST_STEPS }
        requires bodies { length frame.now.bodies.items ≤ MOST_AGENTS }
        ensures counted { self.new ≡ with_frame self.old (snapshot_of frame.now) }
        ensures tally { (frames : List Snapshot) → self.old ≡ tally_of frames → self.new ≡ tally_of (frames ++ snapshot_of frame.now ∷ []) }
    {
        let bodies = frame.bodies.items();
        self.frames += 1;
        self.feasible += count_of(bodies, Mark::Feasible);
        self.fallback += count_of(bodies, Mark::Fallback);
        self.stopped += count_of(bodies, Mark::Stopped);
        self.crowded += count_of(bodies, Mark::Crowded);
        self.relief = self.relief.max(greatest_relief(bodies));
    }
}
