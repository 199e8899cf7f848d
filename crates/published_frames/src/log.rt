// The rule of the log, and the steps that add an entry to it.
use crate::entry::Entry;
use crowd_data::{Moves, Scenario};
use logbook::{Gain, Plain, Play, Rule};

/// The rule of the log: its word is its length.
pub struct LogRule;

impl Rule<Entry, u64> for LogRule {
    ghost use Rattle.std.specs.Prelude.{[]};
    ghost use base.Fml.{ftrue};
    ghost use Rattle.published_frames.specs.Log.{IsCounted};

    ghost holds = { IsCounted };

    ghost first = { [] };

    ghost hinted = { λ n log. Unit {0} };

    ghost shows = { λ log. [] };

    ghost keeps = { λ names log. ftrue };

    ghost moves = { λ ask before after answer. Unit {0} };
}

/// Who adds an entry trades nothing for it.
pub struct NoGain;

impl Gain<Entry, u64> for NoGain {
    ghost use base.Fml.{ftrue};

    ghost after = { λ names about answer. ftrue };
}

/// A step that adds an entry.
pub struct AddEntry;

impl Play<Entry, u64> for AddEntry {
    ghost use Rattle.published_frames.specs.Log.{AddsEntry};

    ghost then = { AddsEntry };
}

impl Plain<Scenario, Entry, u64> for AddEntry {
    ghost use Rattle.std.specs.Prelude.{None};
    ghost use Rattle.published_frames.specs.declared.entry.Entry.TheVariants.{Start};

    ghost ask = { λ scenario. Start scenario };

    ghost state = { λ scenario. None };
}

impl Plain<Moves, Entry, u64> for AddEntry {
    ghost use Rattle.std.specs.Prelude.{None};
    ghost use Rattle.published_frames.specs.declared.entry.Entry.TheVariants.{Attempt};
    ghost use Rattle.published_frames.specs.History.{step_of};

    ghost ask = { λ moves. Attempt (step_of moves) };

    ghost state = { λ moves. None };
}

impl Plain<(), Entry, u64> for AddEntry {
    ghost use Rattle.std.specs.Prelude.{None};
    ghost use Rattle.published_frames.specs.declared.entry.Entry.TheVariants.{Success};

    ghost ask = { λ nothing. Success };

    ghost state = { λ nothing. None };
}
