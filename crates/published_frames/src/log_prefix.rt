// A beginning of the log that was seen.
ghost use Rattle.std.specs.Prelude.{◌≡◌, ◌+◌, ◌<◌, ◌≤◌, ◌^◌, ◌++◌, ◌∷◌, ◌⊎◌, [], length, MatchBool, None, true};
ghost use Rattle.published_frames.specs.declared.entry.Entry.TheVariants.{Start};
ghost use Rattle.published_frames.specs.History.{StartsWith, step_of};
ghost use Rattle.published_frames.specs.Log.{attempted_in, is_settled, length_word, published_in, scenario_in};

use crate::entry::Entry;
use crate::log::{AddEntry, LogRule, NoGain};
use crowd_data::{Moves, Scenario};
use logbook::{Offer, Plain, Seen, Word};
use std::sync::Wait;

/// The word that holds the length of the log.
pub type LogLength = Word<Entry, u64, LogRule>;

// No run adds so many entries.
const MOST_ENTRIES: u64 = 1 << 62;

/// A beginning of the log: how many entries it has, and a token without bytes that the log began so.
#[derive(Drop)]
pub struct LogPrefix {
    count: u64,
    pub(crate) seen: Seen<Entry, u64, LogRule>,
    ghost counted: { count ≡ length seen.log },
}

impl LogPrefix {
    /// The beginning without entries.
    pub fn none(seen: Seen<Entry, u64, LogRule>) -> LogPrefix
        requires { seen.log ≡ [] }
        ensures { result.seen ≡ seen }
    {
        LogPrefix { count: 0, seen }
    }

    /// The same beginning once more.
    pub fn again(&self) -> LogPrefix
        ensures { result ≡ self.now }
    {
        LogPrefix {
            count: self.count,
            seen: self.seen.again(),
        }
    }

    // Adds an entry, and answers whether the log was no longer than this beginning of it.
    fn may_add<X, M: Plain<X, Entry, u64>>(&mut self, word: &LogLength, about: &X) -> bool
        requires word { word.now ≡ length_word self.old.seen.book }
        requires room { length self.old.seen.log < 2 ^ 63 }
        requires plain { M.state about.now ≡ None }
        ensures book { self.new.seen.book ≡ self.old.seen.book }
        ensures added { MatchBool result (self.new.seen.log ≡ self.old.seen.log ++ M.ask about.now ∷ []) (Unit {0}) }
    {
        let mut offer: Offer<Entry, u64, LogRule, NoGain> = self.seen.plain::<NoGain, X, M>(about);
        let mut pen = self.seen.no_pen();
        let count = self.count;
        let found = word.compare_exchange::<AddEntry, NoGain>(
            count,
            count + 1,
            &mut self.seen,
            &mut offer,
            &mut pen,
        );
        self.count = if found == count { count + 1 } else { found };
        found == count
    }

    // The log with an entry more. Only one writer adds entries, so the first turn serves.
    fn added<X, M: Plain<X, Entry, u64>, R: Wait>(
        &self,
        rt: &R,
        word: &LogLength,
        about: &X,
    ) -> LogPrefix
        requires word { word.now ≡ length_word self.now.seen.book }
        requires plain { M.state about.now ≡ None }
        ensures book { result.seen.book ≡ self.now.seen.book }
        ensures log { result.seen.log ≡ self.now.seen.log ++ M.ask about.now ∷ [] }
    {
        for _ in rt.forever() {
            if self.count < MOST_ENTRIES {
                let mut next = self.again();
                if next.may_add::<X, M>(word, about) {
                    return next;
                }
            }
        }
        unreachable!()
    }

    /// The log with the entry that begins the history of a scenario, where it had none.
    pub fn start<R: Wait>(&self, rt: &R, word: &LogLength, scenario: &Scenario) -> LogPrefix
        requires word { word.now ≡ length_word self.now.seen.book }
        requires none { self.now.seen.log ≡ [] }
        ensures book { result.seen.book ≡ self.now.seen.book }
        ensures log { result.seen.log ≡ Start scenario.now ∷ [] }
    {
        self.added::<Scenario, AddEntry, R>(rt, word, scenario)
    }

    /// The log with the entry that attempts these moves.
    #[tactic(auto, using(crate::proofs::Accounts::published_in_attempt, crate::proofs::Accounts::attempted_in_attempt, crate::proofs::Accounts::scenario_in_attempt))]
    pub fn attempt<R: Wait>(&self, rt: &R, word: &LogLength, moves: &Moves) -> LogPrefix
        requires { word.now ≡ length_word self.now.seen.book }
        ensures book { result.seen.book ≡ self.now.seen.book }
        ensures scenario { scenario_in result.seen.log ≡ scenario_in self.now.seen.log }
        ensures published { published_in result.seen.log ≡ published_in self.now.seen.log }
        ensures attempted { attempted_in result.seen.log ≡ published_in self.now.seen.log ++ step_of moves.now ∷ [] }
    {
        self.added::<Moves, AddEntry, R>(rt, word, moves)
    }

    /// The log with the entry that what was attempted is published.
    #[tactic(auto, using(crate::proofs::Accounts::published_in_success, crate::proofs::Accounts::is_settled_success, crate::proofs::Accounts::scenario_in_success))]
    pub fn success<R: Wait>(&self, rt: &R, word: &LogLength) -> LogPrefix
        requires { word.now ≡ length_word self.now.seen.book }
        ensures book { result.seen.book ≡ self.now.seen.book }
        ensures scenario { scenario_in result.seen.log ≡ scenario_in self.now.seen.log }
        ensures published { published_in result.seen.log ≡ attempted_in self.now.seen.log }
        ensures settled { is_settled result.seen.log ≡ true }
    {
        self.added::<(), AddEntry, R>(rt, word, &())
    }

    /// The longer of two beginnings of one log.
    pub fn longer(&self, other: &LogPrefix) -> LogPrefix
        requires { other.now.seen.book ≡ self.now.seen.book }
        ensures one { (result ≡ self.now) ⊎ (result ≡ other.now) }
        ensures this { StartsWith (published_in result.seen.log) (published_in self.now.seen.log) }
        ensures that { StartsWith (published_in result.seen.log) (published_in other.now.seen.log) }
    {
        let mut both = self.seen.again();
        both.learn(&other.seen);
        if self.count < other.count {
            other.again()
        } else {
            self.again()
        }
    }

    /// Whether a frame that is shown with the other beginning has all the history that this one published.
    pub fn is_within(&self, other: &LogPrefix) -> bool
        requires book { other.now.seen.book ≡ self.now.seen.book }
        requires settled { is_settled self.now.seen.log ≡ true }
        ensures { MatchBool result (StartsWith (attempted_in other.now.seen.log) (published_in self.now.seen.log)) (Unit {0}) }
    {
        let mut both = self.seen.again();
        both.learn(&other.seen);
        self.count.saturating_sub(1) <= other.count
    }
}
