// A seat at the counter, the root's or a claimer's.
ghost use Rattle.std.specs.Prelude.{◌≡◌, ◌<◌, ◌≤◌, true, false, [], MatchOption, ℕ};
ghost use Rattle.work_claim.specs.Steps.{DrawsNumber, FindsNone};
ghost use Rattle.work_claim.specs.Views.{IsAllBack, begun};

use crate::claims::Claims;
use crate::limits::MOST_ROUNDS;
use crate::rule::{Beginning, Drawing};
use crate::view::RoundView;
use atomic_table::Seat;

/// A seat at the counter, with what it knows of the round in numbers.
#[derive(Drop)]
pub(crate) struct CounterSeat {
    pub seat: Seat<(), RoundView>,
    pub first: u64,
    pub pieces: u32,
    ghost bare: { seat.me.1 ≡ [] },
    ghost knows: { seat.me.0.first ≡ first },
    ghost size: { seat.me.0.pieces ≡ pieces },
}

// The number that was drawn, if it is one of the round's.
fn number_of(offset: u64, pieces: u32) -> Option<u32>
    ensures { MatchOption result (pieces ≤ offset) (λ k. (k ≡ offset) × (k < pieces)) }
{
    if offset < u64::from(pieces) {
        Some(offset as u32)
    } else {
        None
    }
}

impl CounterSeat {
    ghost use Rattle.work_claim.specs.Names.{claims_id};

    /// Begins a round, by the root's seat.
    pub fn begin(&mut self, claims: &Claims)
        requires claims { self.old.seat.table_id ≡ claims_id claims.now }
        requires root { self.old.seat.me.0.is_root ≡ true }
        requires all_back { IsAllBack self.old.seat.me.0 }
        requires rounds { self.old.seat.me.0.rounds < MOST_ROUNDS }
        ensures claims { self.new.seat.table_id ≡ self.old.seat.table_id }
        ensures begun { (first : ℕ) × (self.new.seat.me.0 ≡ begun self.old.seat.me.0 first) }
    {
        self.first = claims.table.shared.load::<Beginning>(&mut self.seat, 0);
    }

    /// Draws the next number of the round.
    pub fn draw(&mut self, claims: &Claims) -> Option<u32>
        requires claims { self.old.seat.table_id ≡ claims_id claims.now }
        requires live { 0 < self.old.seat.me.0.parts }
        requires one_part { self.old.seat.me.0.is_root ≡ false → self.old.seat.me.0.parts ≡ 1 }
        requires ends { self.old.seat.me.0.own_ends ≤ 1 }
        ensures claims { self.new.seat.table_id ≡ self.old.seat.table_id }
        ensures drawn { MatchOption result (FindsNone self.old.seat.me.0 self.new.seat.me.0) (λ k. DrawsNumber self.old.seat.me.0 self.new.seat.me.0 k) }
    {
        let found = claims
            .table
            .shared
            .fetch_add::<Drawing>(&mut self.seat, 0, 1);
        number_of(found - self.first, self.pieces)
    }
}
