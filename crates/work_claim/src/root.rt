// The root.
ghost use Rattle.std.specs.Prelude.{◌≡◌, ◌<◌, ◌≤◌, true, IsNone, MatchOption, ℕ};
ghost use Rattle.work_claim.specs.Steps.{DrawsNumber, FindsNone};
ghost use Rattle.work_claim.specs.Views.{IsWholeRound, IsAllBack, begun, lending, lent, with_claimer};

use crate::claimer::Claimer;
use crate::claims::Claims;
use crate::limits::{MOST_CLAIMERS, MOST_ROUNDS};
use crate::rule::{Lending, Looking};
use crate::seat::CounterSeat;

/// The seat that begins rounds, lends claimers and takes them back. It draws numbers too.
#[derive(Drop)]
pub struct Root {
    pub(crate) seat: CounterSeat,
    ghost is_root: { seat.seat.me.0.is_root ≡ true },
}

impl Root {
    ghost use Rattle.work_claim.specs.Names.{claimer_id, claimer_view, claims_id, root_id, root_view};

    /// Begins a round. No claimer may be lent, and at most 2^31 rounds are begun.
    pub fn begin(&mut self, claims: &Claims)
        requires claims { root_id self.old ≡ claims_id claims.now }
        requires all_back { IsAllBack (root_view self.old) }
        requires rounds { (root_view self.old).rounds < MOST_ROUNDS }
        ensures claims { root_id self.new ≡ root_id self.old }
        ensures begun { (first : ℕ) × (root_view self.new ≡ begun (root_view self.old) first) }
    {
        self.seat.begin(claims);
    }

    /// Lends a claimer, of which a round has at most 64. It takes no memory, and can't be refused.
    pub fn lend(&mut self, claims: &Claims) -> Claimer
        requires claims { root_id self.old ≡ claims_id claims.now }
        requires few { (root_view self.old).lent < MOST_CLAIMERS }
        ensures claims { root_id self.new ≡ root_id self.old }
        ensures view { root_view self.new ≡ lending (root_view self.old) }
        ensures claimer_claims { claimer_id result ≡ root_id self.old }
        ensures claimer_view { claimer_view result ≡ lent (root_view self.old) }
    {
        let seat = claims
            .table
            .shared
            .split_seat::<Lending>(&mut self.seat.seat);
        Claimer {
            seat: CounterSeat {
                seat,
                first: self.seat.first,
                pieces: self.seat.pieces,
            },
        }
    }

    /// Draws the next number of the round. There is none exactly where all were drawn; the root may find
    /// that twice in a round. It waits for nobody.
    pub fn next(&mut self, claims: &Claims) -> Option<u32>
        requires claims { root_id self.old ≡ claims_id claims.now }
        requires live { 0 < (root_view self.old).parts }
        requires ends { (root_view self.old).own_ends ≤ 1 }
        ensures claims { root_id self.new ≡ root_id self.old }
        ensures drawn { MatchOption result (FindsNone (root_view self.old) (root_view self.new)) (λ k. DrawsNumber (root_view self.old) (root_view self.new) k) }

        // Once no claimer is lent, all numbers of the round were drawn, each once.
        ensures each_once { IsNone result → IsWholeRound (root_view self.new) }
    {
        self.seat.draw(claims)
    }

    /// Takes a claimer back, with the numbers that it drew.
    pub fn take_back(&mut self, claims: &Claims, claimer: Claimer)
        requires claims { root_id self.old ≡ claims_id claims.now }
        requires claimer_claims { claimer_id claimer ≡ claims_id claims.now }
        ensures claims { root_id self.new ≡ root_id self.old }
        ensures view { root_view self.new ≡ with_claimer (root_view self.old) (claimer_view claimer) }

        // Once no claimer is lent and somebody found no more, all numbers of the round were drawn, each once.
        ensures each_once { IsWholeRound (root_view self.new) }
    {
        let CounterSeat {
            seat,
            first: _,
            pieces: _,
        } = claimer.seat;
        claims
            .table
            .shared
            .join_seat::<Lending>(&mut self.seat.seat, seat);
        claims.table.shared.load::<Looking>(&mut self.seat.seat, 0);
    }
}
