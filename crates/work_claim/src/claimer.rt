// The claimers.
ghost use Rattle.std.specs.Prelude.{◌≡◌, ◌≤◌, false, MatchOption};
ghost use Rattle.work_claim.specs.Steps.{DrawsNumber, FindsNone};

use crate::claims::Claims;
use crate::seat::CounterSeat;

/// A seat that draws numbers of one round.
#[derive(Drop)]
pub struct Claimer {
    pub(crate) seat: CounterSeat,
    ghost is_claimer: { seat.seat.me.0.is_root ≡ false },
    ghost one_part: { seat.seat.me.0.parts ≡ 1 },
}

impl Claimer {
    ghost use Rattle.work_claim.specs.Names.{claimer_id, claimer_view, claims_id};

    /// Draws the next number of the round. There is none exactly where all were drawn; a claimer may find
    /// that twice. It waits for nobody.
    pub fn next(&mut self, claims: &Claims) -> Option<u32>
        requires claims { claimer_id self.old ≡ claims_id claims.now }
        requires ends { (claimer_view self.old).own_ends ≤ 1 }
        ensures claims { claimer_id self.new ≡ claimer_id self.old }
        ensures drawn { MatchOption result (FindsNone (claimer_view self.old) (claimer_view self.new)) (λ k. DrawsNumber (claimer_view self.old) (claimer_view self.new) k) }
    {
        self.seat.draw(claims)
    }
}
