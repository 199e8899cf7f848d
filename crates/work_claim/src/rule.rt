// The counter's rule, and the steps that seats make under it.
ghost use Rattle.work_claim.specs.Rule.{IsKept};
ghost use Rattle.work_claim.specs.Steps.{Begins, Draws, Looks};
ghost use Rattle.work_claim.specs.Views.{lending, lent, opened, spent, with_claimer};

use crate::view::RoundView;
use atomic_table::{Join, Play, Split, TableRule};

/// The rule of the counter, whose key is how many numbers a round has.
pub struct CounterRule;

impl TableRule<(), RoundView, u32> for CounterRule {
    ghost holds = { λ pieces state. IsKept pieces state };

    ghost first = { λ pieces. opened pieces };
}

/// One addition to the counter.
pub struct Drawing;

impl Play<(), RoundView> for Drawing {
    ghost then = { Draws };
}

/// The root's look at the counter as it begins a round.
pub struct Beginning;

impl Play<(), RoundView> for Beginning {
    ghost then = { Begins };
}

/// A look at the counter which tells whether the round is whole.
pub struct Looking;

impl Play<(), RoundView> for Looking {
    ghost then = { Looks };
}

/// The root lends a claimer, and takes one back.
pub struct Lending;

impl Split<RoundView> for Lending {
    ghost left = { lending };

    ghost right = { lent };
}

impl Join<RoundView> for Lending {
    ghost both = { with_claimer };

    ghost spent = { spent };
}
