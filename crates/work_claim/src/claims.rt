// The counter.
ghost use Rattle.std.specs.Prelude.{◌≡◌, IfOk};
ghost use Rattle.work_claim.specs.Views.{opened};

use crate::root::Root;
use crate::rule::CounterRule;
use crate::seat::CounterSeat;
use crate::view::RoundView;
use atomic_table::Table;
use fixed_vec::NoMemory;
use std::alloc::Global;

/// The counter that the root and its claimers draw from. Threads share it by reference.
#[derive(Drop)]
pub struct Claims {
    pub(crate) table: Table<(), RoundView, u32, CounterRule, Global>,
    ghost one_word: { table.shared.table_id.words ≡ 1 },
    ghost no_slot: { table.shared.table_id.slots ≡ 0 },
}

impl Claims {
    ghost use Rattle.work_claim.specs.Names.{claims_id, root_id, root_view};

    /// A counter whose rounds have the numbers from 0 to `pieces - 1`, and its root. `NoMemory` is answered
    /// where memory runs out (documented, not proved).
    pub fn open(alloc: Global, pieces: u32) -> Result<(Claims, Root), NoMemory>
        ensures claims { IfOk result (λ made. root_id made.1 ≡ claims_id made.0) }
        ensures view { IfOk result (λ made. root_view made.1 ≡ opened pieces) }
    {
        let Ok((table, seat)) = Table::of_words(alloc, &[0], &pieces) else {
            return Err(NoMemory);
        };
        let root = CounterSeat {
            seat,
            first: 0,
            pieces,
        };
        Ok((Claims { table }, Root { seat: root }))
    }
}
