// Why a record wasn't added to what was read.
ghost use Rattle.std.specs.Prelude.{◌≡◌};
ghost use Rattle.scenario_read.specs.declared.record_fault.RecordFault.TheVariants.{NoMemory as OutOfMemory, Refused};

use crate::cause::Cause;
use fixed_vec::NoMemory;

pub(crate) enum RecordFault {
    NoMemory,
    Refused(Cause),
}

impl From<NoMemory> for RecordFault {
    ghost from_gives = { λ _ e. e ≡ OutOfMemory };

    fn from(_: NoMemory) -> Self {
        RecordFault::NoMemory
    }
}

impl From<Cause> for RecordFault {
    ghost from_gives = { λ cause e. e ≡ Refused cause };

    fn from(cause: Cause) -> Self {
        RecordFault::Refused(cause)
    }
}
