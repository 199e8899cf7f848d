// Where an agent is, how it moves and how it wants to move.
use fixed_vec::V2;

#[derive(Clone, Copy)]
pub(crate) struct Motion {
    pub pos: V2,
    pub vel: V2,
    pub pref: V2,
}
