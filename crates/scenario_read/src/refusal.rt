// The first cause that was found.
use crate::cause::Cause;

#[derive(Clone, Copy)]
pub(crate) struct Refusal {
    pub index: u32,
    pub cause: Cause,
}
