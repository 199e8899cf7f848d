// Where a controller or a worker is let through, turn by turn.

/// Lets turns pass. A test can hold one back to bring about an order of events; the program passes each
/// at once.
pub trait Gate {
    /// Returns once turn number `turn` of `who` may begin. Controllers are 0 to 15, and worker j is
    /// `16 + j`.
    fn pass(&self, who: u32, turn: u64);
}

/// A gate that lets every turn pass at once.
#[derive(Clone, Copy, Debug, PartialEq, Eq)]
pub struct OpenGate;

impl Gate for OpenGate {
    fn pass(&self, _who: u32, _turn: u64) {}
}
