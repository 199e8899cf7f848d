// Why a live run ends before its time.

/// Why a live run ended early.
#[derive(Clone, Copy, Debug, PartialEq, Eq)]
pub enum LiveFault {
    /// The sink failed.
    WriteFault,
    /// Memory ran out.
    NoMemory,
}
