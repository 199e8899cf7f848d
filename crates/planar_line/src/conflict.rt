// Half-planes that exclude each other.

/// The places in a list of half-planes that have no common point: one whose border was walked along, and
/// those that bound what the border has from below and from above, which are one where its border is
/// parallel. It is a hint, on which nothing rests.
#[derive(Clone, Copy, Debug, PartialEq, Eq)]
pub struct Conflict {
    pub line: usize,
    pub low: usize,
    pub high: usize,
}
