// What each place of `left_right` knows, by the rule of the frames. No value of these types is made.
use crate::entry::Step;
use crowd_data::Scenario;
use std::collections::LinkedList;

/// Which log it is.
pub struct BookName {
    pub number: u64,
    pub log_name: u64,
    pub cells_name: u64,
}

/// What the writer or a reader knows: whether it was told anything, and if so of which log, of which scenario, and the
/// history of the frame that it saw last.
pub struct FrameView {
    pub knows: bool,
    pub name: BookName,
    pub scenario: Scenario,
    pub seen: LinkedList<Step>,
}
