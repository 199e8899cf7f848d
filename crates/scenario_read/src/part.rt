// The scenario at the front of a text.
use crowd_data::Scenario;

/// The scenario of the records before the first of some kind, and their count.
#[derive(Drop)]
pub struct Part {
    pub scenario: Scenario,
    pub records: u32,
}
