// Scenarios of texts.
use crowd_data::Scenario;
use scenario_read::read_scenario;
use std::alloc::Global;
use std::test::Fail;

/// The scenario of a text. Its callers learn nothing of it, so that no proof computes on the text.
pub(crate) fn scenario_of(alloc: Global, input: &[u8]) -> Result<Scenario, Fail> {
    if input.len() > 100_000 {
        Err::<(), &str>("a test asks for too much")?;
    }
    Ok(read_scenario(alloc, input)?)
}
