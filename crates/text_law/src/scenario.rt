// Texts of scenarios.
ghost use Rattle.text_law.specs.ReadBack.{ReadsBack};

use crowd_data::Scenario;

/// The text of every valid scenario reads back as that scenario.
pub fn reads_back(scenario: &Scenario)
    ensures { ReadsBack scenario.now }
{
    let _ = scenario.steps();
}
