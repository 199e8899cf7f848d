// That the definitions give something, and one thing.
ghost use Rattle.run_law.specs.Laws.{NextExists, OneAdvice, OneNext, OneRun};

use crowd_data::Scenario;

/// Each frame of a run with a step left has a next one, whatever is posted.
pub fn next_exists(scenario: &Scenario)
    ensures { NextExists scenario.now }
{
    let _ = scenario.steps();
}

/// An agent has one advice: one velocity, one mark and one relief.
pub fn one_advice(scenario: &Scenario)
    ensures { OneAdvice scenario.now }
{
    let _ = scenario.steps();
}

/// A frame has one next frame for a list of posts.
pub fn one_next(scenario: &Scenario)
    ensures { OneNext scenario.now }
{
    let _ = scenario.steps();
}

/// A scenario has one run for lists of posts.
pub fn one_run(scenario: &Scenario)
    ensures { OneRun scenario.now }
{
    let _ = scenario.steps();
}
