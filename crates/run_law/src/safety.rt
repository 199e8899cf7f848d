// What every step and every run keeps.
ghost use Rattle.run_law.specs.Laws.{EveryRunIsSafe, EveryStepIsSafe};

use crowd_data::Scenario;

/// In every step from a frame that has a body within its limits for each agent, clear of every segment,
/// whatever is posted: each body stays clear of every segment, and stays off it throughout the step and
/// throughout its wall horizon, whatever its mark; no velocity is longer than its agent's speed; two discs
/// that are apart, both marked feasible, stay apart throughout the step, and would stay so for the smaller
/// of their horizons where each is among the other's neighbours; two that overlap, both marked feasible, are
/// apart at its end; two that are too far off to touch stay apart whatever their marks.
pub fn every_step_is_safe(scenario: &Scenario)
    ensures { EveryStepIsSafe scenario.now }
{
    // The scenario's type keeps that it is valid.
    let _ = scenario.steps();
}

/// So is every step of every run of a scenario, whatever is posted, and each body of each frame is clear of
/// every segment.
pub fn every_run_is_safe(scenario: &Scenario)
    ensures { EveryRunIsSafe scenario.now }
{
    let _ = scenario.steps();
}
