// What steps of arrays and their parts are.
ghost use Rattle.array_step.specs.Laws.{OneStep, PartsMakeAStep};

use crate::agent::CrowdAgent;
use crate::segment::CrowdSegment;

/// Equal arrays make equal steps: there is one list of agents that the step of these arrays makes. It answers
/// nothing; its contract is the law.
pub fn one_step(agents: &[CrowdAgent], segments: &[CrowdSegment], ring: u32)
    ensures { OneStep agents.now segments.now ring }
{}

/// Two parts one behind the other make up one part, and a part that has all agents is the step.
pub fn parts_make_a_step(agents: &[CrowdAgent], segments: &[CrowdSegment], ring: u32)
    ensures { PartsMakeAStep agents.now segments.now ring }
{}
