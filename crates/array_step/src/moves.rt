// A step of arrays, and a part of one.
ghost use Rattle.std.specs.Prelude.{◌≡◌, ◌+◌, ◌≤◌, IfErr, OnErr, OnOk, length};
ghost use Rattle.crowd_data.specs.Scenario.{IsValid};
ghost use Rattle.array_step.specs.Arrays.{scenario_of};
ghost use Rattle.array_step.specs.Faults.{Tells};
ghost use Rattle.array_step.specs.Steps.{IsPart, IsStep};
ghost use Rattle.array_step.specs.declared.fault.StepFault.TheVariants.{NoMemory as OutOfMemory};

use crate::agent::CrowdAgent;
use crate::fault::StepFault;
use crate::first_step::FirstStep;
use crate::scenario::scenario_of;
use crate::segment::CrowdSegment;
use std::alloc::Global;

/// Makes of the agents that are handed in the next frame, in place. Each agent's preferred velocity is the
/// caller's to set before the call; the mark and the relief that are handed in count for nothing. The ring is
/// that of the speed polygons: 36 or 60 points, or 0 for the default, which is 36.
///
/// With `Ok` each agent has the position, the velocity, the mark and the relief of its body in the next
/// frame of the scenario that the arrays stand for, and all else as it was; the step is safe; and what came
/// out can be handed in again, unless an agent has left the limits of positions. With `Err` nothing changed:
/// `Arrays` is answered exactly where the arrays stand for no scenario, with the first cause, and `NoMemory`
/// where memory runs out (that it comes only there is documented, not proved).
pub fn step(
    alloc: Global,
    agents: &mut [CrowdAgent],
    segments: &[CrowdSegment],
    ring: u32,
) -> Result<(), StepFault>
    ensures done { OnOk result (IsStep agents.old segments.now ring agents.new) }
    ensures unchanged { OnErr result (agents.new ≡ agents.old) }
    ensures refused { IfErr result (Tells agents.old segments.now ring) }
    ensures accepted { IsValid (scenario_of agents.old segments.now ring) → IfErr result (λ fault. fault ≡ OutOfMemory) }
{
    let scenario = scenario_of(alloc, agents, segments, ring)?;
    let mut first_step = FirstStep::open(alloc, scenario)?;
    first_step.move_from(0, agents);
    Ok(())
}

/// Makes a part of the step: the agents from number `first` on, as many as `moved` has places, each as `step`
/// would move it among all of them. So parts of one step can be made side by side, each by a thread of the
/// caller's and into places of its own. What was in `moved` counts for nothing, and stays with `Err`.
pub fn step_part(
    alloc: Global,
    agents: &[CrowdAgent],
    segments: &[CrowdSegment],
    ring: u32,
    first: usize,
    moved: &mut [CrowdAgent],
) -> Result<(), StepFault>
    requires { first + length moved.old ≤ length agents.now }
    ensures done { OnOk result (IsPart agents.now segments.now ring first moved.new) }
    ensures count { length moved.new ≡ length moved.old }
    ensures unchanged { OnErr result (moved.new ≡ moved.old) }
    ensures refused { IfErr result (Tells agents.now segments.now ring) }
    ensures accepted { IsValid (scenario_of agents.now segments.now ring) → IfErr result (λ fault. fault ≡ OutOfMemory) }
{
    let scenario = scenario_of(alloc, agents, segments, ring)?;
    let mut first_step = FirstStep::open(alloc, scenario)?;
    moved.copy_from_slice(&agents[first..first + moved.len()]);
    first_step.move_from(first, moved);
    Ok(())
}
