//! The simulator for callers from C: a step, or a part of one, of a crowd in the caller's own arrays.
//!
//! `include/crowd.h` declares what is exported here. The contracts are those of `array_step`, with statuses in
//! place of results; that the caller's pointers and counts are what C says they are is trusted.
#![tactic(auto)]

ghost use Rattle.std.specs.Prelude.{◌≡◌, ◌≢◌, ◌⊎◌, ◌+◌, ◌<◌, ◌≤◌, length};
ghost use Rattle.crowd_data.specs.Scenario.{IsValid};
ghost use Rattle.array_step.specs.Arrays.{scenario_of};
ghost use Rattle.array_step.specs.Faults.{IsFault};
ghost use Rattle.array_step.specs.Steps.{IsPart, IsStep};
ghost use Rattle.array_step.specs.declared.fault.ArrayFault.{ArrayFault};
ghost use Rattle.crowd_c.specs.Faults.{no_such_part, numbers_of};

mod fault;
#[cfg(test)]
mod tests;

use array_step::{CrowdAgent, CrowdSegment, StepFault, step, step_part};
use crowd_data::LATEST_VERSION;
pub use fault::CrowdFault;
use fault::{no_such_part, numbers_of};
use std::alloc::Global;

const DONE: u32 = 0;

const NO_MEMORY: u32 = 1;

const REFUSED: u32 = 3;

/// The version of the structs: the latest version of scenarios, whose fields they have.
#[unsafe(no_mangle)]
pub extern "C" fn crowd_version() -> u32
    ensures { result ≡ LATEST_VERSION }
{
    LATEST_VERSION
}

/// Makes of the agents the next frame, in place, and answers a status. The ring is 36 or 60, or 0 for the
/// default, 36.
///
/// | status | comes | then |
/// |---|---|---|
/// | 0 | where the step is done | each agent moved to its place in the next frame |
/// | 1 | where memory runs out | nothing changed |
/// | 3 | exactly where the arrays stand for no scenario | nothing changed but the fault, which has the first cause |
#[unsafe(no_mangle)]
pub extern "C" fn crowd_step(
    alloc: Global,
    agents: &mut [CrowdAgent],
    segments: &[CrowdSegment],
    ring: u32,
    fault: &mut CrowdFault,
) -> u32
    ensures statuses { (result ≡ 0) ⊎ (result ≡ 1) ⊎ (result ≡ 3) }
    ensures done { result ≡ 0 → IsStep agents.old segments.now ring agents.new }
    ensures unchanged { result ≢ 0 → agents.new ≡ agents.old }
    ensures refused { result ≡ 3 → (first : ArrayFault) × IsFault agents.old segments.now ring first × (fault.new ≡ numbers_of first) }
    ensures accepted { IsValid (scenario_of agents.old segments.now ring) → result ≢ 3 }
    ensures no_fault { result ≢ 3 → fault.new ≡ fault.old }
{
    match step(alloc, agents, segments, ring) {
        Ok(()) => DONE,
        Err(StepFault::NoMemory) => NO_MEMORY,
        Err(StepFault::Arrays(first)) => {
            *fault = numbers_of(first);
            REFUSED
        }
    }
}

/// Makes a part of the step: the agents from number `first` on, as many as `moved` has places, each as
/// `crowd_step` would move it among all of them. The agents that are handed in are only read, so threads of the
/// caller's can make one step side by side. The statuses are those of `crowd_step`; besides, a part that asks
/// for agents that aren't there is refused with the cause 7.
#[unsafe(no_mangle)]
pub extern "C" fn crowd_step_part(
    alloc: Global,
    agents: &[CrowdAgent],
    segments: &[CrowdSegment],
    ring: u32,
    first: usize,
    moved: &mut [CrowdAgent],
    fault: &mut CrowdFault,
) -> u32
    ensures statuses { (result ≡ 0) ⊎ (result ≡ 1) ⊎ (result ≡ 3) }
    ensures done { result ≡ 0 → IsPart agents.now segments.now ring first moved.new }
    ensures there { result ≡ 0 → first + length moved.old ≤ length agents.now }
    ensures count { length moved.new ≡ length moved.old }
    ensures unchanged { result ≢ 0 → moved.new ≡ moved.old }
    ensures refused { result ≡ 3 → ((length agents.now < first + length moved.old) × (fault.new ≡ no_such_part))
        ⊎ ((cause : ArrayFault) × IsFault agents.now segments.now ring cause × (fault.new ≡ numbers_of cause)) }
    ensures accepted { IsValid (scenario_of agents.now segments.now ring) → first + length moved.old ≤ length agents.now → result ≢ 3 }
    ensures no_fault { result ≢ 3 → fault.new ≡ fault.old }
{
    if first > agents.len() || moved.len() > agents.len() - first {
        *fault = no_such_part();
        return REFUSED;
    }
    match step_part(alloc, agents, segments, ring, first, moved) {
        Ok(()) => DONE,
        Err(StepFault::NoMemory) => NO_MEMORY,
        Err(StepFault::Arrays(cause)) => {
            *fault = numbers_of(cause);
            REFUSED
        }
    }
}
