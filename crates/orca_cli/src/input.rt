// The scenario that a command is about.
ghost use Rattle.std.specs.Prelude.{◌≡◌, ◌≤◌, IfErr, IfOk, IfSome, length};
ghost use Rattle.std.specs.Io.KnownBytes.{IsAtEnd};
ghost use Rattle.outside_io.specs.Causes.{TakesAtMost};
ghost use Rattle.orca_cli.specs.Output.{IsScenarioOf, reads};
ghost use Rattle.orca_cli.specs.Status.{input_limit};
ghost use Rattle.orca_cli.specs.Working.{HasNone, HasScenario, IsInputFault};
ghost use Rattle.command_words.specs.Sizes.{IsSized};
ghost use Rattle.scenario_read.specs.Generator.{generated};
ghost use Rattle.orca_cli.specs.declared.status.Status.TheVariants.{NoMemory};

use crate::status::Status;
use command_words::{Command, GREATEST_SAMPLE, MOST_AGENTS, MOST_STEPS};
use crowd_data::Scenario;
use outside_io::{ReadAllFault, Source, read_all};
use scenario_read::{ScenarioFault, generate, read_scenario};
use std::alloc::Global;

/// The most bytes of an input.
const INPUT_LIMIT: usize = 16_777_216;

// The scenario that the bytes of the source stand for.
fn scenario_of<S: Source>(alloc: Global, source: &mut S) -> Result<Scenario, Status>
    ensures read { IfOk result (λ s. IfSome (S.left source.old) (λ bytes. (length bytes ≤ input_limit) × IsScenarioOf bytes s) × IsAtEnd (S.left source.new) × TakesAtMost (S.left source.old) (S.left source.new) input_limit) }
    ensures fault { IfErr result (IsInputFault (record { left = S.left source.old; faults = S.faults source.old }) (record { left = S.left source.new; faults = S.faults source.new })) }
{
    let bytes = match read_all(alloc, source, INPUT_LIMIT) {
        Ok(bytes) => bytes,
        Err(ReadAllFault::ReadFault) => return Err(Status::ReadFault),
        Err(ReadAllFault::TooLong) => return Err(Status::TooLong),
        Err(ReadAllFault::NoMemory) => return Err(Status::NoMemory),
    };
    match read_scenario(alloc, bytes.items()) {
        Ok(scenario) => Ok(scenario),
        Err(ScenarioFault::NoMemory) => Err(Status::NoMemory),
        Err(ScenarioFault::At { index, cause }) => Err(Status::Refused { index, cause }),
    }
}

// A generated scenario.
fn generate_scenario(
    alloc: Global,
    number: u32,
    agents: u32,
    steps: u32,
) -> Result<Scenario, Status>
    requires number { number ≤ GREATEST_SAMPLE }
    requires some_agents { 1 ≤ agents }
    requires agents { agents ≤ MOST_AGENTS }
    requires steps { steps ≤ MOST_STEPS }
    ensures made { IfOk result (λ s. s ≡ generated number agents steps) }
    ensures fault { IfErr result (λ status. status ≡ NoMemory) }
{
    match generate(alloc, number, agents, steps) {
        Ok(scenario) => Ok(scenario),
        Err(_) => Err(Status::NoMemory),
    }
}

/// The scenario that the command is about: the one that the source's bytes stand for, or a generated one,
/// which leaves the source as it is.
pub(crate) fn scenario_for<S: Source>(
    alloc: Global,
    command: Command,
    source: &mut S,
) -> Result<Scenario, Status>
    requires { IsSized command }
    ensures had { IfOk result (HasScenario (reads command) command (record { left = S.left source.old; faults = S.faults source.old }) (record { left = S.left source.new; faults = S.faults source.new })) }
    ensures fault { IfErr result (HasNone (reads command) (record { left = S.left source.old; faults = S.faults source.old }) (record { left = S.left source.new; faults = S.faults source.new })) }
{
    match command {
        Command::Run { .. } => scenario_of(alloc, source),
        Command::Live { .. } => scenario_of(alloc, source),
        Command::Check => scenario_of(alloc, source),
        Command::Sample {
            number,
            agents,
            steps,
        } => generate_scenario(alloc, number, agents, steps),
        Command::Soak {
            number,
            agents,
            steps,
            ..
        } => generate_scenario(alloc, number, agents, steps),
    }
}
