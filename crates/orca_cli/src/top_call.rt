// The top call.
ghost use Rattle.std.specs.Prelude.{Some, map};
ghost use Rattle.command_words.specs.Commands.{command_of};
ghost use Rattle.command_words.specs.Sizes.{IsWorkers};
ghost use Rattle.command_words.specs.declared.commands.Command.TheVariants.{Live};
ghost use Rattle.orca_cli.specs.Promise.{KeepsPromise};
ghost use Rattle.orca_cli.specs.Status.{CausesHold};
ghost use Rattle.orca_cli.specs.Working.{WroteLiveFor};

use crate::commands::run_command;
use crate::input::scenario_for;
use crate::status::{Status, code, report};
use command_words::{Command, WordsFault, read_command};
use crowd_data::Scenario;
use live_session::{LiveFault, live};
use outside_io::{Gate, Sink, Source};
use run_law::every_run_is_safe;
use std::alloc::Global;
use std::sync::Wait;
use std::thread::Threads;

// The transcript of the scenario's run with its controllers.
fn write_live<T: Sink, R: Threads + Wait + Sync, G: Gate + Sync>(
    rt: &R,
    alloc: Global,
    scenario: Scenario,
    workers: u32,
    out: &mut T,
    gate: &G,
) -> Status
    requires { IsWorkers workers }
    ensures { WroteLiveFor (Live workers) scenario (record { held = T.held out.old; faults = T.faults out.old }) (record { held = T.held out.new; faults = T.faults out.new }) result }
{
    match live(rt, alloc, scenario, workers, out, gate) {
        Ok(()) => Status::Done,
        Err(LiveFault::WriteFault) => Status::WriteFault,
        Err(LiveFault::NoMemory) => Status::NoMemoryInRun,
    }
}

// Runs the scenario that the source holds with its controllers.
fn run_live<S: Source, T: Sink, R: Threads + Wait + Sync, G: Gate + Sync>(
    rt: &R,
    alloc: Global,
    workers: u32,
    source: &mut S,
    out: &mut T,
    gate: &G,
) -> Status
    requires { IsWorkers workers }
    ensures { CausesHold (Some (Live workers))
        (record { left = S.left source.old; reads = S.faults source.old; held = T.held out.old; writes = T.faults out.old })
        (record { left = S.left source.new; reads = S.faults source.new; held = T.held out.new; writes = T.faults out.new }) result }
{
    match scenario_for(alloc, Command::Live { workers }, source) {
        Ok(scenario) => {
            every_run_is_safe(&scenario);
            write_live(rt, alloc, scenario, workers, out, gate)
        }
        Err(status) => status,
    }
}

// Runs the command that the words name.
fn work<S: Source, T: Sink, R: Threads + Wait + Sync, G: Gate + Sync>(
    rt: &R,
    alloc: Global,
    words: &[&str],
    source: &mut S,
    out: &mut T,
    gate: &G,
) -> Status
    ensures { CausesHold (command_of (map (λ w. w.now) words.now))
        (record { left = S.left source.old; reads = S.faults source.old; held = T.held out.old; writes = T.faults out.old })
        (record { left = S.left source.new; reads = S.faults source.new; held = T.held out.new; writes = T.faults out.new }) result }
{
    match read_command(alloc, words) {
        Ok(Command::Live { workers }) => run_live(rt, alloc, workers, source, out, gate),
        Ok(command) => run_command(rt, alloc, command, source, out, gate),
        Err(WordsFault::Usage) => Status::Usage,
        Err(WordsFault::NoMemory) => Status::NoMemory,
    }
}

/// The whole program over a source, two sinks and a gate: it runs the command that the words name, and
/// answers its status. The commands, the statuses and their causes are those of [`offline`], and one more
/// command, which waits for others and may not return:
///
/// | words | reads | writes to `out` |
/// |---|---|---|
/// | `live [--workers N]` | a scenario | the transcript of its run with its scripted posts and those of its controllers, which take their goals' turns on threads of their own |
///
/// Where memory runs out while controllers run (status 1), a prefix of the transcript so far may have been written.
pub fn orca<S: Source, T: Sink, E: Sink, R: Threads + Wait + Sync, G: Gate + Sync>(
    rt: &R,
    alloc: Global,
    words: &[&str],
    source: &mut S,
    out: &mut T,
    err: &mut E,
    gate: &G,
) -> u8
    ensures { KeepsPromise (command_of (map (λ w. w.now) words.now))
        (record { left = S.left source.old; reads = S.faults source.old; held = T.held out.old; writes = T.faults out.old })
        (record { left = S.left source.new; reads = S.faults source.new; held = T.held out.new; writes = T.faults out.new })
        (record { held = E.held err.old; faults = E.faults err.old }) (record { held = E.held err.new; faults = E.faults err.new }) result }
{
    let status = work(rt, alloc, words, source, out, gate);
    report(err, status);
    code(status)
}
