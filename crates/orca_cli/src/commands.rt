// The commands that wait for nobody.
ghost use Rattle.std.specs.Prelude.{◌≡◌, ◌≢◌, Some, false, map};
ghost use Rattle.command_words.specs.Sizes.{IsSized};
ghost use Rattle.orca_cli.specs.Output.{offline_command_of, waits};
ghost use Rattle.orca_cli.specs.Promise.{KeepsPromise};
ghost use Rattle.orca_cli.specs.Status.{CausesHold, IsUnwritten};

use crate::input::scenario_for;
use crate::output::write_output;
use crate::status::{Status, code, report};
use command_words::{Command, WordsFault, read_command};
use outside_io::{Gate, Sink, Source};
use run_law::every_run_is_safe;
use std::alloc::Global;
use std::thread::Threads;

// Whether a command waits for others.
pub(crate) fn waits(command: Command) -> bool
    ensures { result ≡ waits command }
{
    matches!(command, Command::Live { .. })
}

/// Runs a command that waits for nobody.
pub(crate) fn run_command<S: Source, T: Sink, R: Threads + Sync, G: Gate + Sync>(
    rt: &R,
    alloc: Global,
    command: Command,
    source: &mut S,
    out: &mut T,
    gate: &G,
) -> Status
    requires sized { IsSized command }
    requires nobody { waits command ≡ false }
    ensures { CausesHold (Some command)
        (record { left = S.left source.old; reads = S.faults source.old; held = T.held out.old; writes = T.faults out.old })
        (record { left = S.left source.new; reads = S.faults source.new; held = T.held out.new; writes = T.faults out.new }) result }
{
    match scenario_for(alloc, command, source) {
        Ok(scenario) => {
            every_run_is_safe(&scenario);
            write_output(rt, alloc, command, scenario, out, gate)
        }
        Err(status) => status,
    }
}

// Runs the command that the words name, where it waits for nobody.
fn work<S: Source, T: Sink, R: Threads + Sync, G: Gate + Sync>(
    rt: &R,
    alloc: Global,
    words: &[&str],
    source: &mut S,
    out: &mut T,
    gate: &G,
) -> Status
    ensures { CausesHold (offline_command_of (map (λ w. w.now) words.now))
        (record { left = S.left source.old; reads = S.faults source.old; held = T.held out.old; writes = T.faults out.old })
        (record { left = S.left source.new; reads = S.faults source.new; held = T.held out.new; writes = T.faults out.new }) result }
{
    match read_command(alloc, words) {
        Ok(command) => {
            if waits(command) {
                Status::Usage
            } else {
                run_command(rt, alloc, command, source, out, gate)
            }
        }
        Err(WordsFault::Usage) => Status::Usage,
        Err(WordsFault::NoMemory) => Status::NoMemory,
    }
}

/// Runs the command that the words name, and answers its status. It waits for nobody and returns for
/// every input. Each step of a run passes the gate, once workers share it.
///
/// | words | reads | writes to `out` |
/// |---|---|---|
/// | `run [--workers N]` | a scenario | the transcript of its run with its scripted posts |
/// | `check` | a scenario | `accepted,A,S,P,G,N`: how many agents, segments, posts, goals and steps it has |
/// | `sample --number N --agents N --steps N` | nothing | the text of the generated scenario |
/// | `soak --number N --agents N --steps N [--workers N]` | nothing | one line that sums up the generated scenario's run |
///
/// | status | comes | `err` gains |
/// |---|---|---|
/// | 0 | done: the whole output was written, and what is read was read to its end | nothing |
/// | 1 | memory ran out; nothing was written | `no memory` |
/// | 2 | exactly where the words are no command's; nothing was read | the usage line |
/// | 3 | exactly where the input stands for no scenario | `refused: record R: CAUSE`, with the first cause |
/// | 4 | only where the source's count of faults rose | `read fault` |
/// | 5 | only where the count of faults of `out` rose; a prefix of the output was written | `write fault` |
/// | 6 | exactly where more than 16,777,216 bytes came | `input too long` |
///
/// They are tried in the order 2, 4 and 6, 3, 5; memory may run out in any of these places before the first
/// byte is written. A failure of `err` changes no status. What is promised of each status stands in
/// `KeepsPromise` (specs/Promise), and what each command reads and writes in specs/Output.
pub fn offline<S: Source, T: Sink, E: Sink, R: Threads + Sync, G: Gate + Sync>(
    rt: &R,
    alloc: Global,
    words: &[&str],
    source: &mut S,
    out: &mut T,
    err: &mut E,
    gate: &G,
) -> u8
    ensures promise { KeepsPromise (offline_command_of (map (λ w. w.now) words.now))
        (record { left = S.left source.old; reads = S.faults source.old; held = T.held out.old; writes = T.faults out.old })
        (record { left = S.left source.new; reads = S.faults source.new; held = T.held out.new; writes = T.faults out.new })
        (record { held = E.held err.old; faults = E.faults err.old }) (record { held = E.held err.new; faults = E.faults err.new }) result }

    // Memory runs out only before the first byte is written.
    ensures unwritten { result ≢ 0 → result ≢ 5 → IsUnwritten
        (record { left = S.left source.old; reads = S.faults source.old; held = T.held out.old; writes = T.faults out.old })
        (record { left = S.left source.new; reads = S.faults source.new; held = T.held out.new; writes = T.faults out.new }) }
{
    let status = work(rt, alloc, words, source, out, gate);
    report(err, status);
    code(status)
}
