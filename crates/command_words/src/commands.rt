// The commands.
ghost use Rattle.std.specs.Prelude.{◌≡◌, ◌≤◌, ◌⊎◌, Err, IfOk, IfSome, IsErrOf, Ok, map};
ghost use Rattle.clap.specs.Words.{first_value, found_of};
ghost use Rattle.command_words.specs.Commands.{Answers, agents_in, command_of, command_with, name_of, sample_number_in, optional, options_for, required, steps_in, workers_in};
ghost use Rattle.command_words.specs.Options.{options_of};
ghost use Rattle.command_words.specs.Sizes.{IsSized};
ghost use Rattle.command_words.specs.declared.limits.TheConstants.{GREATEST_SAMPLE, MOST_AGENTS, MOST_STEPS, MOST_WORKERS};
ghost use Rattle.command_words.specs.Spelling.{Asks};
ghost use Rattle.command_words.specs.declared.commands.Command.{Command};
ghost use Rattle.command_words.specs.Reading.{ReadsOptions, known_of};

use crate::limits::{GREATEST_SAMPLE, MOST_AGENTS, MOST_STEPS, MOST_WORKERS};
use crate::options::{KnownOption, option_number, read_options};
use clap::ArgMatches;
use std::alloc::Global;

/// What the words of the command line ask for.
///
/// | words | options |
/// |---|---|
/// | `run` | `--workers N`, 1 to 64, or 1 where it is left out |
/// | `check` | none |
/// | `sample` | `--number N`, 0 to 65,535; `--agents N`, 1 to 10,000; `--steps N`, 0 to 100,000; all required |
/// | `soak` | those of `sample`, and `--workers` as `run` |
/// | `live` | those of `run` |
#[derive(Clone, Copy, Debug, PartialEq, Eq)]
pub enum Command {
    Run {
        workers: u32,
    },
    Check,
    Sample {
        number: u32,
        agents: u32,
        steps: u32,
    },
    Soak {
        number: u32,
        agents: u32,
        steps: u32,
        workers: u32,
    },
    Live {
        workers: u32,
    },
}

/// Why no command was read.
#[derive(Clone, Copy, Debug, PartialEq, Eq)]
pub enum WordsFault {
    /// Memory ran out.
    NoMemory,
    /// The words are no command's.
    Usage,
}

// What the first word names.
#[derive(Clone, Copy, Debug, PartialEq, Eq)]
enum Name {
    Run,
    Check,
    Sample,
    Soak,
    Live,
}

fn name_of(word: &str) -> Option<Name>
    ensures { result ≡ name_of word.now }
{
    match word {
        "run" => Some(Name::Run),
        "check" => Some(Name::Check),
        "sample" => Some(Name::Sample),
        "soak" => Some(Name::Soak),
        "live" => Some(Name::Live),
        _ => None,
    }
}

fn required<'a>(name: &'a str) -> KnownOption<'a>
    ensures { known_of result ≡ required name.now }
{
    KnownOption {
        name,
        is_required: true,
    }
}

fn optional<'a>(name: &'a str) -> KnownOption<'a>
    ensures { known_of result ≡ optional name.now }
{
    KnownOption {
        name,
        is_required: false,
    }
}

fn read_named<'a>(
    alloc: Global,
    name: Name,
    words: &'a [&'a str],
) -> Result<ArgMatches<'a>, WordsFault>
    ensures { ReadsOptions (options_of (options_for name) (map (λ w. w.now) words.now)) result }
{
    let number = required("number");
    let agents = required("agents");
    let steps = required("steps");
    let workers = optional("workers");
    match name {
        Name::Run => read_options(alloc, "run", &[workers], words),
        Name::Check => read_options(alloc, "check", &[], words),
        Name::Sample => read_options(alloc, "sample", &[number, agents, steps], words),
        Name::Soak => read_options(alloc, "soak", &[number, agents, steps, workers], words),
        Name::Live => read_options(alloc, "live", &[workers], words),
    }
}

fn workers(matches: &ArgMatches<'_>) -> Option<u32>
    ensures value { result ≡ workers_in (first_value (found_of matches.now)) }
    ensures limits { IfSome result (λ n. (1 ≤ n) × (n ≤ MOST_WORKERS)) }
{
    option_number(matches, "workers", Some(1), 1, MOST_WORKERS)
}

fn sample_number(matches: &ArgMatches<'_>) -> Option<u32>
    ensures value { result ≡ sample_number_in (first_value (found_of matches.now)) }
    ensures limits { IfSome result (λ n. (0 ≤ n) × (n ≤ GREATEST_SAMPLE)) }
{
    option_number(matches, "number", None, 0, GREATEST_SAMPLE)
}

fn agents(matches: &ArgMatches<'_>) -> Option<u32>
    ensures value { result ≡ agents_in (first_value (found_of matches.now)) }
    ensures limits { IfSome result (λ n. (1 ≤ n) × (n ≤ MOST_AGENTS)) }
{
    option_number(matches, "agents", None, 1, MOST_AGENTS)
}

fn steps(matches: &ArgMatches<'_>) -> Option<u32>
    ensures value { result ≡ steps_in (first_value (found_of matches.now)) }
    ensures limits { IfSome result (λ n. (0 ≤ n) × (n ≤ MOST_STEPS)) }
{
    option_number(matches, "steps", None, 0, MOST_STEPS)
}

fn sample(matches: &ArgMatches<'_>) -> Option<Command>
    ensures value { result ≡ command_with Name.Sample (first_value (found_of matches.now)) }
    ensures sizes { IfSome result IsSized }
{
    match (sample_number(matches), agents(matches), steps(matches)) {
        (Some(number), Some(agents), Some(steps)) => Some(Command::Sample {
            number,
            agents,
            steps,
        }),
        _ => None,
    }
}

fn soak(matches: &ArgMatches<'_>) -> Option<Command>
    ensures value { result ≡ command_with Name.Soak (first_value (found_of matches.now)) }
    ensures sizes { IfSome result IsSized }
{
    match (
        sample_number(matches),
        agents(matches),
        steps(matches),
        workers(matches),
    ) {
        (Some(number), Some(agents), Some(steps), Some(workers)) => Some(Command::Soak {
            number,
            agents,
            steps,
            workers,
        }),
        _ => None,
    }
}

// The command of this name with the options that were found.
fn command_with(name: Name, matches: &ArgMatches<'_>) -> Option<Command>
    ensures value { result ≡ command_with name (first_value (found_of matches.now)) }
    ensures sizes { IfSome result IsSized }
{
    match name {
        Name::Run => workers(matches).map(|workers| Command::Run { workers }),
        Name::Check => Some(Command::Check),
        Name::Sample => sample(matches),
        Name::Soak => soak(matches),
        Name::Live => workers(matches).map(|workers| Command::Live { workers }),
    }
}

// The command, by the recursion over the words.
#[tactic(auto, unfolding(crate::specs::Commands::command_of))]
fn find_command(alloc: Global, words: &[&str]) -> Result<Command, WordsFault>
    ensures read { Answers (command_of (map (λ w. w.now) words.now)) result }
    ensures sizes { IfOk result IsSized }
{
    let [word, rest @ ..] = words else {
        return Err(WordsFault::Usage);
    };
    let Some(name) = name_of(word) else {
        return Err(WordsFault::Usage);
    };
    match read_named(alloc, name, rest) {
        Ok(matches) => match command_with(name, &matches) {
            Some(command) => Ok(command),
            None => Err(WordsFault::Usage),
        },
        Err(fault) => Err(fault),
    }
}

/// The command that the words ask for. It answers `Usage` exactly where they ask for none, unless memory runs
/// out.
pub fn read_command(alloc: Global, words: &[&str]) -> Result<Command, WordsFault>
    // The words are the command's name and options of it, as the grammar has it.
    ensures asked { IfOk result (Asks (map (λ w. w.now) words.now)) }
    ensures taken { (c : Command) → Asks (map (λ w. w.now) words.now) c → (result ≡ Ok c) ⊎ (result ≡ Err WordsFault.NoMemory) }
    ensures usage { IsErrOf result WordsFault.Usage → (c : Command) → ¬ Asks (map (λ w. w.now) words.now) c }

    // The same by a recursion over the words, which computes.
    ensures read { Answers (command_of (map (λ w. w.now) words.now)) result }

    // Its numbers are within their limits.
    ensures sizes { IfOk result IsSized }
{
    find_command(alloc, words)
}
