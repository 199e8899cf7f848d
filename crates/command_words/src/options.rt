// Options of a command, read with clap.
ghost use Rattle.std.specs.Prelude.{◌≡◌, ◌≤◌, IfOk, IfSome, MatchBool, true, false, map, codes, IsUtf8};
ghost use Rattle.std.specs.Str.{bytes_eq};
ghost use Rattle.std.specs.List.{list_any};
ghost use Rattle.std.specs.Option.{ForSome};
ghost use Rattle.clap.specs.Words.{app_of, first_value, found_of, rule_of};
ghost use Rattle.command_words.specs.Numbers.{number_or};
ghost use Rattle.command_words.specs.Options.{options_of};
ghost use Rattle.command_words.specs.Reading.{ArePlain, ReadsOptions, app_for, known_of, rule_for};

use crate::commands::WordsFault;
use crate::numbers::number_in;
use clap::error::ErrorKind;
use clap::{Arg, ArgAction, ArgMatches, Command};
use std::alloc::{AllocError, Global};

/// An option that a command has.
#[derive(Clone, Copy, Debug)]
pub(crate) struct KnownOption<'a> {
    pub(crate) name: &'a str,
    pub(crate) is_required: bool,
}

fn is_double_dash(word: &str) -> bool
    ensures exact { result ≡ bytes_eq word.now (codes "--") }
    ensures text { IsUtf8 word.now }
{
    word == "--"
}

// Whether a word is `--`.
fn has_double_dash(words: &[&str]) -> bool
    ensures { MatchBool result (list_any (λ w. bytes_eq w (codes "--")) (map (λ w. w.now) words.now) ≡ true) (ArePlain (map (λ w. w.now) words.now)) }
{
    for word in words {
        if is_double_dash(word) {
            return true;
        }
    }
    false
}

fn arg<'a>(alloc: Global, known: &KnownOption<'a>) -> Arg<'a>
    ensures rule { rule_of result ≡ rule_for (known_of known.now) }
    ensures local { result.global ≡ false }
{
    Arg::new(alloc, known.name)
        .long(known.name)
        .action(ArgAction::Set)
        .required(known.is_required)
}

fn command<'a>(
    alloc: Global,
    name: &'a str,
    known: &[KnownOption<'a>],
) -> Result<Command<'a>, AllocError>
    ensures { IfOk result (λ c. app_of c ≡ app_for name.now (map known_of known.now)) }
{
    let mut command = Command::new(alloc, name)
        .no_binary_name(true)
        .disable_help_flag(true)
        .disable_version_flag(true);
    for option in known {
        command = command.arg(arg(alloc, option))?;
    }
    Ok(command)
}

/// What clap finds of the options that the words give to a command.
pub(crate) fn read_options<'a>(
    alloc: Global,
    name: &'a str,
    known: &[KnownOption<'a>],
    words: &'a [&'a str],
) -> Result<ArgMatches<'a>, WordsFault>
    ensures { ReadsOptions (options_of (map known_of known.now) (map (λ w. w.now) words.now)) result }
{
    if has_double_dash(words) {
        return Err(WordsFault::Usage);
    }
    let Ok(command) = command(alloc, name, known) else {
        return Err(WordsFault::NoMemory);
    };
    match command.try_get_matches_from(words) {
        Ok(matches) => Ok(matches),
        Err(error) => {
            if error.kind() == ErrorKind::OutOfMemory {
                return Err(WordsFault::NoMemory);
            }
            Err(WordsFault::Usage)
        }
    }
}

/// The number that an option was given, if it is within the limits, or what stands for it where it wasn't
/// given.
pub(crate) fn option_number(
    matches: &ArgMatches<'_>,
    name: &str,
    default: Option<u32>,
    low: u32,
    high: u32,
) -> Option<u32>
    requires { ForSome default (λ n. (low ≤ n) × (n ≤ high)) }
    ensures value { result ≡ number_or default low high (first_value (found_of matches.now) name.now) }
    ensures limits { IfSome result (λ n. (low ≤ n) × (n ≤ high)) }
{
    match matches.get_str(name) {
        None => default,
        Some(text) => number_in(text, low, high),
    }
}
