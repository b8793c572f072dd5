//! Which command the words are.

ghost use Rattle.std.specs.Prelude.{◌≡◌, ◌<◌, ◌≤◌, ◌^◌, [], codes, drop, true, IfErr, IfOk, IfSome, Option, option_map, ℕ};
ghost use Rattle.clap.specs.Words.{app_of, fault_of, first_value, found_of, is_simple, is_simple_and_free, matches_of, rows_of};
ghost use Rattle.command_words.specs.CommandLines.{plain_app, epoch_app, epoch_of, crew_app, count_of, crew_of};
ghost use Rattle.command_words.specs.CommandLines.{drill_app, spelled, is_drill, drill_of};
ghost use Rattle.command_words.specs.Commands.{AsksFor, AsksForCrew, AsksForDrill, EndsWords, IsCommand, IsWithinCounts};
ghost use Rattle.command_words.specs.declared.command.Command.{Command};

use crate::Words;
use clap::error::ErrorKind;
use clap::{Arg, ArgMatches, Command as Cli};
use graph_model::NUMBER_END;
use request_text::number;
use std::alloc::{AllocError, Global};

/// The most workers of a script, and the most shards of a store.
const COUNT_MOST: u64 = 64;

/// The most sessions of a drill, which is the greatest number of a session.
const SESSIONS_MOST: u64 = 65_535;

/// The most rounds of each session of a drill.
const ROUNDS_MOST: u64 = 2_000;

/// The most rounds of all sessions of a drill together.
const ROUNDS_IN_ALL_MOST: u64 = 100_000;

/// How many workers run a script where the words do not say.
const WORKERS: u32 = 1;

/// How many shards a store has where the words do not say.
const SHARDS: u32 = 16;

/// A command, with its options.
#[derive(Clone, Copy, Debug, PartialEq, Eq)]
pub enum Command {
    /// Makes a log.
    Init,
    /// Runs a script on a log: by so many workers, and on a store of so many shards, 1 to 64 each.
    Run {
        workers: u32,
        shards: u32,
    },
    /// Prints the graph of a log: at this epoch, or at the last one.
    Dump {
        at: Option<u64>,
    },
    /// Judges a log.
    Check,
    /// Runs two scripts that are made of a seed: so many sessions, each so many rounds, by so many workers. 1 to 65,535
    /// sessions, 1 to 2,000 rounds of each and 100,000 at most of all together, 1 to 64 workers.
    Drill {
        seed: u64,
        sessions: u32,
        rounds: u32,
        workers: u32,
    },
}

/// Why words were not read as a command.
#[derive(Clone, Copy, Debug, PartialEq, Eq)]
pub enum WordsRefusal {
    /// They are no command.
    Usage,
    /// Memory ran out.
    NoMemory,
}

impl From<AllocError> for WordsRefusal {
    ghost use Rattle.std.specs.Prelude.{◌≡◌};
    ghost use Rattle.command_words.specs.declared.command.WordsRefusal.TheVariants as refusals;

    ghost from_gives = { λ _ refusal. refusal ≡ refusals.NoMemory };

    fn from(_error: AllocError) -> WordsRefusal {
        WordsRefusal::NoMemory
    }
}

/// The command that the words are.
///
/// `Usage`: they are none. `NoMemory`: memory ran out. Time and memory: a step and a few hundred bytes for each
/// word.
#[tactic(auto, using(crate::proofs::Counts::command_within))]
pub fn read_command(alloc: Global, words: &Words) -> Result<Command, WordsRefusal>
    ensures command { IfOk result (IsCommand words.now) }
    ensures counts { IfOk result IsWithinCounts }
    ensures usage { IfErr result (λ refusal.
        refusal ≡ WordsRefusal.Usage → (command : Command) → ¬ IsCommand words.now command) }
{
    match words.get(0) {
        Some("init") => alone(alloc, words, Command::Init),
        Some("run") => match crew_asked(alloc, words) {
            Ok((workers, shards)) => Ok(Command::Run { workers, shards }),
            Err(refusal) => Err(refusal),
        },
        Some("check") => alone(alloc, words, Command::Check),
        Some("dump") => match epoch_asked(alloc, words) {
            Ok(at) => Ok(Command::Dump { at }),
            Err(refusal) => Err(refusal),
        },
        Some("drill") => match drill_asked(alloc, words) {
            Ok((seed, sessions, rounds, workers)) => Ok(Command::Drill {
                seed,
                sessions,
                rounds,
                workers,
            }),
            Err(refusal) => Err(refusal),
        },
        _ => Err(WordsRefusal::Usage),
    }
}

/// This command, where no option stands behind it.
fn alone(alloc: Global, words: &Words, command: Command) -> Result<Command, WordsRefusal>
    ensures command { IfOk result (λ c. (c ≡ command) × EndsWords (drop 1 words.now)) }
    ensures usage { IfErr result (λ refusal. refusal ≡ WordsRefusal.Usage → ¬ EndsWords (drop 1 words.now)) }
{
    match parse(plain(alloc), words) {
        Ok(_matches) => Ok(command),
        Err(refusal) => Err(refusal),
    }
}

/// Reads the words behind `dump`: the epoch that they ask for, where they do.
fn epoch_asked(alloc: Global, words: &Words) -> Result<Option<u64>, WordsRefusal>
    ensures asked { IfOk result (λ at. AsksFor at (drop 1 words.now)) }
    ensures usage { IfErr result (λ refusal.
        refusal ≡ WordsRefusal.Usage → (at : Option ℕ) → ¬ AsksFor at (drop 1 words.now)) }
{
    let Ok(cli) = with_epoch(alloc) else {
        return Err(WordsRefusal::NoMemory);
    };
    match parse(cli, words) {
        Ok(matches) => epoch_of(&matches),
        Err(refusal) => Err(refusal),
    }
}

/// The epoch that the value of `--at` spells; none where the option was not given.
fn epoch_of(matches: &ArgMatches<'_>) -> Result<Option<u64>, WordsRefusal>
    ensures { result ≡ epoch_of (first_value (found_of matches.now) (codes "at")) }
{
    match matches.get_str("at") {
        None => Ok(None),
        Some(value) => match number(value.as_bytes(), NUMBER_END - 1) {
            Some(epoch) => Ok(Some(epoch)),
            None => Err(WordsRefusal::Usage),
        },
    }
}

/// Reads the words behind `run`: how many workers and how many shards they ask for, 1 and 16 where they do not say.
fn crew_asked(alloc: Global, words: &Words) -> Result<(u32, u32), WordsRefusal>
    ensures asked { IfOk result (λ crew. AsksForCrew crew.0 crew.1 (drop 1 words.now)) }
    ensures usage { IfErr result (λ refusal. refusal ≡ WordsRefusal.Usage →
        (workers shards : ℕ) → ¬ AsksForCrew workers shards (drop 1 words.now)) }
{
    let Ok(cli) = with_crew(alloc) else {
        return Err(WordsRefusal::NoMemory);
    };
    match parse(cli, words) {
        Ok(matches) => crew_of(&matches),
        Err(refusal) => Err(refusal),
    }
}

/// The numbers that the values of `--workers` and `--shards` spell.
fn crew_of(matches: &ArgMatches<'_>) -> Result<(u32, u32), WordsRefusal>
    ensures { result ≡ crew_of (first_value (found_of matches.now) (codes "workers"))
        (first_value (found_of matches.now) (codes "shards")) }
{
    match count_of(matches.get_str("workers"), WORKERS) {
        Ok(workers) => match count_of(matches.get_str("shards"), SHARDS) {
            Ok(shards) => Ok((workers, shards)),
            Err(refusal) => Err(refusal),
        },
        Err(refusal) => Err(refusal),
    }
}

/// The number from 1 to 64 that a value spells; the default where the option was not given.
fn count_of(value: Option<&str>, default: u32) -> Result<u32, WordsRefusal>
    ensures { result ≡ count_of default (option_map (λ text. text.now) value.entry) }
{
    match value {
        None => Ok(default),
        Some(value) => match number(value.as_bytes(), COUNT_MOST) {
            Some(count) if count > 0 => Ok(count as u32),
            _ => Err(WordsRefusal::Usage),
        },
    }
}

/// Reads the words behind `drill`: the seed, the sessions and the rounds of each, and how many workers, 1 where they do
/// not say.
fn drill_asked(alloc: Global, words: &Words) -> Result<(u64, u32, u32, u32), WordsRefusal>
    ensures asked { IfOk result (λ drill. AsksForDrill drill.0 drill.1 drill.2 drill.3 (drop 1 words.now)) }
    ensures usage { IfErr result (λ refusal. refusal ≡ WordsRefusal.Usage →
        (seed sessions rounds workers : ℕ) → ¬ AsksForDrill seed sessions rounds workers (drop 1 words.now)) }
{
    let Ok(cli) = with_drill(alloc) else {
        return Err(WordsRefusal::NoMemory);
    };
    match parse(cli, words) {
        Ok(matches) => drill_of(&matches),
        Err(refusal) => Err(refusal),
    }
}

/// The numbers that the positional words and the value of `--workers` spell.
fn drill_of(matches: &ArgMatches<'_>) -> Result<(u64, u32, u32, u32), WordsRefusal>
    ensures { result ≡ drill_of (first_value (found_of matches.now) (codes "seed"))
        (first_value (found_of matches.now) (codes "sessions"))
        (first_value (found_of matches.now) (codes "rounds"))
        (first_value (found_of matches.now) (codes "workers")) }
{
    let seed = spelled(matches.get_str("seed"), u64::MAX);
    let sessions = spelled(matches.get_str("sessions"), SESSIONS_MOST);
    let rounds = spelled(matches.get_str("rounds"), ROUNDS_MOST);
    let workers = count_of(matches.get_str("workers"), WORKERS);
    match (seed, sessions, rounds, workers) {
        (Some(seed), Some(sessions), Some(rounds), Ok(workers)) if is_drill(sessions, rounds) => {
            Ok((seed, sessions as u32, rounds as u32, workers))
        }
        _ => Err(WordsRefusal::Usage),
    }
}

/// The number of at most `most` that a positional word spells; none where it spells none, or does not stand there.
fn spelled(word: Option<&str>, most: u64) -> Option<u64>
    ensures value { result ≡ spelled most (option_map (λ text. text.now) word.entry) }
    ensures within { IfSome result (λ n. n ≤ most) }
{
    match word {
        None => None,
        Some(word) => number(word.as_bytes(), most),
    }
}

/// Whether a drill has sessions and rounds, and not too many of both.
fn is_drill(sessions: u64, rounds: u64) -> bool
    requires { (sessions < 2 ^ 32) × (rounds < 2 ^ 32) }
    ensures { result ≡ is_drill sessions rounds }
{
    sessions > 0 && rounds > 0 && sessions * rounds <= ROUNDS_IN_ALL_MOST
}

/// A command line without options, and without words for help.
fn plain<'a>(alloc: Global) -> Cli<'a>
    ensures { app_of result ≡ plain_app }
{
    Cli::new(alloc, "graph").disable_help_flag(true)
}

/// The same with the option `--at`.
fn with_epoch<'a>(alloc: Global) -> Result<Cli<'a>, AllocError>
    ensures { IfOk result (λ cli. app_of cli ≡ epoch_app) }
{
    plain(alloc).arg(Arg::new(alloc, "at").long("at"))
}

/// The same with the options `--workers` and `--shards`.
fn with_crew<'a>(alloc: Global) -> Result<Cli<'a>, AllocError>
    ensures { IfOk result (λ cli. app_of cli ≡ crew_app) }
{
    plain(alloc)
        .arg(Arg::new(alloc, "workers").long("workers"))?
        .arg(Arg::new(alloc, "shards").long("shards"))
}

/// The same with three positional words and the option `--workers`. It requires none of them: where a positional word
/// does not stand, it spells no number, and is refused as such.
fn with_drill<'a>(alloc: Global) -> Result<Cli<'a>, AllocError>
    ensures { IfOk result (λ cli. app_of cli ≡ drill_app) }
{
    plain(alloc)
        .arg(Arg::new(alloc, "seed"))?
        .arg(Arg::new(alloc, "sessions"))?
        .arg(Arg::new(alloc, "rounds"))?
        .arg(Arg::new(alloc, "workers").long("workers"))
}

/// The matches of the words.
fn parse<'a>(cli: Cli<'a>, words: &'a Words) -> Result<ArgMatches<'a>, WordsRefusal>
    requires simple { is_simple (app_of cli) ≡ true }
    requires free { is_simple_and_free (app_of cli) ≡ true }
    ensures taken { IfOk result (λ _. fault_of (app_of cli.entry) words.now ≡ []) }
    ensures matches { IfOk result (λ matches.
        rows_of (found_of matches) ≡ matches_of (app_of cli.entry) words.now) }
    ensures usage { IfErr result (λ refusal.
        refusal ≡ WordsRefusal.Usage → ¬ (fault_of (app_of cli.entry) words.now ≡ [])) }
{
    match cli.try_get_matches_from(words.as_slice()) {
        Ok(matches) => Ok(matches),
        Err(error) if error.kind() == ErrorKind::OutOfMemory => Err(WordsRefusal::NoMemory),
        Err(_) => Err(WordsRefusal::Usage),
    }
}
