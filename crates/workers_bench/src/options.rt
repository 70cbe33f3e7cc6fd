//! What the words ask for.

ghost use Rattle.std.specs.Prelude.{◌≤◌};

use clap::builder::ValueParser;
use clap::{Arg, ArgMatches, Command};
use std::alloc::{AllocError, Global};

static MODES: [&str; 2] = ["race", "run"];

// What is measured.
#[derive(Drop)]
pub(crate) struct Options {
    // Whether one run is made, and not races.
    pub(crate) one_run: bool,
    pub(crate) buckets: u32,
    pub(crate) lines: u32,
    pub(crate) rounds: u32,
    pub(crate) posters: u32,
    pub(crate) takers: u32,
    ghost some_lines: { (1 ≤ lines) × (lines ≤ 60000) },
    ghost some_posters: { (1 ≤ posters) × (posters ≤ 8) },
    ghost few_takers: { takers ≤ 7 },
}

// An option with a number in a range.
fn number_option<'a>(alloc: Global, id: &'a str, default: &'a str, low: u32, high: u32) -> Arg<'a> {
    Arg::new(alloc, id)
        .long(id)
        .value_parser(ValueParser::Signed(low as i64, high as i64))
        .default_value(default)
}

// The command with its options.
pub(crate) fn command<'a>(alloc: Global) -> Result<Command<'a>, AllocError> {
    let mode = Arg::new(alloc, "mode")
        .long("mode")
        .value_parser(ValueParser::Names(MODES.as_slice()))
        .default_value("race");
    let command = Command::new(alloc, "workers_bench").arg(mode)?;
    let command = command.arg(number_option(alloc, "buckets", "256", 1, 256))?;
    let command = command.arg(number_option(alloc, "lines", "60000", 1, 60000))?;
    let command = command.arg(number_option(alloc, "rounds", "1", 1, 1000))?;
    let command = command.arg(number_option(alloc, "posters", "1", 1, 8))?;
    command.arg(number_option(alloc, "takers", "0", 0, 7))
}

// The number of an option, or the nearest in the range.
fn number_of(matches: &ArgMatches<'_>, id: &str, low: u32, high: u32) -> u32
    requires { low ≤ high }
    ensures { (low ≤ result) × (result ≤ high) }
{
    match matches.get_one::<u32>(id) {
        Some(number) if low <= number && number <= high => number,
        _ => low,
    }
}

// What these matches ask for.
pub(crate) fn options_of(matches: &ArgMatches<'_>) -> Options {
    Options {
        one_run: matches.get_str("mode") == Some("run"),
        buckets: number_of(matches, "buckets", 1, 256),
        lines: number_of(matches, "lines", 1, 60000),
        rounds: number_of(matches, "rounds", 1, 1000),
        posters: number_of(matches, "posters", 1, 8),
        takers: number_of(matches, "takers", 0, 7),
    }
}
